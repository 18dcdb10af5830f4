//! The first record, as it is spelled.

ghost use Rattle.std.specs.Prelude.{◌≡◌, IfOk, OnOk};
ghost use Rattle.nb_defs.specs.Records.{IsStart, start, in_text};
ghost use Rattle.nb_record.specs.View.{start_of};
ghost use Rattle.nb_lab.specs.Scripts.{lab_start};

use nb_lab::Lab;
use nb_record::{Feed, NoMemory, Start};
use std::alloc::Global;

/// The type of START, and its version.
const KIND: u8 = 1;

const VERSION: u8 = 1;

/// How many bytes stand after the length and before the script: the type and the fields.
const HEAD: usize = 76;

/// The spelling of START.
fn spell(alloc: Global, entry: &Start<'_>) -> Result<Vec<u8>, NoMemory>
    requires { IsStart (start_of entry.now) }
    ensures { IfOk result (λ bytes. bytes.items ≡ in_text (start (start_of entry.now))) }
{
    let mut bytes = Vec::new(alloc);
    let len = (HEAD + entry.script.len()) as u32;
    bytes.extend_from_slice(&len.to_be_bytes())?;
    bytes.extend_from_slice(&[KIND, VERSION])?;
    bytes.extend_from_slice(&entry.mac.0)?;
    bytes.extend_from_slice(&entry.uuid)?;
    bytes.extend_from_slice(&entry.key)?;
    bytes.extend_from_slice(&entry.arch.to_be_bytes())?;
    bytes.extend_from_slice(&entry.w.to_be_bytes())?;
    bytes.extend_from_slice(&entry.ip.0.to_be_bytes())?;
    bytes.extend_from_slice(&entry.mask.0.to_be_bytes())?;
    bytes.extend_from_slice(&entry.gateway.0.to_be_bytes())?;
    bytes.extend_from_slice(&entry.dns.0.to_be_bytes())?;
    bytes.extend_from_slice(entry.script)?;
    Ok(bytes)
}

/// A feed that holds the lab's START.
pub fn feed_start(alloc: Global, lab: &Lab) -> Result<Feed, NoMemory>
    ensures held { IfOk result (λ feed. feed.bytes ≡ in_text (start (lab_start lab.now.server.images))) }
    ensures valid { OnOk result (IsStart (lab_start lab.now.server.images)) }
{
    let bytes = spell(alloc, &lab.start())?;
    let mut feed = Feed::new(alloc)?;
    feed.push(bytes.as_slice());
    Ok(feed)
}
