//! The bytes that ask for a drive.

ghost use Rattle.std.specs.Prelude.{ℕ, get_or, ◌≡◌, ◌≤◌, ◌<◌, ◌++◌, ◌^◌, length, IfOk, OnOk, Some};
ghost use Rattle.nb_conns.specs.ConnAsks.{conn_ask_bytes, conn_ask_in};
ghost use Rattle.nb_drivenodes.specs.DriveAsks.{ask_parts_of, drive_ask_in};
ghost use Rattle.nb_open.specs.DriveBytes.{HasShortDriveNames, drive_ask_bytes, text_bytes, word_bytes};

use nb_conns::ConnAsk;
use nb_drivenodes::DriveAsk;
use nb_terms::NoMemory;
use std::alloc::Global;

/// The bytes that ask for a drive: its connection, the unit, the random words and the names.
pub(crate) fn drive_bytes(alloc: Global, ask: &DriveAsk<'_>) -> Result<Vec<u8>, NoMemory>
    requires { HasShortDriveNames ask.now.names }
    ensures readable { IfOk result (λ v. drive_ask_in v.items ≡ Some (ask_parts_of ask.now)) }
    ensures short { IfOk result (λ v. length v.items < 2 ^ 32) }
{
    let mut bytes = Vec::from_slice(alloc, &conn_bytes(ask.conn))?;
    bytes.extend_from_slice(&ask.lun)?;
    push_words(&mut bytes, &ask.words)?;
    let names = &ask.names;
    push_text(&mut bytes, names.initiator)?;
    push_text(&mut bytes, names.target)?;
    push_text(&mut bytes, names.user)?;
    push_text(&mut bytes, names.secret)?;
    push_text(&mut bytes, names.reverse_user)?;
    push_text(&mut bytes, names.reverse_secret)?;
    Ok(bytes)
}

/// The bytes that ask for a connection.
fn conn_bytes(conn: ConnAsk) -> [u8; 16]
    ensures value { result ≡ conn_ask_bytes conn }
    ensures readable { conn_ask_in (conn_ask_bytes conn) ≡ Some conn }
{
    conn.bytes()
}

/// Adds eight numbers of 32 bits.
fn push_words(bytes: &mut Vec<u8>, words: &[u32; 8]) -> Result<(), NoMemory>
    ensures fit { (i : ℕ) → get_or words.now i 0 < 2 ^ 32 }
    ensures pushed { OnOk result (bytes.new.items ≡ bytes.old.items ++ word_bytes words.now) }
{
    let [a, b, c, d, e, f, g, h] = words;
    bytes.extend_from_slice(&a.to_be_bytes())?;
    bytes.extend_from_slice(&b.to_be_bytes())?;
    bytes.extend_from_slice(&c.to_be_bytes())?;
    bytes.extend_from_slice(&d.to_be_bytes())?;
    bytes.extend_from_slice(&e.to_be_bytes())?;
    bytes.extend_from_slice(&f.to_be_bytes())?;
    bytes.extend_from_slice(&g.to_be_bytes())?;
    bytes.extend_from_slice(&h.to_be_bytes())?;
    Ok(())
}

/// Adds a text after its length.
fn push_text(bytes: &mut Vec<u8>, text: &[u8]) -> Result<(), NoMemory>
    requires { length text.now ≤ 65535 }
    ensures { OnOk result (bytes.new.items ≡ bytes.old.items ++ text_bytes text.now) }
{
    bytes.extend_from_slice(&(text.len() as u16).to_be_bytes())?;
    bytes.extend_from_slice(text)?;
    Ok(())
}
