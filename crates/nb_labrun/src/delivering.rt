//! What the servers and the summary make of the client's output.

ghost use Rattle.std.specs.Prelude.{◌≡◌, ◌<◌, ◌^◌, [], List, length, false, OnOk};
ghost use Rattle.nb_defs.specs.Records.{Out, out_texts};
ghost use Rattle.nb_lab.specs.Shows.{seen, seen_of};
ghost use Rattle.nb_labrun.specs.Delivering.{AreDelivered, DeliversRecord};

use nb_lab::{Lab, Shown, Summary};
use nb_record::{Log, NoMemory};

/// The most bytes of output that are delivered at once.
const MOST_BYTES: usize = 4_294_967_295;

/// Gives the servers what this record shows, where that is a frame.
fn reach(shown: &Shown<'_>, lab: &mut Lab) -> Result<(), NoMemory>
    ensures { OnOk result ((o : Out) → seen_of shown.now ≡ seen o → DeliversRecord lab.old o lab.new) }
{
    match *shown {
        Shown::Frame(frame) => lab.give(frame),
        _ => Ok(()),
    }
}

/// Gives the servers each frame of these output records, and counts the records.
fn deliver_all(records: &[u8], lab: &mut Lab, summary: &mut Summary) -> Result<(), NoMemory>
    requires { length records.now < 2 ^ 32 }
    ensures { OnOk result ((outs : List Out) → records.now ≡ out_texts outs
        → AreDelivered outs lab.old summary.old lab.new summary.new) }
{
    let mut rest = records;
    'records: while let Some((shown, after)) = Shown::read(rest) {
        reach(&shown, lab)?;
        summary.count(&shown);
        rest = after;
    }
    Ok(())
}

/// Delivers the records that the log gathered, and clears it.
pub fn deliver(log: &mut Log, lab: &mut Lab, summary: &mut Summary) -> Result<(), NoMemory>
    ensures delivered { OnOk result ((outs : List Out) → log.old.bytes ≡ out_texts outs
        → AreDelivered outs lab.old summary.old lab.new summary.new) }
    ensures whole { OnOk result (log.old.is_short ≡ false) }
    ensures cleared { OnOk result (log.new ≡ record { bytes = []; room = log.old.room; is_short = false }) }
{
    if log.short() || log.bytes().len() > MOST_BYTES {
        return Err(NoMemory);
    }
    deliver_all(log.bytes(), lab, summary)?;
    log.clear();
    Ok(())
}
