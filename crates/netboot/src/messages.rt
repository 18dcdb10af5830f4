use crate::fault::{Fault, Part};
use crate::trail::Place;
use nb_boot::Status;

/// What `--help` prints.
pub const HELP: &str = "\
netboot: runs an iPXE script over records of what the network and the clock bring in

usage:
  netboot replay IN OUT      reads records from the file IN, and writes records to the file OUT
  netboot live HOST:PORT     reads records from a bridge, and writes records to it (tools/bridge.py)
  netboot lab N              fetches N images, 1 to 64, from servers of its own that lose frames, and prints a summary
  netboot --help             prints this
  netboot --version          prints the version

It ends with 0 where an image or a disk was handed off, 2 for a bad command line, 3 where the script ended in
Ok, 4 where it failed, 5 where the power was switched off or the input ended, 6 for a bad record, 7 for a read
fault, 8 for a write fault, 9 where memory ran out, 10 where the files can't be opened or the bridge isn't
there, and 11 for too many records.";

/// What `--version` prints.
pub const VERSION: &str = "netboot 0.1";

/// The first line to standard error for a status, if there is one.
pub fn complaint(status: Status) -> Option<&'static str> {
    match status {
        Status::BadWords => Some("usage: netboot replay IN OUT | live HOST:PORT | lab N"),
        Status::BadRecord => Some("netboot: bad record"),
        Status::ReadFault => Some("netboot: read fault"),
        Status::WriteFault => Some("netboot: write fault"),
        Status::NoMemory => Some("netboot: no memory"),
        Status::AttachFault => Some("netboot: cannot attach"),
        Status::TooManyRecords => Some("netboot: too many records"),
        Status::HandedOff | Status::Ended | Status::ScriptFailed | Status::Unfinished => None,
    }
}

/// What a part of a line is called: IN, OUT or the peer by its word, or standard output.
fn name(words: &[String], part: Part) -> &str {
    let at = match part {
        Part::Input | Part::Peer => 1,
        Part::Output => 2,
        Part::Printed => return "standard output",
    };
    match words.get(at) {
        Some(word) => word.as_str(),
        None => "",
    }
}

/// Prints the lines of a status to standard error: its own, and then which file or peer, and why, by the last fault and
/// the record that was refused.
pub fn explain<R: Eprint>(
    rt: &R,
    status: Status,
    words: &[String],
    fault: Option<Fault>,
    refused: Option<Place>,
) {
    let Some(first) = complaint(status) else {
        return;
    };
    // Where standard error can't be written to, the status still tells.
    let _ = rt.eprintln(first);
    match status {
        Status::ReadFault | Status::WriteFault | Status::AttachFault => {
            if let Some(Fault { part, reason }) = fault {
                let _ = eprintln!(rt; "{}: {}", name(words, part), reason);
            }
        }
        Status::BadRecord => {
            if let Some(place) = refused {
                let _ = eprintln!(rt; "{}: {}", name(words, Part::Input), place);
            }
        }
        _ => {}
    }
}
