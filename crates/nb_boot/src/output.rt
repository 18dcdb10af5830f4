ghost use Rattle.std.specs.Prelude.{◌≡◌, ◌≤◌, ◌++◌, [], false, length, List, ℕ, OnOk, OnErr, IfErr};
ghost use Rattle.nb_boot.specs.Going.{Wrote, Stopped, IsFlaw, KeepsRun, CutsAll, flaw_status, log_with_more};

use crate::Status;
use nb_record::{Failed, Line, Log};

/// Why output couldn't be written.
#[derive(Clone, Copy, Debug, PartialEq, Eq)]
pub enum Flaw {
    /// A write failed.
    WriteFault,
    /// Memory ran out.
    NoMemory,
}

impl Flaw {
    /// The status of a call that met it.
    pub fn status(self) -> Status
        ensures { result ≡ flaw_status self }
    {
        match self {
            Flaw::WriteFault => Status::WriteFault,
            Flaw::NoMemory => Status::NoMemory,
        }
    }
}

/// Writes all the bytes, in as few writes as the line allows.
pub fn write_all<L: Line>(bytes: &[u8], line: &mut L) -> Result<(), Failed>
    ensures ok { OnOk result (Wrote (L.outside line.old) (L.outside line.new) bytes.now) }
    ensures err { OnErr result (Stopped (L.outside line.old) (L.outside line.new) bytes.now) }
{
    let mut at = 0;
    while at < bytes.len() {
        at += line.write(&bytes[at..])?;
    }
    Ok(())
}

/// Writes what the log gathered, and clears it.
pub fn flush<L: Line>(log: &mut Log, line: &mut L) -> Result<(), Flaw>
    ensures ok { OnOk result (Wrote (L.outside line.old) (L.outside line.new) log.old.bytes) }
    ensures whole { OnOk result (log.old.is_short ≡ false) }
    ensures cleared { OnOk result (log.new ≡ record { bytes = []; room = log.old.room; is_short = false }) }
    ensures err { IfErr result (λ flaw. IsFlaw flaw (L.outside line.old) (L.outside line.new) log.old) }
{
    if log.short() {
        return Err(Flaw::NoMemory);
    }
    match write_all(log.bytes(), line) {
        Ok(()) => {
            log.clear();
            Ok(())
        }
        Err(Failed) => Err(Flaw::WriteFault),
    }
}

/// Writes what the log gathered, and then a head and a page that aren't copied into it.
pub fn flush_with<L: Line>(
    log: &mut Log,
    head: &[u8],
    page: &[u8],
    line: &mut L,
) -> Result<(), Flaw>
    ensures ok { OnOk result (Wrote (L.outside line.old) (L.outside line.new) (log.old.bytes ++ (head.now ++ page.now))) }
    ensures whole { OnOk result (log.old.is_short ≡ false) }
    ensures cleared { OnOk result (log.new ≡ record { bytes = []; room = log.old.room; is_short = false }) }
    ensures err { IfErr result (λ flaw. IsFlaw flaw (L.outside line.old) (L.outside line.new) (log_with_more log.old (head.now ++ page.now))) }
{
    match flush(log, line) {
        Ok(()) => {}
        Err(flaw) => return Err(flaw),
    }
    match write_both(head, page, line) {
        Ok(()) => Ok(()),
        Err(Failed) => Err(Flaw::WriteFault),
    }
}

/// Writes all the bytes of a head and of a page.
fn write_both<L: Line>(head: &[u8], page: &[u8], line: &mut L) -> Result<(), Failed>
    ensures ok { OnOk result (Wrote (L.outside line.old) (L.outside line.new) (head.now ++ page.now)) }
    ensures err { OnErr result (Stopped (L.outside line.old) (L.outside line.new) (head.now ++ page.now)) }
{
    write_all(head, line)?;
    write_all(page, line)
}

/// How many bytes of output are gathered at most. One call of the client puts fewer than twice what may stay
/// before it: a piece of a hand-off has 65,536 bytes, and all its other records some 6,000.
pub const ROOM: usize = 196_608;

/// How much of the log's room may be used before it is written out.
const FULL: usize = 65_536;

/// Writes out what the log gathered where the next call's output may not fit after it.
pub fn make_room<L: Line>(log: &mut Log, line: &mut L) -> Result<(), Flaw>
    ensures ok { OnOk result ((held : List ℕ) → KeepsRun held held (L.outside line.old) (L.outside line.new) log.old log.new) }
    ensures room { OnOk result (length log.new.bytes ≤ 65536) }
    ensures err { IfErr result (λ flaw. CutsAll (flaw_status flaw) (L.outside line.old) (L.outside line.new) log.old) }
{
    if log.bytes().len() <= FULL {
        return Ok(());
    }
    match flush(log, line) {
        Ok(()) => Ok(()),
        Err(flaw) => Err(flaw),
    }
}
