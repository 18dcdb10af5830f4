ghost use Rattle.std.specs.Prelude.{◌≡◌, ◌<◌, ◌-◌, ◌^◌, ℕ, List, [], ◌∷◌, false, IfOk, IfErr};
ghost use Rattle.nb_defs.specs.Records.{In, IsIn};
ghost use Rattle.nb_record.specs.Outside.{Outside};
ghost use Rattle.nb_record.specs.View.{in_of};
ghost use Rattle.nb_runner.specs.StatusNumber.{status_number};
ghost use Rattle.nb_machine.specs.Courses.{Progress};
ghost use Rattle.nb_traced.specs.Holdings.{Holdings};
ghost use Rattle.nb_client.specs.Snapshots.{FitsOutput, StandsForProgress};
ghost use Rattle.nb_client.specs.Progressing.{CanUse, IsAtWork};
ghost use Rattle.nb_boot.specs.Run.{Shows};
ghost use Rattle.nb_boot.specs.Shown.{EndsWhere};
ghost use Rattle.nb_boot.specs.Going.{StepsTo, IsStatusOf, UsesRecord, Going, IsClosing, Stops, WritesPiece, flaw_status};

use crate::Status;
use crate::output::{Flaw, flush, flush_with, make_room};
use nb_client::{Client, Turn};
use nb_record::{InRec, Line, Log, NoMemory};

/// How the step of a record ended.
#[derive(Clone, Copy, Debug, PartialEq, Eq)]
pub enum StepEnd {
    /// The next record is waited for: by a command, or by a script that had all its commands.
    Waits,
    /// The run is over.
    Over(Status),
    /// The output couldn't be written, or memory ran out.
    Cut(Flaw),
}

/// The end of a step with which the run ended, or out of memory.
fn end_of(status: Status) -> StepEnd
    ensures { IsStatusOf status result }
{
    match status {
        Status::NoMemory => StepEnd::Cut(Flaw::NoMemory),
        other => StepEnd::Over(other),
    }
}

/// Writes the next piece of a hand-off, after what the log gathered, from where its bytes are kept. False where no piece
/// comes next.
fn write_piece<L: Line>(client: &mut Client, log: &mut Log, line: &mut L) -> Result<bool, Flaw>
    requires { IsAtWork client.old.stage }
    ensures ok { IfOk result (λ is. WritesPiece is (L.outside line.old) (L.outside line.new) log.old log.new client.old client.new) }
    ensures none { IfOk result (λ is. is ≡ false → line.new ≡ line.old) }
    ensures err { IfErr result (λ flaw. Stops (flaw_status flaw) [] (L.outside line.old) (L.outside line.new) log.old client.old) }
{
    let Some(piece) = client.next_piece() else {
        return Ok(false);
    };
    let written = flush_with(log, &piece.head(), piece.bytes, line);
    client.pass_piece();
    match written {
        Ok(()) => Ok(true),
        Err(flaw) => Err(flaw),
    }
}

/// Goes on until the step is over, and writes output whenever the log is nearly full.
#[inline(never)]
fn go_on<L: Line>(client: &mut Client, log: &mut Log, line: &mut L) -> StepEnd
    requires { IsAtWork client.old.stage }
    ensures { StepsTo result [] (L.outside line.old) (L.outside line.new) log.old log.new client.old client.new }
{
    'moves: loop {
        match write_piece(client, log, line) {
            Ok(true) => continue 'moves,
            Ok(false) => {}
            Err(flaw) => return StepEnd::Cut(flaw),
        }
        match make_room(log, line) {
            Ok(()) => {}
            Err(flaw) => return StepEnd::Cut(flaw),
        }
        match client.more(log) {
            Turn::More => {}
            Turn::Waiting => return StepEnd::Waits,
            Turn::Yielded => return StepEnd::Waits,
            Turn::Over(status) => return end_of(status),
        }
    }
}

/// Uses a record, and goes on until its step is over.
#[inline(always)]
fn take<L: Line>(client: &mut Client, entry: &InRec<'_>, log: &mut Log, line: &mut L) -> StepEnd
    requires valid { IsIn (in_of entry.now) }
    requires fits { CanUse (in_of entry.now) client.old.stage }
    requires few { client.old.used < 2 ^ 32 - 1 }
    ensures { StepsTo result (in_of entry.now ∷ []) (L.outside line.old) (L.outside line.new) log.old log.new client.old client.new }
{
    match make_room(log, line) {
        Ok(()) => {}
        Err(flaw) => return StepEnd::Cut(flaw),
    }
    match client.step(entry, log) {
        Turn::More => go_on(client, log, line),
        Turn::Waiting => StepEnd::Waits,
        Turn::Yielded => StepEnd::Waits,
        Turn::Over(status) => end_of(status),
    }
}

/// Ends a run: puts the end of an open that is left, and DONE, and writes the rest of the output. Where memory runs out
/// neither is put.
#[inline(never)]
pub fn finish<L: Line>(client: &mut Client, status: Status, log: &mut Log, line: &mut L) -> Status
    requires { IsClosing status }
    ensures { (ins : List In) (rest : List ℕ) (first : Outside) (m : Progress) (p : Holdings) → StandsForProgress client.old m → FitsOutput client.old p
        → Going ins rest first (L.outside line.old) log.old m p → EndsWhere m rest (L.outside line.old) (status_number status)
        → Shows result first (L.outside line.new) }
{
    match client.finish(status, log) {
        Ok(()) => {}
        Err(NoMemory) => return Status::NoMemory,
    }
    match flush(log, line) {
        Ok(()) => status,
        Err(flaw) => flaw.status(),
    }
}

/// Uses a record. Where the run is over with its step, it ends it, and says its status.
#[inline(always)]
pub fn use_record<L: Line>(
    client: &mut Client,
    entry: &InRec<'_>,
    log: &mut Log,
    line: &mut L,
) -> Option<Status>
    requires valid { IsIn (in_of entry.now) }
    requires fits { CanUse (in_of entry.now) client.old.stage }
    requires few { client.old.used < 2 ^ 32 - 1 }
    ensures { UsesRecord result (in_of entry.now) (L.outside line.old) (L.outside line.new) log.old log.new client.old client.new }
{
    match take(client, entry, log, line) {
        StepEnd::Waits => None,
        StepEnd::Over(status) => Some(finish(client, status, log, line)),
        StepEnd::Cut(flaw) => Some(flaw.status()),
    }
}
