ghost use Rattle.std.specs.Prelude.{◌≡◌, ℕ, List, [], ◌∷◌, ◌++◌, length, IfOk, IfErr};
ghost use Rattle.nb_defs.specs.Records.{IsIn, IsPartial, in_texts};
ghost use Rattle.nb_record.specs.Outside.{Outside};
ghost use Rattle.nb_record.specs.View.{in_of};
ghost use Rattle.nb_machine.specs.Courses.{nowhere, ready};
ghost use Rattle.nb_traced.specs.Holdings.{no_holdings};
ghost use Rattle.nb_boot.specs.Run.{Shows};
ghost use Rattle.nb_boot.specs.Shown.{IsFirst, NoneMayCome};
ghost use Rattle.nb_boot.specs.Going.{Going, Opens, RefusesRun, TellsFirst};

use crate::Status;
use crate::feeding::{Filled, fill};
use crate::output::flush;
use crate::play::use_record;
use nb_client::Client;
use nb_record::{Feed, Front, InRec, Line, Log, NoMemory, OutRec};
use std::alloc::Global;

/// Whether the record is a START.
pub fn is_first(entry: &InRec<'_>) -> bool
    ensures { TellsFirst result (in_of entry.now) }
{
    matches!(entry, InRec::Start(_))
}

/// Ends a run in which no record was used: DONE alone is written.
fn refuse<L: Line>(log: &mut Log, line: &mut L) -> Status
    ensures { (rest : List ℕ) (first : Outside) → Going [] rest first (L.outside line.old) log.old nowhere no_holdings
        → NoneMayCome ready rest (L.outside line.old) → Shows result first (L.outside line.new) }
{
    log.put(&OutRec::Done(Status::BadRecord.number()));
    match flush(log, line) {
        Ok(()) => Status::BadRecord,
        Err(flaw) => flaw.status(),
    }
}

/// Makes a client for this START, and uses it.
fn enter<L: Line>(
    alloc: Global,
    entry: &InRec<'_>,
    log: &mut Log,
    line: &mut L,
) -> Result<Client, Status>
    requires valid { IsIn (in_of entry.now) }
    requires first { IsFirst (in_of entry.now) }
    ensures ok { IfOk result (λ c. (rest : List ℕ) → Opens (in_texts (in_of entry.now ∷ []) ++ rest) rest (L.outside line.old) (L.outside line.new) log.old log.new c) }
    ensures err { IfErr result (λ s. (rest : List ℕ) → RefusesRun s (in_texts (in_of entry.now ∷ []) ++ rest) (L.outside line.old) (L.outside line.new) log.old) }
{
    let InRec::Start(record) = entry else {
        unreachable!()
    };
    match Client::new(alloc, &record.fields()) {
        Ok(mut client) => match use_record(&mut client, entry, log, line) {
            None => Ok(client),
            Some(status) => Err(status),
        },
        Err(NoMemory) => Err(Status::NoMemory),
    }
}

/// Uses the first record, which stands at the start of what is held.
fn enter_front<L: Line>(
    alloc: Global,
    feed: &mut Feed,
    log: &mut Log,
    line: &mut L,
) -> Result<Client, Status>
    requires whole { IsPartial feed.old.bytes → ⊥ }
    ensures ok { IfOk result (Opens feed.old.bytes feed.new.bytes (L.outside line.old) (L.outside line.new) log.old log.new) }
    ensures err { IfErr result (λ s. RefusesRun s feed.old.bytes (L.outside line.old) (L.outside line.new) log.old) }
{
    match feed.front() {
        Front::Whole(entry, len) => {
            if !is_first(&entry) {
                return Err(refuse(log, line));
            }
            match enter(alloc, &entry, log, line) {
                Ok(client) => {
                    feed.pass(len);
                    Ok(client)
                }
                Err(status) => Err(status),
            }
        }
        Front::Broken(_) => Err(refuse(log, line)),
        Front::Partial => unreachable!(),
    }
}

/// Reads the first record, and uses it.
pub fn begin<L: Line>(
    alloc: Global,
    feed: &mut Feed,
    log: &mut Log,
    line: &mut L,
) -> Result<Client, Status>
    ensures ok { IfOk result (Opens feed.old.bytes feed.new.bytes (L.outside line.old) (L.outside line.new) log.old log.new) }
    ensures err { IfErr result (λ s. RefusesRun s feed.old.bytes (L.outside line.old) (L.outside line.new) log.old) }
{
    match fill(feed, log, line) {
        Filled::More => enter_front(alloc, feed, log, line),
        Filled::Ended => Err(refuse(log, line)),
        Filled::Fault => Err(Status::ReadFault),
        Filled::Cut(flaw) => Err(flaw.status()),
    }
}
