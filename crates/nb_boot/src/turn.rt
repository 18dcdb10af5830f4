ghost use Rattle.std.specs.Prelude.{◌≡◌, ◌<◌, ◌-◌, ◌^◌, ℕ, length};
ghost use Rattle.nb_defs.specs.Records.{IsPartial};
ghost use Rattle.nb_record.specs.Outside.{Outside};
ghost use Rattle.nb_client.specs.Progressing.{AwaitsRecord};
ghost use Rattle.nb_boot.specs.Run.{Shows};
ghost use Rattle.nb_boot.specs.Going.{Waits, UsesNext, IsEndStatus};

use crate::Status;
use crate::begin::is_first;
use crate::feeding::{Filled, refill};
use crate::play::{finish, use_record};
use nb_client::Client;
use nb_record::{Feed, Front, Line, Log};

/// The status of a run whose input ended while the next record is waited for.
fn status_at_end(feed: &Feed) -> Status
    ensures { IsEndStatus result feed.now.bytes }
{
    if feed.is_empty() {
        Status::Unfinished
    } else {
        Status::BadRecord
    }
}

/// Reads the next record, and uses it. Where the run is over, it ends it, and says its status. What stands
/// at the front is parsed once for each record, and once more for each read.
pub fn turn<L: Line>(
    client: &mut Client,
    feed: &mut Feed,
    log: &mut Log,
    line: &mut L,
) -> Option<Status>
    requires waits { AwaitsRecord client.old.stage }
    requires few { client.old.used < 2 ^ 32 - 1 }
    ensures { UsesNext result feed.old.bytes feed.new.bytes (L.outside line.old) (L.outside line.new) log.old log.new client.old client.new }
{
    'reads: loop {
        match feed.front() {
            Front::Whole(entry, len) => {
                if is_first(&entry) {
                    return Some(finish(client, Status::BadRecord, log, line));
                }
                let over = use_record(client, &entry, log, line);
                feed.pass(len);
                return over;
            }
            Front::Broken(_) => return Some(finish(client, Status::BadRecord, log, line)),
            Front::Partial => {}
        }
        match refill(feed, log, line) {
            Filled::More => {}
            Filled::Ended => return Some(finish(client, status_at_end(feed), log, line)),
            Filled::Fault => return Some(Status::ReadFault),
            Filled::Cut(flaw) => return Some(flaw.status()),
        }
    }
}

/// Ends a run of which every record number was given: no byte may follow.
pub fn last<L: Line>(client: &mut Client, feed: &mut Feed, log: &mut Log, line: &mut L) -> Status
    requires waits { AwaitsRecord client.old.stage }
    ensures { (first : Outside) → Waits 4294967295 feed.old.bytes first (L.outside line.old) log.old client.old → Shows result first (L.outside line.new) }
{
    if !feed.is_empty() {
        return finish(client, Status::TooManyRecords, log, line);
    }
    match refill(feed, log, line) {
        Filled::More => finish(client, Status::TooManyRecords, log, line),
        Filled::Ended => finish(client, Status::Unfinished, log, line),
        Filled::Fault => Status::ReadFault,
        Filled::Cut(flaw) => flaw.status(),
    }
}
