ghost use Rattle.std.specs.Prelude.{◌≡◌, ◌↔◌, [], false, map, length, IfOk};
ghost use Rattle.std.specs.String.{string_bytes};
ghost use Rattle.nb_boot.specs.Run.{Shows};
ghost use Rattle.nb_boot.specs.Shown.{ShowsCourse};
ghost use Rattle.nb_boot.specs.Words.{AreWords};
ghost use Rattle.nb_boot.specs.Complete.{Completes, IsBadWords};
ghost use Rattle.nb_boot.specs.Determined.{IsDetermined};

use crate::Status;
use crate::begin::begin;
use crate::output::ROOM;
use crate::turn::{last, turn};
use crate::words::target;
use nb_record::{Feed, Line, Log, NoMemory, Target};
use std::alloc::Global;

/// What a run needs beside its client: the feed and the log.
#[derive(Drop)]
struct Session {
    feed: Feed,
    log: Log,
}

/// A session in which nothing was read or written.
fn open(alloc: Global) -> Result<Session, NoMemory>
    ensures feed { IfOk result (λ s. s.feed ≡ record { bytes = []; passed = 0 }) }
    ensures log { IfOk result (λ s. s.log ≡ record { bytes = []; room = 196608; is_short = false }) }
{
    Ok(Session {
        feed: Feed::new(alloc)?,
        log: Log::new(alloc, ROOM)?,
    })
}

/// Uses record after record, until the run is over.
fn serve<L: Line>(alloc: Global, feed: &mut Feed, log: &mut Log, line: &mut L) -> Status
    requires empty { feed.old.bytes ≡ [] }
    requires no_output { log.old.bytes ≡ [] }
    ensures { Shows result (L.outside line.old) (L.outside line.new) }
{
    let mut client = match begin(alloc, feed, log, line) {
        Ok(client) => client,
        Err(status) => return status,
    };
    let mut used: u32 = 1;
    'records: while used < u32::MAX {
        match turn(&mut client, feed, log, line) {
            None => used += 1,
            Some(status) => return status,
        }
    }
    last(&mut client, feed, log, line)
}

/// Runs what is attached.
fn run_attached<L: Line>(alloc: Global, line: &mut L) -> Status
    ensures { Shows result (L.outside line.old) (L.outside line.new) }
{
    match open(alloc) {
        Ok(mut s) => serve(alloc, &mut s.feed, &mut s.log, line),
        Err(NoMemory) => Status::NoMemory,
    }
}

/// Attaches, and runs what is attached.
fn attach<L: Line>(alloc: Global, target: &Target<'_>, line: &mut L) -> Status
    ensures { Shows result (L.outside line.old) (L.outside line.new) }
{
    match line.attach(target) {
        Ok(()) => run_attached(alloc, line),
        Err(_) => Status::AttachFault,
    }
}

/// Runs netboot on words (without the program's name) over a line: `replay IN OUT` and `live PEER` read
/// records, run the script of START, write records, and say how the run ended.
pub fn netboot<L: Line>(alloc: Global, words: &[String], line: &mut L) -> Status
    // The words are invalid exactly where the answer is BadWords, and then nothing was attached.
    ensures bad_words { IsBadWords result ↔ (AreWords (map string_bytes words.now) → ⊥) }
    ensures untouched { IsBadWords result → line.new ≡ line.old }
    // The records used are those read; those written, without GRAPH, are the machine's course on them; and the status is
    // true of them. Each end, result, frame, try, advance, open and part has its reason in the records so far, as the two
    // lists say alone. At each read no whole record is at hand, and all that was put was taken. The GRAPH records are a legal
    // run of the object graph, in which nothing lives at DONE. Each open's objects are made before its OPEN, and freed before
    // its ENDED, whose cause is that of the first close of a port of theirs. While it lives, each message that it receives,
    // and each time, is an entry first in its step, and no other frame is one.
    ensures course { AreWords (map string_bytes words.now) → ShowsCourse result (L.outside line.old) (L.outside line.new) }
    // With no fault and memory enough a START and other records end the script, hand off, or wait for one more.
    ensures complete { AreWords (map string_bytes words.now) → Completes result (L.outside line.old) (L.outside line.new) }
    // With no fault and memory enough the input alone says the status, where a course on it is over or waits at its end,
    // however many opens live, and what was written, without GRAPH.
    ensures determined { AreWords (map string_bytes words.now) → IsDetermined result (L.outside line.old) (L.outside line.new) }
{
    match target(words) {
        Some(target) => attach(alloc, &target, line),
        None => Status::BadWords,
    }
}
