ghost use Rattle.std.specs.Prelude.{◌≡◌, ◌<◌, Bool, true, false, length};
ghost use Rattle.nb_defs.specs.Records.{IsPartial};
ghost use Rattle.nb_record.specs.Outside.{AsksPiece};
ghost use Rattle.nb_boot.specs.Fetch.{Fetches, TellsPartial};
ghost use Rattle.nb_boot.specs.Going.{Fills};
ghost use Rattle.nb_boot.specs.declared.feeding.Filled.TheVariants as filled;

use crate::output::{Flaw, flush};
use nb_record::{Failed, Feed, Front, Line, Log};

/// How a read went.
#[derive(Clone, Copy, Debug, PartialEq, Eq)]
pub enum Fetched {
    /// More bytes are held.
    More,
    /// The input ended.
    Ended,
    /// The read failed.
    Fault,
}

/// How a read went, before which the output was written.
#[derive(Clone, Copy, Debug, PartialEq, Eq)]
pub enum Filled {
    /// More bytes are held.
    More,
    /// The input ended.
    Ended,
    /// The read failed.
    Fault,
    /// The output couldn't be written.
    Cut(Flaw),
}

/// Reads a piece of the input into the feed, which holds a prefix of a record.
pub fn fetch<L: Line>(feed: &mut Feed, line: &mut L) -> Fetched
    requires partial { IsPartial feed.old.bytes }
    ensures fetches { Fetches result feed.old feed.new (L.outside line.old) (L.outside line.new) }
    ensures asks { AsksPiece (L.outside line.old) (L.outside line.new) }
{
    match feed.read(line) {
        Ok(0) => Fetched::Ended,
        Ok(_) => Fetched::More,
        Err(Failed) => Fetched::Fault,
    }
}

/// Writes out what the log gathered, and reads a piece of the input.
pub fn refill<L: Line>(feed: &mut Feed, log: &mut Log, line: &mut L) -> Filled
    requires partial { IsPartial feed.old.bytes }
    ensures fills { Fills result feed.old.bytes feed.new.bytes (L.outside line.old) (L.outside line.new) log.old log.new }
    ensures grows { result ≡ filled.More → length feed.old.bytes < length feed.new.bytes }
    ensures stays { result ≡ filled.Ended → feed.new.bytes ≡ feed.old.bytes }
{
    match flush(log, line) {
        Ok(()) => {}
        Err(flaw) => return Filled::Cut(flaw),
    }
    match fetch(feed, line) {
        Fetched::More => Filled::More,
        Fetched::Ended => Filled::Ended,
        Fetched::Fault => Filled::Fault,
    }
}

/// Whether a longer record than what is held may begin so.
fn is_partial(feed: &Feed) -> bool
    ensures { TellsPartial result feed.now.bytes }
{
    match feed.front() {
        Front::Whole(_, _) => false,
        Front::Partial => true,
        Front::Broken(_) => false,
    }
}

/// Reads until a record is whole, or can't be one any more. Output is written before each read.
pub fn fill<L: Line>(feed: &mut Feed, log: &mut Log, line: &mut L) -> Filled
    ensures fills { Fills result feed.old.bytes feed.new.bytes (L.outside line.old) (L.outside line.new) log.old log.new }
    ensures whole { result ≡ filled.More → IsPartial feed.new.bytes → ⊥ }
{
    'reads: loop {
        if !is_partial(feed) {
            return Filled::More;
        }
        match refill(feed, log, line) {
            Filled::More => {}
            other => return other,
        }
    }
}
