//! What a size line, or a trailer after one, is so far (RFC 9112, section 7.1).

ghost use Rattle.std.specs.Prelude.{◌≡◌, ◌≤◌, length, true, false};
ghost use Rattle.httparse.specs.Grammar.{NeverHasChunkLine};
ghost use Rattle.nb_httpmsg.specs.Feeding.{place_after_size, kept_within, IsSizeRead, IsTrailerRead};
ghost use Rattle.nb_httpmsg.specs.Leasts.{IsBrokenAt};

use crate::block::{BlockEnd, find_block};
use crate::chunks::MAX_LINES;
use crate::place::Place;
use httparse::{Status, parse_chunk_size};

/// How many of the bytes belong to the line or the trailer, and the place after them.
#[derive(Clone, Copy)]
pub(crate) struct LineRead {
    pub(crate) len: usize,
    pub(crate) place: Place,
}

/// The place after a size line of so many bytes.
fn after_size(len: usize, size: u64) -> Place
    ensures { result ≡ place_after_size len size }
{
    if size > 0 {
        return Place::Bytes(size);
    }
    within(len, Place::Trailer(len))
}

/// A place, unless so many bytes are too many for it.
fn within(len: usize, place: Place) -> Place
    ensures { result ≡ kept_within len place }
{
    if len < MAX_LINES {
        place
    } else {
        Place::TooLong
    }
}

/// What bytes are as a size line.
pub(crate) fn read_size(line: &[u8]) -> LineRead
    requires { length line.now ≤ 16384 }
    ensures { IsSizeRead line.now result }
{
    match parse_chunk_size(line) {
        Ok(Status::Complete((len, size))) => LineRead {
            len,
            place: after_size(len, size),
        },
        Ok(Status::Partial) => LineRead {
            len: line.len(),
            place: within(line.len(), Place::Size),
        },
        Err(_) => LineRead {
            len: broken_len(line),
            place: Place::Broken,
        },
    }
}

/// How many bytes of what can't become a size line are enough to see that.
fn broken_len(line: &[u8]) -> usize
    requires { NeverHasChunkLine line.now }
    ensures { IsBrokenAt line.now result }
{
    let mut low = 0;
    let mut high = line.len();
    while high - low > 1 {
        let middle = low + (high - low) / 2;
        if may_be_size(&line[..middle]) {
            low = middle;
        } else {
            high = middle;
        }
    }
    high
}

/// Whether bytes begin with a size line, or may become one.
fn may_be_size(line: &[u8]) -> bool
    ensures may { result ≡ true → NeverHasChunkLine line.now → ⊥ }
    ensures never { result ≡ false → NeverHasChunkLine line.now }
{
    match parse_chunk_size(line) {
        Ok(Status::Complete(_)) => true,
        Ok(Status::Partial) => true,
        Err(_) => false,
    }
}

/// What bytes are as a last size line of this length and a trailer.
pub(crate) fn read_trailer(used: usize, line: &[u8]) -> LineRead
    requires within { used ≤ length line.now }
    requires short { length line.now ≤ 16384 }
    ensures { IsTrailerRead used line.now result }
{
    match find_block(MAX_LINES - used + 1, &line[used..]) {
        BlockEnd::Whole(len) => LineRead {
            len: used + len,
            place: Place::Whole,
        },
        BlockEnd::Unfinished => LineRead {
            len: line.len(),
            place: within(line.len(), Place::Trailer(used)),
        },
        BlockEnd::Crowded => LineRead {
            len: line.len(),
            place: Place::Broken,
        },
    }
}
