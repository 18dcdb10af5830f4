//! A piece of a response.

ghost use Rattle.std.specs.Prelude.{◌≡◌, ◌+◌, ◌<◌, ◌≤◌, ◌^◌, true};
ghost use Rattle.nb_lab.specs.Streams.{piece_len, piece_end, is_last, sent_by};

use crate::page::{MOST_BYTES, Page};

/// Bytes of a response from a place on: as many as a segment may have, as the peer has room for, and as there are.
#[derive(Clone, Copy, Debug, PartialEq, Eq)]
pub struct Piece {
    pub page: Page,
    pub from: u32,
    /// How many bytes the peer has room for.
    pub room: u16,
}

impl Piece {
    /// How many bytes it has.
    pub fn len(self) -> u16
        ensures value { result ≡ piece_len self }
        ensures most { result ≤ 1000 }
        ensures fits { self.from + result < 2 ^ 32 }
    {
        let left = self.page.len().saturating_sub(self.from);
        left.min(MOST_BYTES).min(u32::from(self.room)) as u16
    }

    /// The place after it.
    pub fn end(self) -> u32
        ensures { result ≡ piece_end self }
    {
        self.from + u32::from(self.len())
    }

    /// Whether the response ends with it.
    pub fn is_last(self) -> bool
        ensures value { result ≡ is_last self }
        ensures fits { result ≡ true → piece_end self ≤ 250263 }
    {
        self.end() == self.page.len()
    }

    /// The place after it, and after the FIN that goes with the last one.
    pub fn sent(self) -> u32
        ensures { result ≡ sent_by self }
    {
        if self.is_last() {
            self.end() + 1
        } else {
            self.end()
        }
    }
}
