//! The chunked transfer coding (RFC 9112, section 7.1), read in whatever pieces it comes.

use crate::place::Place;
use nb_terms::NoMemory;
use std::alloc::Global;
use std::marker::Model;

/// The most bytes of a size line and a trailer together.
pub(crate) const MAX_LINES: usize = 16_384;
/// The most bytes of a body that one call gathers.
pub(crate) const BLOCK: usize = 4_096;

/// How a chunked body stands.
#[derive(Clone, Copy, Debug, PartialEq, Eq)]
pub enum ChunkState {
    /// More bytes are to come.
    More,
    /// Its last chunk and trailer have come.
    Whole,
    /// The bytes are no chunked body.
    Broken,
    /// A size line and a trailer are longer than 16,384 bytes.
    TooLong,
}

/// What a call took: so many bytes of the stream, and with them so many of the body.
#[derive(Clone, Copy, Debug, PartialEq, Eq)]
pub struct Fed {
    pub took: u32,
    pub bytes: u32,
    pub state: ChunkState,
}

/// A reader of one chunked body. Extensions and trailer fields are passed over.
#[derive(Drop)]
pub struct Chunks {
    pub(crate) line: Vec<u8>,
    pub(crate) block: Vec<u8>,
    pub(crate) place: Place,
}

impl Model for Chunks {
    ghost use Rattle.std.specs.Prelude.{ℕ, List, ◌≤◌, vec_len, vec_capacity};
    ghost use Rattle.nb_httpmsg.specs.declared.place.Place.{Place};
    ghost use Rattle.nb_httpmsg.specs.Reader.{Reader, FitsPlace};

    ghost Value = { Reader };

    ghost view = { λ c. record { line = c.line.items; block = c.block.items; place = c.place } };

    ghost invariant = { λ c. (vec_len c.line ≤ 16384) × (16384 ≤ vec_capacity c.line)
        × (vec_len c.block ≤ 4096) × (4096 ≤ vec_capacity c.block) × FitsPlace c.place c.line.items };
}

impl Chunks {
    ghost use Rattle.std.specs.Prelude.{◌≡◌, ◌≤◌, ◌<◌, ◌+◌, ◌^◌, ◌++◌, length, take, IfOk, true, false};
    ghost use Rattle.nb_httpmsg.specs.Feeding.{IsAtStart, Gathers, TakesAtLeastOne, TakesOneWithRoom, TakesNone, TakesAll, Feeds};
    ghost use Rattle.nb_httpmsg.specs.Feeding.{is_open, chunk_state};
    ghost use Rattle.nb_httpmsg.specs.Leasts.{TakesLeast, FeedsLeast};

    /// A reader at a body's first byte. It takes all the memory that it needs.
    pub fn new(alloc: Global) -> Result<Chunks, NoMemory>
        ensures { IfOk result IsAtStart }
    {
        Ok(Chunks {
            line: Vec::with_capacity(alloc, MAX_LINES)?,
            block: Vec::with_capacity(alloc, BLOCK)?,
            place: Place::Size,
        })
    }

    /// Takes bytes until the body is decided or the block is full, and gathers those of the body.
    pub fn feed(&mut self, first: &[u8], second: &[u8]) -> Fed
        requires { length first.now + length second.now < 2 ^ 32 }
        // What it took and gathered, added to all that was before, is what it stands for.
        ensures stands { Gathers self.old self.new (take result.took (first.now ++ second.now)) }
        ensures within { result.took ≤ length (first.now ++ second.now) }
        ensures some { TakesAtLeastOne self.old (first.now ++ second.now) result.took }
        ensures ended { TakesNone self.old self.new result.took }
        ensures bytes { result.bytes ≡ length self.new.block }
        ensures most { length self.new.block ≤ 4096 }
        ensures state { result.state ≡ chunk_state self.new.place }
        // Bytes are left over only where the body is decided or the block is full.
        ensures all { TakesAll self.new (first.now ++ second.now) result.took }
        // None is taken past the one that decides the body or fills the block.
        ensures least { TakesLeast self.old (take result.took (first.now ++ second.now)) }
    {
        self.block.clear();
        let took = self.run_both(first, second);
        let block = self.block.as_slice();
        Fed {
            took: took as u32,
            bytes: block.len() as u32,
            state: self.state(),
        }
    }

    /// The bytes of the body that the last call gathered.
    pub fn block(&self) -> &[u8]
        ensures { result.now ≡ self.now.block }
    {
        self.block.as_slice()
    }

    fn state(&self) -> ChunkState
        ensures { result ≡ chunk_state self.now.place }
    {
        match self.place {
            Place::Whole => ChunkState::Whole,
            Place::Broken => ChunkState::Broken,
            Place::TooLong => ChunkState::TooLong,
            _ => ChunkState::More,
        }
    }

    /// Whether another byte can be taken.
    fn can_take(&self) -> bool
        ensures open { result ≡ true → is_open self.now.place ≡ true }
        ensures room { result ≡ true → length self.now.block < 4096 }
        ensures not { result ≡ false → is_open self.now.place ≡ true → length self.now.block ≡ 4096 }
    {
        if self.block.len() == BLOCK {
            return false;
        }
        match self.place {
            Place::Whole | Place::Broken | Place::TooLong => false,
            _ => true,
        }
    }

    /// Takes bytes of both.
    fn run_both(&mut self, first: &[u8], second: &[u8]) -> usize
        requires { length first.now + length second.now < 2 ^ 32 }
        ensures stands { Feeds self.old self.new (take result (first.now ++ second.now)) }
        ensures within { result ≤ length (first.now ++ second.now) }
        ensures some { TakesOneWithRoom self.old (first.now ++ second.now) result }
        ensures ended { TakesNone self.old self.new result }
        ensures all { TakesAll self.new (first.now ++ second.now) result }
        ensures least { FeedsLeast self.old self.new (take result (first.now ++ second.now)) }
    {
        let took = self.run(first);
        if took < first.len() {
            return took;
        }
        took + self.run(second)
    }

    /// Takes bytes until the body is decided or the block is full.
    fn run(&mut self, bytes: &[u8]) -> usize
        ensures stands { Feeds self.old self.new (take result bytes.now) }
        ensures within { result ≤ length bytes.now }
        ensures some { TakesOneWithRoom self.old bytes.now result }
        ensures none { result ≡ 0 → self.new ≡ self.old }
        ensures ended { TakesNone self.old self.new result }
        ensures all { TakesAll self.new bytes.now result }
        ensures least { FeedsLeast self.old self.new (take result bytes.now) }
    {
        let mut at = 0;
        while at < bytes.len() {
            if !self.can_take() {
                return at;
            }
            at += self.step(&bytes[at..]);
        }
        at
    }
}
