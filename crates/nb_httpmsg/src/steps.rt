//! The steps of a reader of a chunked body, one for each place.

ghost use Rattle.std.specs.Prelude.{◌≡◌, ◌≤◌, ◌<◌, ◌-◌, ◌++◌, length, take, min, true, vec_len, vec_capacity};
ghost use Rattle.nb_httpmsg.specs.Feeding.{Feeds, is_open, place_after_bytes, place_after_end};
ghost use Rattle.nb_httpmsg.specs.Leasts.{FeedsLeast};
ghost use Rattle.nb_httpmsg.specs.declared.place.Place.TheVariants.{Size, Bytes, End, Trailer};

use crate::block::line_len;
use crate::chunks::{BLOCK, Chunks, MAX_LINES};
use crate::line::{read_size, read_trailer};
use crate::place::Place;

/// Appends as many bytes to a buffer of this size as it has room for, and returns how many. It takes
/// no memory.
pub fn fill(buffer: &mut Vec<u8>, most: usize, bytes: &[u8]) -> usize
    requires len { vec_len buffer.old ≤ most }
    requires room { most ≤ vec_capacity buffer.old }
    ensures items { buffer.new.items ≡ buffer.old.items ++ take result bytes.now }
    ensures count { result ≡ min (length bytes.now) (most - vec_len buffer.old) }
    ensures len { vec_len buffer.new ≤ most }
    ensures capacity { most ≤ vec_capacity buffer.new }
{
    let taken = bytes.len().min(most - buffer.len());
    match buffer.extend_from_slice(&bytes[..taken]) {
        Ok(()) => taken,
        Err(_) => unreachable!(),
    }
}

/// The bytes up to and with the first LF, or all of them.
fn first_line(bytes: &[u8]) -> &[u8]
    ensures value { result.now ≡ take (length result.now) bytes.now }
    ensures some { 0 < length bytes.now → 0 < length result.now }
{
    match line_len(bytes) {
        Some(len) => &bytes[..len],
        None => bytes,
    }
}

/// The place where so many bytes of a chunk are left.
fn after_bytes(left: u64) -> Place
    ensures { result ≡ place_after_bytes left }
{
    if left > 0 {
        Place::Bytes(left)
    } else {
        Place::End(false)
    }
}

/// The place after a byte of a chunk's line end, which is exactly CR LF.
fn after_end(cr: bool, byte: u8) -> Place
    ensures { result ≡ place_after_end cr byte }
{
    if cr {
        if byte == b'\n' {
            Place::Size
        } else {
            Place::Broken
        }
    } else {
        if byte == b'\r' {
            Place::End(true)
        } else {
            Place::Broken
        }
    }
}

impl Chunks {
    /// Takes at least one of the bytes, for the place where the reader is.
    pub(crate) fn step(&mut self, bytes: &[u8]) -> usize
        requires some { 0 < length bytes.now }
        requires open { is_open self.old.place ≡ true }
        requires room { length self.old.block < 4096 }
        ensures stands { Feeds self.old self.new (take result bytes.now) }
        ensures within { result ≤ length bytes.now }
        ensures some { 0 < result }
        ensures least { FeedsLeast self.old self.new (take result bytes.now) }
    {
        match self.place {
            Place::Size => self.size_line(bytes),
            Place::Bytes(left) => self.chunk_bytes(left, bytes),
            Place::End(cr) => self.chunk_end(cr, bytes),
            Place::Trailer(used) => self.trailer(used, bytes),
            _ => unreachable!(),
        }
    }

    /// Goes on with the size line, which the first byte that it can't have breaks.
    fn size_line(&mut self, bytes: &[u8]) -> usize
        requires at { self.old.place ≡ Size }
        requires some { 0 < length bytes.now }
        requires room { length self.old.block < 4096 }
        ensures stands { Feeds self.old self.new (take result bytes.now) }
        ensures within { result ≤ length bytes.now }
        ensures some { 0 < result }
        ensures least { FeedsLeast self.old self.new (take result bytes.now) }
    {
        let before = self.line.as_slice();
        let old = before.len();
        fill(&mut self.line, MAX_LINES, first_line(bytes));
        let line = self.line.as_slice();
        let read = read_size(line);
        self.line.truncate(read.len);
        self.place = read.place;
        read.len - old
    }

    /// Gathers bytes of a chunk, of which so many are left.
    fn chunk_bytes(&mut self, left: u64, bytes: &[u8]) -> usize
        requires at { self.old.place ≡ Bytes left }
        requires some { 0 < length bytes.now }
        requires room { length self.old.block < 4096 }
        ensures stands { Feeds self.old self.new (take result bytes.now) }
        ensures within { result ≤ length bytes.now }
        ensures some { 0 < result }
        ensures least { FeedsLeast self.old self.new (take result bytes.now) }
    {
        let most = left.min(BLOCK as u64) as usize;
        let most = most.min(bytes.len());
        let taken = fill(&mut self.block, BLOCK, &bytes[..most]);
        self.place = after_bytes(left - taken as u64);
        taken
    }

    /// Takes a byte of the line end after a chunk.
    fn chunk_end(&mut self, cr: bool, bytes: &[u8]) -> usize
        requires at { self.old.place ≡ End cr }
        requires some { 0 < length bytes.now }
        requires room { length self.old.block < 4096 }
        ensures stands { Feeds self.old self.new (take result bytes.now) }
        ensures within { result ≤ length bytes.now }
        ensures some { 0 < result }
        ensures least { FeedsLeast self.old self.new (take result bytes.now) }
    {
        self.place = after_end(cr, bytes[0]);
        self.line.clear();
        1
    }

    /// Goes on with the trailer, up to its empty line.
    fn trailer(&mut self, used: usize, bytes: &[u8]) -> usize
        requires at { self.old.place ≡ Trailer used }
        requires some { 0 < length bytes.now }
        requires room { length self.old.block < 4096 }
        ensures stands { Feeds self.old self.new (take result bytes.now) }
        ensures within { result ≤ length bytes.now }
        ensures some { 0 < result }
        ensures least { FeedsLeast self.old self.new (take result bytes.now) }
    {
        let before = self.line.as_slice();
        let old = before.len();
        fill(&mut self.line, MAX_LINES, bytes);
        let line = self.line.as_slice();
        let read = read_trailer(used, line);
        self.line.truncate(read.len);
        self.place = read.place;
        read.len - old
    }
}
