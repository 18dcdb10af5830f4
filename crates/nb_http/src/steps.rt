//! The steps of a response's core, one for each state.

ghost use Rattle.std.specs.Prelude.{◌≡◌, ◌≤◌, ◌<◌, ◌+◌, ◌^◌, ◌++◌, length, take, vec_len, vec_capacity};
ghost use Rattle.nb_http.specs.Giving.{sized_next, to_end_next, chunk_next, TakesSo};
ghost use Rattle.nb_readings.specs.Ends.{verdict_end};
ghost use Rattle.nb_http.specs.declared.state.State.TheVariants.{Head, Sized, Chunked, ToEnd};

use crate::causes::{not_a_response, ok, too_large, too_long};
use crate::head_step::{Next, ended, follows, read};
use crate::http::{Http, Taken};
use crate::state::State;
use nb_httpmsg::{ChunkState, MAX_HEAD, fill};

/// After bytes of a stated length of which so many are left.
fn after_sized(left: u64) -> Next
    ensures { result ≡ sized_next left }
{
    if left > 0 {
        follows(State::Sized(left))
    } else {
        ended(ok())
    }
}

/// After so many bytes of a body to the stream's end, which may have this many more.
fn after_open(room: u64, count: u64) -> Next
    ensures { result ≡ to_end_next room count }
{
    if count > room {
        ended(too_large())
    } else {
        follows(State::ToEnd(room - count))
    }
}

/// After so many bytes of a chunked body, which may have this many more.
fn after_chunks(rec: u32, room: u64, count: u64, state: ChunkState) -> Next
    ensures { result ≡ chunk_next rec room count state }
{
    if count > room {
        return ended(too_large());
    }
    match state {
        ChunkState::More => follows(State::Chunked(room - count)),
        ChunkState::Whole => ended(ok()),
        ChunkState::Broken => ended(not_a_response(rec)),
        ChunkState::TooLong => ended(too_long()),
    }
}

/// The first bytes, at most so many.
fn beginning(bytes: &[u8], most: u64) -> &[u8]
    ensures value { result.now ≡ take most bytes.now }
    ensures len { length result.now ≤ most }
{
    let len = most.min(bytes.len() as u64);
    &bytes[..len as usize]
}

/// Appends bytes of both to a head, as many as it has room for, and returns how many.
fn gather(head: &mut Vec<u8>, first: &[u8], second: &[u8]) -> usize
    requires len { vec_len head.old ≤ 16384 }
    requires room { 16384 ≤ vec_capacity head.old }
    requires count { length first.now + length second.now < 2 ^ 32 }
    ensures items { head.new.items ≡ head.old.items ++ take result (first.now ++ second.now) }
    ensures within { result ≤ length (first.now ++ second.now) }
    ensures some { 0 < length (first.now ++ second.now) → vec_len head.old < 16384 → 0 < result }
    ensures len { vec_len head.new ≤ 16384 }
    ensures capacity { 16384 ≤ vec_capacity head.new }
{
    let taken = fill(head, MAX_HEAD, first);
    if taken < first.len() {
        return taken;
    }
    let more = fill(head, MAX_HEAD, second);
    taken + more
}

impl Http {
    /// Goes on with a head.
    #[inline(never)]
    pub(crate) fn take_head(&mut self, rec: u32, first: &[u8], second: &[u8]) -> Taken
        requires at { self.old.core.state ≡ Head }
        requires count { length first.now + length second.now < 2 ^ 32 }
        requires none { self.old.waiting ≡ 0 }
        ensures { TakesSo rec self.old.core self.new.core (first.now ++ second.now) result }
    {
        let before = self.head.as_slice();
        let old = before.len();
        gather(&mut self.head, first, second);
        let bytes = self.head.as_slice();
        let step = read(rec, bytes);
        self.head.truncate(step.kept);
        self.state = step.state;
        Taken {
            len: step.len - old,
            given: 0,
            waiting: 0,
            over: step.over,
        }
    }

    /// Hands on bytes of a body of a stated length.
    #[inline(always)]
    pub(crate) fn take_sized(&mut self, rec: u32, left: u64, first: &[u8], second: &[u8]) -> Taken
        requires at { self.old.core.state ≡ Sized left }
        requires count { length first.now + length second.now < 2 ^ 32 }
        requires none { self.old.waiting ≡ 0 }
        ensures { TakesSo rec self.old.core self.new.core (first.now ++ second.now) result }
    {
        let _rec = rec;
        let count = (first.len() + second.len()) as u64;
        let taken = left.min(count);
        let next = after_sized(left - taken);
        self.state = next.state;
        Taken {
            len: taken as usize,
            given: taken as usize,
            waiting: 0,
            over: next.over,
        }
    }

    /// Hands on bytes of a body to the stream's end; the first too many ends it.
    #[inline(never)]
    pub(crate) fn take_open(&mut self, rec: u32, room: u64, first: &[u8], second: &[u8]) -> Taken
        requires at { self.old.core.state ≡ ToEnd room }
        requires count { length first.now + length second.now < 2 ^ 32 }
        requires none { self.old.waiting ≡ 0 }
        ensures { TakesSo rec self.old.core self.new.core (first.now ++ second.now) result }
    {
        let _rec = rec;
        let count = (first.len() + second.len()) as u64;
        let next = after_open(room, count);
        self.state = next.state;
        let past = room.saturating_add(1);
        let len = count.min(past);
        let given = count.min(room);
        Taken {
            len: len as usize,
            given: given as usize,
            waiting: 0,
            over: next.over,
        }
    }

    /// Gathers bytes of a chunked body; the first too many ends it.
    #[inline(never)]
    pub(crate) fn take_chunks(&mut self, rec: u32, room: u64, first: &[u8], second: &[u8]) -> Taken
        requires at { self.old.core.state ≡ Chunked room }
        requires count { length first.now + length second.now < 2 ^ 32 }
        requires none { self.old.waiting ≡ 0 }
        ensures { TakesSo rec self.old.core self.new.core (first.now ++ second.now) result }
    {
        let most = room.saturating_add(1);
        let first = beginning(first, most);
        let second = beginning(second, most - first.len() as u64);
        let fed = self.chunks.feed(first, second);
        let count = u64::from(fed.bytes);
        let next = after_chunks(rec, room, count, fed.state);
        self.state = next.state;
        let waiting = count.min(room);
        Taken {
            len: fed.took as usize,
            given: 0,
            waiting: waiting as usize,
            over: next.over,
        }
    }
}
