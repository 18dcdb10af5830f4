//! The core of one response.

ghost use Rattle.std.specs.Prelude.{◌≡◌, ◌<◌, ◌^◌};
ghost use Rattle.nb_http.specs.Giving.{range_to};
ghost use Rattle.nb_http.specs.Standing.{end_at, state_at_end};
ghost use Rattle.nb_http.specs.declared.state.State.TheVariants.{Sized};

use crate::causes::{not_a_response, ok};
use crate::request::request;
use crate::state::State;
use nb_httpmsg::{Chunks, HttpTarget, MAX_HEAD};
use nb_terms::{Acts, Cause, NoMemory};
use nb_wire::Text;
use std::alloc::Global;
use std::marker::Model;

/// The reading of one response. It takes all its memory when it starts.
#[derive(Drop)]
pub struct Http {
    pub(crate) head: Vec<u8>,
    pub(crate) chunks: Chunks,
    pub(crate) state: State,
    pub(crate) waiting: usize,
}

impl Model for Http {
    ghost use Rattle.std.specs.Prelude.{◌≤◌, vec_len, vec_capacity, length};
    ghost use Rattle.nb_http.specs.Standing.{Kept};
    ghost use Rattle.nb_http.specs.Giving.{KeepsFit};

    ghost Value = { Kept };

    ghost view = { λ h. record { core = record { head = h.head.items; chunks = h.chunks; state = h.state }; waiting = h.waiting } };

    ghost invariant = { λ h. (vec_len h.head ≤ 16384) × (16384 ≤ vec_capacity h.head)
        × (h.waiting ≤ length h.chunks.block) × KeepsFit h.state h.head.items h.chunks.place };
}

/// What a call took of the bytes, how many of them it hands on, how many of the block wait, and the end.
#[derive(Clone, Copy)]
pub(crate) struct Taken {
    pub(crate) len: usize,
    pub(crate) given: usize,
    pub(crate) waiting: usize,
    pub(crate) over: Option<Cause>,
}

/// The range of so many first bytes.
fn range_to(given: usize) -> Option<(u32, u32)>
    requires { given < 2 ^ 32 }
    ensures { result ≡ range_to given }
{
    if given > 0 {
        Some((0, given as u32))
    } else {
        None
    }
}

/// How the stream's end ends a response.
fn at_end(rec: u32, state: State) -> Option<Cause>
    ensures { result ≡ end_at rec state }
{
    match state {
        State::Over(_) => None,
        State::ToEnd(_) => Some(ok()),
        _ => Some(not_a_response(rec)),
    }
}

/// The state after the stream's end.
fn after_end(state: State) -> State
    ensures { result ≡ state_at_end state }
{
    match state {
        State::Over(range) => State::Over(range),
        _ => State::Over(None),
    }
}

impl Http {
    ghost use Rattle.std.specs.Prelude.{◌≡◌, ◌≤◌, ◌<◌, ◌+◌, ◌^◌, ◌++◌, [], ℕ, List, length, take, IfOk, true, false, slice_range, None};
    ghost use Rattle.std.specs.Option.{option_map, option_copied};
    ghost use Rattle.nb_responses.specs.Requests.{request_text, IsSendable, IsOneRequest};
    ghost use Rattle.nb_http.specs.Standing.{HasReadStream, DecidesLast, EndsStream, is_over, moved_text};
    ghost use Rattle.nb_http.specs.Giving.{gives_none, took_nothing, HandsUp, SendsNothing, TakesFirst, TakesSo};

    /// Starts with an empty stream, and returns the request's text.
    pub fn start(alloc: Global, target: &HttpTarget) -> Result<(Http, Text), NoMemory>
        ensures stands { IfOk result (λ r. HasReadStream r.0.core [] [] × (is_over r.0.core.state ≡ false)) }
        ensures fresh { IfOk result (λ r. r.0.waiting ≡ 0) }
        ensures request { IfOk result
            (λ r. r.1 ≡ request_text target.now.host target.now.port target.now.path) }
        // Of a host and a path that may be sent it is one request, whatever they name.
        ensures single { IsSendable target.now.host target.now.path
            → IfOk result (λ r. IsOneRequest target.now.host target.now.port target.now.path r.1) }
    {
        let text = request(alloc, target)?;
        let head = Vec::with_capacity(alloc, MAX_HEAD)?;
        let chunks = Chunks::new(alloc)?;
        let http = Http {
            head,
            chunks,
            state: State::Head,
            waiting: 0,
        };
        Ok((http, text))
    }

    /// Takes bytes of the stream, and returns how many: at least one where there are any, before the
    /// end. `rec` is the number of the record that brought them.
    #[inline(always)]
    pub fn bytes(&mut self, rec: u32, first: &[u8], second: &[u8], acts: &mut Acts) -> u32
        requires { length first.now + length second.now < 2 ^ 32 }
        // What it took and what goes up, added to all before, is what it stands for.
        ensures stands { TakesFirst rec self.old.core self.new (first.now ++ second.now) result acts.new }
        ensures within { result ≤ length (first.now ++ second.now) }
        ensures some { is_over self.old.core.state ≡ false
            → 0 < length (first.now ++ second.now) → 0 < result }
        // It takes none past the byte that decides the response.
        ensures least { DecidesLast self.old.core (take result (first.now ++ second.now)) }
        ensures hands { HandsUp self.old.core self.new acts.new result }
        ensures sends { SendsNothing acts.new }
        // After its end it takes nothing, asks for nothing and stays as it is.
        ensures ended { is_over self.old.core.state ≡ true → (result ≡ 0) × (acts.new ≡ gives_none) }
        ensures stays { is_over self.old.core.state ≡ true → self.new.core ≡ self.old.core }
    {
        match self.state {
            State::Sized(left) => self.bytes_sized(rec, left, first, second, acts),
            _ => self.bytes_apart(rec, first, second, acts),
        }
    }

    /// The same for a body whose length is stated, of which so many bytes are left.
    #[inline(always)]
    fn bytes_sized(
        &mut self,
        rec: u32,
        left: u64,
        first: &[u8],
        second: &[u8],
        acts: &mut Acts,
    ) -> u32
        requires at { self.old.core.state ≡ Sized left }
        requires count { length first.now + length second.now < 2 ^ 32 }
        // What it took and what goes up, added to all before, is what it stands for.
        ensures stands { TakesFirst rec self.old.core self.new (first.now ++ second.now) result acts.new }
        ensures within { result ≤ length (first.now ++ second.now) }
        ensures some { is_over self.old.core.state ≡ false
            → 0 < length (first.now ++ second.now) → 0 < result }
        // It takes none past the byte that decides the response.
        ensures least { DecidesLast self.old.core (take result (first.now ++ second.now)) }
        ensures hands { HandsUp self.old.core self.new acts.new result }
        ensures sends { SendsNothing acts.new }
        // After its end it takes nothing, asks for nothing and stays as it is.
        ensures ended { is_over self.old.core.state ≡ true → (result ≡ 0) × (acts.new ≡ gives_none) }
        ensures stays { is_over self.old.core.state ≡ true → self.new.core ≡ self.old.core }
    {
        acts.clear();
        self.waiting = 0;
        let taken = self.take_sized(rec, left, first, second);
        self.waiting = taken.waiting;
        let give = range_to(taken.given);
        acts.give = give;
        acts.ready = taken.waiting > 0;
        acts.over = taken.over;
        taken.len as u32
    }

    /// The same in any state. Not inlined, as most bytes are of a body whose length is stated.
    #[inline(never)]
    fn bytes_apart(&mut self, rec: u32, first: &[u8], second: &[u8], acts: &mut Acts) -> u32
        requires { length first.now + length second.now < 2 ^ 32 }
        // What it took and what goes up, added to all before, is what it stands for.
        ensures stands { TakesFirst rec self.old.core self.new (first.now ++ second.now) result acts.new }
        ensures within { result ≤ length (first.now ++ second.now) }
        ensures some { is_over self.old.core.state ≡ false
            → 0 < length (first.now ++ second.now) → 0 < result }
        // It takes none past the byte that decides the response.
        ensures least { DecidesLast self.old.core (take result (first.now ++ second.now)) }
        ensures hands { HandsUp self.old.core self.new acts.new result }
        ensures sends { SendsNothing acts.new }
        // After its end it takes nothing, asks for nothing and stays as it is.
        ensures ended { is_over self.old.core.state ≡ true → (result ≡ 0) × (acts.new ≡ gives_none) }
        ensures stays { is_over self.old.core.state ≡ true → self.new.core ≡ self.old.core }
    {
        acts.clear();
        self.waiting = 0;
        let taken = self.take(rec, first, second);
        self.waiting = taken.waiting;
        let give = range_to(taken.given);
        acts.give = give;
        acts.ready = taken.waiting > 0;
        acts.over = taken.over;
        taken.len as u32
    }

    /// Takes bytes by the state.
    #[inline(always)]
    fn take(&mut self, rec: u32, first: &[u8], second: &[u8]) -> Taken
        requires count { length first.now + length second.now < 2 ^ 32 }
        requires none { self.old.waiting ≡ 0 }
        ensures live { is_over self.old.core.state ≡ false
            → TakesSo rec self.old.core self.new.core (first.now ++ second.now) result }
        ensures ended { is_over self.old.core.state ≡ true → (result ≡ took_nothing) × (self.new ≡ self.old) }
    {
        match self.state {
            State::Head => self.take_head(rec, first, second),
            State::Sized(left) => self.take_sized(rec, left, first, second),
            State::Chunked(room) => self.take_chunks(rec, room, first, second),
            State::ToEnd(room) => self.take_open(rec, room, first, second),
            State::Over(_) => Taken {
                len: 0,
                given: 0,
                waiting: 0,
                over: None,
            },
        }
    }

    /// The stream has ended: what isn't decided is now.
    pub fn finish(&mut self, rec: u32, acts: &mut Acts)
        ensures ends { EndsStream rec self.old.core self.new.core acts.new.over }
        ensures sends { SendsNothing acts.new }
        ensures gives { (acts.new.give ≡ None) × (acts.new.ready ≡ false) × (self.new.waiting ≡ 0) }
    {
        acts.clear();
        let over = at_end(rec, self.state);
        let state = after_end(self.state);
        acts.over = over;
        self.state = state;
        self.waiting = 0;
    }

    /// The text of the move that ended it.
    pub fn moved(&self) -> Option<&[u8]>
        ensures { option_copied result ≡ moved_text self.now.core.head self.now.core.state }
    {
        match self.state {
            State::Over(Some((from, to))) => Some(
                &self.head.as_slice()[from as usize..to as usize],
            ),
            _ => None,
        }
    }

    /// The bytes of a chunked body that wait to go up.
    pub fn block(&self) -> &[u8]
        ensures { result.now ≡ take self.now.waiting self.now.core.chunks.block }
    {
        &self.chunks.block()[..self.waiting]
    }
}
