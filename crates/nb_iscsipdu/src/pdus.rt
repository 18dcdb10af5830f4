//! PDUs gathered from a stream in whatever pieces it comes.

ghost use Rattle.std.specs.Prelude.{◌≡◌, ◌≤◌, ◌<◌, ◌+◌, ◌-◌, ◌^◌, ◌++◌, option_map, length, take, min, vec_capacity, false, true};
ghost use Rattle.nb_iscsipdu.specs.Streams.{known_of};

use crate::pdu::{HEAD_LEN, LENGTHS, MAX_SEGMENT, Pdu, padded_len};
use nb_terms::NoMemory;
use std::alloc::Global;
use std::marker::Model;

/// The bytes that show how long a PDU is.
const LENGTHS_END: usize = LENGTHS + 4;
/// The most bytes of a PDU.
const MAX_PDU: usize = HEAD_LEN + MAX_SEGMENT;

/// What a call of `feed` came to.
#[derive(Clone, Copy, Debug, PartialEq, Eq)]
pub enum PduState {
    /// More bytes are to come.
    More,
    /// A PDU is whole.
    One,
    /// The bytes are no PDU: there are additional header segments, or more than 8,192 bytes of data.
    Broken,
}

/// Gathers one PDU after another in a block of its own.
#[derive(Drop)]
pub struct Pdus {
    block: Vec<u8>,
}

impl Model for Pdus {
    ghost use Rattle.std.specs.Prelude.{◌≤◌, ℕ, List, vec_len, vec_capacity};
    ghost use Rattle.nb_iscsipdu.specs.Streams.{IsGatheredPdu};

    ghost Value = { List ℕ };

    ghost view = { λ p. p.block.items };

    ghost invariant = { λ p. (8240 ≤ vec_capacity p.block) × IsGatheredPdu p.block.items };
}

/// How long the PDU is that begins with some bytes.
#[derive(Clone, Copy)]
enum Known {
    /// They are fewer than eight.
    No,
    /// They begin none.
    Refused,
    /// So many bytes, with its padding.
    Len(usize),
}

impl Pdus {
    ghost use Rattle.std.specs.Prelude.{[], ℕ, List, IfOk};
    ghost use Rattle.nb_iscsipdu.specs.PduTexts.{pdu_parts};
    ghost use Rattle.nb_iscsipdu.specs.Streams.{is_refused, is_whole_pdu, open_of, whole_pdu, pdu_state_of, IsKnown, StaysOpen, StandsForStream, TakesOn, TakesNoMore, TakesAllOfPdu};
    ghost use Rattle.nb_iscsipdu.specs.declared.pdus.PduState.TheVariants.{More};

    /// A reader at a PDU's first byte. It takes all the memory that it needs.
    pub fn new(alloc: Global) -> Result<Pdus, NoMemory>
        ensures empty { IfOk result (λ p. p ≡ []) }
        ensures stands { IfOk result (λ p. StandsForStream [] p) }
    {
        Ok(Pdus {
            block: Vec::with_capacity(alloc, MAX_PDU)?,
        })
    }

    /// Drops a PDU that was whole, and takes bytes of the stream up to the next one's end; returns how many.
    pub fn feed(&mut self, first: &[u8], second: &[u8]) -> (u32, PduState)
        requires { length first.now + length second.now < 2 ^ 32 }
        // What it took, added to all that was before, is what it stands for: so is the PDU that became whole.
        ensures stands { TakesOn self.old self.new (take result.0 (first.now ++ second.now)) }
        ensures within { result.0 ≤ length (first.now ++ second.now) }
        ensures state { result.1 ≡ pdu_state_of self.new }
        ensures gathers { is_refused self.old ≡ false
            → self.new ≡ open_of self.old ++ take result.0 (first.now ++ second.now) }
        // Once there is no PDU, it stays so, and nothing is taken.
        ensures stays { is_refused self.old ≡ true → (result.0 ≡ 0) × (self.new ≡ self.old) }
        ensures all { TakesAllOfPdu self.new (first.now ++ second.now) result.0 }
        ensures least { TakesNoMore self.old (take result.0 (first.now ++ second.now)) }
    {
        let _block = &self.block;
        self.drop_whole();
        let took = self.run_both(first, second);
        (took as u32, self.state())
    }

    /// The PDU, where the last feed made one whole.
    pub fn pdu(&self) -> Option<Pdu<'_>>
        ensures { option_map pdu_parts result ≡ whole_pdu self.now }
    {
        if self.is_whole() {
            Pdu::read(self.block.as_slice())
        } else {
            None
        }
    }

    /// What is known of the length of the PDU at work.
    fn known(&self) -> Known
        ensures { IsKnown result self.now }
    {
        match self.block.as_slice() {
            [_, _, _, _, a, b, c, d, ..] => of_lengths(u32::from_be_bytes([*a, *b, *c, *d])),
            _ => Known::No,
        }
    }

    fn is_whole(&self) -> bool
        ensures { result ≡ is_whole_pdu self.now }
    {
        match self.known() {
            Known::Len(len) => self.block.len() == len,
            _ => false,
        }
    }

    fn state(&self) -> PduState
        ensures { result ≡ pdu_state_of self.now }
    {
        match self.known() {
            Known::No => PduState::More,
            Known::Refused => PduState::Broken,
            Known::Len(len) => if self.block.len() == len {
                PduState::One
            } else {
                PduState::More
            },
        }
    }

    fn drop_whole(&mut self)
        ensures { self.new ≡ open_of self.old }
    {
        if self.is_whole() {
            self.block.clear();
        }
    }

    /// Takes bytes of both.
    fn run_both(&mut self, first: &[u8], second: &[u8]) -> usize
        requires { length first.now + length second.now < 2 ^ 32 }
        ensures within { result ≤ length (first.now ++ second.now) }
        ensures gathers { self.new ≡ self.old ++ take result (first.now ++ second.now) }
        ensures all { TakesAllOfPdu self.new (first.now ++ second.now) result }
        ensures least { StaysOpen self.old (take result (first.now ++ second.now)) }
    {
        let took = self.run(first);
        if took < first.len() {
            return took;
        }
        took + self.run(second)
    }

    /// Takes bytes up to the end of the PDU at work, or to the byte that shows that there is none.
    fn run(&mut self, bytes: &[u8]) -> usize
        ensures within { result ≤ length bytes.now }
        ensures gathers { self.new ≡ self.old ++ take result bytes.now }
        ensures all { TakesAllOfPdu self.new bytes.now result }
        ensures least { StaysOpen self.old (take result bytes.now) }
    {
        let decided = self.take_lengths(bytes);
        let (_taken, rest) = bytes.split_at(decided);
        decided + self.take_rest(rest)
    }

    /// Takes bytes up to those that show how long the PDU at work is.
    fn take_lengths(&mut self, bytes: &[u8]) -> usize
        ensures within { result ≤ length bytes.now }
        ensures gathers { self.new ≡ self.old ++ take result bytes.now }
        ensures all { length self.new < 8 → result ≡ length bytes.now }
        ensures least { StaysOpen self.old (take result bytes.now) }
    {
        let most = self.block.as_slice().len().max(LENGTHS_END);
        fill(&mut self.block, most, bytes)
    }

    /// Takes bytes up to the end of the PDU at work, where its length is known.
    fn take_rest(&mut self, bytes: &[u8]) -> usize
        ensures within { result ≤ length bytes.now }
        ensures gathers { self.new ≡ self.old ++ take result bytes.now }
        ensures all { 8 ≤ length self.old → TakesAllOfPdu self.new bytes.now result }
        ensures least { StaysOpen self.old (take result bytes.now) }
    {
        match self.known() {
            Known::Len(len) => fill(&mut self.block, len, bytes),
            Known::No => 0,
            Known::Refused => 0,
        }
    }
}

/// How long a PDU is, by its lengths.
fn of_lengths(lengths: u32) -> Known
    ensures { result ≡ known_of lengths }
{
    let len = lengths as usize;
    if len > MAX_SEGMENT {
        Known::Refused
    } else {
        Known::Len(HEAD_LEN + padded_len(len))
    }
}

/// Appends as many bytes to a buffer of this size as it has room for, and returns how many. It takes
/// no memory.
fn fill(buffer: &mut Vec<u8>, most: usize, bytes: &[u8]) -> usize
    requires len { length buffer.old.items ≤ most }
    requires room { most ≤ vec_capacity buffer.old }
    ensures items { buffer.new.items ≡ buffer.old.items ++ take result bytes.now }
    ensures count { result ≡ min (length bytes.now) (most - length buffer.old.items) }
    ensures capacity { vec_capacity buffer.old ≤ vec_capacity buffer.new }
{
    let len = buffer.as_slice().len();
    let taken = bytes.len().min(most - len);
    match buffer.extend_from_slice(&bytes[..taken]) {
        Ok(()) => taken,
        Err(_) => unreachable!(),
    }
}
