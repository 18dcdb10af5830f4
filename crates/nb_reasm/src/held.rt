//! The held window.

ghost use Rattle.std.specs.Prelude.{◌≡◌, ℕ, List, None, Some, ◌+◌, ◌-◌, ◌^◌, ◌<◌, ◌≤◌, ◌++◌, length, slice_index, IfOk, true};
ghost use Rattle.std.specs.Option.{option_or};
ghost use Rattle.nb_reasm.specs.Rings.{IsRing};

use crate::ring::Ring;
use nb_terms::NoMemory;
use std::alloc::Global;

/// The most places that a window may have.
pub const MAX_CAPACITY: u32 = 1_048_576;

/// What a put did.
#[derive(Clone, Copy, Debug, PartialEq, Eq, Drop)]
pub struct Put {
    /// How many bytes were not held before.
    pub new_bytes: u32,
    /// The least place from the base on that isn't held.
    pub next: u32,
}

/// The bytes of a stream in a window of its places, from the first one that was not yet delivered,
/// the base, on. Of two bytes for one place the first stays. Contracts see it by `window`.
#[derive(Drop)]
pub struct Held {
    ring: Ring,
    ghost is_ring: { IsRing ring },
}

impl Held {
    ghost use Rattle.nb_reasm.specs.HeldWindows.{window, front_first, front_second};
    ghost use Rattle.nb_reasm.specs.Windows.{window_byte, window_pairs, new_count, HoldsPairs, NextIsLeast};

    /// An empty window of so many places, from place 0 on. No later call takes memory.
    pub fn new(alloc: Global, cap: u32) -> Result<Held, NoMemory>
        requires some { 0 < cap }
        requires most { cap ≤ 2 ^ 20 }
        ensures window { IfOk result (λ h. ((window h).base ≡ 0) × ((window h).next ≡ 0) × ((window h).size ≡ cap)) }
        ensures none { IfOk result (λ h. (p : ℕ) → (window h).at p ≡ None) }
    {
        let ring = Ring::new(alloc, cap)?;
        Ok(Held { ring })
    }

    /// Holds the bytes from a place on. Those outside the window, and those of places that hold one,
    /// are left out.
    #[inline(always)]
    pub fn put(&mut self, pos: u32, bytes: &[u8]) -> Put
        requires { pos + length bytes.now < 2 ^ 31 }
        ensures held { (p : ℕ) → (window self.new).at p
            ≡ option_or ((window self.old).at p) (window_byte (window self.old) pos bytes.now p) }
        ensures window { ((window self.new).base ≡ (window self.old).base) × ((window self.new).size ≡ (window self.old).size) }
        ensures new_bytes { result.new_bytes ≡ new_count (window self.old) pos bytes.now }
        ensures next { result.next ≡ (window self.new).next }
        // With this call the window stands for the pairs of one put more, of which the first count.
        ensures stands { (pairs : List (ℕ × ℕ)) → HoldsPairs (window self.old) pairs
            → HoldsPairs (window self.new) (pairs ++ window_pairs (window self.old) pos bytes.now) }
    {
        let new_bytes = self.ring.put(pos, bytes);
        Put {
            new_bytes,
            next: self.ring.next,
        }
    }

    /// The bytes from the base to `next`, in two parts.
    pub fn front(&self) -> (&[u8], &[u8])
        ensures len { length result.0.now + length result.1.now ≡ (window self.now).next - (window self.now).base }
        ensures first { (k : ℕ) → k < length result.0.now
            → (window self.now).at ((window self.now).base + k) ≡ Some (slice_index result.0.now k) }
        ensures second { (k : ℕ) → k < length result.1.now
            → (window self.now).at ((window self.now).base + (length result.0.now + k)) ≡ Some (slice_index result.1.now k) }
        // Where it is cut is the window's.
        ensures parts { (result.0.now ≡ front_first self.now) × (result.1.now ≡ front_second self.now) }
    {
        self.ring.front()
    }

    /// Moves the base on over bytes that are held.
    pub fn advance(&mut self, n: u32)
        requires { (window self.old).base + n ≤ (window self.old).next }
        ensures base { (window self.new).base ≡ (window self.old).base + n }
        ensures next { (window self.new).next ≡ (window self.old).next }
        ensures size { (window self.new).size ≡ (window self.old).size }
        ensures held { (p : ℕ) → (window self.new).base ≤ p → (window self.new).at p ≡ (window self.old).at p }
        ensures stands { (pairs : List (ℕ × ℕ)) → HoldsPairs (window self.old) pairs → HoldsPairs (window self.new) pairs }
    {
        self.ring.advance(n);
    }

    /// No place from `next` on is held. It may say no where that is so.
    #[inline(always)]
    pub fn holds_none_later(&self) -> bool
        ensures { result ≡ true → (p : ℕ) → (window self.now).next ≤ p → (window self.now).at p ≡ None }
    {
        self.ring.end <= self.ring.next
    }

    /// Moves the window on over so many places, where nothing is held: their bytes are delivered, and it never
    /// held them.
    #[inline(always)]
    pub fn pass(&mut self, n: u32)
        requires front { (window self.old).base ≡ (window self.old).next }
        requires none { (p : ℕ) → (window self.old).next ≤ p → (window self.old).at p ≡ None }
        requires small { (window self.old).next + n < 2 ^ 31 }
        ensures base { (window self.new).base ≡ (window self.old).base + n }
        ensures next { (window self.new).next ≡ (window self.old).next + n }
        ensures size { (window self.new).size ≡ (window self.old).size }
        ensures none { (p : ℕ) → (window self.new).at p ≡ None }
        // It is as if they were put and passed over.
        ensures stands { (pairs : List (ℕ × ℕ)) (bytes : List ℕ) → length bytes ≡ n → HoldsPairs (window self.old) pairs
            → HoldsPairs (window self.new) (pairs ++ window_pairs (window self.old) (window self.old).next bytes) }
    {
        self.ring.pass(n);
    }

    /// The first place of the window.
    pub fn base(&self) -> u32
        ensures { result ≡ (window self.now).base }
    {
        self.ring.base
    }

    /// The least place from the base on that isn't held.
    pub fn next(&self) -> u32
        ensures value { result ≡ (window self.now).next }
        ensures least { NextIsLeast (window self.now) }
    {
        self.ring.next
    }

    /// How many places the window has.
    pub fn capacity(&self) -> u32
        ensures { result ≡ (window self.now).size }
    {
        self.ring.size()
    }
}
