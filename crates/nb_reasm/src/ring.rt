//! The ring: bytes in slots, of which the first run is held, and later ones where they are marked.

ghost use Rattle.std.specs.Prelude.{◌≡◌, ℕ, Option, Some, None, ◌+◌, ◌-◌, ◌^◌, ◌<◌, ◌≤◌, ◌⊎◌, min, max, length, slice_index, IfOk};
ghost use Rattle.std.specs.Option.{option_or};
ghost use Rattle.nb_reasm.specs.Slots.{slot_mark};
ghost use Rattle.nb_reasm.specs.Rings.{IsRing, IsJoinable, IsRunAt, SameWindow, capacity, slot_of, held_byte, front_split};
ghost use Rattle.nb_reasm.specs.Windows.{window_of, window_byte, new_count, is_new, places_count};

use crate::marks::Marks;
use crate::memory::{Memory, wrapped_slot};
use nb_terms::NoMemory;
use std::alloc::Global;

/// The bytes at the places from `base` on, one for each slot. Those below `next` are held, and of those
/// from it on the marked ones, which lie below `end`.
#[derive(Drop)]
pub(crate) struct Ring {
    pub(crate) memory: Memory,
    pub(crate) marks: Marks,
    /// The slot of `base`.
    pub(crate) start: usize,
    pub(crate) base: u32,
    pub(crate) next: u32,
    pub(crate) end: u32,
}

/// Places with slots side by side, the first of which is `slot`, that are marked alike.
#[derive(Drop)]
pub(crate) struct Run {
    slot: usize,
    len: usize,
    marked: bool,
}

impl Ring {
    pub(crate) fn new(alloc: Global, size: u32) -> Result<Ring, NoMemory>
        requires some { 0 < size }
        requires most { size ≤ 2 ^ 20 }
        ensures ring { IfOk result (λ r. IsRing r × (capacity r ≡ size) × (r.base ≡ 0) × (r.next ≡ 0)) }
        ensures none { IfOk result (λ r. (p : ℕ) → held_byte r p ≡ None) }
    {
        let memory = Memory::new(alloc, size as usize)?;
        let marks = Marks::new(alloc, size as usize)?;
        Ok(Ring {
            memory,
            marks,
            start: 0,
            base: 0,
            next: 0,
            end: 0,
        })
    }

    pub(crate) fn size(&self) -> u32
        requires { IsRing self.now }
        ensures { result ≡ capacity self.now }
    {
        self.memory.size() as u32
    }

    /// The first place after the window.
    fn top(&self) -> u32
        requires { IsJoinable self.now }
        ensures { result ≡ self.now.base + capacity self.now }
    {
        self.base + self.memory.size() as u32
    }

    /// The first place from which on none is marked.
    fn marked_end(&self) -> u32
        requires { IsJoinable self.now }
        ensures { result ≡ min self.now.end (self.now.base + capacity self.now) }
    {
        self.end.min(self.top())
    }

    /// The slot of a place in the window.
    fn slot(&self, place: u32) -> usize
        requires ring { IsJoinable self.now }
        requires from { self.now.base ≤ place }
        requires to { place < self.now.base + capacity self.now }
        ensures value { result ≡ slot_of self.now (place - self.now.base) }
        ensures within { result < capacity self.now }
    {
        wrapped_slot(
            self.memory.size(),
            self.start + (place - self.base) as usize,
        )
    }

    /// The places from one on, below `to`, that are marked as it is.
    fn run(&self, place: u32, to: u32) -> Run
        requires ring { IsJoinable self.now }
        requires from { self.now.base ≤ place }
        requires some { place < to }
        requires within { to ≤ self.now.base + capacity self.now }
        ensures { IsRunAt self.now place to result }
    {
        let slot = self.slot(place);
        let most = ((to - place) as usize).min(self.memory.size() - slot);
        let marked = self.marks.is_marked(slot);
        let len = self.marks.run_end(slot, marked, slot + most) - slot;
        Run { slot, len, marked }
    }

    /// Takes over the marked places from `next` on.
    fn join(&mut self)
        requires { IsJoinable self.old }
        ensures ring { IsRing self.new }
        ensures same { SameWindow self.old self.new }
        ensures held { (p : ℕ) → held_byte self.new p ≡ held_byte self.old p }
    {
        while self.next < self.marked_end() {
            let run = self.run(self.next, self.marked_end());
            if !run.marked {
                return;
            }
            self.marks.turn(run.slot, run.slot + run.len);
            self.next += run.len as u32;
        }
    }

    /// Holds bytes at places from one on that hold none, whose slots stand side by side from `slot` on.
    fn hold(&mut self, place: u32, slot: usize, bytes: &[u8])
        requires ring { IsJoinable self.old }
        requires from { self.old.next ≤ place }
        requires some { 0 < length bytes.now }
        requires to { place + length bytes.now ≤ self.old.base + capacity self.old }
        requires small { place + length bytes.now < 2 ^ 31 }
        requires slot { slot ≡ slot_of self.old (place - self.old.base) }
        requires piece { slot + length bytes.now ≤ capacity self.old }
        requires unmarked { (k : ℕ) → k < length bytes.now → slot_mark self.old.marks.words.items (slot + k) ≡ 0 }
        ensures ring { IsJoinable self.new }
        ensures same { SameWindow self.old self.new }
        ensures next { self.new.next ≡ self.old.next }
        ensures fresh { (k : ℕ) → k < length bytes.now → held_byte self.new (place + k) ≡ Some (slice_index bytes.now k) }
        ensures kept { (p : ℕ) → (p < place) ⊎ (place + length bytes.now ≤ p) → held_byte self.new p ≡ held_byte self.old p }
    {
        self.memory.write(slot, bytes);
        self.marks.turn(slot, slot + bytes.len());
        self.end = self.end.max(place + bytes.len() as u32);
    }

    /// Holds those of the bytes from `pos` on whose places are those of a run, where it isn't held, and
    /// answers how many they are.
    fn fill_run(&mut self, pos: u32, bytes: &[u8], at: u32, run: Run) -> u32
        requires ring { IsJoinable self.old }
        requires small { pos + length bytes.now < 2 ^ 31 }
        requires from { self.old.next ≤ at }
        requires first { pos ≤ at }
        requires run { IsRunAt self.old at (min (pos + length bytes.now) (self.old.base + capacity self.old)) run }
        ensures ring { IsJoinable self.new }
        ensures same { SameWindow self.old self.new }
        ensures next { self.new.next ≡ self.old.next }
        ensures inside { (p : ℕ) → at ≤ p → p < at + run.len
            → held_byte self.new p ≡ option_or (held_byte self.old p) (Some (slice_index bytes.now (p - pos))) }
        ensures outside { (p : ℕ) → (p < at) ⊎ (at + run.len ≤ p) → held_byte self.new p ≡ held_byte self.old p }
        ensures count { result ≡ places_count (is_new (window_of self.old)) at run.len }
        ensures few { result ≤ run.len }
    {
        if run.marked {
            return 0;
        }
        let start = (at - pos) as usize;
        self.hold(at, run.slot, &bytes[start..start + run.len]);
        run.len as u32
    }

    /// Holds those of the bytes from `pos` on whose places, between two, hold none, each run at once,
    /// and answers how many they are.
    fn fill(&mut self, pos: u32, bytes: &[u8], from: u32, to: u32) -> u32
        requires ring { IsJoinable self.old }
        requires small { pos + length bytes.now < 2 ^ 31 }
        requires first { pos ≤ from }
        requires from { self.old.next ≤ from }
        requires some { from ≤ to }
        requires within { to ≤ self.old.base + capacity self.old }
        requires last { to ≤ pos + length bytes.now }
        ensures ring { IsJoinable self.new }
        ensures same { SameWindow self.old self.new }
        ensures inside { (p : ℕ) → from ≤ p → p < to
            → held_byte self.new p ≡ option_or (held_byte self.old p) (Some (slice_index bytes.now (p - pos))) }
        ensures outside { (p : ℕ) → (p < from) ⊎ (to ≤ p) → held_byte self.new p ≡ held_byte self.old p }
        ensures count { result ≡ places_count (is_new (window_of self.old)) from (to - from) }
    {
        let mut count = 0;
        let mut at = from;
        while at < to {
            let run = self.run(at, to);
            let len = run.len as u32;
            count += self.fill_run(pos, bytes, at, run);
            at += len;
        }
        count
    }

    /// Holds bytes run by run, each where its place lies in the window and holds none.
    #[inline(never)]
    fn scatter(&mut self, pos: u32, bytes: &[u8]) -> u32
        requires ring { IsRing self.old }
        requires small { pos + length bytes.now < 2 ^ 31 }
        ensures ring { IsRing self.new }
        ensures same { SameWindow self.old self.new }
        ensures held { (p : ℕ) → held_byte self.new p
            ≡ option_or (held_byte self.old p) (window_byte (window_of self.old) pos bytes.now p) }
        ensures count { result ≡ new_count (window_of self.old) pos bytes.now }
    {
        let from = pos.max(self.next);
        let to = (pos + bytes.len() as u32).min(self.top());
        if to <= from {
            return 0;
        }
        let count = self.fill(pos, bytes, from, to);
        self.join();
        count
    }

    /// Holds bytes from `next` on, as many as fit, where no later place is held.
    #[inline(always)]
    fn append(&mut self, bytes: &[u8]) -> u32
        requires ring { IsRing self.old }
        requires none_marked { self.old.end ≤ self.old.next }
        requires small { self.old.next + length bytes.now < 2 ^ 31 }
        ensures count { result ≡ min (length bytes.now) ((self.old.base + capacity self.old) - self.old.next) }
        ensures ring { IsRing self.new }
        ensures same { SameWindow self.old self.new }
        ensures next { self.new.next ≡ self.old.next + result }
        ensures kept { (p : ℕ) → p < self.old.next → held_byte self.new p ≡ held_byte self.old p }
        ensures fresh { (k : ℕ) → k < result → held_byte self.new (self.old.next + k) ≡ Some (slice_index bytes.now k) }
        ensures free { (p : ℕ) → self.old.next + result ≤ p → held_byte self.new p ≡ None }
    {
        let room = self.memory.size() - (self.next - self.base) as usize;
        let count = bytes.len().min(room);
        if count == 0 {
            return 0;
        }
        let slot = self.slot(self.next);
        self.memory.write_around(slot, &bytes[..count]);
        self.next += count as u32;
        count as u32
    }

    /// Holds the bytes from a place on, each where its place lies in the window and holds none, and
    /// answers how many were held.
    #[inline(always)]
    pub(crate) fn put(&mut self, pos: u32, bytes: &[u8]) -> u32
        requires ring { IsRing self.old }
        requires small { pos + length bytes.now < 2 ^ 31 }
        ensures ring { IsRing self.new }
        ensures same { SameWindow self.old self.new }
        ensures held { (p : ℕ) → held_byte self.new p
            ≡ option_or (held_byte self.old p) (window_byte (window_of self.old) pos bytes.now p) }
        ensures count { result ≡ new_count (window_of self.old) pos bytes.now }
    {
        // What comes in order needs no marks.
        if self.end <= self.next && pos <= self.next {
            let held = bytes.len().min((self.next - pos) as usize);
            self.append(&bytes[held..])
        } else {
            self.scatter(pos, bytes)
        }
    }

    /// Moves the window on over so many places, where none at all is held. The base keeps its slot.
    #[inline(always)]
    pub(crate) fn pass(&mut self, count: u32)
        requires ring { IsRing self.old }
        requires front { self.old.base ≡ self.old.next }
        requires none { (p : ℕ) → self.old.next ≤ p → held_byte self.old p ≡ None }
        requires small { self.old.next + count < 2 ^ 31 }
        ensures ring { IsRing self.new }
        ensures base { self.new.base ≡ self.old.base + count }
        ensures next { self.new.next ≡ self.old.next + count }
        ensures size { capacity self.new ≡ capacity self.old }
        ensures none { (p : ℕ) → held_byte self.new p ≡ None }
    {
        self.next += count;
        self.base = self.next;
    }

    /// The bytes below `next`, in two parts.
    pub(crate) fn front(&self) -> (&[u8], &[u8])
        requires { IsRing self.now }
        ensures len { length result.0.now + length result.1.now ≡ self.now.next - self.now.base }
        ensures split { length result.0.now ≡ front_split self.now }
        ensures first { (k : ℕ) → k < length result.0.now
            → held_byte self.now (self.now.base + k) ≡ Some (slice_index result.0.now k) }
        ensures second { (k : ℕ) → k < length result.1.now
            → held_byte self.now (self.now.base + (length result.0.now + k)) ≡ Some (slice_index result.1.now k) }
    {
        let len = (self.next - self.base) as usize;
        self.memory.lend_around(self.start, len)
    }

    /// Moves the window on.
    pub(crate) fn advance(&mut self, count: u32)
        requires ring { IsRing self.old }
        requires held { self.old.base + count ≤ self.old.next }
        ensures ring { IsRing self.new }
        ensures base { self.new.base ≡ self.old.base + count }
        ensures next { self.new.next ≡ self.old.next }
        ensures size { capacity self.new ≡ capacity self.old }
        ensures held { (p : ℕ) → self.new.base ≤ p → held_byte self.new p ≡ held_byte self.old p }
    {
        self.start = wrapped_slot(self.memory.size(), self.start + count as usize);
        self.base += count;
    }
}
