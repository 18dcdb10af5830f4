//! Marks on numbered slots, a bit each, read and turned by words.

ghost use Rattle.std.specs.Prelude.{◌≡◌, ℕ, ◌+◌, ◌-◌, ◌*◌, ◌%◌, ◌<◌, ◌≤◌, ◌==◌, ◌⊎◌, if◌then◌else◌, IfOk, vec_len};
ghost use Rattle.std.specs.Int.{bit_at};
ghost use Rattle.nb_reasm.specs.Slots.{slot_mark, mark_of};

use nb_terms::NoMemory;
use std::alloc::Global;

/// A mark, set or not, for each of some slots.
#[derive(Drop)]
pub(crate) struct Marks {
    pub(crate) words: Vec<u64>,
}

/// The bits of a word that differ from a mark.
fn unlike(word: u64, marked: bool) -> u64
    ensures { (i : ℕ) → i < 64 → bit_at result i ≡ (if marked then 1 - bit_at word i else bit_at word i) }
{
    if marked { !word } else { word }
}

impl Marks {
    /// So many slots, none of them marked.
    pub(crate) fn new(alloc: Global, slots: usize) -> Result<Marks, NoMemory>
        ensures none { IfOk result (λ m. (i : ℕ) → slot_mark m.words.items i ≡ 0) }
        ensures room { IfOk result (λ m. slots ≤ 64 * vec_len m.words) }
    {
        let words = vec![in alloc; 0u64; slots / 64 + 1]?;
        Ok(Marks { words })
    }

    pub(crate) fn is_marked(&self, slot: usize) -> bool
        requires { slot < 64 * vec_len self.now.words }
        ensures { slot_mark self.now.words.items slot ≡ mark_of result }
    {
        (self.words[slot / 64] >> (slot % 64)) & 1 == 1
    }

    /// How many slots from this one on have this mark, within its word.
    fn run_in_word(&self, slot: usize, marked: bool) -> usize
        requires { slot < 64 * vec_len self.now.words }
        ensures word { slot % 64 + result ≤ 64 }
        ensures alike { (k : ℕ) → k < result → slot_mark self.now.words.items (slot + k) ≡ mark_of marked }
    {
        let rest = unlike(self.words[slot / 64], marked) >> (slot % 64);
        (rest.trailing_zeros() as usize).min(64 - slot % 64)
    }

    /// Where the run of slots ends that have this slot's mark, at most at `end`.
    pub(crate) fn run_end(&self, slot: usize, marked: bool, end: usize) -> usize
        requires some { slot < end }
        requires room { end ≤ 64 * vec_len self.now.words }
        requires marked { slot_mark self.now.words.items slot ≡ mark_of marked }
        ensures some { slot < result }
        ensures most { result ≤ end }
        ensures alike { (i : ℕ) → slot ≤ i → i < result → slot_mark self.now.words.items i ≡ mark_of marked }
    {
        let mut at = slot + 1;
        while at < end {
            let len = self.run_in_word(at, marked).min(end - at);
            if len == 0 {
                return at;
            }
            at += len;
        }
        end
    }

    /// Turns the marks of so many slots from this one on, within its word.
    fn turn_in_word(&mut self, slot: usize, len: usize)
        requires some { 0 < len }
        requires word { slot % 64 + len ≤ 64 }
        requires room { slot < 64 * vec_len self.old.words }
        ensures turned { (i : ℕ) → slot ≤ i → i < slot + len
            → slot_mark self.new.words.items i + slot_mark self.old.words.items i ≡ 1 }
        ensures others { (i : ℕ) → (i < slot) ⊎ (slot + len ≤ i) → slot_mark self.new.words.items i ≡ slot_mark self.old.words.items i }
        ensures room { vec_len self.new.words ≡ vec_len self.old.words }
    {
        self.words[slot / 64] ^= (u64::MAX >> (64 - len)) << (slot % 64);
    }

    /// Turns the marks of the slots from this one on, up to `end`.
    pub(crate) fn turn(&mut self, slot: usize, end: usize)
        requires some { slot ≤ end }
        requires room { end ≤ 64 * vec_len self.old.words }
        ensures turned { (i : ℕ) → slot ≤ i → i < end
            → slot_mark self.new.words.items i + slot_mark self.old.words.items i ≡ 1 }
        ensures others { (i : ℕ) → (i < slot) ⊎ (end ≤ i) → slot_mark self.new.words.items i ≡ slot_mark self.old.words.items i }
        ensures room { vec_len self.new.words ≡ vec_len self.old.words }
    {
        let mut at = slot;
        while at < end {
            let len = (end - at).min(64 - at % 64);
            self.turn_in_word(at, len);
            at += len;
        }
    }
}
