ghost use Rattle.std.specs.Prelude.{◌≡◌, ◌+◌, ◌-◌, ◌^◌, ◌<◌, ◌≤◌, ◌∷◌, [], length, take, drop, min, true, false, Some, vec_len, vec_capacity, slice_index, IfOk, OnOk, OnErr, IsOk, is_err};
ghost use Rattle.nb_record.specs.Outside.{Attaches, Reads, NotesRead, Writes, IsAtEnd, Rose};
ghost use Rattle.nb_record.specs.Memory.{fails, write_fails, cut_of_read};
ghost use Rattle.nb_record.specs.Notes.{known_reads};

use crate::memory::{copy_front, cut_len};
use crate::{Failed, Line, ReadNote, ReadNotes, Target};
use nb_terms::NoMemory;
use std::alloc::Global;

/// A line over memory, which tells what is left, what was taken, and the reads where memory suffices to note them. Its calls are numbered from 0, and the
/// call whose number stands in `fail` fails. Read number `c`, from 0, gives at most `cuts[c]` bytes, where
/// that is given and not 0. Output goes to the room that was reserved: a write takes what the room left
/// holds, and a write of a piece that isn't empty fails where no room is left.
#[derive(Drop)]
pub struct MemLine {
    pub input: Vec<u8>,
    /// How many bytes of the input were read.
    pub at: usize,
    pub cuts: Vec<usize>,
    pub output: Vec<u8>,
    /// The most bytes that the output may have.
    pub room: usize,
    pub fail: Vec<u64>,
    /// How many calls were made, and how many of them were reads.
    pub calls: u64,
    pub reads: u64,
    /// The faults of attach, of read and of write.
    pub faults: [u64; 3],
    /// The reads that were asked.
    pub notes: ReadNotes,
    pub ghost at_within: { at ≤ vec_len input },
    pub ghost output_fits: { vec_len output ≤ room },
    pub ghost room_held: { room ≤ vec_capacity output },
}

/// One more, or as many where no more can be counted.
fn risen(count: u64) -> u64
    ensures { result ≡ min (count + 1) (2 ^ 64 - 1) }
{
    count.saturating_add(1)
}

impl MemLine {
    /// A line over a copy of this input, with room for this many bytes of output.
    pub fn new(
        alloc: Global,
        input: &[u8],
        cuts: &[usize],
        fail: &[u64],
        room: usize,
    ) -> Result<MemLine, NoMemory>
        ensures input { IfOk result (λ m. (m.input.items ≡ input.now) × (m.at ≡ 0)) }
        ensures cuts { IfOk result (λ m. (m.cuts.items ≡ cuts.now) × (m.reads ≡ 0)) }
        ensures fail { IfOk result (λ m. (m.fail.items ≡ fail.now) × (m.calls ≡ 0)) }
        ensures output { IfOk result (λ m. (m.output.items ≡ []) × (m.room ≡ room)) }
        ensures faults { IfOk result (λ m. m.faults ≡ 0 ∷ 0 ∷ 0 ∷ []) }
        ensures notes { IfOk result (λ m. known_reads m.notes ≡ Some []) }
    {
        Ok(MemLine {
            input: Vec::from_slice(alloc, input)?,
            at: 0,
            cuts: Vec::from_slice(alloc, cuts)?,
            output: Vec::with_capacity(alloc, room)?,
            room,
            fail: Vec::from_slice(alloc, fail)?,
            calls: 0,
            reads: 0,
            faults: [0; 3],
            notes: ReadNotes::new(alloc),
        })
    }

    /// What was written.
    pub fn output(&self) -> &[u8]
        ensures { result.now ≡ self.now.output.items }
    {
        self.output.as_slice()
    }

    /// Counts a call, and says whether it fails.
    fn fails_now(&mut self) -> bool
        ensures value { result ≡ fails self.old.fail.items self.old.calls }
        ensures counted { self.new ≡ record self.old { calls = min (self.old.calls + 1) (2 ^ 64 - 1) } }
    {
        let fails = self.fail.contains(&self.calls);
        self.calls = risen(self.calls);
        fails
    }
}

impl Line for MemLine {
    ghost use Rattle.nb_record.specs.MemoryLines.{mem_outside, IsCalled};

    ghost outside = { mem_outside };

    fn attach(&mut self, _target: &Target<'_>) -> Result<(), Failed>
        ensures attached { Attaches (mem_outside self.old) (mem_outside self.new) }
        ensures failed { OnErr result (Rose (mem_outside self.old).attach_faults (mem_outside self.new).attach_faults) }
        ensures exactly { is_err result ≡ fails self.old.fail.items self.old.calls }
        ensures called { IsCalled self.old self.new × (self.new.reads ≡ self.old.reads) }
    {
        if self.fails_now() {
            self.faults[0] = risen(self.faults[0]);
            return Err(Failed);
        }
        Ok(())
    }

    fn read(&mut self, buf: &mut [u8]) -> Result<usize, Failed>
        ensures within { IfOk result (λ n. n ≤ length buf.old) }
        ensures ok { IfOk result (λ n. Reads (mem_outside self.old) (mem_outside self.new) (take n buf.new)) }
        ensures end { IfOk result (λ n. n ≡ 0 → 0 < length buf.old → IsAtEnd (mem_outside self.old)) }
        ensures noted { NotesRead (length buf.old) (mem_outside self.old) (mem_outside self.new) }
        ensures failed { OnErr result (Reads (mem_outside self.old) (mem_outside self.new) []
            × Rose (mem_outside self.old).read_faults (mem_outside self.new).read_faults) }
        ensures exactly { is_err result ≡ fails self.old.fail.items self.old.calls }
        ensures cut { IfOk result (λ n. n ≡ cut_of_read self.old.cuts.items self.old.reads (min (length buf.old) (vec_len self.old.input - self.old.at))) }
        ensures called { IsCalled self.old self.new × (self.new.reads ≡ min (self.old.reads + 1) (2 ^ 64 - 1)) }
    {
        self.notes.add(Some(ReadNote {
            left: self.input.len() - self.at,
            taken: self.output.len(),
            most: buf.len(),
        }));
        let number = self.reads;
        self.reads = risen(number);
        if self.fails_now() {
            self.faults[1] = risen(self.faults[1]);
            return Err(Failed);
        }
        let most = buf.len().min(self.input.len() - self.at);
        let len = cut_len(&self.cuts, number, most);
        copy_front(&self.input.as_slice()[self.at..], buf, len);
        self.at += len;
        Ok(len)
    }

    fn write(&mut self, buf: &[u8]) -> Result<usize, Failed>
        ensures within { IfOk result (λ n. n ≤ length buf.now) }
        ensures some { IfOk result (λ n. 0 < length buf.now → 0 < n) }
        ensures ok { IfOk result (λ n. Writes (mem_outside self.old) (mem_outside self.new) (take n buf.now)) }
        ensures failed { OnErr result (Writes (mem_outside self.old) (mem_outside self.new) []
            × Rose (mem_outside self.old).write_faults (mem_outside self.new).write_faults) }
        ensures exactly { is_err result ≡ write_fails self.old.fail.items self.old.calls (length buf.now) (self.old.room - vec_len self.old.output) }
        ensures most { IfOk result (λ n. n ≡ min (length buf.now) (self.old.room - vec_len self.old.output)) }
        ensures called { IsCalled self.old self.new × (self.new.reads ≡ self.old.reads) }
    {
        let fails = self.fails_now();
        let taken = buf.len().min(self.room - self.output.len());
        if fails || (taken == 0 && !buf.is_empty()) {
            self.faults[2] = risen(self.faults[2]);
            return Err(Failed);
        }
        match self.output.extend_from_slice(&buf[..taken]) {
            Ok(()) => Ok(taken),
            Err(_) => unreachable!(),
        }
    }
}
