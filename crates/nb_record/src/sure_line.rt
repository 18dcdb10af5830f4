ghost use Rattle.std.specs.Prelude.{◌≡◌, ◌+◌, ◌-◌, ◌^◌, ◌<◌, ◌≤◌, [], length, take, drop, min, true, Some, vec_len, vec_capacity, IfOk, IfSome, OnErr, IsOk};
ghost use Rattle.nb_record.specs.Outside.{Attaches, Reads, NotesRead, Writes, IsAtEnd, Rose};
ghost use Rattle.nb_record.specs.Memory.{cut_of_read, told};
ghost use Rattle.nb_record.specs.Notes.{known_reads};

use crate::memory::{copy_front, cut_len};
use crate::{Failed, Line, ReadNote, ReadNotes, Target};
use nb_terms::NoMemory;
use std::alloc::Global;

/// A line over memory that never fails. Read number `c`, from 0, gives at most `cuts[c]` bytes, where that
/// is given and not 0. A write past the room for the output is answered as taken and isn't kept, and from
/// then on what was taken isn't told.
#[derive(Drop)]
pub struct SureLine {
    pub input: Vec<u8>,
    /// How many bytes of the input were read.
    pub at: usize,
    pub cuts: Vec<usize>,
    /// How many reads were made.
    pub reads: u64,
    pub output: Vec<u8>,
    /// The most bytes that the output may have.
    pub room: usize,
    /// Whether the output has all that was taken.
    pub has_all: bool,
    /// The reads that were asked, known as long as the output has all that was taken.
    pub notes: ReadNotes,
    pub ghost at_within: { at ≤ vec_len input },
    pub ghost output_fits: { vec_len output ≤ room },
    pub ghost room_held: { room ≤ vec_capacity output },
}

impl SureLine {
    ghost use Rattle.nb_record.specs.MemoryLines.{sure_note};

    /// A line over a copy of this input, with room for this many bytes of output.
    pub fn new(
        alloc: Global,
        input: &[u8],
        cuts: &[usize],
        room: usize,
    ) -> Result<SureLine, NoMemory>
        ensures input { IfOk result (λ s. (s.input.items ≡ input.now) × (s.at ≡ 0)) }
        ensures cuts { IfOk result (λ s. (s.cuts.items ≡ cuts.now) × (s.reads ≡ 0)) }
        ensures output { IfOk result (λ s. (s.output.items ≡ []) × (s.room ≡ room) × (s.has_all ≡ true)) }
        ensures notes { IfOk result (λ s. known_reads s.notes ≡ Some []) }
    {
        Ok(SureLine {
            input: Vec::from_slice(alloc, input)?,
            at: 0,
            cuts: Vec::from_slice(alloc, cuts)?,
            reads: 0,
            output: Vec::with_capacity(alloc, room)?,
            room,
            has_all: true,
            notes: ReadNotes::new(alloc),
        })
    }

    /// The note of a read of so many bytes at most. None where what was taken isn't known.
    fn note(&self, most: usize) -> Option<ReadNote>
        ensures { IfSome result (λ n. (self.now.has_all ≡ true) × (n ≡ sure_note self.now most)) }
    {
        self.has_all.then_some(ReadNote {
            left: self.input.len() - self.at,
            taken: self.output.len(),
            most,
        })
    }

    /// What was written and kept.
    pub fn output(&self) -> &[u8]
        ensures { result.now ≡ self.now.output.items }
    {
        self.output.as_slice()
    }
}

impl Line for SureLine {
    ghost use Rattle.nb_record.specs.MemoryLines.{sure_outside, IsSame};

    ghost outside = { sure_outside };

    fn attach(&mut self, _target: &Target<'_>) -> Result<(), Failed>
        ensures attached { Attaches (sure_outside self.old) (sure_outside self.new) }
        ensures failed { OnErr result (Rose (sure_outside self.old).attach_faults (sure_outside self.new).attach_faults) }
        ensures sure { IsOk result }
        ensures same { self.new ≡ self.old }
    {
        Ok(())
    }

    fn read(&mut self, buf: &mut [u8]) -> Result<usize, Failed>
        ensures within { IfOk result (λ n. n ≤ length buf.old) }
        ensures ok { IfOk result (λ n. Reads (sure_outside self.old) (sure_outside self.new) (take n buf.new)) }
        ensures end { IfOk result (λ n. n ≡ 0 → 0 < length buf.old → IsAtEnd (sure_outside self.old)) }
        ensures noted { NotesRead (length buf.old) (sure_outside self.old) (sure_outside self.new) }
        ensures failed { OnErr result (Reads (sure_outside self.old) (sure_outside self.new) []
            × Rose (sure_outside self.old).read_faults (sure_outside self.new).read_faults) }
        ensures sure { IsOk result }
        ensures cut { IfOk result (λ n. n ≡ cut_of_read self.old.cuts.items self.old.reads (min (length buf.old) (vec_len self.old.input - self.old.at))) }
        ensures same { IsSame self.old self.new × (self.new.reads ≡ min (self.old.reads + 1) (2 ^ 64 - 1)) }
    {
        let note = self.note(buf.len());
        self.notes.add(note);
        let most = buf.len().min(self.input.len() - self.at);
        let len = cut_len(&self.cuts, self.reads, most);
        copy_front(&self.input.as_slice()[self.at..], buf, len);
        self.reads = self.reads.saturating_add(1);
        self.at += len;
        Ok(len)
    }

    fn write(&mut self, buf: &[u8]) -> Result<usize, Failed>
        ensures within { IfOk result (λ n. n ≤ length buf.now) }
        ensures some { IfOk result (λ n. 0 < length buf.now → 0 < n) }
        ensures ok { IfOk result (λ n. Writes (sure_outside self.old) (sure_outside self.new) (take n buf.now)) }
        ensures failed { OnErr result (Writes (sure_outside self.old) (sure_outside self.new) []
            × Rose (sure_outside self.old).write_faults (sure_outside self.new).write_faults) }
        ensures sure { IsOk result }
        ensures kept { self.old.has_all ≡ true → vec_len self.old.output + length buf.now ≤ self.old.room → self.new.has_all ≡ true }
        ensures same { IsSame self.old self.new × (self.new.reads ≡ self.old.reads) }
    {
        self.has_all = self.has_all && buf.len() <= self.room - self.output.len();
        if self.has_all && self.output.extend_from_slice(buf).is_err() {
            unreachable!()
        }
        Ok(buf.len())
    }
}
