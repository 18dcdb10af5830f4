ghost use Rattle.std.specs.Prelude.{◌≡◌, [], true, Some};
ghost use Rattle.nb_record.specs.Notes.{known_reads, AddsNote};

use std::alloc::Global;

/// A read that was asked of a line: how many bytes were left to read then and how many had been taken, and
/// how many it might give at most.
#[derive(Clone, Copy, Debug, PartialEq, Eq)]
pub struct ReadNote {
    pub left: usize,
    pub taken: usize,
    pub most: usize,
}

/// The reads that were asked of a line, in order. From one on that couldn't be noted, they aren't known.
#[derive(Drop)]
pub struct ReadNotes {
    pub reads: Vec<ReadNote>,
    pub are_known: bool,
}

impl ReadNotes {
    /// No read was asked.
    pub fn new(alloc: Global) -> ReadNotes
        ensures { known_reads result ≡ Some [] }
    {
        ReadNotes {
            reads: Vec::new(alloc),
            are_known: true,
        }
    }

    /// Notes a read. Where it is None, or memory runs out, the reads aren't known any more.
    pub fn add(&mut self, note: Option<ReadNote>)
        ensures { AddsNote note self.old self.new }
    {
        self.are_known = match note {
            Some(note) => self.are_known && self.reads.push(note).is_ok(),
            None => false,
        };
    }
}
