use slab::Slab;
use std::alloc::{AllocError, Global};

/// How many serials in a row have entries of their own in the table: as many as objects may live.
const ROW: usize = 64;

/// Where objects stand, without a search. An object's place stands in a table, by the last bits of its
/// serial, and the serial in a slab, under a number that stays as long as the object lives: by it the table
/// is set right when an object before it goes. No proof relies on a place that is found so: a wrong one costs
/// the book a search, as of an object whose bits a later serial shares.
#[derive(Drop)]
pub(crate) struct Keys {
    /// The slab's numbers of the objects, by place.
    own: Vec<usize>,
    serials: Slab<u64>,
    /// The place of the last object whose serial has these bits.
    recent: [usize; ROW],
}

impl Keys {
    /// Room for the places of `room` objects; no more memory is taken later.
    pub(crate) fn new(alloc: Global, room: usize) -> Result<Keys, AllocError> {
        let own = Vec::with_capacity(alloc, room)?;
        let serials = Slab::with_capacity(alloc, room)?;
        Ok(Keys {
            own,
            serials,
            recent: [0; ROW],
        })
    }

    /// Where the object with this serial is likely to stand.
    #[inline(always)]
    pub(crate) fn place(&self, serial: u64) -> usize {
        self.recent[serial as usize % ROW]
    }

    fn own(&self, place: usize) -> usize {
        match self.own.get(place) {
            Some(number) => *number,
            None => 0,
        }
    }

    fn serial(&self, number: usize) -> Option<u64> {
        self.serials.get(number).copied()
    }

    /// The object with this serial comes to this place, the last.
    pub(crate) fn add(&mut self, place: usize, serial: u64) {
        if self.serials.len() < self.serials.capacity() && self.own.len() < self.own.capacity() {
            let number = self.serials.insert_reserved(serial);
            let _ = self.own.push(number);
            self.note(serial, place);
        }
    }

    fn note(&mut self, serial: u64, place: usize) {
        self.recent[serial as usize % ROW] = place;
    }

    /// The object at this place goes, and those after it move down by one.
    pub(crate) fn remove(&mut self, place: usize) {
        if place < self.own.len() {
            let number = self.own.remove(place);
            let _gone = self.serials.try_remove(number);
            self.move_down(place);
        }
    }

    fn move_down(&mut self, from: usize) {
        for place in from..self.own.len() {
            if let Some(serial) = self.serial(self.own(place)) {
                self.note(serial, place);
            }
        }
    }
}
