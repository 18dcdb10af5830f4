//! Raw memory: a place for each byte, never filled beforehand, of which what was written may be read.
//! No other module holds a pointer.

ghost use Rattle.std.specs.Prelude.{◌≡◌, ℕ, List, Option, None, ◌+◌, ◌^◌, ◌<◌, ◌≤◌, length, map, replicate, IfSome, Some};
ghost use base.Fml.{ftrue};
ghost use denote.RawPtr.{Ptr};
ghost use Rattle.std.specs.Mem.Slots.{slots_len, slots_items, SamePlaces, IsFull};
ghost use Rattle.nb_reasm.specs.Rooms.{room_type, room_owns, room_lent, written_at, run_of, IsWrittenRun};

use core::slots::Slots;
use std::alloc::Allocator;
use std::marker::{Model, PhantomData};
use std::slice;

/// Places of a byte each, side by side in memory.
pub(crate) struct Room {
    at: *mut u8,
    // what was last written to each place
    ghost bytes: { List (Option ℕ) },
    ghost small: { length bytes ≤ 2 ^ 20 },
}

impl Model for Room {
    ghost also_owns = { λ r. room_owns r.at r.bytes };

    ghost also_shares = { λ r _ κ. room_lent r.at r.bytes κ };
}

/// The right to give the memory of a room back to its allocator.
pub(crate) struct Lease<A: Allocator> {
    mark: PhantomData<*const A>,
    ghost alloc: { A },
    ghost at: { Ptr },
    ghost size: { ℕ },
}

impl<A: Allocator> Model for Lease<A> {
    ghost also_owns = { λ l. A.dealloc_token l.alloc (room_type l.size) l.at };

    ghost also_shares = { λ _ _ _. ftrue };
}

/// The slots with the bytes in them.
fn filled(mut slots: Slots<u8>, bytes: &[u8]) -> Slots<u8>
    requires { slots_len slots ≡ length bytes.now }
    ensures items { slots_items result ≡ bytes.now }
    ensures full { IsFull result }
    ensures places { SamePlaces slots result }
{
    slots.copy_in(0, bytes);
    slots
}

impl Room {
    /// So many places, to none of which a byte was written.
    pub(crate) fn new<A: Allocator>(alloc: &A, size: usize) -> Option<(Room, Lease<A>)>
        requires { size ≤ 2 ^ 20 }
        ensures { IfSome result (λ r. (r.0.bytes ≡ replicate size None) × (r.1.alloc ≡ alloc.now) × (r.1.at ≡ r.0.at) × (r.1.size ≡ size)) }
    {
        match alloc.allocate(size, 1) {
            Ok(at) => {
                let mark = PhantomData;
                Some((Room { at }, Lease { mark }))
            }
            Err(_) => None,
        }
    }

    /// Writes a run of places.
    pub(crate) fn write(&mut self, place: usize, bytes: &[u8])
        requires { place + length bytes.now ≤ length self.old.bytes }
        ensures { (self.new.at ≡ self.old.at) × (self.new.bytes ≡ written_at self.old.bytes place bytes.now) }
    {
        let len = bytes.len();
        unsafe {
            let slots = Slots::from_raw_parts(self.at.add(place), len);
            let _parts = filled(slots, bytes).into_raw_parts();
        }
    }

    /// Lends a run of places that were all written.
    pub(crate) fn lend(&self, place: usize, len: usize) -> &[u8]
        requires { IsWrittenRun self.now.bytes place len }
        ensures { run_of self.now.bytes place len ≡ map Some result.now }
    {
        unsafe { slice::from_raw_parts(self.at.add(place), len) }
    }

    /// Gives the memory back.
    pub(crate) fn free<A: Allocator>(self, lease: Lease<A>, alloc: &A, size: usize)
        requires { (lease.alloc ≡ alloc.now) × (lease.at ≡ self.at) × (lease.size ≡ size) × (size ≡ length self.bytes) }
    {
        let Room { at } = self;
        let Lease { mark: _ } = lease;
        unsafe { alloc.deallocate(at, size, 1) }
    }
}
