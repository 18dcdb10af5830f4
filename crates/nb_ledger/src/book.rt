ghost use Rattle.std.specs.Prelude.{◌≡◌, ◌+◌, ◌-◌, ◌<◌, ◌≤◌, ◌^◌, ◌&&◌, ◌==◌, not, true, false, []};
ghost use Rattle.std.specs.Prelude.{IfOk, IfSome, IfNone, ℕ, length, Some, is_some, slice_set};
ghost use Rattle.std.specs.Prelude.{vec_len, IsTrue, IsSome, ◌↔◌, nat_lt, slice_get};
ghost use Rattle.std.specs.Bool.{OnTrue};
ghost use Rattle.nb_ledger.specs.declared.port.PortState.TheVariants.{Open};
ghost use Rattle.std.specs.Option.{option_copied};
ghost use Rattle.std.specs.Vec.{vec_capacity};
ghost use Rattle.nb_ledger.specs.Ledger.{object_lives, holds, busy, rank, port, place, place_in, found};
ghost use Rattle.nb_ledger.specs.Ledger.{ties, unused, least_above, open_count, IsLeastAbove};

use crate::keys::Keys;
use crate::{ObjId, Object, Port, PortState};
use nb_terms::NoMemory;
use std::alloc::Global;
use std::marker::Model;

/// The objects that live, by rising serial, how many were made, and where each of them is likely to stand,
/// by which it is found without a search. After `new` it takes no memory.
#[derive(Drop)]
pub struct Book {
    pub(crate) made: u64,
    pub(crate) room: usize,
    pub(crate) objects: Vec<Object>,
    pub(crate) keys: Keys,
}

impl Model for Book {
    ghost use Rattle.nb_ledger.specs.Ledger.{Ledger, IsRising};
    ghost use Rattle.std.specs.Prelude.{◌≤◌, vec_len};
    ghost use Rattle.std.specs.Vec.{vec_capacity};
    ghost use Rattle.nb_ledger.specs.GraphRun.{link_count};

    ghost Value = { Ledger };

    ghost view = { λ b. record { made = b.made; room = b.room; objects = b.objects.items } };

    ghost invariant = { λ b. IsRising 0 b.objects.items b.made × (vec_len b.objects ≤ b.room) ×
        (b.room ≤ vec_capacity b.objects) };
}

impl Book {
    /// An empty book for `room` objects.
    pub fn new(alloc: Global, room: usize) -> Result<Book, NoMemory>
        ensures { IfOk result (λ b. b ≡ record { made = 0; room = room; objects = [] }) }
    {
        let objects = Vec::with_capacity(alloc, room)?;
        let keys = Keys::new(alloc, room)?;
        Ok(Book {
            made: 0,
            room,
            objects,
            keys,
        })
    }

    /// How many objects live.
    pub fn len(&self) -> usize
        ensures { result ≡ length self.now.objects }
    {
        self.objects.len()
    }

    /// How many may live.
    pub fn room(&self) -> usize
        ensures { result ≡ self.now.room }
    {
        self.room
    }

    /// The last serial that was given, 0 before the first.
    pub fn made(&self) -> u64
        ensures { result ≡ self.now.made }
    {
        self.made
    }

    /// Where an object stands, or how many live where it is dead.
    pub fn place(&self, id: ObjId) -> usize
        ensures { result ≡ place self.now id.0 }
    {
        place_among(&self.objects, id)
    }

    /// The key of an object: where it is likely to stand. With it calls search nothing where it is right.
    #[inline(always)]
    pub fn key(&self, id: ObjId) -> usize {
        self.keys.place(id.0)
    }

    /// Where an object stands, by its key, or how many live where it is dead.
    #[inline(always)]
    pub fn place_at(&self, id: ObjId, key: usize) -> usize
        ensures { result ≡ place self.now id.0 }
    {
        if stands_at(&self.objects, id, key) {
            key
        } else {
            self.place(id)
        }
    }

    /// Where an object stands, found by its key.
    #[inline(always)]
    pub fn seek(&self, id: ObjId) -> usize
        ensures { result ≡ place self.now id.0 }
    {
        self.place_at(id, self.key(id))
    }

    /// Whether it lives.
    #[tactic(auto, unfolding(crate::specs::Ledger::object_lives))]
    pub fn is_live(&self, id: ObjId) -> bool
        ensures { result ≡ object_lives self.now id.0 }
    {
        match self.find(id) {
            Some(_) => true,
            None => false,
        }
    }

    /// The book's entry of an object, by one search.
    fn find(&self, id: ObjId) -> Option<&Object>
        ensures is { option_copied result ≡ found self.now.objects id.0 }
        ensures slots { IfSome result (λ o. length o.now.ports ≡ 4) }
    {
        find_among(&self.objects, id)
    }

    /// The same by its key.
    #[inline(always)]
    fn find_at(&self, id: ObjId, key: usize) -> Option<&Object>
        ensures is { option_copied result ≡ found self.now.objects id.0 }
        ensures slots { IfSome result (λ o. length o.now.ports ≡ 4) }
    {
        self.find_in(id, self.place_at(id, key))
    }

    /// The same by its place.
    #[inline(always)]
    fn find_in(&self, id: ObjId, index: usize) -> Option<&Object>
        requires { index ≡ place self.now id.0 }
        ensures is { option_copied result ≡ found self.now.objects id.0 }
        ensures slots { IfSome result (λ o. length o.now.ports ≡ 4) }
    {
        object_at(&self.objects, index)
    }

    /// The holds of a live object.
    #[tactic(auto, unfolding(crate::specs::Ledger::holds))]
    pub fn holds(&self, id: ObjId) -> u32
        requires { object_lives self.now id.0 ≡ true }
        ensures { result ≡ holds self.now id.0 }
    {
        match self.find(id) {
            Some(object) => object.holds,
            None => 0,
        }
    }

    /// Whether an object has a hold.
    #[tactic(auto, unfolding(crate::specs::Ledger::holds))]
    pub fn is_held(&self, id: ObjId) -> bool
        ensures { result ≡ nat_lt 0 (holds self.now id.0) }
    {
        match self.find(id) {
            Some(object) => object.holds > 0,
            None => false,
        }
    }

    /// The rank of a live object.
    #[tactic(auto, unfolding(crate::specs::Ledger::rank))]
    pub fn rank(&self, id: ObjId) -> u8
        requires { object_lives self.now id.0 ≡ true }
        ensures { result ≡ rank self.now id.0 }
    {
        match self.find(id) {
            Some(object) => object.rank,
            None => 0,
        }
    }

    /// The state of a port: Closed where the object is dead or has no such slot.
    #[tactic(auto, unfolding(crate::specs::Ledger::port))]
    pub fn port(&self, at: Port) -> PortState
        ensures { result ≡ port self.now at.obj.0 at.slot }
    {
        match self.find(at.obj) {
            Some(object) => object.port(at.slot),
            None => PortState::Closed,
        }
    }

    /// The same by its object's key.
    #[tactic(auto, unfolding(crate::specs::Ledger::port))]
    pub fn port_at(&self, at: Port, key: usize) -> PortState
        ensures { result ≡ port self.now at.obj.0 at.slot }
    {
        match self.find_at(at.obj, key) {
            Some(object) => object.port(at.slot),
            None => PortState::Closed,
        }
    }

    /// The same by its object's place.
    #[inline(always)]
    #[tactic(auto, unfolding(crate::specs::Ledger::port))]
    pub fn port_in(&self, at: Port, index: usize) -> PortState
        requires { index ≡ place self.now at.obj.0 }
        ensures { result ≡ port self.now at.obj.0 at.slot }
    {
        match self.find_in(at.obj, index) {
            Some(object) => object.port(at.slot),
            None => PortState::Closed,
        }
    }

    /// The same of a live object, by its place.
    #[inline(always)]
    pub fn port_of_live(&self, at: Port, index: usize) -> PortState
        requires lives { object_lives self.now at.obj.0 ≡ true }
        requires place { index ≡ place self.now at.obj.0 }
        requires slot { at.slot < 4 }
        ensures { result ≡ port self.now at.obj.0 at.slot }
    {
        self.objects[index].port_below_four(at.slot)
    }

    /// Whether a port is open and has no link.
    pub fn is_free(&self, at: Port) -> bool
        ensures { IsTrue result ↔ (port self.now at.obj.0 at.slot ≡ Open) }
    {
        self.is_free_at(at, self.key(at.obj))
    }

    /// The same by its object's place.
    #[inline(always)]
    pub fn is_free_in(&self, at: Port, index: usize) -> bool
        requires { index ≡ place self.now at.obj.0 }
        ensures { IsTrue result ↔ (port self.now at.obj.0 at.slot ≡ Open) }
    {
        match self.port_in(at, index) {
            PortState::Open => true,
            PortState::Linked(_) => false,
            PortState::Leaving(_) => false,
            PortState::Closed => false,
        }
    }

    /// The same of a live object, by its place.
    #[inline(always)]
    pub fn is_free_of_live(&self, at: Port, index: usize) -> bool
        requires lives { object_lives self.now at.obj.0 ≡ true }
        requires place { index ≡ place self.now at.obj.0 }
        requires slot { at.slot < 4 }
        ensures { IsTrue result ↔ (port self.now at.obj.0 at.slot ≡ Open) }
    {
        match self.port_of_live(at, index) {
            PortState::Open => true,
            PortState::Linked(_) => false,
            PortState::Leaving(_) => false,
            PortState::Closed => false,
        }
    }

    /// The same by its object's key.
    pub fn is_free_at(&self, at: Port, key: usize) -> bool
        ensures { IsTrue result ↔ (port self.now at.obj.0 at.slot ≡ Open) }
    {
        match self.port_at(at, key) {
            PortState::Open => true,
            PortState::Linked(_) => false,
            PortState::Leaving(_) => false,
            PortState::Closed => false,
        }
    }

    /// Whether a port is open, linked or not, by its object's key.
    pub fn is_open_at(&self, at: Port, key: usize) -> bool
        ensures { result ≡ nat_lt 0 (open_count (port self.now at.obj.0 at.slot)) }
    {
        match self.port_at(at, key) {
            PortState::Open => true,
            PortState::Linked(_) => true,
            PortState::Leaving(_) => false,
            PortState::Closed => false,
        }
    }

    /// Whether a live object has no hold, no link and no entry that runs, by its key.
    #[inline(always)]
    pub fn is_unused_at(&self, id: ObjId, key: usize) -> bool
        requires { object_lives self.now id.0 ≡ true }
        ensures { result ≡ unused self.now id.0 }
    {
        match self.find_at(id, key) {
            Some(object) => object.is_unused(),
            None => true,
        }
    }

    /// The least serial of a live object above `after`.
    pub fn above(&self, after: u64) -> Option<ObjId>
        ensures none { IfNone result ((x : ℕ) → after < x → object_lives self.now x ≡ false) }
        ensures some { IfSome result (IsLeastAbove self.now after) }
        ensures first { object_lives self.now 0 ≡ false }
    {
        first_above(&self.objects, after)
    }
}

#[cold]
#[inline(never)]
fn place_among(objects: &[Object], id: ObjId) -> usize
    ensures { result ≡ place_in objects.now id.0 }
{
    for (at, object) in objects.iter().enumerate() {
        if object.id.0 == id.0 {
            return at;
        }
    }
    objects.len()
}

#[inline(always)]
fn object_at(objects: &[Object], place: usize) -> Option<&Object>
    ensures { option_copied result ≡ slice_get objects.now place }
{
    objects.get(place)
}

/// Whether an object stands at this place.
#[inline(always)]
fn stands_at(objects: &[Object], id: ObjId, place: usize) -> bool
    ensures { OnTrue result (IfSome (slice_get objects.now place) (λ o. o.id.0 ≡ id.0)
        × IsSome (slice_get objects.now place)) }
{
    match objects.get(place) {
        Some(object) => object.id.0 == id.0,
        None => false,
    }
}

fn first_above(objects: &[Object], after: u64) -> Option<ObjId>
    ensures { result ≡ least_above objects.now after }
{
    for object in objects {
        if after < object.id.0 {
            return Some(object.id);
        }
    }
    None
}

fn find_among(objects: &[Object], id: ObjId) -> Option<&Object>
    ensures { option_copied result ≡ found objects.now id.0 }
{
    for object in objects {
        if object.id.0 == id.0 {
            return Some(object);
        }
    }
    None
}
