//! The neighbours' table.

use arrayvec::ArrayVec;
use nb_wire::{Ip4, Mac};
use std::marker::Model;

/// The most neighbours that are known at a time.
pub const MAX_NEIGHBOURS: usize = 16;

/// A host on the link and its hardware address.
#[derive(Clone, Copy)]
pub struct Neighbour {
    /// The host's address.
    pub ip: Ip4,
    /// The hardware address of its interface.
    pub mac: Mac,
}

impl Default for Neighbour {
    /// Nobody, which fills the places of a table that aren't used.
    fn default() -> Neighbour {
        Neighbour {
            ip: Ip4(0),
            mac: Mac([0; 6]),
        }
    }
}

/// The neighbours, in the order in which they were put in.
#[derive(Drop)]
pub(crate) struct Neighbours {
    places: ArrayVec<Neighbour, MAX_NEIGHBOURS>,
}

impl Model for Neighbours {
    ghost use Rattle.std.specs.Prelude.{List};
    ghost use Rattle.nb_stack.specs.declared.neighbours.Neighbour.{Neighbour};

    ghost Value = { List Neighbour };

    ghost view = { λ n. n.places.items };
}

impl Neighbours {
    ghost use Rattle.std.specs.Prelude.{◌≡◌, ◌<◌, [], length, slice_set};
    ghost use Rattle.nb_stack.specs.Near.{neighbour_place, mac_of, put_neighbour, learned};

    pub(crate) fn new() -> Neighbours
        ensures { result ≡ [] }
    {
        Neighbours {
            places: ArrayVec::new(),
        }
    }

    // The hardware address of this host, if it is known.
    pub(crate) fn mac(&self, ip: Ip4) -> Option<Mac>
        ensures { result ≡ mac_of ip self.now }
    {
        self.places.iter().find(|n| n.ip.0 == ip.0).map(|n| n.mac)
    }

    // Renews the neighbour in its place, or gives it one where it is `welcome`.
    pub(crate) fn learn(&mut self, neighbour: Neighbour, welcome: bool)
        ensures { self.new ≡ learned (neighbour_place neighbour.ip self.old) welcome neighbour self.old }
    {
        match self.place(neighbour.ip) {
            Some(place) => self.renew(place, neighbour),
            None => {
                if welcome {
                    self.put(neighbour);
                }
            }
        }
    }

    fn place(&self, ip: Ip4) -> Option<usize>
        ensures { result ≡ neighbour_place ip self.now }
    {
        self.places.iter().position(|n| n.ip.0 == ip.0)
    }

    fn renew(&mut self, place: usize, neighbour: Neighbour)
        requires { place < length self.old }
        ensures { self.new ≡ slice_set self.old place neighbour }
    {
        self.places[place] = neighbour;
    }

    fn put(&mut self, neighbour: Neighbour)
        ensures { self.new ≡ put_neighbour neighbour self.old }
    {
        if self.places.is_full() {
            self.places.remove(0);
        }
        self.places.push(neighbour);
    }
}
