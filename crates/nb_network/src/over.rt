ghost use Rattle.std.specs.Prelude.{◌≡◌, IfOk};

use nb_image::Body;
use nb_terms::{Cause, NoMemory};
use nb_wire::{Ip4, Text};
use std::alloc::Global;
use std::marker::Model;

/// An open that has ended, and what it has found.
#[derive(Drop)]
pub struct HasEnded {
    /// Its number.
    pub number: u16,
    /// Why.
    pub cause: Cause,
    /// The file that it fetched, of one that fetches (RFC 1350, RFC 9110).
    pub body: Option<Body>,
    /// The URI where that is instead, of one that was moved (RFC 9110, section 15.4).
    pub moved: Option<Text>,
    /// The acknowledgement of a lease (RFC 2131).
    pub bytes: Option<Text>,
    /// The address of a name (RFC 1035).
    pub address: Option<Ip4>,
    /// It is a drive that has answered.
    pub answered: bool,
    /// The bytes of the blocks that it has read last as a drive (RFC 7143), if all of them have come.
    pub read: Option<Text>,
}

/// The same at one place of memory, where it stays: moving it moves its address alone.
#[derive(Drop)]
pub struct KeptEnd {
    place: Box<HasEnded>,
}

impl Model for KeptEnd {
    ghost use Rattle.nb_network.specs.declared.over.HasEnded.{HasEnded};

    ghost Value = { HasEnded };

    ghost view = { λ k. k.place.value };
}

impl KeptEnd {
    /// Keeps it. An error where memory runs out.
    pub fn of(alloc: Global, ended: HasEnded) -> Result<KeptEnd, NoMemory>
        ensures { IfOk result (λ k. k ≡ ended) }
    {
        Ok(KeptEnd {
            place: Box::new(alloc, ended)?,
        })
    }

    /// What was kept.
    pub fn into_inner(self) -> HasEnded
        ensures { result ≡ self }
    {
        Box::into_inner(self.place)
    }
}
