ghost use Rattle.std.specs.Prelude.{◌≡◌, IfOk};

use nb_image::Body;
use nb_terms::{Cause, NoMemory};
use nb_wire::Text;
use std::alloc::Global;
use std::marker::Model;

/// An open has ended.
#[derive(Drop)]
pub struct Ended {
    /// Why.
    pub cause: Cause,
    /// The file that it fetched, of one that fetches.
    pub body: Option<Body>,
    /// The URI where the file is instead, of one by HTTP that was moved (RFC 9110, section 15.4).
    pub moved: Option<Text>,
}

/// The same at one place of memory, where it stays: moving it moves its address alone.
#[derive(Drop)]
pub struct KeptEnded {
    place: Box<Ended>,
}

impl Model for KeptEnded {
    ghost use Rattle.nb_open.specs.declared.ended.Ended.{Ended};

    ghost Value = { Ended };

    ghost view = { λ k. k.place.value };
}

impl KeptEnded {
    /// Keeps it. An error where memory runs out.
    pub fn of(alloc: Global, ended: Ended) -> Result<KeptEnded, NoMemory>
        ensures { IfOk result (λ k. k ≡ ended) }
    {
        Ok(KeptEnded {
            place: Box::new(alloc, ended)?,
        })
    }

    /// What was kept.
    pub fn into_inner(self) -> Ended
        ensures { result ≡ self }
    {
        Box::into_inner(self.place)
    }

    /// Why.
    pub fn cause(&self) -> Cause
        ensures { result ≡ self.now.cause }
    {
        self.place.cause
    }
}
