ghost use Rattle.std.specs.Prelude.{◌≡◌, IfOk};

use crate::Asked;
use nb_chains::Chain;
use nb_network::KeptEnd;
use nb_record::NoMemory;
use nb_runner::Onward;
use std::alloc::Global;
use std::marker::Model;

/// An open that a command waits for.
#[derive(Drop)]
pub struct Pending {
    /// The open's number.
    pub(crate) number: u16,
    /// What the command has asked for.
    pub(crate) asked: Asked,
    /// What waits beside it for the open that is next, of a look-up of a server's name alone.
    pub(crate) waits: Option<Chain>,
}

/// The same at one place of memory, where it stays: moving it moves its address alone.
#[derive(Drop)]
pub struct KeptPending {
    place: Box<Pending>,
}

/// What a command asks for next, once the server's name was looked up or its file was moved, and the object that has waited
/// for that, if one has.
#[derive(Drop)]
pub struct Next {
    pub(crate) onward: Onward,
    pub(crate) waits: Option<Chain>,
}

/// The same at one place of memory.
#[derive(Drop)]
pub struct KeptNext {
    place: Box<Next>,
}

/// What a command gets that has waited for an open.
#[derive(Drop)]
pub enum Answer {
    /// The open has ended.
    End(KeptEnd),
    /// The open is a drive's, which has answered, or has read what it was asked for, and lives on.
    Drive,
}

/// What a command waits for.
#[derive(Drop)]
pub enum Expected {
    /// The end of an open, or what a drive answers.
    Open(KeptPending),
    /// A time, in milliseconds since the run's start.
    Moment(u64),
}

impl Model for KeptPending {
    ghost use Rattle.nb_client.specs.declared.pending.Pending.{Pending};

    ghost Value = { Pending };

    ghost view = { λ k. k.place.value };
}

impl KeptPending {
    /// Keeps it. An error where memory runs out.
    pub fn of(alloc: Global, pending: Pending) -> Result<KeptPending, NoMemory>
        ensures { IfOk result (λ k. k ≡ pending) }
    {
        Ok(KeptPending {
            place: Box::new(alloc, pending)?,
        })
    }

    /// What was kept.
    pub fn into_inner(self) -> Pending
        ensures { result ≡ self }
    {
        Box::into_inner(self.place)
    }

    /// What was kept, lent.
    pub fn get(&self) -> &Pending
        ensures { result.now ≡ self.now }
    {
        &self.place
    }

    /// This waits beside it.
    pub fn set_waits(&mut self, waits: Option<Chain>)
        ensures { self.new ≡ record self.old { waits = waits } }
    {
        self.place.waits = waits;
    }
}

impl Model for KeptNext {
    ghost use Rattle.nb_client.specs.declared.pending.Next.{Next};

    ghost Value = { Next };

    ghost view = { λ k. k.place.value };
}

impl KeptNext {
    /// Keeps it. An error where memory runs out.
    pub fn of(alloc: Global, next: Next) -> Result<KeptNext, NoMemory>
        ensures { IfOk result (λ k. k ≡ next) }
    {
        Ok(KeptNext {
            place: Box::new(alloc, next)?,
        })
    }

    /// What was kept.
    pub fn into_inner(self) -> Next
        ensures { result ≡ self }
    {
        Box::into_inner(self.place)
    }

    /// What has waited, if anything has.
    pub fn waits(&self) -> Option<Chain>
        ensures { result ≡ self.now.waits }
    {
        self.place.waits
    }

    /// What is asked.
    pub fn onward(&self) -> &Onward
        ensures { result.now ≡ self.now.onward }
    {
        &self.place.onward
    }
}
