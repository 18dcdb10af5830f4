//! The ports that are bound.

use arrayvec::ArrayVec;
use nb_wire::Full;
use std::marker::Model;

/// The most ports that are bound at a time.
pub const MAX_PORTS: usize = 64;

/// A port of a protocol, and who gets the messages that come to it.
#[derive(Clone, Copy, Debug, Default, PartialEq, Eq)]
pub struct Port {
    /// The protocol, as an IPv4 header names it.
    pub proto: u8,
    /// The port's number.
    pub number: u16,
    /// Who gets its messages.
    pub to: u64,
}

/// The ports, in the order in which they were bound.
#[derive(Drop)]
pub(crate) struct Ports {
    bound: ArrayVec<Port, MAX_PORTS>,
}

impl Model for Ports {
    ghost use Rattle.std.specs.Prelude.{List};
    ghost use Rattle.nb_stack.specs.declared.ports.Port.{Port};

    ghost Value = { List Port };

    ghost view = { λ p. p.bound.items };
}

impl Port {
    ghost use Rattle.std.specs.Prelude.{◌≡◌};
    ghost use Rattle.nb_stack.specs.Bound.{is_port};

    fn is(&self, proto: u8, number: u16) -> bool
        ensures { result ≡ is_port proto number self.now }
    {
        self.proto == proto && self.number == number
    }
}

impl Ports {
    ghost use Rattle.std.specs.Prelude.{◌≡◌, ◌++◌, ◌∷◌, ◌↔◌, [], length, IsErr, OnOk, OnErr};
    ghost use Rattle.nb_stack.specs.Bound.{owner_of, without};

    pub(crate) fn new() -> Ports
        ensures { result ≡ [] }
    {
        Ports {
            bound: ArrayVec::new(),
        }
    }

    // Who gets what comes to this port, if anybody does.
    pub(crate) fn owner(&self, proto: u8, number: u16) -> Option<u64>
        ensures { result ≡ owner_of proto number self.now }
    {
        self.bound
            .iter()
            .find(|port| port.is(proto, number))
            .map(|port| port.to)
    }

    pub(crate) fn bind(&mut self, port: Port) -> Result<(), Full>
        ensures full { IsErr result ↔ (length self.old ≡ 64) }
        ensures bound { OnOk result (self.new ≡ self.old ++ port ∷ []) }
        ensures refused { OnErr result (self.new ≡ self.old) }
    {
        if self.bound.is_full() {
            return Err(Full);
        }
        self.bound.push(port);
        Ok(())
    }

    pub(crate) fn unbind(&mut self, proto: u8, number: u16)
        ensures { self.new ≡ without proto number self.old }
    {
        self.bound.retain(|port| !port.is(proto, number));
    }
}
