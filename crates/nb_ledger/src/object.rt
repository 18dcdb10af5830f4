use crate::{ObjId, PortState};

/// What the book has of an object. Its rank bounds those below it; `busy` says that an entry of it
/// runs.
#[derive(Clone, Copy, Debug, PartialEq, Eq)]
pub struct Object {
    pub id: ObjId,
    pub rank: u8,
    pub busy: bool,
    pub holds: u32,
    pub ports: [PortState; 4],
}

ghost use Rattle.std.specs.Prelude.{◌≡◌, ◌<◌, ◌≤◌, length};
ghost use Rattle.nb_ledger.specs.GraphRun.{link_count};
ghost use Rattle.nb_ledger.specs.Ledger.{object_port, object_ties, object_unused};

impl Object {
    /// The state of a port: Closed where there is no such slot.
    #[inline(always)]
    pub(crate) fn port(&self, slot: u8) -> PortState
        requires { length self.now.ports ≡ 4 }
        ensures { result ≡ object_port slot self.now }
    {
        if slot < 4 {
            self.ports[slot as usize]
        } else {
            PortState::Closed
        }
    }

    /// The same of a slot that there is.
    #[inline(always)]
    pub(crate) fn port_below_four(&self, slot: u8) -> PortState
        requires ports { length self.now.ports ≡ 4 }
        requires slot { slot < 4 }
        ensures { result ≡ object_port slot self.now }
    {
        self.ports[slot as usize]
    }

    /// Whether it has no hold, no link and no entry that runs.
    #[inline(always)]
    pub(crate) fn is_unused(&self) -> bool
        requires { length self.now.ports ≡ 4 }
        ensures { result ≡ object_unused self.now }
    {
        self.holds == 0 && self.ties() == 0 && !self.busy
    }

    /// The number of its links.
    #[inline(always)]
    fn ties(&self) -> u8
        requires { length self.now.ports ≡ 4 }
        ensures { result ≡ object_ties self.now }
    {
        self.tie(0) + self.tie(1) + self.tie(2) + self.tie(3)
    }

    #[inline(always)]
    fn tie(&self, slot: u8) -> u8
        requires { length self.now.ports ≡ 4 }
        ensures is { result ≡ link_count (object_port slot self.now) }
        ensures small { result ≤ 1 }
    {
        match self.port(slot) {
            PortState::Open => 0,
            PortState::Linked(_) => 1,
            PortState::Leaving(_) => 1,
            PortState::Closed => 0,
        }
    }
}
