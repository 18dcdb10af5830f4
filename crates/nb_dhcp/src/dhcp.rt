//! The core.

use crate::asker::Asker;
use crate::state::{Phase, State};
use nb_terms::Acts;
use nb_wire::{Ip4, Mac};
use std::marker::Model;

/// A client that asks for a lease. It takes no memory.
#[derive(Drop)]
pub struct Dhcp {
    state: State,
}

impl Model for Dhcp {
    ghost use Rattle.nb_dhcp.specs.declared.state.State.{State};

    ghost Value = { State };

    ghost view = { λ d. d.state };
}

impl Dhcp {
    ghost use Rattle.std.specs.Prelude.{◌≡◌, ◌≤◌, ◌∷◌, ◌++◌, [], ℕ, List, length, None, Some, true, false};
    ghost use Rattle.std.specs.Option.{option_copied};
    ghost use Rattle.nb_dhcp.specs.declared.asker.Asker.{Asker};
    ghost use Rattle.nb_dhcp.specs.Acting.{no_acts, lease_asking, AsksSimply};
    ghost use Rattle.nb_dhcp.specs.History.{LeaseEntry, lease_entry, replied, elapsed, handed_body, all_handed, acknowledgement_in, is_done};
    ghost use Rattle.nb_dhcp.specs.LeaseStands.{LeaseStands};

    /// Asks all servers for an offer, with this transaction's number. The open's number isn't needed here.
    pub fn start(
        _number: u16,
        mac: Mac,
        uuid: [u8; 16],
        arch: u16,
        xid: u32,
        now: u64,
        acts: &mut Acts,
    ) -> Dhcp
        // The DISCOVER is sent, under a timer, and no call was made yet.
        ensures discover { acts.new ≡ lease_asking (record { mac = mac; uuid = uuid; arch = arch; xid = xid }) None 1 }
        ensures stands { LeaseStands (record { mac = mac; uuid = uuid; arch = arch; xid = xid }) now result [] }
        ensures simple { AsksSimply acts.new }
    {
        let asker = Asker {
            mac,
            uuid,
            arch,
            xid,
        };
        let state = State::asking(asker, now);
        acts.clear();
        state.send(1, acts);
        Dhcp { state }
    }

    /// A datagram of the client's port; `rec` is its record's number. It doesn't matter from which address it
    /// comes.
    pub fn message(&mut self, rec: u32, _src: Ip4, body: &[u8], now: u64, acts: &mut Acts)
        requires { length body.now ≤ 1480 }
        // With this call and what it asks, the core stands for one call more. `LeaseStands` has what it
        // promises of all of them.
        ensures stands { (a : Asker) (start : ℕ) (h : List LeaseEntry) → LeaseStands a start self.old h → is_done h ≡ false → LeaseStands a start self.new (h ++ lease_entry (replied (handed_body rec body.now) now) acts.new ∷ []) }
        // It asks for at most one message, by UDP, and gives no bytes up.
        ensures simple { AsksSimply acts.new }
        // An acknowledgement that comes by this call is the datagram's body.
        ensures granted { (a : Asker) (start : ℕ) (h : List LeaseEntry) (bytes : List ℕ) → LeaseStands a start self.old h → is_done h ≡ false → acknowledgement_in a (all_handed (h ++ lease_entry (replied (handed_body rec body.now) now) acts.new ∷ [])) ≡ Some bytes → bytes ≡ body.now }
        // After its end it ignores every call.
        ensures ended { (a : Asker) (start : ℕ) (h : List LeaseEntry) → LeaseStands a start self.old h → is_done h ≡ true → LeaseStands a start self.new h × (acts.new ≡ no_acts) }
    {
        acts.clear();
        self.state.reply(rec, body, now, acts);
    }

    /// It is this time, in milliseconds since the start of the run.
    pub fn time(&mut self, now: u64, acts: &mut Acts)
        ensures stands { (a : Asker) (start : ℕ) (h : List LeaseEntry) → LeaseStands a start self.old h → is_done h ≡ false → LeaseStands a start self.new (h ++ lease_entry (elapsed now) acts.new ∷ []) }
        ensures simple { AsksSimply acts.new }
        // None has come while it goes on.
        ensures ungranted { (a : Asker) (start : ℕ) (h : List LeaseEntry) → LeaseStands a start self.old h → is_done h ≡ false → acknowledgement_in a (all_handed (h ++ lease_entry (elapsed now) acts.new ∷ [])) ≡ None }
        ensures ended { (a : Asker) (start : ℕ) (h : List LeaseEntry) → LeaseStands a start self.old h → is_done h ≡ true → LeaseStands a start self.new h × (acts.new ≡ no_acts) }
    {
        acts.clear();
        self.state.tick(now, acts);
    }

    /// The acknowledgement's bytes. None exactly where none has come.
    pub fn ack(&self) -> Option<&[u8]>
        ensures { (a : Asker) (start : ℕ) (h : List LeaseEntry) → LeaseStands a start self.now h → option_copied result ≡ acknowledgement_in a (all_handed h) }
    {
        match self.state.phase {
            Phase::Bound => Some(self.state.ack.as_slice()),
            Phase::Selecting | Phase::Requesting(_) | Phase::Ended => None,
        }
    }
}
