//! The ping of one host.

use crate::state::State;
use nb_terms::Acts;
use nb_wire::Ip4;
use std::marker::Model;

/// The ping of one host. It takes no memory.
#[derive(Drop)]
pub struct Ping {
    state: State,
}

impl Model for Ping {
    ghost use Rattle.nb_ping.specs.declared.state.State.{State};

    ghost Value = { State };

    ghost view = { λ p. p.state };
}

impl Ping {
    ghost use Rattle.std.specs.Prelude.{◌≡◌, ◌∷◌, ◌++◌, [], ℕ, List, true, false};
    ghost use Rattle.nb_ping.specs.Pings.{AsksOneEcho, Pinged, pinged, echo_request, asks_nothing, asks_try};
    ghost use Rattle.nb_ping.specs.PingCalls.{PingEntry, ping_entry, echoed, waited, echo_reply, ping_ended};
    ghost use Rattle.nb_ping.specs.PingStands.{PingStands};

    /// Asks the host for an echo with this identifier (RFC 792, page 14). The open's number isn't needed here.
    pub fn start(_number: u16, host: Ip4, ident: u16, now: u64, acts: &mut Acts) -> Ping
        // The request is sent, under a timer, and no call stands after it.
        ensures request { acts.new ≡ asks_try (echo_request (pinged host ident)) 1 }
        ensures stands { PingStands (pinged host ident) now result [] }
        ensures simple { AsksOneEcho acts.new }
    {
        acts.clear();
        let state = State::begun(host, ident, now);
        state.ask(1, acts);
        Ping { state }
    }

    /// An echo reply comes, from this address and with this identifier. The time isn't needed here.
    pub fn message(&mut self, src: Ip4, ident: u16, now: u64, acts: &mut Acts)
        // With this call and what it asks, the ping stands for one call more. `PingStands` has what it
        // promises of all of them.
        ensures stands { (p : Pinged) (start : ℕ) (h : List PingEntry) → PingStands p start self.old h → ping_ended h ≡ false → PingStands p start self.new (h ++ ping_entry (echoed (echo_reply src ident) now) acts.new ∷ []) }
        // It asks for at most one message, an echo, and gives no bytes up.
        ensures simple { AsksOneEcho acts.new }
        // After its end it ignores every call.
        ensures ended { (p : Pinged) (start : ℕ) (h : List PingEntry) → PingStands p start self.old h → ping_ended h ≡ true → PingStands p start self.new h × (acts.new ≡ asks_nothing) }
    {
        acts.clear();
        self.state.reply(src, ident, acts);
    }

    /// It is this time, in milliseconds since the start of the run.
    pub fn time(&mut self, now: u64, acts: &mut Acts)
        ensures stands { (p : Pinged) (start : ℕ) (h : List PingEntry) → PingStands p start self.old h → ping_ended h ≡ false → PingStands p start self.new (h ++ ping_entry (waited now) acts.new ∷ []) }
        ensures simple { AsksOneEcho acts.new }
        ensures ended { (p : Pinged) (start : ℕ) (h : List PingEntry) → PingStands p start self.old h → ping_ended h ≡ true → PingStands p start self.new h × (acts.new ≡ asks_nothing) }
    {
        acts.clear();
        self.state.clock(now, acts);
    }
}
