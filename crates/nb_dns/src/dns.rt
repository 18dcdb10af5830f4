//! The look-up of one name.

use crate::state::State;
use crate::written::wire_name;
use nb_terms::Acts;
use nb_wire::Ip4;
use std::marker::Model;

/// The name has an empty label, one dot at its end aside, a label over 63 bytes, or more than 253 bytes
/// without that dot.
#[derive(Clone, Copy, Debug, PartialEq, Eq, Drop)]
pub struct BadName;

/// The look-up of one name's address. It takes no memory.
#[derive(Drop)]
pub struct Dns {
    state: State,
}

impl Model for Dns {
    ghost use Rattle.nb_dns.specs.declared.state.State.{State};

    ghost Value = { State };

    ghost view = { λ d. d.state };
}

impl Dns {
    ghost use Rattle.std.specs.Prelude.{◌≡◌, ◌∷◌, ◌++◌, [], ℕ, List, IsErr, IfOk, OnErr, OnOk, None, true, false};
    ghost use Rattle.nb_dnsmsg.specs.declared.answer.Answer.{Answer};
    ghost use Rattle.nb_dns.specs.WrittenNames.{IsLookupName};
    ghost use Rattle.nb_dns.specs.Lookups.{AsksOneQuery, Lookup, lookup, query_to, asks_lookup_nothing, asks_lookup_try, address_given};
    ghost use Rattle.nb_dns.specs.LookupCalls.{LookupEntry, lookup_entry, arrived, clocked, dns_datagram, datagrams, lookup_ended, IsSilentCall, FirstReply};
    ghost use Rattle.nb_dns.specs.LookupReplies.{address_found};
    ghost use Rattle.nb_dns.specs.LookupStands.{LookupStands};

    /// Asks the server for the addresses of a name. The open's number isn't needed here.
    pub fn start(
        _number: u16,
        server: Ip4,
        own_port: u16,
        id: u16,
        name: &[u8],
        now: u64,
        acts: &mut Acts,
    ) -> Result<Dns, BadName>
        ensures bad_name { IsErr result → IsLookupName name.now → ⊥ }
        ensures good_name { OnOk result (IsLookupName name.now) }
        ensures refused { OnErr result (acts.new ≡ asks_lookup_nothing) }
        // The query is sent, under a timer, and no call stands after it.
        ensures query { OnOk result (acts.new ≡ asks_lookup_try (query_to (lookup server own_port id name.now)) 1) }
        ensures stands { IfOk result (λ d. LookupStands (lookup server own_port id name.now) now d []) }
        ensures simple { AsksOneQuery acts.new }
    {
        acts.clear();
        match wire_name(name) {
            Some(name) => {
                let state = State::begun(server, own_port, id, name, now);
                state.ask(1, acts);
                Ok(Dns { state })
            }
            None => Err(BadName),
        }
    }

    /// A datagram of the look-up's port, from port 53 of this address; `rec` is its record's number. The time
    /// isn't needed here.
    pub fn message(&mut self, rec: u32, src: Ip4, body: &[u8], now: u64, acts: &mut Acts)
        // With this call and what it asks, the look-up stands for one call more. `LookupStands` has what it
        // promises of all of them.
        ensures stands { (l : Lookup) (start : ℕ) (h : List LookupEntry) → LookupStands l start self.old h → lookup_ended h ≡ false → LookupStands l start self.new (h ++ lookup_entry (arrived (dns_datagram rec src body.now) now) acts.new ∷ []) }
        // It asks for at most one message, by UDP, and gives no bytes up.
        ensures simple { AsksOneQuery acts.new }
        // After its end it ignores every call.
        ensures ended { (l : Lookup) (start : ℕ) (h : List LookupEntry) → LookupStands l start self.old h → lookup_ended h ≡ true → LookupStands l start self.new h × (acts.new ≡ asks_lookup_nothing) }
    {
        acts.clear();
        self.state.datagram(rec, src, body, acts);
    }

    /// It is this time, in milliseconds since the start of the run.
    pub fn time(&mut self, now: u64, acts: &mut Acts)
        ensures stands { (l : Lookup) (start : ℕ) (h : List LookupEntry) → LookupStands l start self.old h → lookup_ended h ≡ false → LookupStands l start self.new (h ++ lookup_entry (clocked now) acts.new ∷ []) }
        ensures simple { AsksOneQuery acts.new }
        ensures ended { (l : Lookup) (start : ℕ) (h : List LookupEntry) → LookupStands l start self.old h → lookup_ended h ≡ true → LookupStands l start self.new h × (acts.new ≡ asks_lookup_nothing) }
    {
        acts.clear();
        self.state.clock(now, acts);
    }

    /// The address that was found, also after the end. None as long as none was.
    pub fn address(&self) -> Option<Ip4>
        // It is that of the first reply, where this has a response code of 0.
        ensures found { (l : Lookup) (start : ℕ) (h : List LookupEntry) (a : Answer) → LookupStands l start self.now h → FirstReply l (datagrams h) a → result ≡ address_given a }
        ensures none { (l : Lookup) (start : ℕ) (h : List LookupEntry) → LookupStands l start self.now h → IsSilentCall l (datagrams h) → result ≡ None }
        // In all, what arrived determines it.
        ensures by_calls { (l : Lookup) (start : ℕ) (h : List LookupEntry) → LookupStands l start self.now h → result ≡ address_found l (datagrams h) }
    {
        self.state.phase.address()
    }
}
