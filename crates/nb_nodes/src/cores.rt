//! What an asker asks by: the cores of look-ups, leases and echoes.

ghost use Rattle.std.specs.Prelude.{◌≡◌, ◌≤◌, ℕ, List, Option, None, true, length, IfNone, IfSome};
ghost use Rattle.std.specs.Option.{is_some, option_map};
ghost use Rattle.nb_graph.specs.Trace.{said, silence};
ghost use Rattle.nb_dhcp.specs.declared.asker.Asker.{Asker as LeaseAsker};
ghost use Rattle.nb_dhcp.specs.History.{LeaseEntry, all_handed, acknowledgement_in};
ghost use Rattle.nb_dhcp.specs.LeaseStands.{LeaseStands};
ghost use Rattle.nb_dns.specs.Lookups.{Lookup};
ghost use Rattle.nb_dns.specs.LookupCalls.{LookupEntry};
ghost use Rattle.nb_ping.specs.Pings.{Pinged};
ghost use Rattle.nb_ping.specs.PingCalls.{PingEntry};
ghost use Rattle.nb_nodes.specs.Exchanges.{Service, IsStarted, CallsMore, GivesOnly, StandsMeets, said_up};
ghost use Rattle.nb_nodes.specs.LookupExchanges.{lookup_service, address_emit};
ghost use Rattle.nb_nodes.specs.LeaseExchanges.{lease_service, whole_emit};
ghost use Rattle.nb_nodes.specs.EchoExchanges.{ping_service};

use crate::carrying::{ABOVE, comes_from, source_port};
use crate::tag::Tag;
use crate::{LeaseAsk, Load, LookupAsk, PingAsk};
use nb_dhcp::Dhcp;
use nb_dns::Dns;
use nb_graph::{Emit, Msg};
use nb_ping::Ping;
use nb_terms::Acts;
use nb_wire::Ip4;

/// The port of a server of names (RFC 1035, section 4.2.1).
pub const NAME_SERVER: u16 = 53;

/// The port of servers of leases (RFC 2131, section 4.1).
pub const LEASE_SERVER: u16 = 67;

/// The most bytes of a datagram's body: no frame carries more.
pub const MAX_BODY: usize = 1480;

/// A core that asks, and ends with what it is answered.
pub trait Core: Sized + Drop {
    /// What it is asked for.
    ghost Asked: { Type 0 };

    /// One call of it, and what that asked for.
    ghost Entry: { Type 0 };

    /// What it takes, what its calls are, what goes up at its end, and what it promises of its calls.
    ghost service: { Service Self Asked Entry };

    /// Asks for what these bytes ask for, at the time `now`. None where they ask for nothing.
    fn begin(bytes: &[u8], now: u64, acts: &mut Acts) -> Option<Self>
        ensures none { IfNone result (service.asked bytes.now ≡ None) }
        ensures some { IfSome result (λ core. IsStarted service bytes.now now core acts.new) }
        ensures simple { IfSome result (λ _. GivesOnly 0 acts.new None) };

    /// Whether a message by this slot is one for it.
    fn takes(slot: u8, msg: &Msg<'_>) -> bool
        ensures { result ≡ service.takes slot (said msg.now) };

    /// A message of these bytes comes, which is one for it. What goes up by it.
    fn receive(
        &mut self,
        msg: &Msg<'_>,
        body: &[u8],
        now: u64,
        acts: &mut Acts,
    ) -> Option<Emit<Load>>
        requires taken { (slot : ℕ) × (service.takes slot (said msg.now) ≡ true) }
        requires bytes { body.now ≡ (said msg.now).bytes }
        ensures calls { CallsMore service self.old self.new (service.received (said msg.now) now) acts.new msg.now.rec (said_up (said msg.now) result) }
        ensures simple { GivesOnly (length body.now) acts.new result };

    /// It is this time, in milliseconds. What goes up by that.
    fn pass_time(&mut self, now: u64, acts: &mut Acts) -> Option<Emit<Load>>
        ensures calls { CallsMore service self.old self.new (service.timed now) acts.new 0 (said_up silence result) }
        ensures simple { GivesOnly 0 acts.new result };

    /// It keeps its promise wherever it stands for its calls.
    ghost meets: { StandsMeets service };
}

/// The look-up of one name's address (RFC 1035). It takes a datagram from port 53, with the address that it comes
/// from. At its end the address that was found goes up, as an `Address`.
impl Core for Dns {
    ghost Asked = { Lookup };

    ghost Entry = { LookupEntry };

    ghost service = { lookup_service };

    ghost meets = { λ l start core calls stands. stands.meets };

    fn begin(bytes: &[u8], now: u64, acts: &mut Acts) -> Option<Dns> {
        let Some(wanted) = LookupAsk::read(bytes) else {
            return None;
        };
        let LookupAsk {
            server,
            own_port,
            id,
            name,
        } = wanted;
        match Dns::start(0, server, own_port, id, name, now, acts) {
            Ok(dns) => Some(dns),
            Err(_) => None,
        }
    }

    fn takes(slot: u8, msg: &Msg<'_>) -> bool {
        comes_from(NAME_SERVER, slot, msg)
    }

    fn receive(
        &mut self,
        msg: &Msg<'_>,
        body: &[u8],
        now: u64,
        acts: &mut Acts,
    ) -> Option<Emit<Load>> {
        self.message(msg.rec, Ip4(msg.b), body, now, acts);
        address_up(acts, self.address())
    }

    fn pass_time(&mut self, now: u64, acts: &mut Acts) -> Option<Emit<Load>> {
        self.time(now, acts);
        address_up(acts, self.address())
    }
}

/// The lease of one client (RFC 2131). It takes a datagram from port 67 of at most 1,480 bytes. At its end the
/// acknowledgement goes up, as `Bytes`.
impl Core for Dhcp {
    ghost Asked = { LeaseAsker };

    ghost Entry = { LeaseEntry };

    ghost service = { lease_service };

    ghost meets = { λ a start core calls stands. stands.meets };

    fn begin(bytes: &[u8], now: u64, acts: &mut Acts) -> Option<Dhcp> {
        let Some(wanted) = LeaseAsk::read(bytes) else {
            return None;
        };
        let LeaseAsk {
            mac,
            uuid,
            arch,
            xid,
        } = wanted;
        Some(Dhcp::start(0, mac, uuid, arch, xid, now, acts))
    }

    fn takes(slot: u8, msg: &Msg<'_>) -> bool {
        comes_from(LEASE_SERVER, slot, msg) && msg.first.len() + msg.second.len() <= MAX_BODY
    }

    fn receive(
        &mut self,
        msg: &Msg<'_>,
        body: &[u8],
        now: u64,
        acts: &mut Acts,
    ) -> Option<Emit<Load>> {
        self.message(msg.rec, Ip4(msg.b), body, now, acts);
        bytes_up(acts, granted(self, body))
    }

    fn pass_time(&mut self, now: u64, acts: &mut Acts) -> Option<Emit<Load>> {
        self.time(now, acts);
        None
    }
}

/// The echo of one host (RFC 792). It takes each datagram, which is an echo reply, with its identifier and the address
/// that it comes from. Nothing goes up.
impl Core for Ping {
    ghost Asked = { Pinged };

    ghost Entry = { PingEntry };

    ghost service = { ping_service };

    ghost meets = { λ p start core calls stands. stands.meets };

    fn begin(bytes: &[u8], now: u64, acts: &mut Acts) -> Option<Ping> {
        let Some(wanted) = PingAsk::read(bytes) else {
            return None;
        };
        Some(Ping::start(0, wanted.host, wanted.ident, now, acts))
    }

    fn takes(slot: u8, msg: &Msg<'_>) -> bool {
        match source_port(slot, msg) {
            Some(_) => true,
            None => false,
        }
    }

    fn receive(
        &mut self,
        msg: &Msg<'_>,
        _body: &[u8],
        now: u64,
        acts: &mut Acts,
    ) -> Option<Emit<Load>> {
        self.message(Ip4(msg.b), msg.a as u16, now, acts);
        None
    }

    fn pass_time(&mut self, now: u64, acts: &mut Acts) -> Option<Emit<Load>> {
        self.time(now, acts);
        None
    }
}

/// The address that was found as a message up, at the end.
fn address_up(acts: &Acts, found: Option<Ip4>) -> Option<Emit<Load>>
    ensures { result ≡ address_emit (is_some acts.now.over) found }
{
    match found {
        Some(address) if acts.over.is_some() => Some(Emit {
            slot: ABOVE,
            tag: u8::from(Tag::Address),
            a: address.0,
            b: 0,
            from: 0,
            to: 0,
            load: None,
        }),
        _ => None,
    }
}

/// So many bytes of the message as a message up, at the end.
fn bytes_up(acts: &Acts, length: Option<u32>) -> Option<Emit<Load>>
    ensures { result ≡ whole_emit (is_some acts.now.over) length }
{
    match length {
        Some(to) if acts.over.is_some() => Some(Emit {
            slot: ABOVE,
            tag: u8::from(Tag::Bytes),
            a: 0,
            b: 0,
            from: 0,
            to,
            load: None,
        }),
        _ => None,
    }
}

/// How many bytes the datagram has that granted the lease. None where it isn't granted.
fn granted(core: &Dhcp, body: &[u8]) -> Option<u32>
    requires { length body.now ≤ 1480 }
    ensures few { IfSome result (λ n. n ≤ length body.now) }
    ensures length { (a : LeaseAsker) (start : ℕ) (h : List LeaseEntry) → LeaseStands a start core.now h → result ≡ option_map (λ bytes. length body.now) (acknowledgement_in a (all_handed h)) }
{
    match core.ack() {
        Some(_) => Some(body.len() as u32),
        None => None,
    }
}
