//! What a connection's messages carry.

ghost use Rattle.std.specs.Prelude.{◌≡◌, ◌-◌, ◌++◌, List, length, take};
ghost use Rattle.nb_reasm.specs.HeldWindows.{front_first};
ghost use Rattle.nb_conns.specs.ConnLoads.{Carrier, first_of_conn, second_of_conn, first_sent, second_sent, lent_first, lent_second};

use nb_graph::Parts;
use nb_reasm::Held;
use nb_terms::{Acts, SendTo};

/// What waits to be delivered, lent. Of its front so many bytes go up.
#[derive(Drop)]
pub struct Lent {
    pub(crate) held: Option<Held>,
    pub(crate) count: usize,
}

impl Lent {
    /// Nothing is lent.
    pub(crate) fn none() -> Lent {
        Lent {
            held: None,
            count: 0,
        }
    }

    /// The bytes that go up.
    fn parts(&self) -> (&[u8], &[u8])
        ensures first { result.0.now ≡ lent_first self.now }
        ensures second { result.1.now ≡ lent_second self.now }
    {
        match &self.held {
            Some(held) => cut_front(held.front(), self.count),
            None => (&[], &[]),
        }
    }
}

/// The first bytes of both parts.
fn cut_front<'a>(front: (&'a [u8], &'a [u8]), count: usize) -> (&'a [u8], &'a [u8])
    ensures first { result.0.now ≡ take count front.entry.0.now }
    ensures second { result.1.now ≡ take (count - length front.entry.0.now) front.entry.1.now }
{
    let (first, second) = front;
    let rest = count.saturating_sub(first.len());
    (
        &first[..count.min(first.len())],
        &second[..rest.min(second.len())],
    )
}

/// What a message of a connection's object carries.
#[derive(Drop)]
pub enum ConnLoad {
    /// The segments that the connection sends, at most two, lent from what its core fills.
    Segments(Box<Acts>),
    /// The bytes that go up, lent with the window that holds them.
    Window(Box<Lent>),
}

impl Parts for ConnLoad {
    ghost first = { first_of_conn };

    ghost second = { second_of_conn };

    fn parts(&self) -> (&[u8], &[u8]) {
        match self {
            ConnLoad::Segments(acts) => two_bodies(acts.sends.as_slice()),
            ConnLoad::Window(lent) => lent.parts(),
        }
    }
}

/// The bodies of at most two messages.
fn two_bodies(sends: &[SendTo]) -> (&[u8], &[u8])
    ensures first { result.0.now ≡ first_sent sends.now }
    ensures second { result.1.now ≡ second_sent sends.now }
{
    match sends {
        [] => (&[], &[]),
        [one] => (one.body.as_slice(), &[]),
        [one, other, ..] => (one.body.as_slice(), other.body.as_slice()),
    }
}

/// What the messages of a graph's objects carry, where some of these are connections.
pub trait CarriesConn: Parts {
    /// How a connection's load is one of these, and read again.
    ghost carrier: { Carrier Self };

    /// The load that carries this.
    fn carry(load: ConnLoad) -> Self
        ensures { result ≡ carrier.as_load load };

    /// The connection's load that this is. None where it is another's.
    fn conn_load(self) -> Option<ConnLoad>
        ensures { result ≡ carrier.as_conn self };

    /// A load's bytes are its two parts.
    ghost in_parts: { (load : Self) → carrier.load_bytes load ≡ Self.first load ++ Self.second load };
}
