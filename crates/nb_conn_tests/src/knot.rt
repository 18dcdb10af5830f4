//! A graph's nodes for the tests: connections, and users that take a few bytes at a time.

ghost use Rattle.std.specs.Prelude.{◌≡◌, ◌+◌, ◌<◌, ◌≤◌, [], length, None, IfOk, OnOk, refl};
ghost use Rattle.nb_graph.specs.Effects.{IsNothing};
ghost use Rattle.nb_conn_tests.specs.Knots.{carried_carrier, carried_first, carried_second, rank_of_knot, kind_of_knot, KnotStands, TakesFew, HandsDown};

use nb_conns::{CarriesConn, ConnLoad, Tcp};
use nb_graph::{Emit, Fx, Msg, Node, Parts};
use nb_terms::{Cause, NoMemory};
use std::alloc::Global;

/// What the messages of these nodes carry.
#[derive(Drop)]
pub struct Carried(pub ConnLoad);

impl Parts for Carried {
    ghost first = { carried_first };

    ghost second = { carried_second };

    fn parts(&self) -> (&[u8], &[u8]) {
        self.0.parts()
    }
}

impl CarriesConn for Carried {
    ghost carrier = { carried_carrier };

    ghost in_parts = { λ load. refl };

    fn carry(load: ConnLoad) -> Carried {
        Carried(load)
    }

    fn conn_load(self) -> Option<ConnLoad> {
        Some(self.0)
    }
}

/// A user of a connection: it takes so many bytes of a message at most, at least one, and closes the port below once
/// it has as many as it waits for. What comes from above it hands down.
#[derive(Drop)]
pub struct Taker {
    pub most: u8,
    pub waits_for: usize,
    pub bytes: Vec<u8>,
    pub messages: u32,
}

impl Taker {
    fn on_up(&mut self, msg: &Msg<'_>, fx: &mut Fx<Knot, Carried>) -> Result<(), NoMemory>
        requires { IsNothing fx.old }
        ensures few { TakesFew (length msg.now.first.now + length msg.now.second.now) fx.new }
        ensures some { OnOk result (0 < length msg.now.first.now + length msg.now.second.now → 0 < fx.new.took) }
    {
        self.messages = self.messages.saturating_add(1);
        let part = first_part(msg, self.most.max(1));
        self.bytes.extend_from_slice(part)?;
        fx.took = part.len() as u32;
        if self.bytes.len() >= self.waits_for {
            fx.closes.push((1, Cause::default()));
        }
        Ok(())
    }

    fn on_down(&self, msg: &Msg<'_>, fx: &mut Fx<Knot, Carried>)
        requires { IsNothing fx.old }
        ensures { HandsDown (length msg.now.first.now + length msg.now.second.now) fx.new }
    {
        fx.downs.first.put(Emit {
            slot: 1,
            tag: msg.tag,
            a: msg.a,
            b: msg.b,
            from: 0,
            to: whole(msg),
            load: None,
        });
    }
}

/// All of a message, or as much as a number of 32 bits can say.
fn whole(msg: &Msg<'_>) -> u32
    ensures { result ≤ length msg.now.first.now + length msg.now.second.now }
{
    (msg.first.len() + msg.second.len()).min(u32::MAX as usize) as u32
}

/// The first bytes of a message, at most so many, and at least one where it has some.
fn first_part<'m>(msg: &Msg<'m>, most: u8) -> &'m [u8]
    requires { 0 < most }
    ensures few { length result.now ≤ 255 }
    ensures within { length result.now ≤ length msg.now.first.now + length msg.now.second.now }
    ensures some { 0 < length msg.now.first.now + length msg.now.second.now → 0 < length result.now }
{
    let part = if msg.first.is_empty() {
        msg.second
    } else {
        msg.first
    };
    &part[..part.len().min(usize::from(most))]
}

/// A node of the tests.
#[derive(Drop)]
pub enum Knot {
    Taker(Taker),
    Tcp(Box<Tcp>),
}

impl Knot {
    /// A connection that waits for what to ask for.
    pub fn tcp(alloc: Global) -> Result<Knot, NoMemory>
        ensures stands { IfOk result (λ k. KnotStands k []) }
    {
        let waiting = Tcp::new(alloc)?;
        let tcp = Box::new(alloc, waiting)?;
        Ok(Knot::Tcp(tcp))
    }
}

impl Node for Knot {
    type Load = Carried;

    ghost rank_of = { rank_of_knot };

    ghost kind_of = { kind_of_knot };

    ghost mark_of = { λ _. 0 };

    ghost harvests = { λ _ r _. r ≡ None };

    ghost stands = { KnotStands };

    fn rank(&self) -> u8 {
        match self {
            Knot::Taker(_) => 5,
            Knot::Tcp(_) => 2,
        }
    }

    fn kind(&self) -> u8 {
        match self {
            Knot::Taker(_) => 1,
            Knot::Tcp(_) => 3,
        }
    }

    fn on_up(
        &mut self,
        slot: u8,
        msg: &Msg<'_>,
        now: u64,
        fx: &mut Fx<Knot, Carried>,
    ) -> Result<(), NoMemory> {
        match self {
            Knot::Taker(taker) => taker.on_up(msg, fx),
            Knot::Tcp(tcp) => tcp.on_up(slot, msg, now, fx),
        }
    }

    fn on_down(
        &mut self,
        msg: &Msg<'_>,
        now: u64,
        fx: &mut Fx<Knot, Carried>,
    ) -> Result<(), NoMemory> {
        match self {
            Knot::Taker(taker) => {
                taker.on_down(msg, fx);
                Ok(())
            }
            Knot::Tcp(tcp) => tcp.on_down(msg, now, fx),
        }
    }

    fn on_close(&mut self, slot: u8, cause: &Cause, _now: u64, fx: &mut Fx<Knot, Carried>) {
        match self {
            Knot::Taker(_) => {}
            Knot::Tcp(tcp) => tcp.on_close(slot, cause, fx),
        }
    }

    fn on_time(&mut self, now: u64, fx: &mut Fx<Knot, Carried>) -> Result<(), NoMemory> {
        match self {
            Knot::Taker(_) => Ok(()),
            Knot::Tcp(tcp) => tcp.on_time(now, fx),
        }
    }

    fn regain(&mut self, load: Carried) {
        match self {
            Knot::Taker(_) => {}
            Knot::Tcp(tcp) => tcp.regain::<Knot, Carried>(load),
        }
    }

    fn harvest(&mut self) -> Option<Carried> {
        None
    }
}
