// Nodes and an outside for the tests.
ghost use Rattle.std.specs.Prelude.{◌≡◌, ◌≤◌, [], None, min, true};
ghost use Rattle.nb_ledger.specs.Flat.{unknown};
ghost use Rattle.nb_ledger.specs.Ledger.{object_lives, rank};
ghost use Rattle.nb_graph.specs.Counted.{regains, ups};

use nb_graph::{Emit, Fx, Graph, Msg, Node, ObjId, Outside, Parts, Port};
use nb_terms::{Cause, Event, NoMemory};
use std::process::Abort;
use std::test::Fail;

/// A load of no bytes.
#[derive(Drop)]
pub(crate) struct Empty;

impl Parts for Empty {
    ghost first = { λ _. [] };

    ghost second = { λ _. [] };

    fn parts(&self) -> (&[u8], &[u8]) {
        (&[], &[])
    }
}

/// What a fake node does with a message from below, or with time.
#[derive(Clone, Copy)]
pub(crate) enum Deed {
    Take,
    TakeAtMost(u8),
    PassUp,
    Close(u8),
    LendDown,
    TakeOneAndAsk,
    PassUpUntilAsked,
}

/// A node that does its deed, and counts its calls from below and the loads that came back.
#[derive(Drop)]
pub(crate) struct Fake {
    pub(crate) rank: u8,
    pub(crate) deed: Deed,
    pub(crate) calls: u32,
    pub(crate) back: u8,
}

/// The longest message that a fake node takes.
pub(crate) const LONGEST: usize = 65_535;

pub(crate) const WHY: Cause = Cause {
    code: 9,
    a: 8,
    b: 7,
};

pub(crate) const NO_CAUSE: Cause = Cause {
    code: 0,
    a: 0,
    b: 0,
};

pub(crate) fn make_fake(rank: u8, deed: Deed) -> Fake
    ensures rank { result.rank ≡ rank }
    ensures calls { result.calls ≡ 0 }
    ensures back { result.back ≡ 0 }
{
    Fake {
        rank,
        deed,
        calls: 0,
        back: 0,
    }
}

/// All of a message of so many bytes, by slot 0.
pub(crate) fn pass_on(tag: u8, length: u32) -> Emit<Empty>
    ensures slot { result.slot ≡ 0 }
    ensures from { result.from ≡ 0 }
    ensures to { result.to ≡ length }
{
    Emit {
        slot: 0,
        tag,
        a: 0,
        b: 0,
        from: 0,
        to: length,
        load: None,
    }
}

/// No bytes, by slot 1.
fn ask_below() -> Emit<Empty>
    ensures slot { result.slot ≡ 1 }
    ensures from { result.from ≡ 0 }
    ensures to { result.to ≡ 0 }
{
    Emit {
        slot: 1,
        tag: 0,
        a: 0,
        b: 0,
        from: 0,
        to: 0,
        load: None,
    }
}

impl Node for Fake {
    type Load = Empty;

    ghost rank_of = { λ n. n.rank };

    ghost kind_of = { λ _. 7 };

    ghost mark_of = { λ _. 0 };

    ghost harvests = { λ _ r _. r ≡ None };

    ghost stands = { λ n t. (n.calls ≡ min (ups t) 4294967295) × (n.back ≡ min (regains t) 255) };

    fn rank(&self) -> u8 {
        self.rank
    }

    fn kind(&self) -> u8 {
        7
    }

    fn on_up(
        &mut self,
        _slot: u8,
        msg: &Msg<'_>,
        _now: u64,
        fx: &mut Fx<Fake, Empty>,
    ) -> Result<(), NoMemory> {
        self.calls = self.calls.saturating_add(1);
        let length = msg.first.len() + msg.second.len();
        if length > LONGEST {
            return Err(NoMemory);
        }
        fx.took = length as u32;
        match self.deed {
            Deed::Take => {}
            Deed::TakeAtMost(most) => fx.took = fx.took.min(u32::from(most.max(1))),
            Deed::PassUp | Deed::PassUpUntilAsked => {
                fx.ups.first.put(pass_on(msg.tag, fx.took));
            }
            Deed::Close(slot) => fx.closes.push((slot.min(3), WHY)),
            Deed::LendDown => {}
            Deed::TakeOneAndAsk => {
                fx.took = fx.took.min(1);
                fx.downs.first.put(ask_below());
            }
        }
        Ok(())
    }

    fn on_down(
        &mut self,
        _msg: &Msg<'_>,
        _now: u64,
        fx: &mut Fx<Fake, Empty>,
    ) -> Result<(), NoMemory> {
        if matches!(self.deed, Deed::PassUpUntilAsked) {
            fx.closes.push((0, WHY));
        }
        Ok(())
    }

    fn on_close(&mut self, _slot: u8, _cause: &Cause, _now: u64, _fx: &mut Fx<Fake, Empty>) {}

    fn on_time(&mut self, _now: u64, fx: &mut Fx<Fake, Empty>) -> Result<(), NoMemory> {
        match self.deed {
            Deed::Take => {}
            Deed::TakeAtMost(_) => {}
            Deed::PassUp => {}
            Deed::TakeOneAndAsk => {}
            Deed::PassUpUntilAsked => {}
            Deed::Close(slot) => fx.closes.push((slot.min(3), WHY)),
            Deed::LendDown => {
                fx.downs.first.put(Emit {
                    slot: 2,
                    tag: 0,
                    a: 0,
                    b: 0,
                    from: 0,
                    to: 0,
                    load: Some(Empty),
                });
            }
        }
        Ok(())
    }

    fn regain(&mut self, _load: Empty) {
        self.back = self.back.saturating_add(1);
    }

    fn harvest(&mut self) -> Option<Empty> {
        None
    }
}

/// Keeps the events that it is given.
#[derive(Drop)]
pub(crate) struct Tape {
    pub(crate) events: Vec<Event>,
}

impl Outside for Tape {
    ghost events = { λ _. unknown };

    fn event(&mut self, e: &Event) {
        let _ = self.events.push(*e);
    }

    fn send(&mut self, _from: Port, _msg: &Msg<'_>) {}
}

/// The events are those of these numbers and objects, in order.
pub(crate) fn happened(rt: &impl Abort, tape: &Tape, expected: &[(u8, u64)]) {
    assert_eq!(rt; tape.events.len(), expected.len());
    for (event, (number, object)) in tape.events.iter().zip(expected) {
        assert_eq!(rt; (event.event, event.object), (*number, *object));
    }
}

/// Each port is closed with this cause, and no other event has one.
pub(crate) fn closed_with(rt: &impl Abort, tape: &Tape, why: Cause) {
    for event in &tape.events {
        let expected = if event.event == 8 { why } else { NO_CAUSE };
        assert_eq!(rt; event.cause, expected);
    }
}

pub(crate) fn bytes(first: &[u8]) -> Msg<'_> {
    Msg {
        tag: 1,
        rec: 0,
        a: 0,
        b: 0,
        first,
        second: &[],
    }
}

/// A slot of an object, as a port.
pub(crate) fn port(obj: ObjId, slot: u8) -> Port
    ensures { result ≡ record { obj = obj; slot = slot } }
{
    Port { obj, slot }
}

/// The rank of a live object.
fn rank_of(graph: &Graph<Fake>, id: ObjId) -> u8
    ensures { object_lives graph.now.book id.0 ≡ true → result ≡ rank graph.now.book id.0 }
{
    match graph.node(id) {
        Some(node) => node.rank,
        None => 0,
    }
}

/// Joins two ports of objects whose ranks fit.
fn join(graph: &mut Graph<Fake>, upper: Port, lower: Port, tape: &mut Tape) -> Result<(), Fail>
    requires upper { (1 ≤ upper.slot) × (upper.slot ≤ 3) }
    requires lower { lower.slot ≡ 0 }
{
    if rank_of(graph, lower.obj) < rank_of(graph, upper.obj) {
        graph.plug(upper, lower, tape).ok().ok_or("not open")?;
    }
    Ok(())
}

/// A graph of an upper object 1 and a lower object 2 that is plugged to its slot 1.
pub(crate) fn pair(
    rt: &HostRuntime,
    tape: &mut Tape,
    upper: Deed,
    lower: Deed,
) -> Result<Graph<Fake>, Fail> {
    let mut graph = Graph::new(rt.alloc(), 2)?;
    let above = graph.make(make_fake(2, upper), tape).ok().ok_or("full")?;
    let below = graph.make(make_fake(1, lower), tape).ok().ok_or("full")?;
    join(&mut graph, port(above, 1), port(below, 0), tape)?;
    Ok(graph)
}
