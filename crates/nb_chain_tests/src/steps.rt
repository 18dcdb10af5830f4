//! Steps of the tests, each on one of two chains.

ghost use Rattle.std.specs.Prelude.{◌≡◌, ◌≤◌, IfOk, length};
ghost use Rattle.nb_chains.specs.Chains.{AreChained, chain_ids, IsReadyChain};
ghost use Rattle.nb_chains.specs.declared.kind.ChainKind.TheVariants as kind;
ghost use Rattle.nb_chain_tests.specs.Beside.{AreBeside, WaitsAside};
ghost use Rattle.nb_ledger.specs.Flat.{unknown};

use nb_chains::{Arrival, Chain, ChainKind};
use nb_graph::{Graph, Msg, Outside, Port};
use nb_nodes::{LookupAsk, Obj, PingAsk};
use nb_terms::{Cause, Event};
use nb_wire::Ip4;
use std::test::Fail;

/// Keeps the events that it is given, and from where each message left.
#[derive(Drop)]
pub(crate) struct Tape {
    pub(crate) events: Vec<Event>,
    pub(crate) sent: Vec<Port>,
}

impl Outside for Tape {
    ghost events = { λ _. unknown };

    fn event(&mut self, e: &Event) {
        let _ = self.events.push(*e);
    }

    fn send(&mut self, from: Port, _msg: &Msg<'_>) {
        let _ = self.sent.push(from);
    }
}

pub(crate) const HOST: Ip4 = Ip4(0x0a00_0001);

/// A graph with two chains of these kinds.
pub(crate) fn two(
    rt: &HostRuntime,
    tape: &mut Tape,
    one: ChainKind,
    other: ChainKind,
) -> Result<(Graph<Obj>, Chain, Chain), Fail>
    ensures beside { IfOk result (λ r. AreBeside r.0 r.1 r.2) }
    ensures ready { IfOk result (λ r. IsReadyChain other r.2 r.0) }
{
    let mut graph = Graph::new(rt.alloc(), 8)?;
    let first = Chain::make(rt.alloc(), &mut graph, one, tape)?;
    let second = Chain::make(rt.alloc(), &mut graph, other, tape)?;
    graph.has_nodes();
    Ok((graph, first, second))
}

/// A graph with a chain of a kind that waits for the rest of its objects, and then another of another kind.
pub(crate) fn one_and_what_waits(
    rt: &HostRuntime,
    tape: &mut Tape,
    waits: ChainKind,
    kind: ChainKind,
) -> Result<(Graph<Obj>, Chain, Chain), Fail>
    ensures { IfOk result (λ r. WaitsAside waits r.0 r.1 r.2) }
{
    let mut graph = Graph::new(rt.alloc(), 8)?;
    let first = Chain::wait(rt.alloc(), &mut graph, waits, tape)?;
    let second = Chain::make(rt.alloc(), &mut graph, kind, tape)?;
    graph.has_nodes();
    Ok((graph, first, second))
}

/// The user of a chain for a name's address asks for it, while another waits.
pub(crate) fn ask_name(
    graph: &mut Graph<Obj>,
    chain: Chain,
    waits: Chain,
    kind: ChainKind,
    tape: &mut Tape,
)
    requires { WaitsAside kind graph.old waits chain }
    ensures { WaitsAside kind graph.new waits chain }
{
    let _kind = kind;
    let _waits = waits;
    let ask = LookupAsk {
        server: HOST,
        own_port: 7,
        id: 1,
        name: b"pxe.example".as_slice(),
    };
    chain.begin(graph, 1, &ask.head(), ask.name, 0, tape);
}

/// The user of a chain for an echo asks for it.
pub(crate) fn ask_echo(
    graph: &mut Graph<Obj>,
    chain: Chain,
    other: Chain,
    ident: u16,
    tape: &mut Tape,
)
    requires { AreBeside graph.old chain other }
    ensures so { AreBeside graph.new chain other }
    ensures back { AreBeside graph.new other chain }
    ensures kept { IsReadyChain kind.File other graph.old → IsReadyChain kind.File other graph.new }
{
    let ask = PingAsk { host: HOST, ident };
    chain.begin(graph, 1, &ask.bytes(), &[], 0, tape);
    graph.has_nodes();
}

/// Its reply comes.
pub(crate) fn reply(
    graph: &mut Graph<Obj>,
    chain: Chain,
    other: Chain,
    ident: u16,
    body: &[u8],
    tape: &mut Tape,
)
    requires beside { AreBeside graph.old chain other }
    requires short { length body.now ≤ 65535 }
    ensures so { AreBeside graph.new chain other }
    ensures back { AreBeside graph.new other chain }
{
    let arrival = Arrival {
        port: ident,
        source: HOST,
        body,
    };
    chain.message(graph, 2, &arrival, 10, tape);
    graph.has_nodes();
}

/// Time comes to it.
pub(crate) fn pass_time(
    graph: &mut Graph<Obj>,
    chain: Chain,
    other: Chain,
    now: u64,
    tape: &mut Tape,
)
    requires { AreBeside graph.old chain other }
    ensures so { AreBeside graph.new chain other }
    ensures back { AreBeside graph.new other chain }
{
    chain.time(graph, now, tape);
    graph.has_nodes();
}

/// The user closes a file's open that was just made, and lets its objects go.
pub(crate) fn end_file(
    graph: &mut Graph<Obj>,
    chain: Chain,
    other: Chain,
    cause: &Cause,
    tape: &mut Tape,
)
    requires beside { AreBeside graph.old chain other }
    requires ready { IsReadyChain kind.File chain graph.old }
    ensures { AreChained graph.new (chain_ids other) }
{
    chain.close(graph, cause, 0, tape);
    graph.has_nodes();
    chain.release(graph, tape);
    graph.has_nodes();
}

/// The run ends for a file's open that was just made.
pub(crate) fn shut_file(
    graph: &mut Graph<Obj>,
    chain: Chain,
    other: Chain,
    cause: &Cause,
    tape: &mut Tape,
)
    requires beside { AreBeside graph.old chain other }
    requires ready { IsReadyChain kind.File chain graph.old }
    ensures { AreChained graph.new (chain_ids other) }
{
    chain.shut_down(graph, cause, 0, tape);
    graph.has_nodes();
}
