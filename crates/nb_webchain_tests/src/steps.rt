//! Steps of the tests: an open by HTTP, asked for, and segments that come to it.

ghost use Rattle.std.specs.Prelude.{IfOk};
ghost use Rattle.nb_chains.specs.Chains.{AreChained};
ghost use Rattle.nb_ledger.specs.Flat.{unknown};
ghost use Rattle.nb_webchains.specs.WebChains.{web_ids};

use nb_chains::Arrival;
use nb_conns::ConnAsk;
use nb_graph::{Graph, Msg, Outside, Port};
use nb_nodes::Obj;
use nb_tcpseg::{SYN, Segment};
use nb_terms::{Cause, Event};
use nb_webchains::WebChain;
use nb_wire::{Ip4, Out};
use std::test::Fail;

pub(crate) const SERVER: Ip4 = Ip4(0x0a00_0001);

const OWN: Ip4 = Ip4(0x0a00_0002);

/// The number of the client's SYN, and that of the server's.
const ISN: u32 = 1000;

const IRS: u32 = 5000;

/// A segment: how many bytes of the stream come before it, its flags, and its body.
pub(crate) type Row<'a> = (u32, u8, &'a [u8]);

/// Keeps the objects and causes of closed ports, the tags and numbers of what leaves the graph, and the flags of each segment
/// among it, with the bytes of the last.
#[derive(Drop)]
pub(crate) struct Tape {
    pub(crate) closed: Vec<(u64, u8)>,
    pub(crate) sent: Vec<(u8, u32)>,
    pub(crate) flags: Vec<u8>,
    pub(crate) last: Vec<u8>,
}

impl Tape {
    fn keep(&mut self, segment: &[u8]) {
        if let Some(flags) = segment.get(13) {
            let _ = self.flags.push(*flags);
            self.last.clear();
            let _ = self.last.extend_from_slice(segment);
        }
    }
}

impl Outside for Tape {
    ghost events = { λ _. unknown };

    fn event(&mut self, e: &Event) {
        if e.event == 8 {
            let _ = self.closed.push((e.object, e.cause.code));
        }
    }

    fn send(&mut self, _from: Port, msg: &Msg<'_>) {
        let _ = self.sent.push((msg.tag, msg.a));
        self.keep(msg.first);
        self.keep(msg.second);
    }
}

pub(crate) fn blank(rt: &HostRuntime) -> Tape {
    Tape {
        closed: Vec::new(rt.alloc()),
        sent: Vec::new(rt.alloc()),
        flags: Vec::new(rt.alloc()),
        last: Vec::new(rt.alloc()),
    }
}

/// An open by HTTP, which was asked for `/file` of a host.
pub(crate) fn opened(rt: &HostRuntime, tape: &mut Tape) -> Result<(Graph<Obj>, WebChain), Fail>
    ensures { IfOk result (λ r. AreChained r.0 (web_ids r.1)) }
{
    let mut graph = Graph::new(rt.alloc(), 8)?;
    let web = WebChain::make(rt.alloc(), &mut graph, tape)?;
    let ask = ConnAsk {
        peer: SERVER,
        peer_port: 80,
        own: OWN,
        own_port: 49_152,
        isn: ISN,
    };
    web.begin(&mut graph, 1, 4, &ask.bytes(), b"boot/file", 0, tape);
    Ok((graph, web))
}

/// The bytes of a segment from the server, as they come from the network.
pub(crate) fn segment(rt: &HostRuntime, row: &Row<'_>) -> Result<Vec<u8>, Fail> {
    let (place, flags, body) = *row;
    let first = if flags & SYN == SYN { IRS } else { IRS + 1 };
    let segment = Segment {
        src_port: 80,
        dst_port: 49_152,
        seq: first.wrapping_add(place),
        ack: ISN + 1,
        flags,
        window: 60_000,
        mss: None,
        body,
    };
    let mut room = [0u8; 256];
    if body.len() > 200 {
        return Err(Fail::new("too long"));
    }
    let mut out = Out::new(&mut room);
    segment.write(SERVER, OWN, &mut out).ok().ok_or("no room")?;
    Ok(Vec::from_slice(rt.alloc(), out.written())?)
}

/// A segment comes, from this port of this host.
pub(crate) fn give_from(
    graph: &mut Graph<Obj>,
    web: WebChain,
    port: u16,
    source: Ip4,
    bytes: &[u8],
    tape: &mut Tape,
)
    requires { AreChained graph.old (web_ids web) }
    ensures { AreChained graph.new (web_ids web) }
{
    let arrival = Arrival {
        port,
        source,
        body: bytes,
    };
    web.message(graph, 7, &arrival, 5, tape);
}

/// They come, from the server's port 80.
pub(crate) fn give_all(
    rt: &HostRuntime,
    graph: &mut Graph<Obj>,
    web: WebChain,
    rows: &[Row<'_>],
    tape: &mut Tape,
) -> Result<(), Fail>
    requires { AreChained graph.old (web_ids web) }
    ensures { IfOk result (λ _. AreChained graph.new (web_ids web)) }
{
    for row in rows {
        let bytes = segment(rt, row)?;
        give_from(graph, web, 80, SERVER, bytes.as_slice(), tape);
    }
    Ok(())
}

/// Time comes to each of these, in milliseconds.
pub(crate) fn pass_times(graph: &mut Graph<Obj>, web: WebChain, times: &[u64], tape: &mut Tape)
    requires { AreChained graph.old (web_ids web) }
    ensures { AreChained graph.new (web_ids web) }
{
    for now in times {
        web.time(graph, *now, tape);
    }
}

/// The user closes it, with this code.
pub(crate) fn close_it(graph: &mut Graph<Obj>, web: WebChain, code: u8, tape: &mut Tape)
    requires { AreChained graph.old (web_ids web) }
    ensures { AreChained graph.new (web_ids web) }
{
    web.close(graph, &Cause { code, a: 0, b: 0 }, 9, tape);
}

/// The run ends: how many ports were closed, and how many objects live then.
pub(crate) fn shut_it(graph: &mut Graph<Obj>, web: WebChain, tape: &mut Tape) -> (usize, usize)
    requires { AreChained graph.old (web_ids web) }
{
    let stopped = Cause {
        code: 26,
        a: 0,
        b: 0,
    };
    web.shut_down(graph, &stopped, 9, tape);
    (tape.closed.len(), graph.live())
}

/// The bytes that it has brought, at most 65,536 of them, and none where it hasn't.
pub(crate) fn brought(
    rt: &HostRuntime,
    graph: &mut Graph<Obj>,
    web: WebChain,
) -> Result<Option<Vec<u8>>, Fail>
    requires { AreChained graph.old (web_ids web) }
{
    let Some(body) = web.collect(graph) else {
        return Ok(None);
    };
    let page = body.page(0).unwrap_or(&[]);
    Ok(Some(Vec::from_slice(rt.alloc(), page)?))
}

/// The place of its file, where it has moved.
pub(crate) fn moved(graph: &Graph<Obj>, web: WebChain) -> Option<&[u8]> {
    web.moved(graph)
}

/// What came of these segments: the codes that ports were closed with, in order, with their objects; the bytes that were
/// brought; and the flags of the last segment that left.
#[derive(Drop)]
pub(crate) struct Outcome {
    pub(crate) closed: Vec<(u64, u8)>,
    pub(crate) body: Option<Vec<u8>>,
    pub(crate) last: Option<u8>,
}

/// They come to an open that was asked for.
pub(crate) fn outcome_of(rt: &HostRuntime, rows: &[Row<'_>]) -> Result<Outcome, Fail> {
    let mut tape = blank(rt);
    let (mut graph, web) = opened(rt, &mut tape)?;
    give_all(rt, &mut graph, web, rows, &mut tape)?;
    let body = brought(rt, &mut graph, web)?;
    let last = tape.flags.as_slice().last().copied();
    Ok(Outcome {
        closed: tape.closed,
        body,
        last,
    })
}
