//! A fetch below a user, on a graph: what goes down, what goes up, and how it ends.

ghost use Rattle.std.specs.Prelude.{◌≡◌, true};
ghost use Rattle.nb_ledger.specs.Flat.{unknown};
ghost use Rattle.nb_ledger.specs.Ledger.{object_lives, rank};

use crate::{Bench, Keeper};
use nb_conns::ConnAsk;
use nb_graph::{Graph, Msg, Node, ObjId, Outside, Port};
use nb_terms::Event;
use nb_wire::Ip4;
use std::process::Abort;
use std::test::Fail;

const USER: ObjId = ObjId(1);

const FETCH: ObjId = ObjId(2);

/// Keeps the causes of closed ports in order, and the tags and bytes of what leaves the graph.
#[derive(Drop)]
struct Tape {
    closed: Vec<(u64, u8)>,
    tags: Vec<u8>,
    sent: Vec<u8>,
}

impl Outside for Tape {
    ghost events = { λ _. unknown };

    fn event(&mut self, e: &Event) {
        if e.event == 8 {
            let _ = self.closed.push((e.object, e.cause.code));
        }
    }

    fn send(&mut self, _from: Port, msg: &Msg<'_>) {
        let _ = self.tags.push(msg.tag);
        let _ = self.sent.extend_from_slice(msg.first);
        let _ = self.sent.extend_from_slice(msg.second);
    }
}

fn blank(rt: &HostRuntime) -> Tape {
    Tape {
        closed: Vec::new(rt.alloc()),
        tags: Vec::new(rt.alloc()),
        sent: Vec::new(rt.alloc()),
    }
}

/// A message with its bytes in two parts.
fn message<'m>(tag: u8, a: u32, first: &'m [u8], second: &'m [u8]) -> Msg<'m> {
    Msg {
        tag,
        rec: 7,
        a,
        b: 0,
        first,
        second,
    }
}

/// The rank of a live object.
fn rank_of(graph: &Graph<Bench>, id: ObjId) -> u8
    ensures { object_lives graph.now.book id.0 ≡ true → result ≡ rank graph.now.book id.0 }
{
    match graph.node(id) {
        Some(node) => node.rank(),
        None => 0,
    }
}

fn join(graph: &mut Graph<Bench>, tape: &mut Tape) -> Result<(), Fail> {
    let upper = Port { obj: USER, slot: 1 };
    let lower = Port {
        obj: FETCH,
        slot: 0,
    };
    if rank_of(graph, FETCH) < rank_of(graph, USER) {
        graph.plug(upper, lower, tape).ok().ok_or("not open")?;
    }
    Ok(())
}

/// A graph at work, and what it puts out.
#[derive(Drop)]
struct Play {
    graph: Graph<Bench>,
    tape: Tape,
}

/// A user above a fetch that was asked for. It closes once it has so many bytes.
fn opened(rt: &HostRuntime, closes_at: usize) -> Result<Play, Fail> {
    let mut play = Play {
        graph: Graph::new(rt.alloc(), 2)?,
        tape: blank(rt),
    };
    let user = Keeper {
        body: Vec::new(rt.alloc()),
        moved: Vec::new(rt.alloc()),
        closes_at,
    };
    begin(rt, &mut play, user)?;
    Ok(play)
}

/// A user and a fetch below it are made, and the user asks for it.
fn begin(rt: &HostRuntime, play: &mut Play, user: Keeper) -> Result<(), Fail> {
    let Play { graph, tape } = play;
    graph.make(Bench::Keeper(user), tape).ok().ok_or("full")?;
    let web = Bench::web(rt.alloc())?;
    graph.make(web, tape).ok().ok_or("full")?;
    join(graph, tape)?;
    let ask = ConnAsk {
        peer: Ip4(0x0a00_0001),
        peer_port: 8080,
        own: Ip4(0x0a00_0002),
        own_port: 49_152,
        isn: 1000,
    };
    let bytes = ask.bytes();
    let begin = message(1, 3, &bytes, b"boot/file");
    let _ = graph.down(Port { obj: USER, slot: 0 }, &begin, 0, tape);
    Ok(())
}

/// Bytes of the stream come, in two parts, or its end.
fn give(play: &mut Play, tag: u8, first: &[u8], second: &[u8]) {
    let at = Port {
        obj: FETCH,
        slot: 1,
    };
    let message = message(tag, 0, first, second);
    let _ = play.graph.up(at, &message, 0, &mut play.tape);
}

/// What the user has kept.
fn kept(graph: &Graph<Bench>) -> (&[u8], &[u8]) {
    match graph.node(USER) {
        Some(Bench::Keeper(keeper)) => (keeper.body.as_slice(), keeper.moved.as_slice()),
        _ => (&[], &[]),
    }
}

/// The user has kept this of a body and of a move.
fn has_kept(rt: &impl Abort, play: &Play, body: &[u8], moved: &[u8]) {
    assert_eq!(rt; kept(&play.graph), (body, moved));
}

/// Both ports were closed with this code, the upper one first.
fn has_ended(rt: &impl Abort, play: &Play, code: u8) {
    let ports = [(2, code), (1, code), (2, code)];
    assert_eq!(rt; play.tape.closed.as_slice(), ports.as_slice());
}

/// The request for the file, after the 16 bytes that ask for the connection.
const REQUEST: &[u8] =
    b"GET t/file HTTP/1.1\r\nHost: boo:8080\r\nUser-Agent: netboot\r\nConnection: close\r\n\r\n";

/// The connection is asked for and given the request, once.
#[test]
fn asks_below(rt: HostRuntime) -> Result<(), Fail> {
    let mut play = opened(&rt, 1000)?;
    let again = message(1, 0, b"0123456789abcdef", b"/");
    let user = Port { obj: USER, slot: 0 };
    let _ = play.graph.down(user, &again, 0, &mut play.tape);
    assert_eq!(rt; play.tape.tags.as_slice(), [1, 7].as_slice());
    assert_eq!(rt; play.tape.sent.as_slice().get(16..), Some(REQUEST));
    assert!(rt; play.tape.closed.is_empty(), "it goes on");
    Ok(())
}

/// Streams, what goes up of each, and the code that closes both ports.
const STREAMS: [(&[u8], &[u8], &[u8], u8); 5] = [
    (
        b"HTTP/1.1 200 OK\r\nContent-Length: 5\r\n\r\nhello",
        b"hello",
        b"",
        0,
    ),
    (
        b"HTTP/1.1 100 C\r\n\r\nHTTP/1.1 200 OK\r\nTransfer-Encoding: chunked\r\n\r\n3\r\nhel\r\n2\r\nlo\r\n0\r\n\r\nmore",
        b"hello",
        b"",
        0,
    ),
    (
        b"HTTP/1.1 302 Found\r\nLocation: /b\r\n\r\nmore",
        b"",
        b"/b",
        0,
    ),
    (b"HTTP/1.1 404 Not Found\r\n\r\n", b"", b"", 1),
    (b"HTTP/1.1 200 OK\r\nContent-Length: 0\r\n\r\n", b"", b"", 0),
];

/// Each stream is cut at each place, as two messages and as one message of two parts.
#[test]
fn however_it_is_cut(rt: HostRuntime) -> Result<(), Fail> {
    for (stream, body, moved, code) in STREAMS {
        for at in 0..stream.len() + 1 {
            let (first, second) = stream.split_at(at.min(stream.len()));
            let mut play = opened(&rt, 1000)?;
            give(&mut play, 5, first, b"");
            give(&mut play, 5, second, b"");
            has_kept(&rt, &play, body, moved);
            has_ended(&rt, &play, code);
            let mut play = opened(&rt, 1000)?;
            give(&mut play, 5, first, second);
            has_kept(&rt, &play, body, moved);
        }
    }
    Ok(())
}

/// What has come at the stream's end, what has gone up of it, and the code that closes both ports: a body without a length is
/// whole, and all else is broken.
const CUT: [(&[u8], &[u8], u8); 4] = [
    (b"", b"", 3),
    (b"HTTP/1.1 200", b"", 3),
    (b"HTTP/1.1 200 OK\r\n\r\nhello", b"hello", 0),
    (
        b"HTTP/1.1 200 OK\r\nContent-Length: 5\r\n\r\nhel",
        b"hel",
        3,
    ),
];

#[test]
fn at_the_end(rt: HostRuntime) -> Result<(), Fail> {
    for (stream, body, code) in CUT {
        let mut play = opened(&rt, 1000)?;
        give(&mut play, 5, stream, b"");
        assert!(rt; play.tape.closed.is_empty(), "it goes on");
        give(&mut play, 8, b"", b"");
        has_kept(&rt, &play, body, b"");
        has_ended(&rt, &play, code);
    }
    Ok(())
}

/// A user that has enough closes the fetch, and that the port below.
#[test]
fn closed_from_above(rt: HostRuntime) -> Result<(), Fail> {
    let mut play = opened(&rt, 2)?;
    give(&mut play, 5, b"HTTP/1.1 200 OK\r\n\r\nhello", b"");
    let ports = [(1, 0), (2, 0), (2, 0)];
    assert_eq!(rt; play.tape.closed.as_slice(), ports.as_slice());
    Ok(())
}
