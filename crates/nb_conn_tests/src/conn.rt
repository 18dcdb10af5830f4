//! A connection below a user, on a graph: what goes down, what goes up, and how it ends.

ghost use Rattle.std.specs.Prelude.{◌≡◌, true};
ghost use Rattle.nb_ledger.specs.Flat.{unknown};
ghost use Rattle.nb_ledger.specs.Ledger.{object_lives, rank};

use crate::{Knot, Taker};
use nb_conns::ConnAsk;
use nb_graph::{Graph, Msg, Node, ObjId, Outside, Port};
use nb_tcpseg::{ACK, FIN, PSH, RST, SYN, Segment};
use nb_terms::{Cause, Event};
use nb_wire::{Ip4, Out};
use std::process::Abort;
use std::test::Fail;

const PEER: Ip4 = Ip4(0x0a00_0001);

const OWN: Ip4 = Ip4(0x0a00_0002);

/// The number of the client's SYN, and that of the peer's.
const ISN: u32 = 1000;

const IRS: u32 = 5000;

const USER: ObjId = ObjId(1);

const CONN: ObjId = ObjId(2);

/// Keeps the causes of closed ports in order, and the tags, numbers and lengths of what leaves the graph.
#[derive(Drop)]
struct Tape {
    closed: Vec<(u64, u8)>,
    sent: Vec<(u8, u32, usize)>,
    flags: Vec<u8>,
}

impl Outside for Tape {
    ghost events = { λ _. unknown };

    fn event(&mut self, e: &Event) {
        if e.event == 8 {
            let _ = self.closed.push((e.object, e.cause.code));
        }
    }

    fn send(&mut self, _from: Port, msg: &Msg<'_>) {
        let _ = self
            .sent
            .push((msg.tag, msg.a, msg.first.len() + msg.second.len()));
        if let Some(flags) = msg.first.get(13) {
            let _ = self.flags.push(*flags);
        }
    }
}

/// The bytes of a segment from the peer, as they come up from the network.
fn segment(rt: &HostRuntime, seq: u32, ack: u32, flags: u8, body: &[u8]) -> Result<Vec<u8>, Fail> {
    let segment = Segment {
        src_port: 80,
        dst_port: 49_152,
        seq,
        ack,
        flags,
        window: 60_000,
        mss: None,
        body,
    };
    let mut room = [0u8; 128];
    if body.len() > 64 {
        return Err(Fail::new("too long"));
    }
    let mut out = Out::new(&mut room);
    segment.write(PEER, OWN, &mut out).ok().ok_or("no room")?;
    Ok(Vec::from_slice(rt.alloc(), out.written())?)
}

/// A graph at work, and what it puts out.
#[derive(Drop)]
struct Play {
    graph: Graph<Knot>,
    tape: Tape,
}

/// A user above a connection that was asked for.
fn opened(rt: &HostRuntime, most: u8, waits_for: usize) -> Result<Play, Fail> {
    let mut play = Play {
        graph: Graph::new(rt.alloc(), 2)?,
        tape: blank(rt),
    };
    let user = Taker {
        most,
        waits_for,
        bytes: Vec::new(rt.alloc()),
        messages: 0,
    };
    begin(rt, &mut play, user)?;
    Ok(play)
}

/// A user and a connection below it are made, and the user asks for it.
fn begin(rt: &HostRuntime, play: &mut Play, user: Taker) -> Result<(), Fail> {
    let Play { graph, tape } = play;
    graph.make(Knot::Taker(user), tape).ok().ok_or("full")?;
    let conn = Knot::tcp(rt.alloc())?;
    graph.make(conn, tape).ok().ok_or("full")?;
    join(graph, tape)?;
    let ask = ConnAsk {
        peer: PEER,
        peer_port: 80,
        own: OWN,
        own_port: 49_152,
        isn: ISN,
    };
    let bytes = ask.bytes();
    let begin = message(1, 0, &bytes);
    let _ = graph.down(Port { obj: USER, slot: 0 }, &begin, 0, tape);
    Ok(())
}

/// A message from above, or one of the peer's.
fn message(tag: u8, rec: u32, first: &[u8]) -> Msg<'_> {
    Msg {
        tag,
        rec,
        a: 80,
        b: PEER.0,
        first,
        second: &[],
    }
}

/// The rank of a live object.
fn rank_of(graph: &Graph<Knot>, id: ObjId) -> u8
    ensures { object_lives graph.now.book id.0 ≡ true → result ≡ rank graph.now.book id.0 }
{
    match graph.node(id) {
        Some(node) => node.rank(),
        None => 0,
    }
}

fn join(graph: &mut Graph<Knot>, tape: &mut Tape) -> Result<(), Fail> {
    let upper = Port { obj: USER, slot: 1 };
    let lower = Port { obj: CONN, slot: 0 };
    if rank_of(graph, CONN) < rank_of(graph, USER) {
        graph.plug(upper, lower, tape).ok().ok_or("not open")?;
    }
    Ok(())
}

/// What a segment is of: its place in the peer's stream, its flags and its bytes.
type Row<'a> = (u32, u8, &'a [u8]);

/// The peer's SYN.
const SYNS: Row<'static> = (0, SYN + ACK, b"");

/// A segment comes to the connection from the peer.
fn give(rt: &HostRuntime, play: &mut Play, row: Row<'_>) -> Result<(), Fail> {
    let (place, flags, body) = row;
    let seq = if flags & SYN == SYN {
        IRS
    } else {
        (IRS + 1).wrapping_add(place)
    };
    let bytes = segment(rt, seq, ISN + 1, flags, body)?;
    let _ = play.graph.up(
        Port { obj: CONN, slot: 1 },
        &message(2, 7, bytes.as_slice()),
        0,
        &mut play.tape,
    );
    Ok(())
}

fn give_all(rt: &HostRuntime, play: &mut Play, rows: &[Row<'_>]) -> Result<(), Fail> {
    for row in rows {
        give(rt, play, *row)?;
    }
    Ok(())
}

fn blank(rt: &HostRuntime) -> Tape {
    Tape {
        closed: Vec::new(rt.alloc()),
        sent: Vec::new(rt.alloc()),
        flags: Vec::new(rt.alloc()),
    }
}

/// What the user has taken, in how many messages.
fn taken(graph: &Graph<Knot>) -> (&[u8], u32) {
    match graph.node(USER) {
        Some(Knot::Taker(taker)) => (taker.bytes.as_slice(), taker.messages),
        _ => (&[], 0),
    }
}

/// What the peer sends after its SYN, what the user takes of it a byte at a time, in how many messages, and the flags of
/// the segments that answer.
const IN_ORDER: [(&[Row<'static>], &[u8], u32, &[u8]); 4] = [
    (&[SYNS, (0, ACK + PSH, b"abc")], b"abc", 3, &[SYN, ACK, ACK]),
    (
        &[SYNS, (3, ACK, b"def"), (0, ACK, b"abc")],
        b"abcdef",
        6,
        &[SYN, ACK, ACK, ACK],
    ),
    (&[SYNS, (0, ACK + FIN, b"ab")], b"ab", 3, &[SYN, ACK, ACK]),
    (
        &[SYNS, (2, ACK + FIN, b""), (0, ACK, b"ab")],
        b"ab",
        3,
        &[SYN, ACK, ACK, ACK],
    ),
];

/// The user has taken these bytes in so many messages, these flags were sent, and it goes on.
fn has_taken(rt: &impl Abort, play: &Play, bytes: &[u8], messages: u32, flags: &[u8]) {
    assert_eq!(rt; taken(&play.graph), (bytes, messages));
    assert_eq!(rt; play.tape.flags.as_slice(), flags, "after {bytes:?}");
    assert!(rt; play.tape.closed.is_empty(), "it goes on");
}

#[test]
fn goes_up_in_order(rt: HostRuntime) -> Result<(), Fail> {
    for (segments, bytes, messages, flags) in IN_ORDER {
        let mut play = opened(&rt, 1, 100)?;
        give_all(&rt, &mut play, segments)?;
        has_taken(&rt, &play, bytes, messages, flags);
    }
    Ok(())
}

/// What ends it after the peer's SYN, the ports that are closed with their codes, and the flags of the segments that answer.
/// A reset closes both ports, the one above first; a user that has enough closes the connection in the middle of a
/// delivery, while the window is lent: by a reset, or by a FIN where the peer's has come.
const ENDS: [(Row<'static>, &[(u64, u8)], &[u8]); 3] = [
    ((0, RST, b""), &[(2, 1), (1, 1), (2, 1)], &[SYN, ACK]),
    (
        (0, ACK, b"abc"),
        &[(1, 0), (2, 0), (2, 0)],
        &[SYN, ACK, ACK, RST + ACK],
    ),
    (
        (0, ACK + FIN, b"abc"),
        &[(1, 0), (2, 0), (2, 0)],
        &[SYN, ACK, ACK, FIN + ACK],
    ),
];

/// These ports were closed, these flags were sent, and the user has so many bytes.
fn has_ended(rt: &impl Abort, play: &Play, closed: &[(u64, u8)], flags: &[u8], len: usize) {
    assert_eq!(rt; play.tape.closed.as_slice(), closed);
    assert_eq!(rt; play.tape.flags.as_slice(), flags, "after {closed:?}");
    assert_eq!(rt; taken(&play.graph).0.len(), len, "after {closed:?}");
}

#[test]
fn ends(rt: HostRuntime) -> Result<(), Fail> {
    for (row, closed, flags) in ENDS {
        let mut play = opened(&rt, 2, 2)?;
        give_all(&rt, &mut play, &[SYNS, row])?;
        has_ended(&rt, &play, closed, flags, row.2.len().min(2));
    }
    Ok(())
}

/// Text that waits for the peer's SYN leaves beside its acknowledgement, in one message of two segments.
#[test]
fn text_beside_an_acknowledgement(rt: HostRuntime) -> Result<(), Fail> {
    let mut play = opened(&rt, 1, 100)?;
    let text = message(7, 0, b"hello");
    let user = Port { obj: USER, slot: 0 };
    let _ = play.graph.down(user, &text, 0, &mut play.tape);
    give(&rt, &mut play, SYNS)?;
    let sent = [(3, 1, 24), (9, 1, 45)];
    assert_eq!(rt; play.tape.sent.as_slice(), sent.as_slice());
    Ok(())
}
