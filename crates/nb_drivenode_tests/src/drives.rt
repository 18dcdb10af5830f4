//! A drive below a user, on a graph: what goes down, what goes up, and how it ends.

ghost use Rattle.std.specs.Prelude.{◌≡◌, true};
ghost use Rattle.nb_ledger.specs.Flat.{unknown};
ghost use Rattle.nb_ledger.specs.Ledger.{object_lives, rank};

use crate::recorded::{chap, plain, wrong};
use crate::{Rack, Taker};
use nb_conns::ConnAsk;
use nb_graph::{Graph, Msg, Node, ObjId, Outside, Port};
use nb_terms::{Cause, Event};
use nb_wire::Ip4;
use std::alloc::{AllocError, Global};
use std::test::Fail;

const USER: ObjId = ObjId(1);

const UNIT: ObjId = ObjId(2);

const SESSION: ObjId = ObjId(3);

/// Tags of messages: a connection's, and a drive's.
const BEGIN: u8 = 1;

const RECEIVED: u8 = 5;

const END: u8 = 8;

const READ: u8 = 13;

/// What is set: the target's name, the user and the secret.
type Setting = [&'static [u8]; 3];

const NAME: &[u8] = b"iqn.2026-11.lan.boot:disk";

const NOBODY: Setting = [NAME, b"", b""];

const USER_SET: Setting = [NAME, b"u", b"bbbbbbbbbbbb"];

const WRONG_SET: Setting = [NAME, b"u", b"wrong"];

/// Keeps the objects and codes of closed ports in order, and the bytes of what leaves the graph.
#[derive(Drop)]
struct Tape {
    closed: Vec<(u64, u8)>,
    sent: Vec<u8>,
}

impl Outside for Tape {
    ghost events = { λ _. unknown };

    fn event(&mut self, e: &Event) {
        if e.event == 8 {
            let _ = self.closed.push((e.object, e.cause.code));
        }
    }

    fn send(&mut self, _from: Port, msg: &Msg<'_>) {
        let _ = self.sent.extend_from_slice(msg.first);
        let _ = self.sent.extend_from_slice(msg.second);
    }
}

/// A message.
fn message<'m>(tag: u8, a: u32, b: u32, first: &'m [u8]) -> Msg<'m> {
    Msg {
        tag,
        rec: 7,
        a,
        b,
        first,
        second: &[],
    }
}

/// The rank of a live object.
fn rank_of(graph: &Graph<Rack>, id: ObjId) -> u8
    ensures { object_lives graph.now.book id.0 ≡ true → result ≡ rank graph.now.book id.0 }
{
    match graph.node(id) {
        Some(node) => node.rank(),
        None => 0,
    }
}

fn join(graph: &mut Graph<Rack>, tape: &mut Tape, above: ObjId, below: ObjId) -> Result<(), Fail> {
    let upper = Port {
        obj: above,
        slot: 1,
    };
    let lower = Port {
        obj: below,
        slot: 0,
    };
    if rank_of(graph, below) < rank_of(graph, above) {
        graph.plug(upper, lower, tape).ok().ok_or("not open")?;
    }
    Ok(())
}

/// The bytes that ask for the drive: the connection, unit 1, the words of the recorded sessions, and the names.
fn asking(alloc: Global, setting: Setting) -> Result<Vec<u8>, AllocError> {
    let ask = ConnAsk {
        peer: Ip4(0x0a00_0001),
        peer_port: 3260,
        own: Ip4(0x0a00_0002),
        own_port: 49_152,
        isn: 1000,
    };
    let mut bytes = Vec::from_slice(alloc, &ask.bytes())?;
    bytes.extend_from_slice(&[0, 1, 0, 0, 0, 0, 0, 0])?;
    for word in [
        0,
        0x0012_3456,
        7,
        0x0001_0203,
        0x0405_0607,
        0x0809_0a0b,
        0x0c0d_0e0f,
        0u32,
    ] {
        bytes.extend_from_slice(&word.to_be_bytes())?;
    }
    let [target, user, secret] = setting;
    for name in [
        b"iqn.2026-11.lan.boot:client".as_slice(),
        target,
        user,
        secret,
        b"",
        b"",
    ] {
        bytes.extend_from_slice(&(name.len().min(65_535) as u16).to_be_bytes())?;
        bytes.extend_from_slice(name)?;
    }
    Ok(bytes)
}

/// A user above a unit above a session, and what they put out.
#[derive(Drop)]
struct Drive {
    graph: Graph<Rack>,
    tape: Tape,
}

/// A drive that was asked for.
fn opened(alloc: Global, setting: Setting) -> Result<Drive, Fail> {
    let mut drive = Drive {
        graph: Graph::new(alloc, 3)?,
        tape: Tape {
            closed: Vec::new(alloc),
            sent: Vec::new(alloc),
        },
    };
    make(alloc, &mut drive.graph, &mut drive.tape)?;
    begin(alloc, &mut drive, setting)?;
    Ok(drive)
}

/// The three objects are made, and joined.
fn make(alloc: Global, graph: &mut Graph<Rack>, tape: &mut Tape) -> Result<(), Fail> {
    let user = Taker {
        blocks: Vec::new(alloc),
        answers: Vec::new(alloc),
    };
    graph.make(Rack::Taker(user), tape).ok().ok_or("full")?;
    let unit = Rack::unit(alloc)?;
    graph.make(unit, tape).ok().ok_or("full")?;
    let session = Rack::session(alloc)?;
    graph.make(session, tape).ok().ok_or("full")?;
    join(graph, tape, USER, UNIT)?;
    join(graph, tape, UNIT, SESSION)
}

/// The user asks for the drive.
fn begin(alloc: Global, drive: &mut Drive, setting: Setting) -> Result<(), Fail> {
    let bytes = asking(alloc, setting)?;
    let begin = message(BEGIN, 0, 0, bytes.as_slice());
    let user = Port { obj: USER, slot: 0 };
    let _ = drive.graph.down(user, &begin, 0, &mut drive.tape);
    Ok(())
}

impl Drive {
    /// Bytes of the stream come, in pieces of this size, or its end.
    fn give(&mut self, tag: u8, bytes: &[u8], size: usize) {
        let at = Port {
            obj: SESSION,
            slot: 1,
        };
        if bytes.is_empty() {
            let _ = self
                .graph
                .up(at, &message(tag, 0, 0, b""), 0, &mut self.tape);
        }
        for piece in bytes.chunks(size.max(1)) {
            let _ = self
                .graph
                .up(at, &message(tag, 0, 0, piece), 0, &mut self.tape);
        }
    }

    /// The user asks for blocks.
    fn read(&mut self, lba: u32, count: u32) {
        let at = Port { obj: USER, slot: 0 };
        let _ = self
            .graph
            .down(at, &message(READ, lba, count, b""), 0, &mut self.tape);
    }

    /// What the user has kept.
    fn kept(&self) -> (&[u8], &[(u32, u32)]) {
        match self.graph.node(USER) {
            Some(Rack::Taker(taker)) => (taker.blocks.as_slice(), taker.answers.as_slice()),
            _ => (&[], &[]),
        }
    }
}

/// The bytes that hexadecimal digits spell.
fn spelled(alloc: Global, digits: &str) -> Result<Vec<u8>, Fail> {
    let mut bytes = Vec::new(alloc);
    let mut high = None;
    for letter in digits.chars() {
        let digit = letter.to_digit(16).ok_or("no digit")? % 16;
        high = match high {
            None => Some(digit),
            Some(before) => {
                bytes.push((before % 16 * 16 + digit) as u8)?;
                None
            }
        };
    }
    Ok(bytes)
}

/// The number in four bytes from this one on.
fn word(bytes: &[u8], at: usize) -> u32 {
    match bytes.get(at..).and_then(|rest| rest.first_chunk::<4>()) {
        Some(word) => u32::from_be_bytes(*word),
        None => 0,
    }
}

/// Blocks from this one on, so many bytes of them: each is its own number over and over.
fn blocks(alloc: Global, first: u32, len: u32) -> Result<Vec<u8>, AllocError> {
    let mut bytes = Vec::new(alloc);
    for place in 0..len / 2 {
        let number = first.wrapping_add(place / 256);
        let [_, _, high, low] = number.to_be_bytes();
        bytes.push(high)?;
        bytes.push(low)?;
    }
    Ok(bytes)
}

/// A recorded session that is played.
#[derive(Drop)]
struct Play {
    drive: Drive,
    /// What the initiator sent.
    wanted: Vec<u8>,
    /// The blocks that the target sent.
    expected: Vec<u8>,
    /// The first block of the read that is out.
    lba: u32,
}

impl Play {
    /// The initiator sends this; where it is a read, the user asks for it.
    fn send(&mut self, pdu: &[u8]) -> Result<(), Fail> {
        if word(pdu, 32) >> 16 == 0x2800 {
            self.lba = word(pdu, 34);
            self.drive.read(self.lba, (word(pdu, 38) >> 8) % 65_536);
        }
        self.wanted.extend_from_slice(pdu)?;
        Ok(())
    }

    /// The target answers this; the data of a read are its blocks.
    fn answer(&mut self, alloc: Global, pdu: &[u8], size: usize) -> Result<(), Fail> {
        let len = word(pdu, 4);
        if word(pdu, 0) >> 24 != 0x25 || len <= 8 {
            self.drive.give(RECEIVED, pdu, size);
            return Ok(());
        }
        let first = self.lba.wrapping_add(word(pdu, 40) / 512);
        let data = blocks(alloc, first, len)?;
        self.expected.extend_from_slice(data.as_slice())?;
        let mut whole = Vec::from_slice(alloc, pdu)?;
        whole.extend_from_slice(data.as_slice())?;
        self.drive.give(RECEIVED, whole.as_slice(), size);
        Ok(())
    }

    /// One of both sends a PDU.
    fn line(&mut self, alloc: Global, line: &str, size: usize) -> Result<(), Fail> {
        if let Some(digits) = line.strip_prefix('>') {
            let pdu = spelled(alloc, digits)?;
            return self.send(pdu.as_slice());
        }
        let digits = line.strip_prefix('<').ok_or("no line")?;
        let pdu = spelled(alloc, digits)?;
        self.answer(alloc, pdu.as_slice(), size)
    }

    /// Whether all that is sent is what the initiator sent, and the blocks have gone up.
    fn agrees(&self) -> bool {
        let sent = self.drive.tape.sent.as_slice().get(16..);
        sent == Some(self.wanted.as_slice()) && self.drive.kept().0 == self.expected.as_slice()
    }

    /// The lines of a record come in turn.
    fn lines(&mut self, alloc: Global, record: &str, size: usize) -> Result<(), Fail> {
        for line in record.lines() {
            self.line(alloc, line, size)?;
        }
        if self.agrees() {
            Ok(())
        } else {
            Err(Fail::new("another session"))
        }
    }
}

/// Plays a recorded session, whose stream comes in pieces of this size.
fn played(alloc: Global, record: &str, setting: Setting, size: usize) -> Result<Drive, Fail> {
    let mut play = Play {
        drive: opened(alloc, setting)?,
        wanted: Vec::new(alloc),
        expected: Vec::new(alloc),
        lba: 0,
    };
    play.lines(alloc, record, size)?;
    Ok(play.drive)
}

/// A session was read to its end: so many answers brought the size and this kind of CHAP; a read that may not be asked
/// for sends nothing.
fn was_read(drive: &mut Drive, chap: u32, count: usize) -> bool {
    let answers = drive.kept().1;
    if answers.len() != count || answers.iter().any(|answer| *answer != (2048, chap)) {
        return false;
    }
    let sent = drive.tape.sent.len();
    for (lba, count) in [(2047, 2), (0, 0), (0, 65), (4_294_967_295, 1)] {
        drive.read(lba, count);
    }
    drive.tape.sent.len() == sent && drive.tape.closed.is_empty()
}

/// The ports that a unit closes which ends as broken, and those below and above.
const BROKEN: [(u64, u8); 5] = [(2, 3), (1, 3), (2, 3), (3, 3), (3, 3)];

/// A login and reads with two targets, however the stream is cut; then its end, which breaks the session.
#[test]
fn reads_blocks(rt: HostRuntime) -> Result<(), Fail> {
    for size in [1, 47, 100, 1460, 20_000] {
        let mut drive = played(rt.alloc(), plain(), NOBODY, size)?;
        assert!(rt; was_read(&mut drive, 0, 4), "{size}");
        drive.give(END, b"", 1);
        assert_eq!(rt; drive.tape.closed.as_slice(), BROKEN.as_slice());
    }
    Ok(())
}

/// The same with CHAP; then bytes with which no PDU begins.
#[test]
fn reads_with_a_secret(rt: HostRuntime) -> Result<(), Fail> {
    for size in [1, 47, 100, 1460, 20_000] {
        let mut drive = played(rt.alloc(), chap(), USER_SET, size)?;
        assert!(rt; was_read(&mut drive, 1, 3), "{size}");
        drive.give(RECEIVED, b"\x25\x80\x00\x00\x00\x00\x20\x01more", 100);
        assert_eq!(rt; drive.tape.closed.as_slice(), BROKEN.as_slice());
    }
    Ok(())
}

/// A target that refuses the secret: both ports are closed, the one above first.
#[test]
fn refused_by_the_target(rt: HostRuntime) -> Result<(), Fail> {
    let drive = played(rt.alloc(), wrong(), WRONG_SET, 100)?;
    assert_eq!(rt;
        drive.tape.closed.as_slice(),
        [(3, 1), (2, 1), (2, 1), (1, 1), (3, 1)].as_slice()
    );
    Ok(())
}

/// What comes before a session is open, and the code that closes both ports: the stream's end, and heads with which no
/// PDU begins.
#[test]
fn without_a_session(rt: HostRuntime) -> Result<(), Fail> {
    let rows: [(u8, &[u8]); 3] = [
        (END, b""),
        (RECEIVED, b"\x23\x87\x00\x00\x01\x00\x00\x00"),
        (RECEIVED, b"\x23\x87\x00\x00\x00\x00\x20\x01more"),
    ];
    for (tag, bytes) in rows {
        let mut drive = opened(rt.alloc(), NOBODY)?;
        drive.give(tag, bytes, 100);
        assert_eq!(rt;
            drive.tape.closed.as_slice(),
            [(3, 3), (2, 3), (2, 3), (1, 3), (3, 3)].as_slice()
        );
    }
    Ok(())
}

/// A target's name with a zero byte isn't sent: the drive is closed before anything leaves it.
#[test]
fn refused_name(rt: HostRuntime) -> Result<(), Fail> {
    let drive = opened(rt.alloc(), [b"t\0", b"", b""])?;
    assert!(rt; drive.tape.sent.is_empty());
    assert_eq!(rt;
        drive.tape.closed.as_slice(),
        [(3, 15), (2, 15), (2, 15), (1, 15), (3, 15)].as_slice()
    );
    Ok(())
}

/// One that its user closes closes what lies below.
#[test]
fn closed_from_above(rt: HostRuntime) -> Result<(), Fail> {
    let mut drive = played(rt.alloc(), chap(), USER_SET, 100)?;
    let at = Port { obj: USER, slot: 1 };
    drive.graph.close(at, &Cause::default(), 0, &mut drive.tape);
    assert_eq!(rt;
        drive.tape.closed.as_slice(),
        [(1, 0), (2, 0), (2, 0), (3, 0), (3, 0)].as_slice()
    );
    Ok(())
}
