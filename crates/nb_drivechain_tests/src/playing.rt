//! Recorded sessions are played: a target's PDUs come as segments, and the user asks for the blocks that were read.

ghost use Rattle.std.specs.Prelude.{◌+◌, ◌<◌, ◌≤◌, ◌^◌, IfOk, length};
ghost use Rattle.nb_chains.specs.Chains.{AreChained};
ghost use Rattle.nb_drivechains.specs.DriveChains.{drive_ids};
ghost use Rattle.nb_ledger.specs.Flat.{unknown};

use crate::recorded::{chap, plain, wrong};
use nb_chains::Arrival;
use nb_conns::ConnAsk;
use nb_drivechains::{DriveAnswer, DriveChain};
use nb_graph::{Graph, Msg, Outside, Port};
use nb_nodes::Obj;
use nb_tcpseg::{ACK, PSH, SYN, Segment};
use nb_terms::{Cause, Event, NoMemory};
use nb_wire::{Ip4, Out};
use std::alloc::{AllocError, Global};
use std::test::Fail;

const SERVER: Ip4 = Ip4(0x0a00_0001);

const OWN: Ip4 = Ip4(0x0a00_0002);

/// The number of the client's SYN, and that of the target's.
const ISN: u32 = 1000;

const IRS: u32 = 5000;

/// What is set: the target's name, the user and the secret.
type Setting = [&'static [u8]; 3];

/// The user wants no more of it.
const STOPPED: Cause = Cause {
    code: 26,
    a: 0,
    b: 0,
};

const NAME: &[u8] = b"iqn.2026-11.lan.boot:disk";

/// Keeps the causes of closed ports, what the client says on its connection, and what goes up from the unit.
#[derive(Drop)]
struct Tape {
    closed: Vec<u8>,
    said: Vec<u8>,
    blocks: Vec<u8>,
    answers: Vec<DriveAnswer>,
}

impl Outside for Tape {
    ghost events = { λ _. unknown };

    fn event(&mut self, e: &Event) {
        if e.event == 8 {
            let _ = self.closed.push(e.cause.code);
        }
    }

    fn send(&mut self, from: Port, msg: &Msg<'_>) {
        if from.slot != 0 {
            self.keep(msg.first);
            self.keep(msg.second);
        } else if let Some(answer) = DriveAnswer::read(msg) {
            let _ = self.answers.push(answer);
        } else {
            let _ = self.blocks.extend_from_slice(msg.first);
            let _ = self.blocks.extend_from_slice(msg.second);
        }
    }
}

impl Tape {
    fn blank(alloc: Global) -> Tape {
        Tape {
            closed: Vec::new(alloc),
            said: Vec::new(alloc),
            blocks: Vec::new(alloc),
            answers: Vec::new(alloc),
        }
    }

    /// What a segment without SYN says.
    fn keep(&mut self, segment: &[u8]) {
        if segment.get(13).is_some_and(|flags| flags & SYN == 0) {
            let _ = self
                .said
                .extend_from_slice(segment.get(20..).unwrap_or(&[]));
        }
    }
}

/// The bytes that ask for the drive: the connection, unit 1, the words of the recorded sessions, and the names.
fn asking(alloc: Global, setting: Setting) -> Result<Vec<u8>, AllocError> {
    let ask = ConnAsk {
        peer: SERVER,
        peer_port: 3260,
        own: OWN,
        own_port: 49_152,
        isn: ISN,
    };
    let mut bytes = Vec::from_slice(alloc, &ask.bytes())?;
    bytes.extend_from_slice(&[0, 1, 0, 0, 0, 0, 0, 0])?;
    for word in [
        0,
        0x0012_3456,
        7,
        0x0001_0203,
        0x0405_0607,
        0x0809_0a0b,
        0x0c0d_0e0f,
        0u32,
    ] {
        bytes.extend_from_slice(&word.to_be_bytes())?;
    }
    let [target, user, secret] = setting;
    let client = b"iqn.2026-11.lan.boot:client".as_slice();
    for name in [client, target, user, secret, b"", b""] {
        bytes.extend_from_slice(&(name.len().min(65_535) as u16).to_be_bytes())?;
        bytes.extend_from_slice(name)?;
    }
    Ok(bytes)
}

/// The bytes that hexadecimal digits spell.
fn spelled(alloc: Global, digits: &str) -> Result<Vec<u8>, Fail> {
    let mut bytes = Vec::new(alloc);
    let mut high = None;
    for letter in digits.chars() {
        let digit = letter.to_digit(16).ok_or("no digit")? % 16;
        high = match high {
            None => Some(digit),
            Some(before) => {
                bytes.push((before % 16 * 16 + digit) as u8)?;
                None
            }
        };
    }
    Ok(bytes)
}

/// The number in four bytes from this one on.
fn word(bytes: &[u8], at: usize) -> u32 {
    match bytes.get(at..).and_then(|rest| rest.first_chunk::<4>()) {
        Some(word) => u32::from_be_bytes(*word),
        None => 0,
    }
}

/// Blocks from this one on, so many bytes of them: each is its own number over and over.
fn blocks(alloc: Global, first: u32, len: u32) -> Result<Vec<u8>, AllocError> {
    let mut bytes = Vec::new(alloc);
    for place in 0..len / 2 {
        let number = first.wrapping_add(place / 256);
        let [_, _, high, low] = number.to_be_bytes();
        bytes.push(high)?;
        bytes.push(low)?;
    }
    Ok(bytes)
}

/// A recorded session that is played.
#[derive(Drop)]
struct Play {
    graph: Graph<Obj>,
    drive: DriveChain,
    tape: Tape,
    /// How much of the target's stream has come.
    place: u32,
    /// What the initiator sent.
    wanted: Vec<u8>,
    /// The blocks that the target sent.
    expected: Vec<u8>,
    /// The first block of the read that is out.
    lba: u32,
}

/// A segment of the target comes: it acknowledges all that the client has said.
fn give(
    graph: &mut Graph<Obj>,
    drive: DriveChain,
    tape: &mut Tape,
    numbers: (u32, u8),
    body: &[u8],
) -> Result<(), Fail>
    requires { AreChained graph.old (drive_ids drive) }
    ensures { IfOk result (λ _. AreChained graph.new (drive_ids drive)) }
{
    let segment = Segment {
        src_port: 3260,
        dst_port: 49_152,
        seq: numbers.0,
        ack: (ISN + 1).wrapping_add((tape.said.len() % 65_536) as u32),
        flags: numbers.1,
        window: 60_000,
        mss: None,
        body,
    };
    let mut room = [0u8; 700];
    if body.len() > 600 {
        return Err(Fail::new("too long"));
    }
    let mut out = Out::new(&mut room);
    segment.write(SERVER, OWN, &mut out).ok().ok_or("no room")?;
    let arrival = Arrival {
        port: 3260,
        source: SERVER,
        body: out.written(),
    };
    drive.message(graph, 7, &arrival, 5, tape);
    Ok(())
}

/// A drive's objects: all at once, or a unit that waits first.
fn made(
    alloc: Global,
    graph: &mut Graph<Obj>,
    waits: bool,
    tape: &mut Tape,
) -> Result<DriveChain, NoMemory>
    requires room { length graph.old.book.objects + 3 ≤ graph.old.book.room }
    requires serials { graph.old.book.made + 3 < 2 ^ 64 }
    ensures { IfOk result (λ c. AreChained graph.new (drive_ids c)) }
{
    if !waits {
        return DriveChain::make(alloc, graph, tape);
    }
    let unit = DriveChain::wait(alloc, graph, tape)?;
    DriveChain::complete(unit, alloc, graph, tape)
}

/// A drive that was asked for, and whose connection is there.
fn opened(alloc: Global, setting: Setting, waits: bool) -> Result<Play, Fail>
    ensures { IfOk result (λ p. AreChained p.graph (drive_ids p.drive)) }
{
    let mut tape = Tape::blank(alloc);
    let mut graph = Graph::new(alloc, 8)?;
    let drive = made(alloc, &mut graph, waits, &mut tape)?;
    let bytes = asking(alloc, setting)?;
    drive.begin(&mut graph, 1, bytes.as_slice(), b"", 0, &mut tape);
    give(&mut graph, drive, &mut tape, (IRS, SYN + ACK), b"")?;
    Ok(Play {
        graph,
        drive,
        tape,
        place: 0,
        wanted: Vec::new(alloc),
        expected: Vec::new(alloc),
        lba: 0,
    })
}

impl Play {
    /// Bytes of the target's stream come, in segments of this size.
    fn bring(&mut self, bytes: &[u8], size: usize) -> Result<(), Fail>
        requires { AreChained self.old.graph (drive_ids self.old.drive) }
        ensures { IfOk result (λ _. AreChained self.new.graph (drive_ids self.new.drive)) }
    {
        for piece in bytes.chunks(size.max(1)) {
            let seq = (IRS + 1).wrapping_add(self.place);
            give(
                &mut self.graph,
                self.drive,
                &mut self.tape,
                (seq, PSH + ACK),
                piece,
            )?;
            self.place = self.place.wrapping_add((piece.len() % 65_536) as u32);
        }
        Ok(())
    }

    /// The initiator sends this; where it is a read, the user asks for it.
    fn send(&mut self, pdu: &[u8]) -> Result<(), Fail>
        requires { AreChained self.old.graph (drive_ids self.old.drive) }
        ensures { IfOk result (λ _. AreChained self.new.graph (drive_ids self.new.drive)) }
    {
        if word(pdu, 32) >> 16 == 0x2800 {
            self.lba = word(pdu, 34);
            let count = ((word(pdu, 38) >> 8) % 65_536) as u16;
            self.drive
                .read(&mut self.graph, 0, self.lba, count, 5, &mut self.tape);
        }
        self.wanted.extend_from_slice(pdu)?;
        Ok(())
    }

    /// The target answers this; the data of a read are its blocks.
    fn answer(&mut self, alloc: Global, pdu: &[u8], size: usize) -> Result<(), Fail>
        requires { AreChained self.old.graph (drive_ids self.old.drive) }
        ensures { IfOk result (λ _. AreChained self.new.graph (drive_ids self.new.drive)) }
    {
        let len = word(pdu, 4);
        if word(pdu, 0) >> 24 != 0x25 || len <= 8 {
            return self.bring(pdu, size);
        }
        let first = self.lba.wrapping_add(word(pdu, 40) / 512);
        let data = blocks(alloc, first, len)?;
        self.expected.extend_from_slice(data.as_slice())?;
        let mut whole = Vec::from_slice(alloc, pdu)?;
        whole.extend_from_slice(data.as_slice())?;
        self.bring(whole.as_slice(), size)
    }

    /// Time comes to each of these, in milliseconds.
    fn pass_times(&mut self, times: &[u64])
        requires { AreChained self.old.graph (drive_ids self.old.drive) }
        ensures { AreChained self.new.graph (drive_ids self.new.drive) }
    {
        for now in times {
            self.drive.time(&mut self.graph, *now, &mut self.tape);
        }
    }

    /// One of both sends a PDU.
    fn line(&mut self, alloc: Global, line: &str, size: usize) -> Result<(), Fail>
        requires { AreChained self.old.graph (drive_ids self.old.drive) }
        ensures { IfOk result (λ _. AreChained self.new.graph (drive_ids self.new.drive)) }
    {
        if let Some(digits) = line.strip_prefix('>') {
            let pdu = spelled(alloc, digits)?;
            return self.send(pdu.as_slice());
        }
        let digits = line.strip_prefix('<').ok_or("no line")?;
        let pdu = spelled(alloc, digits)?;
        self.answer(alloc, pdu.as_slice(), size)
    }
}

/// Plays a recorded session, whose stream comes in segments of this size.
fn played(alloc: Global, record: &str, setting: Setting, size: usize) -> Result<Play, Fail>
    ensures { IfOk result (λ p. AreChained p.graph (drive_ids p.drive)) }
{
    let mut play = opened(alloc, setting, size < 100)?;
    for line in record.lines() {
        play.line(alloc, line, size)?;
    }
    Ok(play)
}

/// Whole sessions, without CHAP and with it: what the client says is what the recorded initiator sent, the blocks have
/// gone up, each answer has the size and the kind of CHAP, and a close from above closes all six ports.
#[test]
fn sessions(rt: HostRuntime) -> Result<(), Fail> {
    let alloc = rt.alloc();
    let nobody: Setting = [NAME, b"", b""];
    let somebody: Setting = [NAME, b"u", b"bbbbbbbbbbbb"];
    for (record, setting, kind) in [(plain(), nobody, 0), (chap(), somebody, 1)] {
        for size in [536, 48, 17] {
            let mut play = played(alloc, record, setting, size)?;
            assert_eq!(rt; play.tape.said.as_slice(), play.wanted.as_slice());
            assert_eq!(rt; play.tape.blocks.as_slice(), play.expected.as_slice());
            let wanted = DriveAnswer {
                blocks: 2048,
                chap: kind,
            };
            let answers = play.tape.answers.as_slice();
            assert!(rt; answers.len() > 1 && answers.iter().all(|answer| *answer == wanted));
            assert!(rt; play.tape.closed.is_empty(), "it goes on");
            play.drive
                .close(&mut play.graph, &STOPPED, 9, &mut play.tape);
            assert_eq!(rt; play.tape.closed.as_slice(), [26; 6].as_slice());
        }
    }
    Ok(())
}

/// A wrong secret: the target refuses, and all is closed with Refused.
#[test]
fn a_wrong_secret(rt: HostRuntime) -> Result<(), Fail> {
    let alloc = rt.alloc();
    let play = played(alloc, wrong(), [NAME, b"u", b"wrong"], 536)?;
    assert_eq!(rt; play.tape.said.as_slice(), play.wanted.as_slice());
    assert_eq!(rt; play.tape.closed.as_slice(), [1; 6].as_slice());
    assert!(rt; play.tape.answers.is_empty());
    Ok(())
}

/// A target that is silent once it is connected: the sixth try is over, and all is closed with TimedOut.
#[test]
fn a_silent_target(rt: HostRuntime) -> Result<(), Fail> {
    let alloc = rt.alloc();
    let mut play = opened(alloc, [NAME, b"", b""], true)?;
    play.pass_times(&[255, 755, 1755, 3755, 7755]);
    assert!(rt; play.tape.closed.is_empty(), "it goes on");
    play.pass_times(&[15_755]);
    assert_eq!(rt; play.tape.closed.as_slice(), [2; 6].as_slice());
    Ok(())
}

/// At the end of a run all ports are closed, and nothing lives.
#[test]
fn is_shut_down(rt: HostRuntime) -> Result<(), Fail> {
    let alloc = rt.alloc();
    let mut play = opened(alloc, [NAME, b"", b""], false)?;
    play.drive
        .shut_down(&mut play.graph, &STOPPED, 9, &mut play.tape);
    assert_eq!(rt; play.tape.closed.as_slice(), [26; 12].as_slice());
    assert_eq!(rt; play.graph.live(), 0);
    Ok(())
}
