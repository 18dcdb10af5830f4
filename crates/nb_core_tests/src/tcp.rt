//! A connection against a peer that the tests play.

mod receiving;
mod sending;
mod tables;

use arrayvec::ArrayVec;
use nb_tcp::Conn;
use nb_tcpseg::{ACK, PSH, SYN, Segment};
use nb_terms::{Acts, Cause, SendTo};
use nb_wire::Ip4;
use std::alloc::Global;
use std::test::Fail;

const PEER: Ip4 = Ip4(0x0a00_0001);

/// The number of our SYN.
const ISN: u32 = 1000;

/// The number of the peer's SYN.
const IRS: u32 = 5000;

/// A segment from the peer, with a window of 60,000.
fn from_peer(seq: u32, ack: u32, flags: u8, body: &[u8]) -> Segment<'_> {
    Segment {
        src_port: 80,
        dst_port: 49_152,
        seq,
        ack,
        flags,
        window: 60_000,
        mss: None,
        body,
    }
}

/// Data at a place of the peer's stream, which acknowledges our SYN alone.
fn data(place: u32, body: &[u8]) -> Segment<'_> {
    from_peer((IRS + 1).wrapping_add(place), ISN + 1, PSH + ACK, body)
}

/// A segment comes, where what waited was delivered and an IPv4 packet can carry it.
fn give_segment(
    conn: &mut Conn,
    rec: u32,
    segment: &Segment<'_>,
    now: u64,
    acts: &mut Acts,
) -> Result<(), Fail> {
    if !conn.has_delivered() || segment.body.len() >= 65_536 {
        return Err(Fail::new("the segment may not come yet"));
    }
    conn.segment(rec, segment, now, acts);
    Ok(())
}

fn asking(alloc: Global, isn: u32, acts: &mut Acts) -> Result<Conn, Fail> {
    Ok(Conn::start(alloc, 0, 49_152, PEER, 80, isn, 0, acts)?)
}

/// A connection that is established at 0, by a SYN with this number and a segment size of 1,460.
fn established(alloc: Global, isn: u32, irs: u32, acts: &mut Acts) -> Result<Conn, Fail> {
    let mut conn = asking(alloc, isn, acts)?;
    let mut answer = from_peer(irs, isn.wrapping_add(1), SYN + ACK, b"");
    answer.mss = Some(1460);
    give_segment(&mut conn, 1, &answer, 0, acts)?;
    Ok(conn)
}

/// What was sent: its number, what it acknowledges, its flags, its window and its bytes.
#[derive(Clone, Copy, Debug, PartialEq, Eq)]
struct Sent<'a> {
    seq: u32,
    ack: u32,
    flags: u8,
    window: u16,
    body: &'a [u8],
}

/// A segment to the peer whose checksum is 0, as RFC 9293, section 3.1, lays it out.
fn as_sent(send: &SendTo) -> Option<Sent<'_>> {
    let (header, _) = send.body.as_slice().split_first_chunk::<20>()?;
    let [
        s0,
        s1,
        d0,
        d1,
        q0,
        q1,
        q2,
        q3,
        a0,
        a1,
        a2,
        a3,
        offset,
        flags,
        w0,
        w1,
        c0,
        c1,
        _,
        _,
    ] = *header;
    let is_ours = send.proto == 6
        && send.to == PEER
        && send.to_port == 80
        && send.own_port == 49_152;
    let has_ports = [s0, s1, d0, d1] == [0xc0, 0, 0, 80];
    if !is_ours || !has_ports || c0 != 0 || c1 != 0 {
        return None;
    }
    Some(Sent {
        seq: u32::from_be_bytes([q0, q1, q2, q3]),
        ack: u32::from_be_bytes([a0, a1, a2, a3]),
        flags,
        window: u16::from_be_bytes([w0, w1]),
        body: send
            .body
            .as_slice()
            .get(usize::from(offset / 16).wrapping_mul(4)..)?,
    })
}

/// The segments that are asked for, at most two.
fn all_sent(acts: &Acts) -> (Option<Sent<'_>>, Option<Sent<'_>>) {
    match acts.sends.as_slice() {
        [] => (None, None),
        [one] => (as_sent(one), None),
        [one, two, ..] => (as_sent(one), as_sent(two)),
    }
}

fn one(
    seq: u32,
    ack: u32,
    flags: u8,
    window: u16,
) -> (Option<Sent<'static>>, Option<Sent<'static>>) {
    (
        Some(Sent {
            seq,
            ack,
            flags,
            window,
            body: b"",
        }),
        None,
    )
}

/// An acknowledgement up to a place of the peer's stream, where nothing was sent but the SYN.
fn ack_to(place: u32) -> (Option<Sent<'static>>, Option<Sent<'static>>) {
    one(ISN + 1, (IRS + 1).wrapping_add(place), ACK, 65_535)
}

fn cause(code: u8, a: u32, b: u32) -> Option<Cause> {
    Some(Cause { code, a, b })
}

/// Lends what waits, and gives it back. Returns the bytes below the place.
fn delivered(conn: &mut Conn, place: Option<u32>) -> ArrayVec<u8, 2048> {
    let mut bytes = ArrayVec::new();
    if let Some(held) = conn.lend() {
        let count = place.unwrap_or(held.base()).saturating_sub(held.base()) as usize;
        let (first, second) = held.front();
        for byte in first.iter().chain(second.iter()).take(count) {
            let _ = bytes.try_push(*byte);
        }
        conn.regain(held);
    }
    bytes
}
