//! What comes from the peer, to its end and past it.

use crate::tcp::{
    IRS, ISN, Sent, ack_to, all_sent, delivered, established, from_peer, give_segment, one,
};
use nb_tcp::Conn;
use nb_tcpseg::{ACK, FIN, PSH};
use nb_terms::Acts;
use std::process::Abort;
use std::test::Fail;

/// Segments in turn, each with its place in the peer's stream, its flags and its bytes; the place that is acknowledged,
/// where one is; the place up to which bytes are delivered, and those bytes; and whether the stream's end is reached. A
/// FIN after a hole, the bytes of the hole, where the FIN counts one, and bytes after the end.
const SEGMENTS: [(u32, u8, &[u8], Option<u32>, Option<u32>, &[u8], bool); 3] = [
    (2, FIN + ACK, b"cd", Some(0), None, b"", false),
    (0, PSH + ACK, b"ab", Some(5), Some(4), b"abcd", true),
    (4, ACK, b"after the end", None, None, b"", true),
];

/// Takes a segment, and looks at its answer where one is expected.
fn takes(
    rt: &impl Abort,
    conn: &mut Conn,
    rec: u32,
    (place, flags, body): (u32, u8, &[u8]),
    answer: Option<u32>,
    acts: &mut Acts,
) -> Result<(), Fail> {
    let segment = from_peer((IRS + 1).wrapping_add(place), ISN + 1, flags, body);
    give_segment(conn, rec, &segment, 0, acts)?;
    if let Some(place) = answer {
        assert_eq!(rt; all_sent(acts), ack_to(place), "segment {rec}");
    }
    Ok(())
}

fn sends_text(rt: &impl Abort, conn: &mut Conn, acts: &mut Acts) -> Result<(), Fail> {
    conn.send(b"q", 0, acts)?;
    let text = Sent {
        seq: ISN + 1,
        ack: IRS + 6,
        flags: PSH + ACK,
        window: 65_535,
        body: b"q",
    };
    assert_eq!(rt; all_sent(acts), (Some(text), None));
    Ok(())
}

/// A close is a FIN, which is sent once.
fn closes(rt: &impl Abort, conn: &mut Conn, acts: &mut Acts) {
    conn.shut(acts);
    assert_eq!(rt; all_sent(acts), one(ISN + 2, IRS + 6, FIN + ACK, 65_535));
    assert!(rt; acts.over == None && conn.at_end());
    conn.shut(acts);
    assert_eq!(rt; all_sent(acts), (None, None));
}

/// The segments come in turn.
fn takes_all(rt: &impl Abort, conn: &mut Conn, acts: &mut Acts) -> Result<(), Fail> {
    for (row, (place, flags, body, answer, to, bytes, is_end)) in SEGMENTS.iter().enumerate() {
        let segment = (*place, *flags, *body);
        takes(rt, conn, row as u32, segment, *answer, acts)?;
        assert_eq!(rt;
            (acts.advance, acts.ready, conn.at_end()),
            (*to, to.is_some(), *is_end),
            "row {row}"
        );
        let held = delivered(conn, acts.advance);
        assert_eq!(rt; held.as_slice(), *bytes, "row {row}");
    }
    Ok(())
}

/// Half-closed by the peer: its end is reached after a hole, and ours is still sent.
fn is_half_closed(rt: &impl Abort, conn: &mut Conn, acts: &mut Acts) -> Result<(), Fail> {
    takes_all(rt, conn, acts)?;
    sends_text(rt, conn, acts)?;
    closes(rt, conn, acts);
    Ok(())
}

#[test]
fn half_closed(rt: HostRuntime) -> Result<(), Fail> {
    let mut acts = Acts::none();
    let mut conn = established(rt.alloc(), ISN, IRS, &mut acts)?;
    is_half_closed(&rt, &mut conn, &mut acts)
}
