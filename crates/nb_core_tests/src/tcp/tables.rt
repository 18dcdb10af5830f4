//! Single segments by tables (RFC 9293, section 3.10.7).

use crate::tcp::{
    IRS, ISN, Sent, ack_to, all_sent, asking, cause, data, delivered, established, from_peer,
    give_segment, one,
};
use nb_tcp::Conn;
use nb_tcpseg::{ACK, FIN, PSH, RST, SYN, Segment};
use nb_terms::Acts;
use std::process::Abort;
use std::test::Fail;

/// Section 3.10.7.4, one segment to an established connection whose first three bytes have come: its place in the
/// peer's stream, what it acknowledges after our SYN, its flags and its bytes; the place that the answer acknowledges,
/// where there is one; and whether the connection is reset.
const SEGMENTS: [(u32, u32, u8, &[u8], Option<u32>, bool); 16] = [
    (0, 0, ACK, b"abc", Some(3), false),
    (u32::MAX, 0, SYN + ACK, b"", Some(3), false),
    (3, 0, SYN + ACK, b"", Some(3), false),
    (3, 1, ACK, b"x", Some(3), false),
    (3, u32::MAX, ACK, b"", None, false),
    (3, 0, PSH, b"x", None, false),
    (3, 0, RST + ACK, b"", None, true),
    (3, 0, RST, b"", None, true),
    (4, 0, RST + ACK, b"", Some(3), false),
    (65_537, 0, RST, b"", Some(3), false),
    (65_538, 0, RST, b"", None, false),
    (2, 0, RST, b"", None, false),
    (65_538, 0, ACK, b"x", Some(3), false),
    (3, 0, FIN + ACK, b"", Some(4), false),
    (5, 0, FIN + ACK, b"", Some(3), false),
    (2, 0, FIN + ACK, b"", Some(3), false),
];

/// The first three bytes of the peer's stream are delivered.
fn takes_three_bytes(conn: &mut Conn, acts: &mut Acts) -> Result<(), Fail> {
    give_segment(conn, 6, &data(0, b"abc"), 0, acts)?;
    let _ = delivered(conn, acts.advance);
    Ok(())
}

/// The acknowledgement up to a place, where there is one.
fn answer_to(place: Option<u32>) -> (Option<Sent<'static>>, Option<Sent<'static>>) {
    match place {
        Some(place) => ack_to(place),
        None => (None, None),
    }
}

/// What comes to a connection whose first three bytes were delivered, as a row has it, is answered so.
fn answers_segment(
    rt: &impl Abort,
    conn: &mut Conn,
    row: usize,
    segment: &Segment<'_>,
    answer: Option<u32>,
    is_reset: bool,
) -> Result<(), Fail> {
    let mut acts = Acts::none();
    takes_three_bytes(conn, &mut acts)?;
    give_segment(conn, 7, segment, 0, &mut acts)?;
    assert_eq!(rt;
        all_sent(&acts),
        answer_to(answer),
        "the answer to row {row}"
    );
    let over = if is_reset { cause(1, 7, 65_535) } else { None };
    assert_eq!(rt;
        (acts.over, acts.advance),
        (over, None),
        "the end at row {row}"
    );
    Ok(())
}

#[test]
fn one_segment_to_an_established_connection(rt: HostRuntime) -> Result<(), Fail> {
    for (row, (place, ack, flags, body, answer, is_reset)) in SEGMENTS.iter().enumerate() {
        let seq = (IRS + 1).wrapping_add(*place);
        let segment = from_peer(seq, (ISN + 1).wrapping_add(*ack), *flags, body);
        let mut conn = established(rt.alloc(), ISN, IRS, &mut Acts::none())?;
        answers_segment(&rt, &mut conn, row, &segment, *answer, *is_reset)?;
    }
    Ok(())
}

/// Section 3.10.7.3, before the connection is established: what the segment acknowledges after the number of our SYN, its
/// flags and its bytes; the number, the acknowledgement, the flags and the window of the answer, where there is one.
const ANSWERS: [(u32, u8, &[u8], Option<(u32, u32, u8, u16)>); 8] = [
    (1, SYN + ACK, b"dropped", Some((ISN + 1, 10, ACK, 65_535))),
    (1, RST + ACK, b"", None),
    (1, RST, b"", None),
    (2, ACK, b"", Some((ISN + 2, 0, RST, 0))),
    (0, SYN + ACK, b"", Some((ISN, 0, RST, 0))),
    (2, RST + ACK, b"", None),
    (0, SYN, b"", None),
    (1, ACK, b"", None),
];

/// What comes to a connection that has sent its SYN, as a row has it, is answered so. A refusal alone ends it.
fn answers_to_syn(
    rt: &impl Abort,
    conn: &mut Conn,
    row: usize,
    segment: &Segment<'_>,
    answer: Option<(u32, u32, u8, u16)>,
) -> Result<(), Fail> {
    let mut acts = Acts::none();
    give_segment(conn, 3, segment, 0, &mut acts)?;
    let sent = match answer {
        Some((seq, ack, flags, window)) => one(seq, ack, flags, window),
        None => (None, None),
    };
    assert_eq!(rt; all_sent(&acts), sent, "the answer to row {row}");
    let over = if row == 1 { cause(1, 3, 65_535) } else { None };
    assert_eq!(rt; acts.over, over, "the end at row {row}");
    Ok(())
}

#[test]
fn one_answer_to_the_syn(rt: HostRuntime) -> Result<(), Fail> {
    for (row, (ack, flags, body, answer)) in ANSWERS.iter().enumerate() {
        let segment = from_peer(9, ISN.wrapping_add(*ack), *flags, body);
        let mut conn = asking(rt.alloc(), ISN, &mut Acts::none())?;
        answers_to_syn(&rt, &mut conn, row, &segment, *answer)?;
    }
    Ok(())
}
