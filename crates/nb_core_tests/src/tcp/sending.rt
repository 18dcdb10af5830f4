//! What is sent: the SYN, and text again and again.

use crate::tcp::{
    IRS, ISN, Sent, all_sent, asking, cause, data, delivered, established, give_segment,
};
use nb_tcp::Conn;
use nb_tcpseg::{ACK, PSH};
use nb_terms::Acts;
use std::process::Abort;
use std::test::Fail;

#[test]
fn the_syn(rt: HostRuntime) -> Result<(), Fail> {
    let mut acts = Acts::none();
    let _conn = asking(rt.alloc(), 0x0102_0304, &mut acts)?;
    assert_eq!(rt; acts.tried, Some(1));
    match acts.sends.as_slice() {
        [send] => {
            assert!(rt;
                send.body.as_slice()
                    == [
                        0xc0, 0x00, 0x00, 0x50, 0x01, 0x02, 0x03, 0x04, 0x00, 0x00, 0x00, 0x00,
                        0x60, 0x02, 0xff, 0xff, 0x00, 0x00, 0x00, 0x00, 0x02, 0x04, 0x05, 0xb4,
                    ]
                    .as_slice()
            );
        }
        _ => panic!(rt; "one SYN is sent"),
    }
    Ok(())
}

/// When text without an answer is sent again, and as which try.
const TRIES: [(u64, Option<u8>); 7] = [
    (249, None),
    (250, Some(2)),
    (750, Some(3)),
    (1750, Some(4)),
    (3750, Some(5)),
    (7750, Some(6)),
    (15_749, None),
];

/// Time passes, and the text is sent as this try, with what has come meanwhile acknowledged, or not at all.
fn passes(rt: &impl Abort, conn: &mut Conn, now: u64, tried: Option<u8>, acts: &mut Acts) {
    let text = Sent {
        seq: ISN + 1,
        ack: IRS + 2,
        flags: PSH + ACK,
        window: 65_535,
        body: b"GET",
    };
    conn.time(now, acts);
    assert_eq!(rt; acts.tried, tried, "at {now}");
    assert_eq!(rt; all_sent(acts).0, tried.map(|_| text), "at {now}");
}

/// It ends after the last try, and what has ended ignores a segment.
fn gives_up(rt: &impl Abort, conn: &mut Conn, acts: &mut Acts) -> Result<(), Fail> {
    conn.time(15_750, acts);
    assert_eq!(rt; acts.over, cause(2, 6, 0));
    give_segment(conn, 3, &data(1, b"y"), 15_750, acts)?;
    assert!(rt; all_sent(acts) == (None, None) && acts.advance == None);
    Ok(())
}

/// Text without an answer: six tries of the same bytes.
fn tries_again(rt: &impl Abort, conn: &mut Conn, acts: &mut Acts) -> Result<(), Fail> {
    conn.send(b"GET", 0, acts)?;
    give_segment(conn, 2, &data(0, b"x"), 100, acts)?;
    let _ = delivered(conn, acts.advance);
    for (now, tried) in TRIES.iter() {
        passes(rt, conn, *now, *tried, acts);
    }
    gives_up(rt, conn, acts)
}

#[test]
fn tries_again_and_gives_up(rt: HostRuntime) -> Result<(), Fail> {
    let mut acts = Acts::none();
    let mut conn = established(rt.alloc(), ISN, IRS, &mut acts)?;
    tries_again(&rt, &mut conn, &mut acts)
}
