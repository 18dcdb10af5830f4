//! What comes to an open by HTTP, what it sends, and how it ends.

use crate::steps::{
    Row, SERVER, blank, brought, close_it, give_all, give_from, moved, opened, outcome_of,
    pass_times, segment, shut_it,
};
use nb_tcpseg::{ACK, FIN, PSH, RST, SYN};
use nb_wire::Ip4;
use std::test::Fail;

/// The server's SYN.
const SYNS: Row<'static> = (0, SYN + ACK, b"");

/// The segments of the client up to its request: its SYN, and once the server's has come the acknowledgement, and the
/// request.
const ASKS: [u8; 3] = [SYN, ACK, PSH + ACK];

/// The SYN leaves as try 1; once the server's has come its acknowledgement and the request leave together.
#[test]
fn asks(rt: HostRuntime) -> Result<(), Fail> {
    let mut tape = blank(&rt);
    let (mut graph, web) = opened(&rt, &mut tape)?;
    give_all(&rt, &mut graph, web, &[SYNS], &mut tape)?;
    assert_eq!(rt; tape.sent.as_slice(), [(3, 1), (9, 1)].as_slice());
    assert_eq!(rt; tape.flags.as_slice(), ASKS.as_slice());
    let request =
        b"GET /file HTTP/1.1\r\nHost: boot\r\nUser-Agent: netboot\r\nConnection: close\r\n\r\n";
    assert_eq!(rt; tape.last.as_slice().get(20..), Some(request.as_slice()));
    assert!(rt; tape.closed.is_empty(), "it goes on");
    Ok(())
}

/// A response in two segments, the second with the server's FIN: in order, in the other order, with its length told and not,
/// and with the FIN before the last bytes. The ports of all three are closed with Ok, the connection by a FIN of its own.
#[test]
fn brings_a_file(rt: HostRuntime) -> Result<(), Fail> {
    let told: (Row<'_>, Row<'_>) = (
        (
            0,
            PSH + ACK,
            b"HTTP/1.1 200 OK\r\nContent-Length: 5\r\n\r\nhel",
        ),
        (41, FIN + ACK, b"lo"),
    );
    let untold: (Row<'_>, Row<'_>) = (
        (0, PSH + ACK, b"HTTP/1.1 200 OK\r\n\r\nhel"),
        (22, FIN + ACK, b"lo"),
    );
    let early: (Row<'_>, Row<'_>) = (
        (24, FIN + ACK, b""),
        (0, PSH + ACK, b"HTTP/1.1 200 OK\r\n\r\nhello"),
    );
    for (first, second) in [told, (told.1, told.0), untold, (untold.1, untold.0), early] {
        let so_far = outcome_of(&rt, &[SYNS, first])?;
        assert!(rt; so_far.closed.is_empty(), "it goes on");
        let all = outcome_of(&rt, &[SYNS, first, second])?;
        assert_eq!(rt;
            all.closed.as_slice(),
            [(2, 0), (1, 0), (1, 0), (2, 0), (3, 0), (3, 0)].as_slice()
        );
        assert_eq!(rt; all.last, Some(FIN + ACK));
        let body = all.body.ok_or("nothing was brought")?;
        assert_eq!(rt; body.as_slice(), b"hello".as_slice());
    }
    Ok(())
}

/// The file is elsewhere: nothing is brought, and the place is known. The Fetch closes its ports first, within the delivery.
#[test]
fn is_elsewhere(rt: HostRuntime) -> Result<(), Fail> {
    let moves: Row<'_> = (
        0,
        PSH + ACK,
        b"HTTP/1.1 302 Found\r\nLocation: http://b/c\r\nContent-Length: 4\r\n\r\ngone",
    );
    let mut tape = blank(&rt);
    let (mut graph, web) = opened(&rt, &mut tape)?;
    assert_eq!(rt; moved(&graph, web), None);
    give_all(&rt, &mut graph, web, &[SYNS, moves], &mut tape)?;
    assert_eq!(rt; moved(&graph, web), Some(b"http://b/c".as_slice()));
    assert!(rt;
        brought(&rt, &mut graph, web)?.is_none(),
        "a move is no file"
    );
    assert_eq!(rt;
        tape.closed.as_slice(),
        [(1, 0), (1, 0), (2, 0), (2, 0), (3, 0), (3, 0)].as_slice()
    );
    Ok(())
}

/// A reset, a refusal, and a stream that ends too early, each with the code of its cause: Refused, and Broken.
#[test]
fn ends_otherwise(rt: HostRuntime) -> Result<(), Fail> {
    let rows: [(Row<'_>, u8); 3] = [
        ((0, RST, b""), 1),
        (
            (
                0,
                PSH + ACK,
                b"HTTP/1.1 404 Not Found\r\nContent-Length: 0\r\n\r\n",
            ),
            1,
        ),
        (
            (
                0,
                FIN + ACK,
                b"HTTP/1.1 200 OK\r\nContent-Length: 5\r\n\r\nhel",
            ),
            3,
        ),
    ];
    for (row, expected) in rows {
        let outcome = outcome_of(&rt, &[SYNS, row])?;
        let codes = outcome.closed.as_slice();
        assert!(rt; codes.iter().all(|port| port.1 == expected), "one cause");
        assert_eq!(rt; codes.len(), 6);
        assert!(rt; outcome.body.is_none(), "nothing was brought");
    }
    Ok(())
}

/// No server answers: the SYN leaves six times, and then all ports are closed, as TimedOut.
#[test]
fn runs_out_of_time(rt: HostRuntime) -> Result<(), Fail> {
    let mut tape = blank(&rt);
    let (mut graph, web) = opened(&rt, &mut tape)?;
    let times = [249, 250, 750, 1750, 3750, 7750];
    pass_times(&mut graph, web, &times, &mut tape);
    assert_eq!(rt;
        tape.sent.as_slice(),
        [(3, 1), (3, 2), (3, 3), (3, 4), (3, 5), (3, 6)].as_slice()
    );
    assert!(rt; tape.closed.is_empty(), "it goes on");
    pass_times(&mut graph, web, &[15_750], &mut tape);
    assert_eq!(rt;
        tape.closed.as_slice(),
        [(3, 2), (2, 2), (2, 2), (1, 2), (1, 2), (3, 2)].as_slice()
    );
    Ok(())
}

/// A segment of another port or host is none of the connection's: nothing is sent, nothing ends.
#[test]
fn ignores_others(rt: HostRuntime) -> Result<(), Fail> {
    let bytes = segment(&rt, &SYNS)?;
    for (port, source) in [(81, SERVER), (80, Ip4(SERVER.0 + 1))] {
        let mut tape = blank(&rt);
        let (mut graph, web) = opened(&rt, &mut tape)?;
        give_from(&mut graph, web, port, source, bytes.as_slice(), &mut tape);
        assert_eq!(rt; tape.flags.as_slice(), [SYN].as_slice());
        assert!(rt; tape.closed.is_empty(), "it goes on");
    }
    Ok(())
}

/// The user closes it while a body comes: the connection is reset, and nothing is brought. At the end of a run all ports are
/// closed, and nothing lives.
#[test]
fn is_closed_from_above(rt: HostRuntime) -> Result<(), Fail> {
    let begins: Row<'_> = (0, PSH + ACK, b"HTTP/1.1 200 OK\r\n\r\nhel");
    let mut tape = blank(&rt);
    let (mut graph, web) = opened(&rt, &mut tape)?;
    give_all(&rt, &mut graph, web, &[SYNS, begins], &mut tape)?;
    close_it(&mut graph, web, 26, &mut tape);
    assert_eq!(rt;
        tape.closed.as_slice(),
        [(1, 26), (1, 26), (2, 26), (2, 26), (3, 26), (3, 26)].as_slice()
    );
    assert_eq!(rt; tape.flags.as_slice().last(), Some(&(RST + ACK)));
    assert!(rt; brought(&rt, &mut graph, web)?.is_none(), "it isn't whole");
    Ok(())
}

/// At the end of a run all ports are closed, and nothing lives.
#[test]
fn is_shut_down(rt: HostRuntime) -> Result<(), Fail> {
    let mut tape = blank(&rt);
    let (mut graph, web) = opened(&rt, &mut tape)?;
    assert_eq!(rt; shut_it(&mut graph, web, &mut tape), (12, 0));
    Ok(())
}
