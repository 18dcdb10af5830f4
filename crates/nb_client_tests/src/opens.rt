use crate::bench::Bench;
use crate::frames::{ARP, ECHO_2, FULL_1, Frame as TheFrame, LAST_0, LAST_1, OACK_0, OACK_1};
use crate::rows::Row;
use crate::rows::Row::{
    Advance, Closed, Entered, Frame, Freed, Held, Left, LetGo, Made, Opened, Over, Plugged, Step,
    Try, Unplugged,
};
use std::process::Abort;
use std::test::Fail;

/// What the first open puts as it begins.
const BEGUN: &[Row] = &[
    Made(1),
    Held(1),
    Made(2),
    Held(2),
    Plugged(1),
    Opened(0),
    Entered(1),
    Entered(2),
    Try(0, 1),
    Frame(49152),
    Left(2),
    Left(1),
];

/// What ends each of two files and an echo, in turn: a frame, what it puts, and what is told to have ended.
const ARRIVALS: &[(&TheFrame, &[Row], Option<u16>)] = &[
    (
        OACK_1,
        &[Step(3), Entered(4), Try(1, 1), Frame(49153), Left(4)],
        None,
    ),
    (
        OACK_0,
        &[Step(4), Entered(2), Try(0, 1), Frame(49152), Left(2)],
        None,
    ),
    (
        FULL_1,
        &[
            Step(5),
            Entered(4),
            Advance(1, 1),
            Try(1, 1),
            Frame(49153),
            Entered(3),
            Left(3),
            Left(4),
        ],
        None,
    ),
    (
        ECHO_2,
        &[
            Step(6),
            Entered(5),
            Closed(5),
            Closed(5),
            Left(5),
            LetGo(5),
            Freed(5),
            Over(2, 0),
        ],
        None,
    ),
    (
        LAST_1,
        &[
            Step(7),
            Entered(4),
            Advance(1, 2),
            Frame(49153),
            Entered(3),
            Left(3),
            Closed(4),
            Closed(3),
            Entered(3),
            Closed(3),
            Left(3),
            Unplugged(4),
            Closed(4),
            Left(4),
            LetGo(3),
            Freed(3),
            LetGo(4),
            Freed(4),
            Over(1, 0),
        ],
        None,
    ),
    (LAST_1, &[Step(8)], None),
    (
        LAST_0,
        &[
            Step(9),
            Entered(2),
            Advance(0, 1),
            Frame(49152),
            Entered(1),
            Left(1),
            Closed(2),
            Closed(1),
            Entered(1),
            Closed(1),
            Left(1),
            Unplugged(2),
            Closed(2),
            Left(2),
            LetGo(1),
            Freed(1),
            LetGo(2),
            Freed(2),
            Over(0, 0),
        ],
        Some(0),
    ),
];

/// What each tick of 100 milliseconds puts while two files are asked for.
const TICKS: [&[Row]; 3] = [
    &[Step(3), Entered(2), Left(2), Entered(4), Left(4)],
    &[Step(4), Entered(2), Left(2), Entered(4), Left(4)],
    &[
        Step(5),
        Entered(2),
        Try(0, 2),
        Frame(49152),
        Left(2),
        Entered(4),
        Try(1, 2),
        Frame(49153),
        Left(4),
    ],
];

/// One open has had its tries, and another tries again.
const OVER_AND_TRIED: &[Row] = &[
    Step(8),
    Entered(2),
    Closed(2),
    Closed(1),
    Entered(1),
    Closed(1),
    Left(1),
    Unplugged(2),
    Closed(2),
    Left(2),
    LetGo(1),
    Freed(1),
    LetGo(2),
    Freed(2),
    Over(0, 2),
    Entered(4),
    Try(1, 2),
    Frame(49153),
    Left(4),
];

/// The run ends while a file and an echo are asked for.
const SHUT: &[Row] = &[
    Closed(1),
    Closed(1),
    Closed(2),
    Entered(2),
    Closed(2),
    Left(2),
    Unplugged(1),
    Closed(1),
    Closed(1),
    Closed(2),
    Closed(2),
    LetGo(1),
    Freed(1),
    LetGo(2),
    Freed(2),
    Over(0, 26),
    Closed(3),
    Closed(3),
    Closed(3),
    Closed(3),
    LetGo(3),
    Freed(3),
    Over(1, 26),
];

/// What the open of a lease puts as it begins.
const LEASE_BEGUN: &[Row] = &[
    Made(1),
    Held(1),
    Opened(0),
    Entered(1),
    Try(0, 1),
    Frame(68),
    Left(1),
];

/// The last call has put these rows.
fn has_put(rt: &impl Abort, bench: &Bench, rows: &[Row]) -> Result<(), Fail> {
    assert_eq!(rt; bench.rows()?.as_slice(), rows);
    Ok(())
}

/// A client that knows where the server is.
fn neighbour(rt: &HostRuntime) -> Result<Bench, Fail> {
    let (bench, _) = Bench::new(rt.alloc())?.take(ARP, None)?;
    Ok(bench)
}

/// Two files of one server and an echo at once: each object is given what is sent to its own port, and nothing else. What is
/// told to have ended is the open that is awaited. A port is free once its open has ended.
#[test]
fn each_has_its_own(rt: HostRuntime) -> Result<(), Fail> {
    let bench = neighbour(&rt)?;
    has_put(&rt, &bench, &[Step(2)])?;
    let bench = bench.fetch()?;
    has_put(&rt, &bench, BEGUN)?;
    let mut bench = bench.fetch()?.ping()?;
    for (frame, rows, told) in ARRIVALS {
        let (next, ended) = bench.take(frame, Some(0))?;
        assert_eq!(rt; ended, *told);
        has_put(&rt, &next, rows)?;
        bench = next;
    }
    Ok(())
}

/// A time comes to each open that lives, by rising number: the lowest object of each is entered, also where no try is due.
#[test]
fn both_have_the_time(rt: HostRuntime) -> Result<(), Fail> {
    let mut bench = neighbour(&rt)?.fetch()?.fetch()?;
    for rows in TICKS {
        bench = bench.tick(100)?;
        has_put(&rt, &bench, rows)?;
    }
    Ok(())
}

/// The tries of one open are over in the time in which another, which began later, tries again.
#[test]
fn one_ends_as_the_other_tries(rt: HostRuntime) -> Result<(), Fail> {
    let bench = neighbour(&rt)?.fetch()?;
    let bench = bench
        .tick(250)?
        .tick(500)?
        .tick(1000)?
        .tick(2000)?
        .tick(4000)?;
    let sixth = [Step(7), Entered(2), Try(0, 6), Frame(49152), Left(2)];
    has_put(&rt, &bench, &sixth)?;
    let bench = bench.fetch()?.tick(8000)?;
    has_put(&rt, &bench, OVER_AND_TRIED)
}

/// The run ends: each open ends with Stopped, by rising number, after all ports of its objects were closed and these freed.
#[test]
fn all_are_shut(rt: HostRuntime) -> Result<(), Fail> {
    let rows = neighbour(&rt)?.fetch()?.ping()?.shut()?;
    assert_eq!(rt; rows.as_slice(), SHUT);
    Ok(())
}

/// A lease owns the client's port 68 (RFC 2131, section 4.1): a second one is refused while it lives, and a file isn't.
#[test]
fn one_lease_lives(rt: HostRuntime) -> Result<(), Fail> {
    let bench = Bench::new(rt.alloc())?.lease()?;
    has_put(&rt, &bench, LEASE_BEGUN)?;
    assert!(rt; bench.fetch()?.refuses_lease());
    Ok(())
}
