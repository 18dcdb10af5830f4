use crate::steps::{
    HOST, Tape, ask_echo, ask_name, end_file, one_and_what_waits, pass_time, reply, shut_file, two,
};
use nb_chains::{Arrival, ChainKind};
use nb_graph::{ObjId, Port};
use nb_terms::Cause;
use std::process::Abort;
use std::test::Fail;

/// The user's cause.
const STOPPED: Cause = Cause {
    code: 26,
    a: 0,
    b: 0,
};

/// The events are those of these numbers and objects, in order.
fn happened(rt: &impl Abort, tape: &mut Tape, expected: &[(u8, u64)]) {
    assert_eq!(rt; tape.events.len(), expected.len());
    for (event, (number, object)) in tape.events.iter().zip(expected) {
        assert_eq!(rt; (event.event, event.object), (*number, *object));
    }
    tape.events.clear();
}

/// The first events close these slots of these objects, in order, with the user's cause.
fn closed(rt: &impl Abort, tape: &Tape, expected: &[(u64, u8)]) {
    for (event, (object, slot)) in tape.events.iter().zip(expected) {
        assert_eq!(rt;
            (event.event, event.object, event.slot),
            (8, *object, *slot)
        );
        assert_eq!(rt; event.cause, STOPPED);
    }
}

fn empty_tape(rt: &HostRuntime) -> Tape {
    Tape {
        events: Vec::new(rt.alloc()),
        sent: Vec::new(rt.alloc()),
    }
}

/// Two echoes are asked for at once: each object sends its request, and is given its own reply, also after the other has
/// ended.
#[test]
fn two_echoes_at_once(rt: HostRuntime) -> Result<(), Fail> {
    let mut tape = empty_tape(&rt);
    let (mut graph, one, other) = two(&rt, &mut tape, ChainKind::Echo, ChainKind::Echo)?;
    assert_eq!(rt; (one.top, other.top), (ObjId(1), ObjId(2)));
    ask_echo(&mut graph, one, other, 7, &mut tape);
    ask_echo(&mut graph, other, one, 8, &mut tape);
    for (at, object) in [(0, 1), (1, 2)] {
        assert_eq!(rt;
            tape.sent.get(at),
            Some(&Port {
                obj: ObjId(object),
                slot: 1
            })
        );
    }
    pass_time(&mut graph, one, other, 5, &mut tape);
    tape.events.clear();
    // Another's reply is ignored, and its own ends it: Entered, both ports Closed, Left.
    reply(&mut graph, one, other, 8, &[], &mut tape);
    happened(&rt, &mut tape, &[(5, 1), (6, 1)]);
    reply(&mut graph, one, other, 7, &[], &mut tape);
    happened(&rt, &mut tape, &[(5, 1), (8, 1), (8, 1), (6, 1)]);
    reply(&mut graph, other, one, 8, &[], &mut tape);
    happened(&rt, &mut tape, &[(5, 2), (8, 2), (8, 2), (6, 2)]);
    assert_eq!(rt; graph.live(), 2);
    Ok(())
}

/// A file's open is closed and let go while an echo is asked for, which is given its reply afterwards.
#[test]
fn one_outlives_the_other(rt: HostRuntime) -> Result<(), Fail> {
    let mut tape = empty_tape(&rt);
    let (mut graph, echo, file) = two(&rt, &mut tape, ChainKind::Echo, ChainKind::File)?;
    ask_echo(&mut graph, echo, file, 7, &mut tape);
    assert_eq!(rt; graph.live(), 3);
    end_file(&mut graph, file, echo, &STOPPED, &mut tape);
    assert_eq!(rt; graph.live(), 1);
    tape.events.clear();
    let arrival = Arrival {
        port: 7,
        source: HOST,
        body: &[],
    };
    echo.message(&mut graph, 2, &arrival, 10, &mut tape);
    happened(&rt, &mut tape, &[(5, 1), (8, 1), (8, 1), (6, 1)]);
    Ok(())
}

/// The run ends: of a file's open all ports are closed, by rising serial and slot, and both objects are let go; and then
/// those of an echo that was asked for.
#[test]
fn both_are_shut_down(rt: HostRuntime) -> Result<(), Fail> {
    let mut tape = empty_tape(&rt);
    let (mut graph, echo, file) = two(&rt, &mut tape, ChainKind::Echo, ChainKind::File)?;
    ask_echo(&mut graph, echo, file, 7, &mut tape);
    tape.events.clear();
    shut_file(&mut graph, file, echo, &STOPPED, &mut tape);
    // Both ports of the Fetch, the Tftp's within an entry, Unplugged; slots 2 and 3 of both; LetGo and Freed, twice.
    happened(
        &rt,
        &mut tape,
        &[
            (8, 2),
            (8, 2),
            (8, 3),
            (5, 3),
            (8, 3),
            (6, 3),
            (9, 2),
            (8, 2),
            (8, 2),
            (8, 3),
            (8, 3),
            (3, 2),
            (10, 2),
            (3, 3),
            (10, 3),
        ],
    );
    assert_eq!(rt; graph.live(), 1);
    echo.shut_down(&mut graph, &STOPPED, 0, &mut tape);
    happened(
        &rt,
        &mut tape,
        &[(8, 1), (8, 1), (8, 1), (8, 1), (3, 1), (10, 1)],
    );
    assert_eq!(rt; graph.live(), 0);
    Ok(())
}

/// The run ends while a name's address is asked for, and a Fetch waits for its open: all ports of the Fetch are closed, then
/// those of the Resolver, each by rising slot, and they are let go in that order.
#[test]
fn one_is_shut_down_beside_what_waits(rt: HostRuntime) -> Result<(), Fail> {
    let mut tape = empty_tape(&rt);
    let (mut graph, fetch, name) = one_and_what_waits(
        &rt,
        &mut tape,
        ChainKind::File,
        ChainKind::Name,
    )?;
    assert_eq!(rt; (fetch.top, name.top), (ObjId(1), ObjId(2)));
    ask_name(&mut graph, name, fetch, ChainKind::File, &mut tape);
    tape.events.clear();
    name.shut_down_beside(fetch, ChainKind::File, &mut graph, &STOPPED, 0, &mut tape);
    closed(
        &rt,
        &tape,
        &[
            (1, 0),
            (1, 1),
            (1, 2),
            (1, 3),
            (2, 0),
            (2, 1),
            (2, 2),
            (2, 3),
        ],
    );
    happened(
        &rt,
        &mut tape,
        &[
            (8, 1),
            (8, 1),
            (8, 1),
            (8, 1),
            (8, 2),
            (8, 2),
            (8, 2),
            (8, 2),
            (3, 1),
            (10, 1),
            (3, 2),
            (10, 2),
        ],
    );
    assert_eq!(rt; graph.live(), 0);
    Ok(())
}
