use crate::fake::{Deed, LONGEST, Tape, WHY, bytes, closed_with, happened, make_fake, pair, port};
use nb_graph::{Graph, ObjId, Reach};
use std::test::Fail;

#[test]
fn holds_and_links(rt: HostRuntime) -> Result<(), Fail> {
    let mut tape = Tape {
        events: Vec::new(rt.alloc()),
    };
    let mut graph = pair(&rt, &mut tape, Deed::Take, Deed::Take)?;
    assert!(rt;
        graph.make(make_fake(0, Deed::Take), &mut tape).is_err(),
        "two objects live"
    );
    assert!(rt; graph.let_go(ObjId(2), &mut tape), "it has a hold");
    assert!(rt; !graph.let_go(ObjId(2), &mut tape), "it has none");
    assert!(rt; graph.hold(ObjId(1), &mut tape), "it lives");
    assert_eq!(rt; graph.ids(1), Some(ObjId(2)));
    assert_eq!(rt; graph.ids(2), None);
    assert!(rt; graph.node(ObjId(3)).is_none(), "nothing has that serial");
    // Made, Held, Made, Held, Plugged, LetGo, Held.
    happened(
        &rt,
        &tape,
        &[(1, 1), (2, 1), (1, 2), (2, 2), (4, 1), (3, 2), (2, 1)],
    );
    graph.shutdown(&WHY, 0, &mut tape);
    assert_eq!(rt; graph.live(), 0);
    Ok(())
}

/// The upper object closes the lower one's port inside the delivery, and is freed as its entry
/// ends.
#[test]
fn closed_inside_a_delivery(rt: HostRuntime) -> Result<(), Fail> {
    let mut tape = Tape {
        events: Vec::new(rt.alloc()),
    };
    let mut graph = pair(&rt, &mut tape, Deed::Close(1), Deed::PassUp)?;
    let _ = graph.let_go(ObjId(1), &mut tape);
    tape.events.clear();
    assert_eq!(rt;
        graph.up(port(ObjId(2), 1), &bytes(b"abc"), 0, &mut tape),
        Reach::Entered
    );
    // Entered below, Entered above, both ports Closed, Entered by close, Left, Unplugged, Left,
    // Freed, Left.
    happened(
        &rt,
        &tape,
        &[
            (5, 2),
            (5, 1),
            (8, 1),
            (8, 2),
            (5, 2),
            (6, 2),
            (9, 1),
            (6, 1),
            (10, 1),
            (6, 2),
        ],
    );
    closed_with(&rt, &tape, WHY);
    assert_eq!(rt; graph.live(), 1);
    Ok(())
}

/// What an entry sent may be dropped where another entry of its object, within it, closes the port: the upper object took
/// one byte of three when it asked the lower one, which closes its port first.
#[test]
fn closed_within_an_entry(rt: HostRuntime) -> Result<(), Fail> {
    let mut tape = Tape {
        events: Vec::new(rt.alloc()),
    };
    let mut graph = pair(&rt, &mut tape, Deed::TakeOneAndAsk, Deed::PassUpUntilAsked)?;
    tape.events.clear();
    let _ = graph.up(port(ObjId(2), 1), &bytes(b"abc"), 0, &mut tape);
    // Entered below, Entered above, Entered below from above, both ports Closed, Entered by close, Left, Unplugged, Left,
    // the rest Dropped, Left, Left.
    happened(
        &rt,
        &tape,
        &[
            (5, 2),
            (5, 1),
            (5, 2),
            (8, 2),
            (8, 1),
            (5, 1),
            (6, 1),
            (9, 2),
            (6, 2),
            (7, 1),
            (6, 1),
            (6, 2),
        ],
    );
    closed_with(&rt, &tape, WHY);
    assert_eq!(rt; graph.node(ObjId(1)).ok_or("dead")?.calls, 1);
    Ok(())
}

/// A load that is dropped at a closed port comes back.
#[test]
fn lent_and_dropped(rt: HostRuntime) -> Result<(), Fail> {
    let mut tape = Tape {
        events: Vec::new(rt.alloc()),
    };
    let mut graph = Graph::new(rt.alloc(), 1)?;
    let only = graph
        .make(make_fake(1, Deed::LendDown), &mut tape)
        .ok()
        .ok_or("full")?;
    graph.close(port(only, 2), &WHY, 0, &mut tape);
    tape.events.clear();
    let _ = graph.time(only, 5, &mut tape);
    // Entered, Dropped, Left.
    happened(&rt, &tape, &[(5, 1), (7, 1), (6, 1)]);
    assert_eq!(rt; graph.node(only).ok_or("dead")?.back, 1);
    Ok(())
}

/// What a node leaves of a message is given to it again within the same entry, in the stack of one call.
#[test]
fn long_message_in_parts(rt: HostRuntime) -> Result<(), Fail> {
    let mut tape = Tape {
        events: Vec::new(rt.alloc()),
    };
    let mut message = Vec::with_capacity(rt.alloc(), LONGEST)?;
    for _ in 0..LONGEST {
        message.push(0)?;
    }
    let mut graph = Graph::new(rt.alloc(), 1)?;
    let only = graph
        .make(make_fake(0, Deed::TakeAtMost(1)), &mut tape)
        .ok()
        .ok_or("full")?;
    tape.events.clear();
    let _ = graph.up(port(only, 1), &bytes(message.as_slice()), 0, &mut tape);
    happened(&rt, &tape, &[(5, 1), (6, 1)]);
    assert_eq!(rt; graph.node(only).ok_or("dead")?.calls, 65_535);
    Ok(())
}
