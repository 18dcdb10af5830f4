use nb_record::{BadRecord, Failed, Feed, Front, InRec, MemLine};
use nb_wire::Ip4;
use std::process::Abort;
use std::test::*;

/// START with all addresses 0 and the script `#!ipxe`, `echo hello`, `exit`, each with a line feed.
const START: [u8; 103] = [
    0, 0, 0, 0x63, 1, 1, 0x52, 0x54, 0, 0, 0, 1, 0, 0, 0, 0, 0, 0, 0, 0, 0, 0, 0, 0, 0, 0, 0, 0, 0,
    0, 0, 0, 0, 0, 0, 0, 0, 0, 0, 0, 0, 0, 0, 0, 0, 0, 0, 0, 0, 0, 0, 0, 0, 0, 0, 0, 0, 0, 0, 0, 0,
    0, 0, 0, 0, 0, 0, 0, 0, 0, 0, 0, 0, 0, 0, 0, 0, 0, 0, 0, b'#', b'!', b'i', b'p', b'x', b'e',
    b'\n', b'e', b'c', b'h', b'o', b' ', b'h', b'e', b'l', b'l', b'o', b'\n', b'e', b'x', b'i',
    b't', b'\n',
];

/// A frame of 14 bytes, to all and from the client, whose type is ARP's.
const FRAME: [u8; 19] = [
    0, 0, 0, 0x0f, 2, 0xff, 0xff, 0xff, 0xff, 0xff, 0xff, 0x52, 0x54, 0, 0, 0, 1, 8, 6,
];

/// 500 milliseconds.
const TICK: [u8; 7] = [0, 0, 0, 3, 3, 0x01, 0xf4];

const OFF: [u8; 5] = [0, 0, 0, 1, 4];

fn is_partial(feed: &Feed) -> bool {
    matches!(feed.front(), Front::Partial)
}

/// Passes the record that stands at the front, where one does.
fn pass_front(feed: &mut Feed) {
    if let Front::Whole(_, len) = feed.front() {
        feed.pass(len);
    }
}

/// Pushes bytes one by one, and says whether the feed held a prefix of a record before each.
fn push_each(feed: &mut Feed, bytes: &[u8]) -> bool {
    for byte in bytes {
        if !is_partial(feed) || feed.push(&[*byte]) != 1 {
            return false;
        }
    }
    true
}

/// The number of the type of the whole record at the front; 0 where none is whole.
fn kind_at_front(feed: &Feed) -> u8 {
    match feed.front() {
        Front::Whole(InRec::Start(_), _) => 1,
        Front::Whole(InRec::Frame(_), _) => 2,
        Front::Whole(InRec::Tick(_), _) => 3,
        Front::Whole(InRec::Off, _) => 4,
        _ => 0,
    }
}

#[test]
fn records_in_single_bytes(rt: HostRuntime) -> Result<(), Fail> {
    let mut feed = Feed::new(rt.alloc())?;
    for (bytes, kind) in [(START.as_slice(), 1), (&FRAME, 2), (&TICK, 3), (&OFF, 4)] {
        assert!(rt; push_each(&mut feed, bytes), "type {kind}");
        assert_eq!(rt; kind_at_front(&feed), kind);
        pass_front(&mut feed);
    }
    assert!(rt; feed.is_empty());
    Ok(())
}

#[test]
fn places_of_fields(rt: HostRuntime) -> Result<(), Fail> {
    let mut bytes = START;
    for (place, byte) in bytes.iter_mut().enumerate() {
        if place >= 12 && place < 80 {
            *byte = place as u8;
        }
    }
    let mut feed = Feed::new(rt.alloc())?;
    feed.push(&bytes);
    match feed.front() {
        Front::Whole(InRec::Start(record), _) => {
            let start = record.fields();
            let ends = (start.uuid[0], start.key[31]);
            assert_eq!(rt; ends, (12, 59));
            assert_eq!(rt; start.arch, 0x3c3d);
            assert_eq!(rt; start.w, 0x3e3f);
            assert_eq!(rt; start.ip, Ip4(0x4041_4243));
            assert_eq!(rt; start.dns, Ip4(0x4c4d_4e4f));
        }
        _ => panic!(rt; "the record is whole"),
    }
    Ok(())
}

/// The last byte of each row is the first with which no record is possible any more: the whole records
/// before it have `at` bytes, and it lies in the length (1), is the type (2) or lies in the body (3).
const BROKEN: [(&[u8], u64, u8); 23] = [
    (&[1], 0, 1),
    (&[0, 3], 0, 1),
    (&[0, 2, 1], 0, 1),
    (&[0, 2, 0, 1], 0, 1),
    (&[0, 0, 0, 0], 0, 1),
    (&[0, 0, 0, 2], 0, 1),
    (&[0, 0, 0, 4], 0, 1),
    (&[0, 0, 0, 14], 0, 1),
    (&[0, 0, 0, 1, 1], 0, 2),
    (&[0, 0, 0, 1, 3], 0, 2),
    (&[0, 0, 0, 3, 4], 0, 2),
    (&[0, 0, 0, 15, 3], 0, 2),
    (&[0, 0, 0, 75, 1], 0, 2),
    (&[0, 0, 5, 0xf4, 2], 0, 2),
    (&[0, 0, 0, 99, 5], 0, 2),
    (&[0, 0, 0, 99, 1, 2], 0, 3),
    (&[0, 0, 0, 3, 3, 0, 0], 0, 3),
    (&[0, 0, 0, 3, 3, 0xeb], 0, 3),
    (&[0, 0, 0, 3, 3, 0xea, 0x61], 0, 3),
    (&[0, 0, 0, 1, 4, 0, 0, 0, 4], 5, 1),
    (&[0, 0, 0, 3, 3, 0xea, 0x60, 0, 0, 0, 1, 2], 7, 2),
    (&[0, 0, 0, 3, 3, 0, 1, 0, 0, 0, 3, 3, 0, 0], 7, 3),
    (&[0, 0, 0, 1, 4, 0, 0, 0, 1, 4, 1], 10, 1),
];

/// No record is possible any more with the last of these bytes, and with none before it.
fn breaks_at_last(rt: &impl Abort, feed: &mut Feed, number: usize, bytes: &[u8], bad: BadRecord) {
    for byte in bytes {
        pass_front(feed);
        assert!(rt; is_partial(feed), "row {number}");
        feed.push(&[*byte]);
    }
    match feed.front() {
        Front::Broken(found) => assert_eq!(rt; found, bad, "row {number}"),
        _ => panic!(rt; "no record begins so"),
    }
}

#[test]
fn broken_bytes(rt: HostRuntime) -> Result<(), Fail> {
    for (number, (bytes, at, why)) in BROKEN.iter().enumerate() {
        let mut feed = Feed::new(rt.alloc())?;
        let bad = BadRecord { at: *at, why: *why };
        breaks_at_last(&rt, &mut feed, number, bytes, bad);
    }
    Ok(())
}

#[test]
fn reads_from_a_line(rt: HostRuntime) -> Result<(), Fail> {
    let mut feed = Feed::new(rt.alloc())?;
    let mut line = MemLine::new(rt.alloc(), &FRAME, &[7], &[1], 0)?;
    assert_eq!(rt; feed.read(&mut line), Ok(7));
    assert!(rt; is_partial(&feed));
    assert_eq!(rt; feed.read(&mut line), Err(Failed));
    assert!(rt; is_partial(&feed));
    assert_eq!(rt; feed.read(&mut line), Ok(12));
    match feed.front() {
        Front::Whole(InRec::Frame(bytes), 19) => assert_eq!(rt; bytes, &FRAME[5..]),
        _ => panic!(rt; "the record is whole"),
    }
    assert_eq!(rt; feed.read(&mut line), Ok(0));
    Ok(())
}
