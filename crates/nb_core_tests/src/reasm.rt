use nb_reasm::{Held, MAX_CAPACITY, Put};
use nb_terms::NoMemory;

fn is_front(held: &Held, expected: &[u8]) -> bool {
    let (first, second) = held.front();
    let mut rest = expected;
    for byte in first {
        match rest {
            [wanted, after @ ..] if wanted == byte => rest = after,
            _ => return false,
        }
    }
    rest == second
}

/// Out of order, overlapping and at the window's end; the window then moves on.
#[test]
fn out_of_order(rt: HostRuntime) -> Result<(), NoMemory> {
    let mut held = Held::new(rt.alloc(), 8)?;
    assert_eq!(rt;
        held.put(2, b"cd".as_slice()),
        Put {
            new_bytes: 2,
            next: 0
        }
    );
    assert_eq!(rt;
        held.put(0, b"abXYef".as_slice()),
        Put {
            new_bytes: 4,
            next: 6
        }
    );
    assert!(rt; is_front(&held, b"abcdef".as_slice()));
    assert!(rt; held.base() == 0 && held.next() == 6 && held.capacity() == 8);
    held.advance(6);
    assert_eq!(rt;
        held.put(13, b"z9".as_slice()),
        Put {
            new_bytes: 1,
            next: 6
        }
    );
    assert_eq!(rt;
        held.put(4, b"xyghijklmn".as_slice()),
        Put {
            new_bytes: 7,
            next: 14
        }
    );
    assert!(rt; is_front(&held, b"ghijklmz".as_slice()));
    Ok(())
}

/// A run is cut where the memory ends, and lent in two parts.
#[test]
fn around_the_end(rt: HostRuntime) -> Result<(), NoMemory> {
    let mut held = Held::new(rt.alloc(), 8)?;
    let _ = held.put(0, b"abcdef".as_slice());
    assert!(rt; held.base() == 0 && held.next() == 6);
    held.advance(5);
    assert_eq!(rt;
        held.put(6, b"ghijkl".as_slice()),
        Put {
            new_bytes: 6,
            next: 12
        }
    );
    let (first, second) = held.front();
    assert!(rt; first == b"fgh".as_slice() && second == b"ijkl".as_slice());
    Ok(())
}

fn front_len(held: &Held) -> usize {
    let (first, second) = held.front();
    first.len() + second.len()
}

/// What a full window lends is a byte less each time that it moves on by one.
#[test]
fn falls_by_one(rt: HostRuntime) -> Result<(), NoMemory> {
    let mut held = Held::new(rt.alloc(), MAX_CAPACITY)?;
    for piece in 0..1024 {
        let _ = held.put(piece * 1024, &[7; 1024]);
    }
    assert_eq!(rt; front_len(&held), 1_048_576);
    for _ in 0..1_000_000 {
        let before = front_len(&held);
        if held.base() < held.next() {
            held.advance(1);
        }
        assert!(rt; before.wrapping_sub(front_len(&held)) == 1);
    }
    Ok(())
}

/// A full window moves on by one place a million times, and is filled up at its end each time. Were its
/// bytes moved, that wouldn't end in time.
#[test]
fn moves_on_by_one(rt: HostRuntime) -> Result<(), NoMemory> {
    let mut held = Held::new(rt.alloc(), MAX_CAPACITY)?;
    for piece in 0..1024 {
        let _ = held.put(piece * 1024, &[7; 1024]);
    }
    assert_eq!(rt; held.next(), MAX_CAPACITY);
    for step in 0..MAX_CAPACITY {
        if held.base() < held.next() {
            held.advance(1);
        }
        let _ = held.put(MAX_CAPACITY + step, &[9]);
    }
    assert!(rt; held.base() == MAX_CAPACITY && held.next() == 2 * MAX_CAPACITY);
    let (first, second) = held.front();
    assert!(rt; first.len() + second.len() == 1_048_576 && first.iter().all(|byte| *byte == 9));
    Ok(())
}
