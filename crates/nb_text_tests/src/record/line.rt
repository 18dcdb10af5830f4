use nb_record::{Failed, Line, MemLine, ReadNote, SureLine, Target};
use std::test::*;

const FILES: Target<'static> = Target::Files {
    input: "in",
    output: "out",
};

/// A read of four bytes at most.
fn read_of(left: usize, taken: usize) -> ReadNote {
    ReadNote {
        left,
        taken,
        most: 4,
    }
}

#[test]
fn line_that_fails(rt: HostRuntime) -> Result<(), Fail> {
    let mut line = MemLine::new(rt.alloc(), b"abcdef", &[0, 2], &[0, 2], 4)?;
    let mut buf = [0; 4];
    for expected in [Err(Failed), Ok(())] {
        assert_eq!(rt; line.attach(&FILES), expected);
    }
    for expected in [Err(Failed), Ok(2), Ok(4), Ok(0)] {
        assert_eq!(rt; line.read(&mut buf), expected);
    }
    for (bytes, expected) in [(b"abc", Ok(3)), (b"def", Ok(1)), (b"efg", Err(Failed))] {
        assert_eq!(rt; line.write(bytes), expected);
    }
    assert_eq!(rt; line.output(), b"abcd".as_slice());
    assert_eq!(rt; line.faults, [1, 1, 1]);
    let notes = [read_of(6, 0), read_of(6, 0), read_of(4, 0), read_of(0, 0)];
    assert_eq!(rt; line.notes.reads.as_slice(), notes.as_slice());
    assert!(rt; line.notes.are_known);
    Ok(())
}

#[test]
fn line_that_is_sure(rt: HostRuntime) -> Result<(), Fail> {
    let mut line = SureLine::new(rt.alloc(), b"abc", &[2], 4)?;
    let mut buf = [0; 4];
    assert_eq!(rt; line.attach(&FILES), Ok(()));
    for expected in [2, 1, 0] {
        assert_eq!(rt; line.read(&mut buf), Ok(expected));
    }
    for (bytes, has_all) in [(b"ab", true), (b"cd", true), (b"ef", false)] {
        assert_eq!(rt; line.write(bytes), Ok(2));
        assert_eq!(rt; line.has_all, has_all);
    }
    assert_eq!(rt; line.output(), b"abcd".as_slice());
    let notes = [read_of(3, 0), read_of(1, 0), read_of(0, 0)];
    assert_eq!(rt; line.notes.reads.as_slice(), notes.as_slice());
    assert!(rt; line.notes.are_known);
    assert_eq!(rt; line.read(&mut buf), Ok(0));
    assert!(rt;
        !line.notes.are_known,
        "what was taken isn't known any more"
    );
    Ok(())
}
