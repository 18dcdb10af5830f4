use nb_boot::{Status, netboot};
use nb_record::{MemLine, NoMemory, ReadNote, SureLine};
use std::alloc::Global;
use std::test::*;

/// START of mac 52:54:00:00:00:01 with all else 0, and a script of `echo hello` and `exit`.
const INPUT: &[u8] = b"\x00\x00\x00\x63\x01\x01\x52\x54\x00\x00\x00\x01\
\x00\x00\x00\x00\x00\x00\x00\x00\x00\x00\x00\x00\x00\x00\x00\x00\x00\
\x00\x00\x00\x00\x00\x00\x00\x00\x00\x00\x00\x00\x00\x00\x00\x00\x00\
\x00\x00\x00\x00\x00\x00\x00\x00\x00\x00\x00\x00\x00\x00\x00\x00\x00\
\x00\x00\x00\x00\x00\x00\x00\x00\x00\x00\x00\x00\x00\x00\x00\x00\x00\
#!ipxe\necho hello\nexit\n";

/// STEP 1, SCRIPT enter, COMMAND `echo hello` on line 2, its text, Ok, COMMAND `exit` on line 3, Ok, SCRIPT leave, DONE 3.
const OUTPUT: &[u8] = b"\x00\x00\x00\x05\x81\x00\x00\x00\x01\
\x00\x00\x00\x0c\x86\x00\x01\x00\x00\x00\x00\x00\x00\x00\x00\x00\
\x00\x00\x00\x16\x84\x01\x00\x00\x00\x02\x00\x01\x02\x00\x04echo\x00\x05hello\
\x00\x00\x00\x07\x83hello\n\
\x00\x00\x00\x0a\x85\x00\x00\x00\x00\x00\x00\x00\x00\x00\
\x00\x00\x00\x0f\x84\x01\x00\x00\x00\x03\x00\x01\x01\x00\x04exit\
\x00\x00\x00\x0a\x85\x00\x00\x00\x00\x00\x00\x00\x00\x00\
\x00\x00\x00\x0c\x86\x01\x01\x00\x00\x00\x00\x00\x00\x00\x00\x00\
\x00\x00\x00\x02\x8d\x03";

fn words_of(alloc: Global, texts: &[&str]) -> Result<Vec<String>, NoMemory> {
    let mut words = Vec::new(alloc);
    for text in texts {
        words.push(String::from_str(alloc, text)?)?;
    }
    Ok(words)
}

/// The words of a replay.
fn replay(alloc: Global) -> Result<Vec<String>, NoMemory> {
    words_of(alloc, &["replay", "in", "out"])
}

// A line that never fails, by the words of a replay and of a live run.
#[test]
fn hello_over_a_sure_line(rt: HostRuntime) -> Result<(), Fail> {
    for words in [["replay", "in", "out"].as_slice(), &["live", "h:1"]] {
        let words = words_of(rt.alloc(), words)?;
        let mut line = SureLine::new(rt.alloc(), INPUT, &[], 1000)?;
        assert_eq!(rt;
            netboot(rt.alloc(), words.as_slice(), &mut line),
            Status::Ended
        );
        assert_eq!(rt; line.output(), OUTPUT);
    }
    Ok(())
}

// A script is run whole, in three calls of its line, and byte by byte. Where a call of its line fails, or its room ends, a prefix of the output is written.
#[test]
fn hello(rt: HostRuntime) -> Result<(), Fail> {
    let words = replay(rt.alloc())?;
    for (cuts, fail, room, status, written) in [
        ([].as_slice(), 3, 1000, Status::Ended, 131),
        (&[1; 103], 1000, 1000, Status::Ended, 131),
        (&[], 0, 1000, Status::AttachFault, 0),
        (&[], 1, 1000, Status::ReadFault, 0),
        (&[], 2, 1000, Status::WriteFault, 0),
        (&[], 1000, 30, Status::WriteFault, 30),
    ] {
        let mut line = MemLine::new(rt.alloc(), INPUT, cuts, &[fail], room)?;
        let ended = netboot(rt.alloc(), words.as_slice(), &mut line);
        assert_eq!(rt;
            ended,
            status,
            "where call {fail} fails, with room for {room}"
        );
        assert_eq!(rt; line.output(), OUTPUT.split_at(OUTPUT.len().min(written)).0);
    }
    Ok(())
}

/// The same START with a script of `sleep 1` and `exit`, and a TICK of a second.
const SLEEPING: &[u8] = b"\x00\x00\x00\x60\x01\x01\x52\x54\x00\x00\x00\x01\
\x00\x00\x00\x00\x00\x00\x00\x00\x00\x00\x00\x00\x00\x00\x00\x00\x00\
\x00\x00\x00\x00\x00\x00\x00\x00\x00\x00\x00\x00\x00\x00\x00\x00\x00\
\x00\x00\x00\x00\x00\x00\x00\x00\x00\x00\x00\x00\x00\x00\x00\x00\x00\
\x00\x00\x00\x00\x00\x00\x00\x00\x00\x00\x00\x00\x00\x00\x00\x00\x00\
#!ipxe\nsleep 1\nexit\n\
\x00\x00\x00\x03\x03\x03\xe8";

// Each read asks for a piece at most, the second after START's whole output: STEP with 9 bytes, SCRIPT with 16 and
// COMMAND `sleep 1` with 23.
#[test]
fn reads_between_steps(rt: HostRuntime) -> Result<(), Fail> {
    let words = replay(rt.alloc())?;
    let mut line = MemLine::new(rt.alloc(), SLEEPING, &[100], &[], 1000)?;
    assert_eq!(rt;
        netboot(rt.alloc(), words.as_slice(), &mut line),
        Status::Ended
    );
    let reads = [
        ReadNote {
            left: 107,
            taken: 0,
            most: 65_536,
        },
        ReadNote {
            left: 7,
            taken: 48,
            most: 65_536,
        },
    ];
    assert_eq!(rt; line.notes.reads.as_slice(), reads.as_slice());
    assert!(rt; line.notes.are_known);
    Ok(())
}
