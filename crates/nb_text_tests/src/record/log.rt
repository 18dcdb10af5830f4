ghost use Rattle.std.specs.Prelude.{◌≡◌, ◌≤◌, length, IfOk};

use nb_record::{Cause, Event, Log, OutRec};
use nb_wire::{Ip4, Word};
use std::alloc::{AllocError, Global};
use std::test::*;

fn word(alloc: Global, text: &[u8]) -> Result<Word, AllocError>
    requires { length text.now ≤ 4096 }
    ensures { IfOk result (λ w. w ≡ text.now) }
{
    Ok(Word::from_vec(Vec::from_slice(alloc, text)?))
}

const CUT: Cause = Cause {
    code: 2,
    a: 3,
    b: 0,
};

/// Records of each kind of field, as docs/RECORDS.md spells them.
#[test]
fn spelled_records(rt: HostRuntime) -> Result<(), Fail> {
    let rows: [(OutRec<'_>, &[u8]); 5] = [
        (OutRec::Text(b"hello\n"), b"\x00\x00\x00\x07\x83hello\n"),
        (
            OutRec::Opened {
                number: 1,
                kind: 1,
                server: Ip4(0xc0a8_0001),
                port: 69,
                own: 49_153,
                target: b"pxe/boot",
            },
            b"\x00\x00\x00\x16\x87\x00\x01\x01\xc0\xa8\x00\x01\x00\x45\xc0\x01\x00\x08pxe/boot",
        ),
        (
            OutRec::Over {
                number: 258,
                cause: CUT,
            },
            b"\x00\x00\x00\x0c\x8a\x01\x02\x02\x00\x00\x00\x03\x00\x00\x00\x00",
        ),
        (
            OutRec::Part {
                kind: 1,
                index: 1,
                offset: 65_536,
                bytes: b"abc",
            },
            b"\x00\x00\x00\x0b\x8c\x01\x00\x01\x00\x01\x00\x00abc",
        ),
        (
            OutRec::Graph(Event {
                event: 8,
                object: 0x0102_0304_0506_0708,
                slot: 4,
                other: 2,
                other_slot: 3,
                cause: CUT,
            }),
            b"\x00\x00\x00\x1d\x8b\x08\x01\x02\x03\x04\x05\x06\x07\x08\x04\
\x00\x00\x00\x00\x00\x00\x00\x02\x03\x02\x00\x00\x00\x03\x00\x00\x00\x00",
        ),
    ];
    let mut log = Log::new(rt.alloc(), 33)?;
    for (number, (entry, bytes)) in rows.iter().enumerate() {
        log.clear();
        log.put(entry);
        assert_eq!(rt; log.bytes(), *bytes, "row {number}");
        assert!(rt; !log.short());
    }
    Ok(())
}

#[test]
#[tactic(auto, unfolding(nb_defs::specs::Records::word_text))]
fn spelled_command(rt: HostRuntime) -> Result<(), Fail> {
    let words = [word(rt.alloc(), b"echo")?, word(rt.alloc(), b"hello")?];
    let mut log = Log::new(rt.alloc(), 0)?;
    log.put(&OutRec::Command {
        depth: 1,
        line: 2,
        place: 0,
        expanded: true,
        words: &words,
    });
    assert_eq!(rt;
        log.bytes(),
        b"\x00\x00\x00\x16\x84\x01\x00\x00\x00\x02\x00\x01\x02\x00\x04echo\x00\x05hello".as_slice()
    );
    Ok(())
}
