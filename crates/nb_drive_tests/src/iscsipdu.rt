ghost use Rattle.nb_iscsipdu.specs.PduTexts.{IsPdu, pdu_parts};

use nb_iscsipdu::*;
use nb_wire::Out;
use std::alloc::Global;
use std::process::Abort;
use std::test::Fail;

/// RFC 7143, section 6.1: names and values are compared with case, and the first text of a name counts.
#[test]
fn keys(rt: HostRuntime) -> Result<(), Fail> {
    let bytes: &[u8] = b"A=b\0AuthMethod=CHAP,None\0auth=x\0E=\0AuthMethod=None\0Last=c=d";
    let rows: [(&[u8], Option<&[u8]>); 8] = [
        (b"A", Some(b"b")),
        (b"AuthMethod", Some(b"CHAP,None")),
        (b"Auth", None),
        (b"authMethod", None),
        (b"E", Some(b"")),
        (b"Last", Some(b"c=d")),
        (b"Last=c", Some(b"d")),
        (b"", None),
    ];
    for (row, (name, value)) in rows.iter().enumerate() {
        assert_eq!(rt; Keys { bytes }.get(name), *value, "row {row}");
    }
    Ok(())
}

/// RFC 7143, sections 11.12, 11.3 and 11.18: a login's request, a command and a NOP-Out by hand, laid out as the standard does.
const LOGIN: &[u8] =
    b"\x43\x87\0\0\0\0\0\x09\x80\x01\x02\x03\0\0\0\0\0\0\0\x01\0\0\0\0\0\0\0\x01\x0a\x0b\x0c\x0d\0\0\0\0\0\0\0\0\0\0\0\0\0\0\0\0A=b\0C=d\0\0\0\0\0";

const COMMAND: &[u8] =
    b"\x01\xc1\0\0\0\0\0\0\0\x01\0\0\0\0\0\0\0\0\0\x04\0\0\x04\0\0\0\0\x03\0\0\0\x05\x28\0\x01\x02\x03\x04\0\0\x02\0\0\0\0\0\0\0";

const NOP: &[u8] =
    b"\x40\x80\0\0\0\0\0\0\0\x01\0\0\0\0\0\0\xff\xff\xff\xff\0\0\0\x07\0\0\0\x04\0\0\0\x06\0\0\0\0\0\0\0\0\0\0\0\0\0\0\0\0";

/// A PDU is laid out as these bytes, in a text and in room that is lent, and its data are read from them.
fn is_laid_out(
    rt: &impl Abort,
    alloc: Global,
    pdu: &Pdu<'_>,
    bytes: &[u8],
    what: &str,
) -> Result<(), Fail>
    requires { IsPdu (pdu_parts pdu.now) }
{
    let text = pdu.text(alloc)?;
    assert_eq!(rt; text.as_slice(), bytes, "text {what}");
    let mut room = [0; 64];
    let mut out = Out::new(&mut room);
    assert!(rt; pdu.write(&mut out).is_ok(), "room {what}");
    assert_eq!(rt; out.written(), bytes, "written {what}");
    let read = Pdu::read(bytes).expect(rt, "a PDU");
    assert_eq!(rt; read.seg, pdu.seg, "read {what}");
    Ok(())
}

#[test]
fn requests(rt: HostRuntime) -> Result<(), Fail> {
    let login = LoginRequest {
        current: Stage::Operational,
        next: Some(Stage::FullFeature),
        isid: [0x80, 1, 2, 3, 0, 0],
        task_tag: 1,
        cmd_sn: 1,
        exp_stat_sn: 0x0a0b_0c0d,
        keys: b"A=b\0C=d\0\0",
    };
    let read = ScsiCommand {
        lun: [0, 1, 0, 0, 0, 0, 0, 0],
        task_tag: 4,
        cmd_sn: 3,
        exp_stat_sn: 5,
        command: Command::Read {
            lba: 0x0102_0304,
            blocks: 2,
        },
    };
    let nop = NopOut {
        lun: [0, 1, 0, 0, 0, 0, 0, 0],
        target_tag: 7,
        cmd_sn: 4,
        exp_stat_sn: 6,
    };
    is_laid_out(&rt, rt.alloc(), &login.pdu(), LOGIN, "login")?;
    is_laid_out(&rt, rt.alloc(), &read.pdu(), COMMAND, "command")?;
    is_laid_out(&rt, rt.alloc(), &nop.pdu(), NOP, "NOP-Out")
}

/// What an answer is, in one letter, and its tag, status and number as far as it has them.
fn told(answer: Answer) -> (u8, u32, u8, u32) {
    match answer {
        Answer::Login(login) => (b'L', 0, login.class, login.stat_sn),
        Answer::Scsi(scsi) => (b'S', scsi.task_tag, scsi.status.status, scsi.status.stat_sn),
        Answer::Data(part) => match part.status {
            Some(status) => (b'D', part.task_tag, status.status, status.stat_sn),
            None => (b'd', part.task_tag, 0, part.offset),
        },
        Answer::Nop(nop) => (b'N', nop.target_tag, 0, 0),
        Answer::Other => (b'O', 0, 0, 0),
    }
}

/// RFC 7143, sections 11.4, 11.7, 11.13, 11.17 and 11.19: the fields of what a target sends. The bits above an
/// opcode are no part of it.
#[test]
fn answers(rt: HostRuntime) -> Result<(), Fail> {
    let rows: [(u8, u8, (u8, u32, u8, u32)); 8] = [
        (0x20, 0x80, (b'N', 0x1415_1617, 0, 0)),
        (0x21, 0x80, (b'S', 0x1011_1213, 3, 0x1819_1a1b)),
        (0x23, 0x87, (b'L', 0, 0x24, 0x1819_1a1b)),
        (0x25, 0x81, (b'D', 0x1011_1213, 3, 0x1819_1a1b)),
        (0x25, 0x80, (b'd', 0x1011_1213, 0, 0x2829_2a2b)),
        (0x65, 0x80, (b'd', 0x1011_1213, 0, 0x2829_2a2b)),
        (0x3f, 0x80, (b'O', 0, 0, 0)),
        (0x31, 0x80, (b'O', 0, 0, 0)),
    ];
    for (row, (opcode, flags, wanted)) in rows.iter().enumerate() {
        let mut head = [0; 48];
        for (place, byte) in head.iter_mut().enumerate() {
            *byte = place as u8;
        }
        head[0] = *opcode;
        head[1] = *flags;
        let pdu = Pdu { head, seg: b"" };
        assert_eq!(rt; told(Answer::read(&pdu)), *wanted, "row {row}");
    }
    Ok(())
}

/// The next bytes, at most so many, in two parts.
fn next_piece(rest: &[u8], most: usize) -> (&[u8], &[u8]) {
    let len = rest.len().min(most);
    rest[..len].split_at(len / 2)
}

/// Feeds a stream in pieces of this size until no PDU begins with what comes: how many bytes followed each PDU, and how
/// many bytes of data it had; and how many bytes were left.
fn fed(
    rt: &impl Abort,
    pdus: &mut Pdus,
    stream: &[u8],
    piece: usize,
    seen: &mut Vec<(usize, usize)>,
) -> Result<usize, Fail> {
    let mut rest = stream;
    for _ in 0..250usize {
        let (first, second) = next_piece(rest, piece);
        assert!(rt; first.len() <= 112 && second.len() <= 112);
        let (took, state) = pdus.feed(first, second);
        rest = rest
            .get(took as usize..)
            .expect(rt, "no more than there is");
        if state == PduState::One {
            let pdu = pdus.pdu().expect(rt, "a PDU");
            seen.push((rest.len(), pdu.seg.len()))?;
        }
        if state == PduState::Broken {
            break;
        }
    }
    Ok(rest.len())
}

/// The stream comes in pieces of this size. Once no PDU begins, nothing more is taken.
fn comes_in_pieces(
    rt: &impl Abort,
    alloc: Global,
    pdus: &mut Pdus,
    stream: &[u8],
    piece: usize,
) -> Result<(), Fail> {
    let mut seen = Vec::new(alloc);
    let left = fed(rt, pdus, stream, piece, &mut seen)?;
    assert_eq!(rt;
        seen.as_slice(),
        [(56, 5), (8, 0)].as_slice(),
        "pieces of {piece}"
    );
    assert_eq!(rt; left, 0, "pieces of {piece}");
    assert_eq!(rt;
        pdus.feed(b"more", b""),
        (0, PduState::Broken),
        "pieces of {piece}"
    );
    assert!(rt; pdus.pdu().is_none(), "pieces of {piece}");
    Ok(())
}

/// Two PDUs with data of 5 and 0 bytes, and one that is refused at its eighth byte, in pieces of each length.
#[test]
fn streams(rt: HostRuntime) -> Result<(), Fail> {
    let mut stream = [0; 112];
    stream[7] = 5;
    stream[48..53].copy_from_slice(b"hello");
    stream[56] = 0x21;
    stream[104 + 4] = 1;
    for piece in 1..113usize {
        let mut pdus = Pdus::new(rt.alloc())?;
        comes_in_pieces(&rt, rt.alloc(), &mut pdus, &stream, piece)?;
    }
    Ok(())
}
