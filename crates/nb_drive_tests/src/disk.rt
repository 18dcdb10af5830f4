use nb_disk::{BlockSource, Disk, ReadRefusal};
use nb_iscsipdu::Pdu;
use nb_login::{LoginInfo, Session};
use nb_terms::{Acts, Cause, NoMemory};
use nb_wire::Text;
use std::alloc::{AllocError, Global};
use std::process::Abort;
use std::test::Fail;

/// What a target sends, and what the last of it comes to: the text that is put (its opcode, task, CmdSN, ExpStatSN and
/// its command, or a NOP-Out's tag), the range that is handed up, the end, and what the disk is at. Numbers are
/// hexadecimal. A SCSI Response is 21, its task, response and status; a Data-In is 25, its task, its place, how many
/// bytes it has, the two words that they repeat, and the status that comes with it; a NOP-In is 20 and its tag; and
/// any other PDU its opcode. A read of one block is 1 and its place. StatSN is that of the record, counted from 1.
/// RFC 7143, sections 4.2.2, 11.4, 11.7 and 11.19, and this client's rules.
const SESSIONS: &str = "\
|1,2,1,50,0|-|-|busy\n\
21,2,0,2|1,3,2,2,0|-|-|busy\n\
21,2,0,2 21,3,0,2|1,4,3,3,0|-|-|busy\n\
21,2,0,0|1,3,2,2,25|-|-|busy\n\
21,2,0,0 20,7|40,ff,3,2,7|-|-|busy\n\
21,2,0,0 20,ffffffff|-|-|-|busy\n\
21,2,0,0 25,3,0,8,1,200,0|-|-|-|idle\n\
21,2,0,0 25,3,0,8,1,200|-|-|-|busy\n\
21,2,0,0 25,3,0,4,1,200 25,3,4,4,1,200 21,3,0,0 20,9|40,ff,3,5,9|-|-|idle\n\
21,2,0,0 25,3,0,8,1,200,0 1,1|1,4,3,3,28|-|-|busy\n\
21,2,0,0 25,3,0,8,1,200,0 1,1 25,4,0,c8,0,0|-|30,f8|-|busy\n\
21,2,0,0 25,3,0,8,1,200,0 1,1 25,4,0,200,0,0,0|-|30,230|-|idle\n\
21,2,0,0 25,3,0,8,1,200,0 1,1 25,4,0,c8,0,0 25,4,c8,138,0,0,0|-|30,168|-|idle\n\
21,2,0,0 25,3,0,8,1,200,0 1,1 25,4,0,200,0,0 21,4,0,0|-|-|-|idle\n\
21,2,0,2 21,3,0,2 21,4,0,2 21,5,0,2|-|-|1,4,2|over\n\
21,2,0,8|-|-|1,1,8|over\n\
21,3,0,0|-|-|3,1,0|over\n\
21,2,1,0|-|-|3,1,0|over\n\
25,2,0,1,0,0,0|-|-|3,1,0|over\n\
25,2,4,0,0,0,0|-|-|3,1,0|over\n\
23|-|-|3,1,0|over\n\
31|-|-|3,1,0|over\n\
3f|-|-|3,1,0|over\n\
21,2,0,0 21,2,0,0|-|-|3,2,0|over\n\
21,2,0,0 21,3,0,0|-|-|3,2,0|over\n\
21,2,0,0 21,3,0,2|-|-|1,2,2|over\n\
21,2,0,0 25,3,0,7,1,200,0|-|-|3,2,0|over\n\
21,2,0,0 25,3,4,4,1,200|-|-|3,2,0|over\n\
21,2,0,0 25,3,0,8,1,1000,0|-|-|3,2,0|over\n\
21,2,0,0 25,3,0,8,ffffffff,200,0|-|-|3,2,0|over\n\
21,2,0,0 25,3,0,9,1,200,0|-|-|3,2,0|over\n\
21,2,0,0 25,3,0,8,1,200,8|-|-|1,2,8|over\n\
21,2,0,0 25,3,0,8,1,200,0 21,3,0,0|-|-|3,3,0|over\n\
21,2,0,0 25,3,0,8,1,200,0 25,3,8,0,0,0|-|-|3,3,0|over\n\
21,2,0,0 25,3,0,8,1,200,0 21,4,0,0|-|-|3,3,0|over\n\
21,2,0,0 25,3,0,8,1,200,0 3f|-|-|3,3,0|over\n\
21,2,0,0 25,3,0,8,1,200,0 1,1 25,4,0,1ff,0,0 21,4,0,0|-|-|3,5,0|over\n\
21,2,0,0 25,3,0,8,1,200,0 1,1 25,4,0,c8,0,0,0|-|-|3,4,0|over\n\
21,2,0,0 25,3,0,8,1,200,0 1,1 25,4,c8,138,0,0|-|-|3,4,0|over\n\
21,2,0,0 25,3,0,8,1,200,0 1,1 25,4,0,200,0,0,2|-|-|1,4,2|over\n\
";

fn numbers(alloc: Global, word: &str) -> Result<Vec<u32>, Fail> {
    let mut numbers = Vec::new(alloc);
    for field in word.split(',') {
        let number = u32::from_str_radix(field, 16).ok().ok_or("no number")?;
        numbers.push(number)?;
    }
    Ok(numbers)
}

/// A head of this opcode and flags, with a word for the bytes 2 and 3, the task's tag and the target's.
fn head(kind: [u8; 4], tag: u32, target_tag: u32, stat_sn: u32) -> [u8; 48] {
    let [a, b, c, d] = kind;
    let [t0, t1, t2, t3] = tag.to_be_bytes();
    let [g0, g1, g2, g3] = target_tag.to_be_bytes();
    let [n0, n1, n2, n3] = stat_sn.to_be_bytes();
    [
        a, b, c, d, 0, 0, 0, 0, 0, 0, 0, 0, 0, 0, 0, 0, t0, t1, t2, t3, g0, g1, g2, g3, n0, n1, n2,
        n3, 0, 0, 0, 0, 0, 0, 0, 0, 0, 0, 0, 0, 0, 0, 0, 0, 0, 0, 0, 0,
    ]
}

/// A Data-In's head: its place stands in the bytes 40 to 43.
fn data_head(kind: [u8; 4], tag: u32, place: u32, stat_sn: u32) -> [u8; 48] {
    let mut head = head(kind, tag, 0xffff_ffff, stat_sn);
    let [a, b, c, d] = place.to_be_bytes();
    head[40] = a;
    head[41] = b;
    head[42] = c;
    head[43] = d;
    head
}

/// The head of what a target sends with this StatSN.
fn sent(numbers: &[u32], stat_sn: u32) -> [u8; 48] {
    match numbers {
        [0x21, tag, response, status] => head(
            [0x21, 0x80, low(*response), low(*status)],
            *tag,
            0,
            stat_sn,
        ),
        [0x25, tag, place, _, _, _] => data_head([0x25, 0x80, 0, 0], *tag, *place, stat_sn),
        [0x25, tag, place, _, _, _, status] => data_head(
            [0x25, 0x81, 0, low(*status)],
            *tag,
            *place,
            stat_sn,
        ),
        [0x20, tag] => head([0x20, 0x80, 0, 0], 0xffff_ffff, *tag, stat_sn),
        [opcode, ..] => head([low(*opcode), 0x80, 0, 0], 2, 0, stat_sn),
        [] => [0; 48],
    }
}

fn low(number: u32) -> u8 {
    number.to_be_bytes()[3]
}

/// The bytes of a Data-In.
fn data(alloc: Global, numbers: &[u32]) -> Result<Vec<u8>, AllocError> {
    let mut bytes = Vec::new(alloc);
    let [0x25, _, place, count, first, second, ..] = numbers else {
        return Ok(bytes);
    };
    let [a, b, c, d] = first.to_be_bytes();
    let [e, f, g, h] = second.to_be_bytes();
    let words = [a, b, c, d, e, f, g, h];
    for number in 0..*count {
        let at = place.wrapping_add(number) % 8;
        bytes.push(words[at as usize])?;
    }
    Ok(bytes)
}

fn text(alloc: Global, bytes: &[u8]) -> Result<Text, NoMemory> {
    Ok(Text::from_vec(Vec::from_slice(alloc, bytes)?))
}

fn session(alloc: Global) -> Result<Session, NoMemory> {
    let info = LoginInfo {
        initiator: text(alloc, b"i")?,
        target: text(alloc, b"t")?,
        lun: [0, 1, 0, 0, 0, 0, 0, 0],
        user: text(alloc, b"")?,
        secret: text(alloc, b"")?,
        reverse_user: text(alloc, b"")?,
        reverse_secret: text(alloc, b"")?,
        words: [0; 8],
    };
    Ok(Session {
        info,
        cmd_sn: 1,
        exp_stat_sn: 0x50,
        task: 2,
        chap: 0,
    })
}

/// What a request is: its opcode, its task, CmdSN, ExpStatSN and its command, or a NOP-Out's tag.
fn request(text: &Text) -> (u8, u8, u8, u8, u8) {
    let bytes = text.as_slice();
    match bytes.len() == 48 {
        true => {
            let kind = if bytes[0] == 0x40 {
                bytes[23]
            } else {
                bytes[32]
            };
            (bytes[0], bytes[19], bytes[27], bytes[31], kind)
        }
        false => (0, 0, 0, 0, 0),
    }
}

/// Asks any source for one block.
fn ask<S: BlockSource>(source: &mut S, alloc: Global, lba: u32) -> Result<Text, ReadRefusal> {
    if source.has_ended() {
        return Err(ReadRefusal::NoMemory);
    }
    source.read(alloc, lba, 1)
}

/// Gives a disk what a word says, and returns the text that it puts.
fn give(
    alloc: Global,
    disk: &mut Disk,
    word: &str,
    rec: u32,
    acts: &mut Acts,
) -> Result<Option<Text>, Fail> {
    let numbers = numbers(alloc, word)?;
    if let [1, place] = numbers.as_slice() {
        return Ok(ask(disk, alloc, *place).ok());
    }
    let data = data(alloc, numbers.as_slice())?;
    let pdu = Pdu {
        head: sent(numbers.as_slice(), rec),
        seg: data.as_slice(),
    };
    Ok(disk.pdu(alloc, rec, &pdu, acts)?)
}

fn put_shown(alloc: Global, put: &Option<Text>) -> Result<Vec<u8>, AllocError> {
    match put {
        Some(text) => {
            let (opcode, task, cmd_sn, exp_stat_sn, kind) = request(text);
            let text = format!(in alloc;
                "{opcode:x},{task:x},{cmd_sn:x},{exp_stat_sn:x},{kind:x}|"
            )?;
            Ok(text.into_bytes())
        }
        None => Vec::from_slice(alloc, b"-|"),
    }
}

fn give_shown(alloc: Global, acts: &Acts) -> Result<Vec<u8>, AllocError> {
    match acts.give {
        Some((from, to)) => Ok(format!(in alloc; "{from:x},{to:x}|")?.into_bytes()),
        None => Vec::from_slice(alloc, b"-|"),
    }
}

fn over_shown(alloc: Global, acts: &Acts) -> Result<Vec<u8>, AllocError> {
    match acts.over {
        Some(cause) => {
            let (code, a, b) = (cause.code, cause.a, cause.b);
            Ok(format!(in alloc; "{code:x},{a:x},{b:x}|")?.into_bytes())
        }
        None => Vec::from_slice(alloc, b"-|"),
    }
}

fn state(disk: &Disk) -> &'static [u8] {
    if disk.has_ended() {
        return b"over";
    }
    if disk.is_busy() { b"busy" } else { b"idle" }
}

/// Gives a disk these words, and returns the text that it puts last, after this one.
fn give_all(
    alloc: Global,
    disk: &mut Disk,
    sent: &str,
    first: Text,
    acts: &mut Acts,
) -> Result<Option<Text>, Fail> {
    let mut put = Some(first);
    let mut rec = 0u32;
    for word in sent.split_whitespace() {
        rec = rec.wrapping_add(1);
        put = give(alloc, disk, word, rec, acts)?;
    }
    Ok(put)
}

/// What a disk has come to that put this text last, as the rows show it.
fn shown_of(
    alloc: Global,
    disk: &Disk,
    put: &Option<Text>,
    acts: &Acts,
) -> Result<Vec<u8>, AllocError> {
    let mut text = put_shown(alloc, put)?;
    text.extend_from_slice(give_shown(alloc, acts)?.as_slice())?;
    text.extend_from_slice(over_shown(alloc, acts)?.as_slice())?;
    text.extend_from_slice(state(disk))?;
    Ok(text)
}

/// What the last of these words comes to, as the rows show it.
fn shown(alloc: Global, sent: &str) -> Result<Vec<u8>, Fail> {
    let (mut disk, first) = Disk::start(alloc, session(alloc)?)?;
    let mut acts = Acts::none();
    let put = give_all(alloc, &mut disk, sent, first, &mut acts)?;
    Ok(shown_of(alloc, &disk, &put, &acts)?)
}

fn agrees(rt: &impl Abort, alloc: Global, row: &str) -> Result<(), Fail> {
    let (sent, expected) = row.split_once('|').ok_or("no row")?;
    let found = shown(alloc, sent)?;
    assert_eq!(rt; found.as_slice(), expected.as_bytes(), "{row}");
    Ok(())
}

#[test]
fn sessions(rt: HostRuntime) -> Result<(), Fail> {
    for row in SESSIONS.lines() {
        agrees(&rt, rt.alloc(), row)?;
    }
    Ok(())
}

/// A disk is refused what is asked beyond its one block, or twice; the stream's end ends it.
fn has_one_block(rt: &impl Abort, alloc: Global, disk: &mut Disk) -> Result<(), Fail> {
    let mut acts = Acts::none();
    let _ = give(alloc, disk, "21,2,0,0", 1, &mut acts)?;
    let _ = give(alloc, disk, "25,3,0,8,0,200,0", 2, &mut acts)?;
    let capacity = BlockSource::capacity(disk);
    assert_eq!(rt; capacity, Some(1));
    assert!(rt; !BlockSource::is_busy(disk));
    for (place, refusal) in [
        (1, Some(ReadRefusal::OutOfDisk)),
        (0, None),
        (0, Some(ReadRefusal::Busy)),
    ] {
        let found = ask(disk, alloc, place).err();
        assert_eq!(rt; found, refusal, "at {place}");
    }
    disk.finish(7, &mut acts);
    let broken = Cause {
        code: 3,
        a: 7,
        b: 0,
    };
    assert_eq!(rt; acts.over, Some(broken));
    assert!(rt; disk.has_ended() && disk.capacity() == Some(1));
    Ok(())
}

/// A disk whose last block is 0 has one block.
#[test]
fn one_block(rt: HostRuntime) -> Result<(), Fail> {
    let (mut disk, _) = Disk::start(rt.alloc(), session(rt.alloc())?)?;
    has_one_block(&rt, rt.alloc(), &mut disk)
}
