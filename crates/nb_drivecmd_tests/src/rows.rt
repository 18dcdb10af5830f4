//! Drive commands one after another on one list of drives, in a script that was fetched from
//! `tftp://10.0.0.1/x/boot.ipxe`.

use nb_drivecmd::{
    AfterHook, Drive, DriveCommand, DriveOutcome, DriveRefusal, Drives, Hooking, carry_out,
    read_command,
};
use nb_imagecmd::PlanError;
use nb_settings::Table;
use nb_wire::Word;
use std::alloc::Global;
use std::test::Fail;

/// A command, what it comes to, and the drives that it leaves, each with a minus where the boot table doesn't have it. Each disk
/// is hooked. A failure has its cause's numbers, and the drive that it lets go.
const ROWS: &str = "\
sanboot|fails 28 0 and lets 128 go|\n\
sanunhook|fails 28 0|\n\
sanboot --keep --drive 200|fails 28 0|\n\
sanhook iscsi:10.0.0.1::::iqn.x:t|hooks 128 10.0.0.1 3260 0000000000000000 iqn.x:t|128\n\
sanhook --drive 200 --no-describe ISCSI:a.b:6:3261:2-a:iqn.y|hooks 200 a.b 3261 0002000a00000000 iqn.y|128 200-\n\
sanhook --drive 129 iscsi:10.0.0.1::::t|hooks 129 10.0.0.1 3260 0000000000000000 t fails 8 3|128 200-\n\
sanboot|boots 128|128 200-\n\
sanboot --drive 0xC8 --keep|boots 200 and keeps it|128 200-\n\
sanboot --drive 129|fails 28 0 and lets 129 go|128 200-\n\
sanunhook --drive 129|fails 28 0|128 200-\n\
sanhook --no-describe --drive 200 iscsi:h::1::t|hooks 200 h 1 0000000000000000 t|128 200-\n\
sanboot --drive 200 iscsi:h:::ffff:t|hooks 200 h 3260 ffff000000000000 t and boots it|128 200\n\
sanboot --keep --drive 128 iscsi:h::::t|hooks 128 h 3260 0000000000000000 t and boots it and keeps it|128 200\n\
sanboot --keep tftp://10.0.0.1/x|fails 16 0|128 200\n\
sanhook http://10.0.0.1/x|fails 16 0|128 200\n\
sanhook disk|fails 16 0|128 200\n\
sanhook iscsi:10.0.0.1|fails 15 0|128 200\n\
sanhook iscsi:::::t|fails 15 0|128 200\n\
sanhook tftp:///x|fails 15 0|128 200\n\
sanhook ftp://a/b|fails 16 0|128 200\n\
sanboot --drive 200 iscsi:10.0.0.1|fails 15 0 and lets 200 go|128\n\
sanboot --drive 200 http://a/b|fails 16 0 and lets 200 go|128\n\
sanhook --drive 255 iscsi:h::::t|hooks 255 h 3260 0000000000000000 t|128 255\n\
sanunhook|unhooks 128|255\n\
sanhook --drive 254 iscsi:h::::t|hooks 254 h 3260 0000000000000000 t|254 255\n\
sanunhook --drive 255|unhooks 255|254\n\
sanunhook --drive 0xfe|unhooks 254|\n\
sanunhook --drive 254|fails 28 0|\n";

/// Words that are no drive command: whether there is none of that name, or they don't fit it.
const REFUSED: &str = "\
|unknown\n\
Sanhook|unknown\n\
sanhooks a|unknown\n\
imgfetch a|unknown\n\
sanhook|usage\n\
sanhook a b|usage\n\
sanhook --keep a|usage\n\
sanhook --drive|usage\n\
sanhook --drive 128|usage\n\
sanhook --drive a a|usage\n\
sanhook --drive 127 a|usage\n\
sanhook --drive 256 a|usage\n\
sanhook --drive 0128 a|usage\n\
sanhook --drive -1 a|usage\n\
sanhook --drive 128 --drive 128 a|usage\n\
sanhook --drive=128 a|usage\n\
sanhook --no-describe --no-describe a|usage\n\
sanhook --timeout 5 a|usage\n\
sanhook --name n a|usage\n\
sanboot a b|usage\n\
sanboot a --keep|usage\n\
sanboot --keep --keep|usage\n\
sanboot --|usage\n\
sanunhook --keep|usage\n\
sanunhook --no-describe|usage\n\
sanunhook a|usage\n\
sanunhook --drive|usage\n\
sanunhook --drive 128 a|usage\n";

fn words(alloc: Global, line: &str) -> Result<Vec<Word>, Fail> {
    let mut words = Vec::new(alloc);
    for word in line.split(' ') {
        let bytes = Vec::from_slice(alloc, word.as_bytes())?;
        if bytes.len() <= 4096 {
            words.push(Word::from_vec(bytes))?;
        }
    }
    Ok(words)
}

fn put(text: &mut Vec<u8>, parts: &[&[u8]]) -> Result<(), Fail> {
    for part in parts {
        text.extend_from_slice(part)?;
    }
    Ok(())
}

/// What is asked for, and the drive, which is hooked where there is room.
fn put_hooked(
    alloc: Global,
    text: &mut Vec<u8>,
    drives: &mut Drives,
    hooking: &Hooking,
) -> Result<(), Fail> {
    let shown = format!(in alloc; "hooks {} ", hooking.number)?;
    let port = format!(in alloc; " {} ", hooking.disk.port)?;
    put(
        text,
        &[
            shown.as_bytes(),
            hooking.disk.host.as_slice(),
            port.as_bytes(),
        ],
    )?;
    for byte in hooking.disk.lun {
        put(text, &[format!(in alloc; "{byte:02x}")?.as_bytes()])?;
    }
    put(text, &[b" ", hooking.disk.name.as_slice()])?;
    drives.unhook(hooking.number);
    if let Err(why) = drives.room() {
        let cause = why.cause();
        let shown = format!(in alloc; " fails {} {}", cause.code, cause.a)?;
        return put(text, &[shown.as_bytes()]);
    }
    if drives.len() < 2 {
        drives.hook(Drive {
            number: hooking.number,
            described: hooking.described,
            open_number: 0,
        });
    }
    match hooking.after {
        AfterHook::Keep => Ok(()),
        AfterHook::Boot { keep: false } => put(text, &[b" and boots it"]),
        AfterHook::Boot { keep: true } => put(text, &[b" and boots it and keeps it"]),
    }
}

fn put_refused(
    alloc: Global,
    text: &mut Vec<u8>,
    drives: &mut Drives,
    refusal: DriveRefusal,
) -> Result<(), Fail> {
    let cause = refusal.why.cause();
    let shown = format!(in alloc; "fails {} {}", cause.code, cause.a)?;
    put(text, &[shown.as_bytes()])?;
    if let Some(number) = refusal.unhooks {
        drives.unhook(number);
        let shown = format!(in alloc; " and lets {number} go")?;
        put(text, &[shown.as_bytes()])?;
    }
    Ok(())
}

fn put_outcome(
    alloc: Global,
    text: &mut Vec<u8>,
    drives: &mut Drives,
    command: &DriveCommand,
) -> Result<(), Fail> {
    let base = Some(b"tftp://10.0.0.1/x/boot.ipxe".as_slice());
    match carry_out(alloc, command, base, &Table::new(alloc), drives) {
        Ok(DriveOutcome::Hook(hooking)) => put_hooked(alloc, text, drives, &hooking),
        Ok(DriveOutcome::Boot { number, keep }) => {
            let kept: &str = if keep { " and keeps it" } else { "" };
            put(
                text,
                &[format!(in alloc; "boots {number}{kept}")?.as_bytes()],
            )
        }
        Ok(DriveOutcome::Unhook(number)) => {
            drives.unhook(number);
            put(text, &[format!(in alloc; "unhooks {number}")?.as_bytes()])
        }
        Err(refusal) => put_refused(alloc, text, drives, refusal),
    }
}

fn put_drives(alloc: Global, text: &mut Vec<u8>, drives: &Drives) -> Result<(), Fail> {
    for place in 0..drives.len() {
        let space: &str = if place > 0 { " " } else { "" };
        let drive = drives.get(place).ok_or("no drive")?;
        let minus: &str = if drive.described { "" } else { "-" };
        put(
            text,
            &[format!(in alloc; "{space}{}{minus}", drive.number)?.as_bytes()],
        )?;
    }
    Ok(())
}

/// What a line comes to, and the drives that it leaves.
fn row(alloc: Global, drives: &mut Drives, line: &str) -> Result<Vec<u8>, Fail> {
    let mut text = Vec::new(alloc);
    match read_command(alloc, words(alloc, line)?.as_slice()) {
        Ok(command) => put_outcome(alloc, &mut text, drives, &command)?,
        Err(PlanError::Unknown) => put(&mut text, &[b"unknown"])?,
        Err(PlanError::Usage) => put(&mut text, &[b"usage"])?,
        Err(PlanError::NoMemory) => return Err(Fail::new("out of memory")),
    }
    put(&mut text, &[b"|"])?;
    put_drives(alloc, &mut text, drives)?;
    Ok(text)
}

#[test]
fn drive_commands(rt: HostRuntime) -> Result<(), Fail> {
    let alloc = rt.alloc();
    let mut drives = Drives::new();
    for expected in ROWS.lines() {
        let (line, outcome) = expected.split_once('|').ok_or("no outcome")?;
        let found = row(alloc, &mut drives, line)?;
        assert_eq!(rt; found.as_slice(), outcome.as_bytes(), "{expected}");
    }
    Ok(())
}

#[test]
fn words_that_are_refused(rt: HostRuntime) -> Result<(), Fail> {
    let alloc = rt.alloc();
    for expected in REFUSED.lines() {
        let (line, refusal) = expected.split_once('|').ok_or("no refusal")?;
        let found = match read_command(alloc, words(alloc, line)?.as_slice()) {
            Ok(_) => "none",
            Err(PlanError::Unknown) => "unknown",
            Err(PlanError::Usage) => "usage",
            Err(PlanError::NoMemory) => "out of memory",
        };
        assert_eq!(rt; found, refusal, "{expected}");
    }
    assert!(rt; matches!(read_command(alloc, &[]), Err(PlanError::Unknown)));
    Ok(())
}
