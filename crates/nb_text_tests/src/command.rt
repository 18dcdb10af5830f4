//! Commands one after another, their words expanded, on a table with the `mac` of `net0`; and files of URIs.

use nb_command::{Job, Outcome, PlanError, State, apply, plan, put_address, refuses_address};
use nb_drivecmd::{AfterHook, DriveOutcome, Drives};
use nb_expand::expand;
use nb_image::Images;
use nb_imagecmd::{Asking, ImageOutcome};
use nb_settings::{Key, Kind, Table};
use nb_terms::Cause;
use nb_uri::UriTarget;
use nb_wire::{Ip4, Word};
use std::alloc::Global;
use std::process::Abort;
use std::test::Fail;

/// A line, and what it comes to on what those before it left: a word for it, and its own words or numbers. A line feed
/// that is printed is `$`, and a failure has its cause's number.
const ROWS: &str = "\
echo|text $\n\
echo a  b --c -n|text a  b --c -n$\n\
echo -n a -n|text a -n\n\
echo -n --x|usage\n\
exit 0xff|leave 255\n\
exit 256|usage\n\
isset |fails 21\n\
isset a|done\n\
iseq a --a|fails 21\n\
iseq  |done\n\
sleep 4000000|sleep 4000000\n\
sleep 4000001|usage\n\
|unknown\n\
Echo a|unknown\n\
ifopen|done\n\
ifclose net0|down\n\
ifclose net1|fails 17\n\
dhcp|lease\n\
ping 10.0.0.1|ping 10.0.0.1\n\
nslookup net0/a:hex --b|lookup net0/a:hex --b\n\
nslookup net9/a b|fails 17\n\
imgfetch k|fails 15\n\
imgexec http://10.0.0.1/k|asks http://10.0.0.1/k k\n\
imgexec tftp://10.0.0.1/a/k|asks tftp://10.0.0.1/a/k k\n\
set next-server 10.0.0.2|done\n\
imgfetch a/k|asks tftp://10.0.0.2/a/k k\n\
imgfetch|usage\n\
imgstat|prints 0\n\
imgfree|images\n\
imgfree k|fails 12\n\
boot|fails 12\n\
sanhook iscsi:10.0.0.1::::iqn.x:t|hooks 128 true 3260 iqn.x:t\n\
sanhook --drive 200 --no-describe iscsi:h::3261:1:iqn.y|hooks 200 false 3261 iqn.y\n\
sanhook --drive 127 iscsi:10.0.0.1::::iqn.x:t|usage\n\
sanhook http://10.0.0.1/d|fails 16\n\
sanhook|usage\n\
sanunhook|fails 28\n\
sanboot iscsi:10.0.0.1::::iqn.x:t|boots 128 true 3260 iqn.x:t\n\
sanboot --keep --no-describe --drive 200 iscsi:h::::iqn.y|boots 200 false 3260 iqn.y\n\
sanboot --drive 200|fails 28\n\
sanboot a b|usage\n\
set a one two|done\n\
show a|text a = one two$\n\
set a |done\n\
show a:hex|text a:hex = $\n\
show net0/mac|text net0/mac = 52:54:00:00:00:01$\n\
show mac|text mac = 52:54:00:00:00:01$\n\
show net9/mac|text net9/mac = $\n\
clear net9/a|fails 17\n\
clear a|done\n\
set y:int8 200|fails 18\n\
set y:int8 -1|done\n\
show y|text y = -1$\n\
show y:uint8|text y:uint8 = 0xff$\n\
set n:int8 127|done\n\
inc n|fails 18\n\
inc n -255|done\n\
show n|text n = -128$\n\
inc new -2147483648|done\n\
show new:hex|text new:hex = 80:00:00:00$\n\
set gateway 10.0.0.1|done\n\
show 3:hex|text 3:hex = 0a:00:00:01$\n\
set idx:int32 0|done\n\
echo ${net${idx}/mac}|text 52:54:00:00:00:01$\n\
inc idx|done\n\
isset ${net${idx}/mac}|fails 21\n\
goto at_${idx}|goto at_1\n\
set x:uint16 255|done\n\
echo ${x} ${x:int16} ${x:hex}|text 0xff 255 00:ff$\n\
set dollar $|done\n\
set again ${dollar}{x}|done\n\
isset ${again}|done\n";

/// A URI, and the host, the port, the path, the image's name and the whole of its file, in the first script, with the
/// server 10.0.0.1.
const FILES: &str = "\
vmlinuz|10.0.0.1 69 vmlinuz vmlinuz tftp://10.0.0.1/vmlinuz\n\
/x/k?a#b|10.0.0.1 69 x/k k tftp://10.0.0.1/x/k?a\n\
a%2fb|10.0.0.1 69 a/b a/b tftp://10.0.0.1/a%2fb\n\
/d/|10.0.0.1 69 d/ 10.0.0.1 tftp://10.0.0.1/d/\n\
//h:6969/f|h 6969 f f tftp://h:6969/f\n\
tftp://a..b|a..b 69  a..b tftp://a..b\n\
a%00|fails 15\n\
tftp:///f|fails 15\n\
iscsi:10.0.0.1::::iqn.x:t|fails 16\n";

/// The same in a script that was fetched from `tftp://10.0.0.2/d/boot.ipxe`.
const CHAINED: &str = "\
vmlinuz|10.0.0.2 69 d/vmlinuz vmlinuz tftp://10.0.0.2/d/vmlinuz\n\
/k|10.0.0.2 69 k k tftp://10.0.0.2/k\n\
../k|10.0.0.2 69 k k tftp://10.0.0.2/k\n\
tftp://10.0.0.3/k|10.0.0.3 69 k k tftp://10.0.0.3/k\n\
";

/// The words with a space between each two, and a dollar for a line feed.
fn joined(alloc: Global, words: &[&[u8]]) -> Result<Vec<u8>, Fail> {
    let mut text = Vec::new(alloc);
    for (place, word) in words.iter().enumerate() {
        if place > 0 {
            text.push(b' ')?;
        }
        for byte in *word {
            text.push(if *byte == b'\n' { b'$' } else { *byte })?;
        }
    }
    Ok(text)
}

fn failure(alloc: Global, cause: Cause) -> Result<Vec<u8>, Fail> {
    let code = cause.code;
    Ok(format!(in alloc; "fails {code}")?.into_bytes())
}

/// What a command comes to, as the rows have it.
fn shown(alloc: Global, answer: &Result<Outcome, Cause>) -> Result<Vec<u8>, Fail> {
    match answer {
        Ok(Outcome::Done) => joined(alloc, &[b"done"]),
        Ok(Outcome::Text(text)) => joined(alloc, &[b"text", text.as_slice()]),
        Ok(Outcome::Goto(label)) => joined(alloc, &[b"goto", label.as_slice()]),
        Ok(Outcome::Leave(number)) => Ok(format!(in alloc; "leave {number}")?.into_bytes()),
        Ok(Outcome::Down) => joined(alloc, &[b"down"]),
        Ok(Outcome::Wait(job)) => shown_job(alloc, job),
        Ok(Outcome::Images(outcome)) => shown_images(alloc, outcome),
        Ok(Outcome::Drives(outcome)) => shown_drives(alloc, outcome),
        Err(cause) => failure(alloc, *cause),
    }
}

fn shown_job(alloc: Global, job: &Job) -> Result<Vec<u8>, Fail> {
    match job {
        Job::Lease => joined(alloc, &[b"lease"]),
        Job::Ping { host } => joined(alloc, &[b"ping", host.as_slice()]),
        Job::Lookup { name, host } => joined(alloc, &[b"lookup", name.as_slice(), host.as_slice()]),
        Job::Sleep(seconds) => Ok(format!(in alloc; "sleep {seconds}")?.into_bytes()),
    }
}

fn shown_images(alloc: Global, outcome: &ImageOutcome) -> Result<Vec<u8>, Fail> {
    match outcome {
        ImageOutcome::Done => joined(alloc, &[b"images"]),
        ImageOutcome::Print(lines) => {
            let count = lines.as_slice().len();
            Ok(format!(in alloc; "prints {count}")?.into_bytes())
        }
        ImageOutcome::Ask(asking) => {
            let words = [
                b"asks".as_slice(),
                asking.target.whole(),
                asking.name.as_slice(),
            ];
            joined(alloc, &words)
        }
        ImageOutcome::Run { .. } | ImageOutcome::Boot => Err(Fail::new("no image is there")),
    }
}

/// No drive is hooked, so none is let go.
fn shown_drives(alloc: Global, outcome: &DriveOutcome) -> Result<Vec<u8>, Fail> {
    match outcome {
        DriveOutcome::Hook(hooking) => {
            let number = hooking.number;
            let described = hooking.described;
            let port = hooking.disk.port;
            let does = match hooking.after {
                AfterHook::Keep => "hooks",
                AfterHook::Boot { .. } => "boots",
            };
            let text = format!(in alloc; "{does} {number} {described} {port}")?;
            joined(alloc, &[text.as_bytes(), hooking.disk.name.as_slice()])
        }
        DriveOutcome::Boot { .. } | DriveOutcome::Unhook(_) => Err(Fail::new("no drive is there")),
    }
}

/// What a line comes to. Its words have one space between each two, and each is expanded.
fn outcome(alloc: Global, state: &mut State, line: &str) -> Result<Vec<u8>, Fail> {
    let mut words: Vec<Word> = Vec::new(alloc);
    for word in line.split(' ') {
        words.push(expand(alloc, word.as_bytes(), &state.table)?)?;
    }
    match plan(alloc, words.as_slice()) {
        Ok(plan) => shown(alloc, &apply(alloc, &plan, None, state)),
        Err(PlanError::Unknown) => joined(alloc, &[b"unknown"]),
        Err(PlanError::Usage) => joined(alloc, &[b"usage"]),
        Err(PlanError::NoMemory) => Err(Fail::new("out of memory")),
    }
}

/// The `mac` of `net0`.
fn put_mac(alloc: Global, table: &mut Table) -> Result<(), Fail> {
    table.register(alloc, b"net0", 0)?;
    let mac = b"\x52\x54\x00\x00\x00\x01";
    table.put(alloc, b"net0", &Key::Free(b"mac"), Kind::Hex, mac)?;
    Ok(())
}

fn blank(alloc: Global, up: bool) -> State {
    State {
        table: Table::new(alloc),
        images: Images::new(alloc),
        drives: Drives::new(),
        up,
    }
}

/// Each line comes to what its row has, on what those before it left.
fn agree(rt: &impl Abort, alloc: Global, state: &mut State, rows: &str) -> Result<(), Fail> {
    for row in rows.lines() {
        let (line, expected) = row.split_once('|').ok_or("no outcome")?;
        let found = outcome(alloc, state, line)?;
        assert_eq!(rt; found.as_slice(), expected.as_bytes(), "{row}");
    }
    Ok(())
}

#[test]
fn line_by_line(rt: HostRuntime) -> Result<(), Fail> {
    let mut state = blank(rt.alloc(), false);
    put_mac(rt.alloc(), &mut state.table)?;
    agree(&rt, rt.alloc(), &mut state, ROWS)
}

fn shown_file(alloc: Global, asking: &Asking) -> Result<Vec<u8>, Fail> {
    let UriTarget::Tftp {
        host,
        port,
        path,
        whole,
    } = &asking.target
    else {
        return Err(Fail::new("no file of a TFTP server"));
    };
    let port = format!(in alloc; "{port}")?;
    let words = [
        host.as_slice(),
        port.as_bytes(),
        path.as_slice(),
        asking.name.as_slice(),
        whole.as_slice(),
    ];
    joined(alloc, &words)
}

/// The file that `imgfetch` asks for by a URI, in a script of this base.
fn file(alloc: Global, state: &mut State, own: Option<&[u8]>, uri: &str) -> Result<Vec<u8>, Fail> {
    let mut words: Vec<Word> = Vec::new(alloc);
    for word in ["imgfetch", uri] {
        words.push(expand(alloc, word.as_bytes(), &state.table)?)?;
    }
    let Ok(plan) = plan(alloc, words.as_slice()) else {
        return Err(Fail::new("no command"));
    };
    match apply(alloc, &plan, own, state) {
        Ok(Outcome::Images(ImageOutcome::Ask(asking))) => shown_file(alloc, &asking),
        Ok(_) => Err(Fail::new("no file")),
        Err(cause) => failure(alloc, cause),
    }
}

/// Each URI names what its row has, in a script of this base.
fn agree_on_files(
    rt: &impl Abort,
    alloc: Global,
    state: &mut State,
    own: Option<&[u8]>,
    rows: &str,
) -> Result<(), Fail> {
    for row in rows.lines() {
        let (uri, expected) = row.split_once('|').ok_or("no file")?;
        let found = file(alloc, state, own, uri)?;
        assert_eq!(rt; found.as_slice(), expected.as_bytes(), "{row}");
    }
    Ok(())
}

#[test]
fn files_by_the_base(rt: HostRuntime) -> Result<(), Fail> {
    let alloc = rt.alloc();
    let mut state = blank(alloc, true);
    assert_eq!(rt; refuses_address(b"next-server", &state.table), None);
    assert_eq!(rt;
        put_address(alloc, b"next-server", Ip4(0x0a00_0001), &mut state.table),
        Ok(())
    );
    agree_on_files(&rt, alloc, &mut state, None, FILES)?;
    let base = b"tftp://10.0.0.2/d/boot.ipxe".as_slice();
    agree_on_files(&rt, alloc, &mut state, Some(base), CHAINED)
}
