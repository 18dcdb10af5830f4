//! Image commands one after another on one list of images, in a script that was fetched from
//! `tftp://10.0.0.1/x/boot.ipxe`.

use nb_image::{Body, Images};
use nb_imagecmd::{
    After, Arrival, Asking, ImageCommand, ImageFailure, ImageOutcome, PlanError, ScriptImage,
    arrive, carry_out, read_command, take_script,
};
use nb_terms::Cause;
use nb_wire::{Text, Word};
use std::alloc::Global;
use std::process::Abort;
use std::test::Fail;

/// A command, what it comes to, and the list that it leaves: each image with its arguments, and a star where it
/// is selected. Each file is fetched, and has the bytes of `file_of`. A line feed that is printed is `$`, and a
/// failure has its cause's numbers.
const ROWS: &str = "\
imgstat|prints |\n\
boot|fails 12 0|\n\
imgfree nosuch|fails 12 0|\n\
imgfree|done|\n\
kernel vmlinuz console=ttyS0 ip=dhcp|asks tftp://10.0.0.1/x/vmlinuz as vmlinuz kept|vmlinuz*(console=ttyS0 ip=dhcp)\n\
initrd initrd.img|asks tftp://10.0.0.1/x/initrd.img as initrd.img kept|vmlinuz*(console=ttyS0 ip=dhcp) initrd.img()\n\
imgstat|prints vmlinuz : 4 bytes [SELECTED]$initrd.img : 1 bytes$|vmlinuz*(console=ttyS0 ip=dhcp) initrd.img()\n\
boot|boots|vmlinuz*(console=ttyS0 ip=dhcp) initrd.img()\n\
imgargs initrd.img a b|done|vmlinuz*(console=ttyS0 ip=dhcp) initrd.img(a b)\n\
imgargs nosuch a|fails 12 0|vmlinuz*(console=ttyS0 ip=dhcp) initrd.img(a b)\n\
imgload --name c initrd.img|done|vmlinuz(console=ttyS0 ip=dhcp) initrd.img*()\n\
boot|fails 27 0|vmlinuz(console=ttyS0 ip=dhcp) initrd.img*()\n\
imgexec initrd.img b|fails 27 0|vmlinuz(console=ttyS0 ip=dhcp) initrd.img*()\n\
imgexec --autofree --name c --replace vmlinuz|boots|vmlinuz*() initrd.img()\n\
imgargs vmlinuz quiet|done|vmlinuz*(quiet) initrd.img()\n\
imgexec --autofree|boots|vmlinuz*(quiet) initrd.img()\n\
chain boot.ipxe a|asks tftp://10.0.0.1/x/boot.ipxe as boot.ipxe runs tftp://10.0.0.1/x/boot.ipxe|vmlinuz(quiet) initrd.img()\n\
chain modules|asks tftp://10.0.0.1/x/modules as modules fails 27 0|vmlinuz(quiet) initrd.img()\n\
module --name m http://10.0.0.2/a/b?c|asks http://10.0.0.2/a/b?c as m kept|vmlinuz(quiet) initrd.img() m()\n\
imgselect http://10.0.0.2|asks http://10.0.0.2/ as 10.0.0.2 kept|vmlinuz(quiet) initrd.img() m() 10.0.0.2*()\n\
imgfetch --name m /y.ipxe b|asks tftp://10.0.0.1/y.ipxe as m kept|vmlinuz(quiet) initrd.img() m(b) 10.0.0.2*()\n\
chain --replace m|runs tftp://10.0.0.1/y.ipxe instead|vmlinuz(quiet) initrd.img() 10.0.0.2()\n\
imgexec|fails 12 0|vmlinuz(quiet) initrd.img() 10.0.0.2()\n\
kernel --name --k vmlinux|asks tftp://10.0.0.1/x/vmlinux as --k kept|vmlinuz(quiet) initrd.img() 10.0.0.2() --k*()\n\
imgfetch iscsi:10.0.0.1::::iqn.x:t|fails 16 0|vmlinuz(quiet) initrd.img() 10.0.0.2() --k*()\n\
imgfetch ftp://a/b|fails 16 0|vmlinuz(quiet) initrd.img() 10.0.0.2() --k*()\n\
imgfetch tftp:///b|fails 15 0|vmlinuz(quiet) initrd.img() 10.0.0.2() --k*()\n\
imgfree vmlinuz nosuch|fails 12 0|vmlinuz(quiet) initrd.img() 10.0.0.2() --k*()\n\
imgfree vmlinuz 10.0.0.2 vmlinuz|done|initrd.img() --k*()\n\
imgfree a --k|fails 12 0|initrd.img() --k*()\n\
imgfree initrd.img --k|done|\n";

/// The same where eight scripts are within one another.
const EIGHTH: &str = "\
chain a.ipxe|asks tftp://10.0.0.1/x/a.ipxe as a.ipxe fails 7 4|\n\
chain --replace a.ipxe|asks tftp://10.0.0.1/x/a.ipxe as a.ipxe runs tftp://10.0.0.1/x/a.ipxe instead|\n\
kernel a.ipxe b|asks tftp://10.0.0.1/x/a.ipxe as a.ipxe kept|a.ipxe*(b)\n\
boot|fails 7 4|a.ipxe*(b)\n\
boot --replace|runs tftp://10.0.0.1/x/a.ipxe instead|\n";

/// Words that are no image command: whether there is none of that name, or they don't fit it.
const REFUSED: &str = "\
|unknown\n\
Boot|unknown\n\
imgfetch|usage\n\
imgfetch --name|usage\n\
imgfetch --name a|usage\n\
imgfetch --name a --name b u|usage\n\
imgfetch --name=a u|usage\n\
imgfetch --replace u|usage\n\
imgfetch --timeout 5 u|usage\n\
kernel --autofree u|usage\n\
imgexec --autofree --autofree u|usage\n\
imgexec --replace --replace|usage\n\
boot --|usage\n\
imgargs|usage\n\
imgargs --a b|usage\n\
imgfree --a|usage\n\
imgstat a|usage\n";

/// The bytes of the file of an image: a script, an ELF file, or what can't be booted.
fn file_of(name: &[u8]) -> &'static [u8] {
    if name.ends_with(b"ipxe".as_slice()) || name == b"m".as_slice() {
        return b"#!ipxe\n";
    }
    if name.starts_with(b"vm".as_slice()) || name == b"--k".as_slice() {
        return b"\x7fELF";
    }
    b"x"
}

fn body(alloc: Global, bytes: &[u8]) -> Result<Body, Fail> {
    let mut body = Body::new(alloc);
    body.push(bytes)?;
    Ok(body)
}

fn words(alloc: Global, line: &str) -> Result<Vec<Word>, Fail> {
    let mut words = Vec::new(alloc);
    for word in line.split(' ') {
        let bytes = Vec::from_slice(alloc, word.as_bytes())?;
        if bytes.len() <= 4096 {
            words.push(Word::from_vec(bytes))?;
        }
    }
    Ok(words)
}

fn put(text: &mut Vec<u8>, parts: &[&[u8]]) -> Result<(), Fail> {
    for part in parts {
        for byte in *part {
            text.push(if *byte == b'\n' { b'$' } else { *byte })?;
        }
    }
    Ok(())
}

fn put_cause(alloc: Global, text: &mut Vec<u8>, cause: Cause) -> Result<(), Fail> {
    let shown = format!(in alloc; "fails {} {}", cause.code, cause.a)?;
    put(text, &[shown.as_bytes()])
}

fn put_script(text: &mut Vec<u8>, script: &ScriptImage, replace: bool) -> Result<(), Fail> {
    let place: &[u8] = if replace { b" instead" } else { b"" };
    put(text, &[b"runs ", script.uri.as_slice(), place])?;
    if script.text.as_slice() == b"#!ipxe\n".as_slice() {
        Ok(())
    } else {
        Err(Fail::new("another text"))
    }
}

fn put_arrival(
    alloc: Global,
    text: &mut Vec<u8>,
    arrival: Result<Arrival, ImageFailure>,
) -> Result<(), Fail> {
    match arrival {
        Ok(Arrival::Kept) => put(text, &[b"kept"]),
        Ok(Arrival::Boot) => put(text, &[b"boots"]),
        Ok(Arrival::Run { script, replace }) => put_script(text, &script, replace),
        Err(why) => put_cause(alloc, text, why.cause()),
    }
}

fn put_asked(
    alloc: Global,
    text: &mut Vec<u8>,
    images: &mut Images,
    asking: &Asking,
    depth: usize,
) -> Result<(), Fail> {
    let name = asking.name.as_slice();
    put(
        text,
        &[b"asks ", asking.target.whole(), b" as ", name, b" "],
    )?;
    let file = body(alloc, file_of(name))?;
    let arrival = arrive(alloc, images, asking, file, asking.target.whole(), depth);
    put_arrival(alloc, text, arrival)
}

fn put_taken(
    alloc: Global,
    text: &mut Vec<u8>,
    images: &mut Images,
    image: usize,
    replace: bool,
    depth: usize,
) -> Result<(), Fail> {
    if image >= images.len() {
        return Err(Fail::new("no such image"));
    }
    match take_script(alloc, images, image, replace, depth) {
        Ok(script) => put_script(text, &script, replace),
        Err(why) => put_cause(alloc, text, why.cause()),
    }
}

fn put_outcome(
    alloc: Global,
    text: &mut Vec<u8>,
    images: &mut Images,
    command: &ImageCommand,
    depth: usize,
) -> Result<(), Fail> {
    let base = b"tftp://10.0.0.1/x/boot.ipxe";
    match carry_out(alloc, command, Some(base.as_slice()), images) {
        Ok(ImageOutcome::Done) => put(text, &[b"done"]),
        Ok(ImageOutcome::Boot) => put(text, &[b"boots"]),
        Ok(ImageOutcome::Print(lines)) => put_lines(text, lines.as_slice()),
        Ok(ImageOutcome::Ask(asking)) => put_asked(alloc, text, images, &asking, depth),
        Ok(ImageOutcome::Run { image, replace }) => {
            put_taken(alloc, text, images, image, replace, depth)
        }
        Err(why) => put_cause(alloc, text, why.cause()),
    }
}

fn put_lines(text: &mut Vec<u8>, lines: &[Text]) -> Result<(), Fail> {
    put(text, &[b"prints "])?;
    for line in lines {
        put(text, &[line.as_slice()])?;
    }
    Ok(())
}

fn put_images(text: &mut Vec<u8>, images: &Images) -> Result<(), Fail> {
    for i in 0..images.len() {
        let star: &[u8] = if images.selected() == Some(i) {
            b"*"
        } else {
            b""
        };
        let space: &[u8] = if i > 0 { b" " } else { b"" };
        put(
            text,
            &[space, images.name(i), star, b"(", images.args(i), b")"],
        )?;
    }
    Ok(())
}

/// What a line comes to, and the list that it leaves.
fn row(alloc: Global, images: &mut Images, line: &str, depth: usize) -> Result<Vec<u8>, Fail> {
    let mut text = Vec::new(alloc);
    match read_command(alloc, words(alloc, line)?.as_slice()) {
        Ok(command) => put_outcome(alloc, &mut text, images, &command, depth)?,
        Err(PlanError::Unknown) => put(&mut text, &[b"unknown"])?,
        Err(PlanError::Usage) => put(&mut text, &[b"usage"])?,
        Err(PlanError::NoMemory) => return Err(Fail::new("out of memory")),
    }
    put(&mut text, &[b"|"])?;
    put_images(&mut text, images)?;
    Ok(text)
}

/// Each command comes to what its row has, and leaves those images.
fn agree(
    rt: &impl Abort,
    alloc: Global,
    images: &mut Images,
    rows: &str,
    depth: usize,
) -> Result<(), Fail> {
    for expected in rows.lines() {
        let (line, outcome) = expected.split_once('|').ok_or("no outcome")?;
        let found = row(alloc, images, line, depth)?;
        assert_eq!(rt; found.as_slice(), outcome.as_bytes(), "{expected}");
    }
    Ok(())
}

#[test]
fn image_commands(rt: HostRuntime) -> Result<(), Fail> {
    let alloc = rt.alloc();
    agree(&rt, alloc, &mut Images::new(alloc), ROWS, 7)?;
    agree(&rt, alloc, &mut Images::new(alloc), EIGHTH, 8)
}

#[test]
fn words_that_are_refused(rt: HostRuntime) -> Result<(), Fail> {
    let alloc = rt.alloc();
    for expected in REFUSED.lines() {
        let (line, refusal) = expected.split_once('|').ok_or("no refusal")?;
        let found = match read_command(alloc, words(alloc, line)?.as_slice()) {
            Ok(_) => "none",
            Err(PlanError::Unknown) => "unknown",
            Err(PlanError::Usage) => "usage",
            Err(PlanError::NoMemory) => "out of memory",
        };
        assert_eq!(rt; found, refusal, "{expected}");
    }
    assert!(rt; matches!(read_command(alloc, &[]), Err(PlanError::Unknown)));
    Ok(())
}

/// A line: these words, this many letters, and a URI where they are a name.
fn long_line(alloc: Global, start: &str, len: usize) -> Result<String, Fail> {
    let mut line = String::from_str(alloc, start)?;
    for _ in 0..len {
        line.push('a')?;
    }
    if len < 257 && start.ends_with("name ") {
        line.push_str(" tftp://a/b")?;
    }
    Ok(line)
}

/// Whether a line isn't refused for what is too long in it.
fn fits(alloc: Global, line: &str) -> Result<bool, Fail> {
    let found = row(alloc, &mut Images::new(alloc), line, 1)?;
    Ok(found.as_slice() != b"fails 5 7|".as_slice())
}

/// A name of an image has at most 255 bytes, and a path 1,024, as asked for.
#[test]
fn long_names_and_paths(rt: HostRuntime) -> Result<(), Fail> {
    let rows = [
        ("imgfetch --name ", 255, true),
        ("imgfetch --name ", 256, false),
        ("imgfetch tftp://a/", 255, true),
        ("imgfetch tftp://a/", 256, false),
        ("imgfetch --name n tftp://a/", 1024, true),
        ("imgfetch --name n tftp://a/", 1025, false),
        ("imgfetch --name n http://a/", 1025, true),
    ];
    for (start, len, expected) in rows {
        let line = long_line(rt.alloc(), start, len)?;
        assert_eq!(rt; fits(rt.alloc(), line.as_str())?, expected, "{start}{len}");
    }
    Ok(())
}

/// Puts 32 images, and the eighth of them again.
fn fill(alloc: Global, images: &mut Images) -> Result<(), Fail> {
    for number in 0..32u8 {
        images.add(alloc, &[number], Body::new(alloc), b"", b"")?;
    }
    images.add(alloc, b"\x07", body(alloc, b"x")?, b"", b"")?;
    Ok(())
}

/// A script that is asked for by this name arrives.
fn script_arrives(
    alloc: Global,
    images: &mut Images,
    name: &[u8],
) -> Result<Result<Arrival, ImageFailure>, Fail> {
    let asking = Asking {
        target: nb_uri::resolve(alloc, None, b"tftp://a/b")?,
        name: Text::from_vec(Vec::from_slice(alloc, name)?),
        args: Text::from_vec(Vec::new(alloc)),
        after: After::Run { replace: false },
        moves: 0,
    };
    let script = body(alloc, b"#!ipxe\n")?;
    Ok(arrive(alloc, images, &asking, script, b"u", 1))
}

/// A list of 32 images takes no other name, also not for as long as a script needs to leave it.
#[test]
fn no_33rd_image(rt: HostRuntime) -> Result<(), Fail> {
    let alloc = rt.alloc();
    let mut images = Images::new(alloc);
    fill(alloc, &mut images)?;
    let refused = script_arrives(alloc, &mut images, b"b")?;
    assert!(rt; matches!(refused, Err(ImageFailure::ManyImages)));
    let runs = script_arrives(alloc, &mut images, b"\x07")?;
    assert!(rt; matches!(runs, Ok(Arrival::Run { .. })));
    assert_eq!(rt; images.len(), 31);
    Ok(())
}
