use nb_image::{Body, ImageError, ImageKind, Images, Part, PartBytes, PartKind, PushError};
use std::alloc::Global;
use std::process::Abort;
use std::test::Fail;

/// A body of these bytes.
fn body(alloc: Global, bytes: &[u8]) -> Result<Body, PushError> {
    let mut body = Body::new(alloc);
    body.push(bytes)?;
    Ok(body)
}

/// The kind of a body of these bytes, and that of the image that has it.
fn kinds(alloc: Global, bytes: &[u8]) -> Result<(ImageKind, ImageKind), Fail> {
    let body = body(alloc, bytes)?;
    let kind = body.kind();
    let mut images = Images::new(alloc);
    let i = images.add(alloc, b"image", body, b"", b"tftp://10.0.0.1/image")?;
    Ok((kind, images.kind(i)))
}

/// The first bytes of files of each kind: of a script, of a Linux kernel (its setup header as the boot
/// protocol of Linux for x86 has it), of an ELF file and of an EFI program.
#[test]
fn kinds_by_content(rt: HostRuntime) -> Result<(), Fail> {
    let mut kernel = [0; 520];
    kernel[..2].copy_from_slice(b"MZ");
    kernel[514..518].copy_from_slice(b"HdrS");
    let rows: [(&[u8], ImageKind); 10] = [
        (b"#!ipxe\necho hello\n", ImageKind::Script),
        (b"#!ipxe \t\r\n", ImageKind::Script),
        (b"#!ipxe", ImageKind::Script),
        (b"#!ipxe2\n", ImageKind::Other),
        (&kernel, ImageKind::BzImage),
        (&kernel[..517], ImageKind::Efi),
        (b"\x7fELF\x02\x01\x01", ImageKind::Elf),
        (b"MZ\x90\x00", ImageKind::Efi),
        (b"\x1f\x8b\x08", ImageKind::Other),
        (b"", ImageKind::Other),
    ];
    for (number, (bytes, kind)) in rows.iter().enumerate() {
        assert_eq!(rt; kinds(rt.alloc(), bytes)?, (*kind, *kind), "row {number}");
    }
    Ok(())
}

/// 17 times 4,096 bytes, and three.
fn long_body(alloc: Global) -> Result<Body, PushError> {
    let mut body = Body::new(alloc);
    for _ in 0..17 {
        body.push(&[7; 4096])?;
    }
    body.push(b"end")?;
    Ok(body)
}

/// How long a page of a body is.
fn page_len(body: &Body, page: usize) -> Option<usize> {
    body.page(page).map(|page| page.len())
}

#[test]
fn body_in_pages(rt: HostRuntime) -> Result<(), Fail> {
    let body = long_body(rt.alloc())?;
    assert_eq!(rt; body.len(), 69_635);
    for (page, len) in [(0, Some(65_536)), (1, Some(4099)), (2, None)] {
        assert_eq!(rt; page_len(&body, page), len, "page {page}");
    }
    assert_eq!(rt; body.text(rt.alloc())?.len(), 69_635);
    Ok(())
}

/// Bytes of more than two pages at once, after some of a page.
fn body_of_pieces(alloc: Global) -> Result<Body, Fail> {
    let long = vec![in alloc; 9; 140_000]?;
    let mut body = Body::new(alloc);
    for bytes in [b"some", long.as_slice(), b"!"] {
        body.push(bytes)?;
    }
    Ok(body)
}

/// Bytes of that body by their places.
const PLACES: [(usize, Option<u8>); 8] = [
    (0, Some(b's')),
    (3, Some(b'e')),
    (4, Some(9)),
    (65_535, Some(9)),
    (65_536, Some(9)),
    (140_003, Some(9)),
    (140_004, Some(b'!')),
    (140_005, None),
];

#[test]
fn bytes_over_pages(rt: HostRuntime) -> Result<(), Fail> {
    let body = body_of_pieces(rt.alloc())?;
    for (at, byte) in PLACES.iter() {
        assert_eq!(rt; body.byte(*at), *byte, "byte {at}");
    }
    assert_eq!(rt; page_len(&body, 2), Some(8_933));
    Ok(())
}

/// The kind of a body whose first line begins with the words of a script, these blanks and this end.
fn kind_of_line(alloc: Global, blanks: &[u8], end: &[u8]) -> Result<ImageKind, PushError> {
    let mut line = Body::new(alloc);
    for bytes in [b"#!ipxe", blanks, end] {
        line.push(bytes)?;
    }
    Ok(line.kind())
}

/// A first line that is longer than a page, and what may follow its blanks.
#[test]
fn long_first_lines(rt: HostRuntime) -> Result<(), Fail> {
    let blanks = vec![in rt.alloc(); b' '; 65_536]?;
    let rows: [(&[u8], ImageKind); 6] = [
        (b"", ImageKind::Script),
        (b"\r", ImageKind::Script),
        (b"\r\necho", ImageKind::Script),
        (b"\t\necho", ImageKind::Script),
        (b"\r\r\n", ImageKind::Other),
        (b"x\n", ImageKind::Other),
    ];
    for (number, (end, kind)) in rows.iter().enumerate() {
        let found = kind_of_line(rt.alloc(), blanks.as_slice(), end)?;
        assert_eq!(rt; found, *kind, "row {number}");
    }
    Ok(())
}

/// The names of the images in order.
fn has_names(images: &Images, names: &[&[u8]]) -> bool {
    for i in 0..images.len() {
        if names.get(i).copied() != Some(images.name(i)) {
            return false;
        }
    }
    images.len() == names.len()
}

fn three(alloc: Global) -> Result<Images, Fail> {
    let mut images = Images::new(alloc);
    let rows: [(&[u8], &[u8], &[u8]); 3] = [
        (b"initrd.img", b"first", b""),
        (b"vmlinuz", b"kernel", b"console=ttyS0"),
        (b"modules.cpio", b"", b""),
    ];
    for (name, bytes, args) in &rows {
        images.add(
            alloc,
            name,
            body(alloc, bytes)?,
            args,
            b"tftp://10.0.0.1/boot",
        )?;
    }
    Ok(images)
}

/// An image of the same name takes its place, and the selection stays with its image.
fn newer_takes_its_place(rt: &impl Abort, alloc: Global, images: &mut Images) -> Result<(), Fail> {
    let place = images.add(
        alloc,
        b"vmlinuz",
        body(alloc, b"newer")?,
        b"quiet",
        b"tftp://10.0.0.2/k",
    )?;
    assert_eq!(rt; place, 1);
    assert!(rt; has_names(images, &[b"initrd.img", b"vmlinuz", b"modules.cpio"]));
    assert_eq!(rt; images.find(b"nosuch"), None);
    if let Some(i) = images.find(b"modules.cpio") {
        images.select(i);
    }
    if let Some(i) = images.find(b"vmlinuz") {
        assert_eq!(rt; images.uri(i), b"tftp://10.0.0.2/k".as_slice());
        images.set_args(alloc, i, b"root=/dev/sda1")?;
        assert_eq!(rt; images.args(i), b"root=/dev/sda1".as_slice());
        assert_eq!(rt; images.take_out(i).page(0), Some(b"newer".as_slice()));
    }
    Ok(())
}

/// The selection ends with its image.
fn selection_ends(rt: &impl Abort, images: &mut Images) {
    assert!(rt; has_names(images, &[b"initrd.img", b"modules.cpio"]));
    assert_eq!(rt; images.selected(), Some(1));
    if let Some(i) = images.find(b"modules.cpio") {
        images.free(i);
    }
    assert_eq!(rt; images.selected(), None);
    assert!(rt; images.handoff().is_none());
}

#[test]
fn list_and_selection(rt: HostRuntime) -> Result<(), Fail> {
    let mut images = three(rt.alloc())?;
    newer_takes_its_place(&rt, rt.alloc(), &mut images)?;
    selection_ends(&rt, &mut images);
    Ok(())
}

#[test]
fn at_most_32_images(rt: HostRuntime) -> Result<(), Fail> {
    let alloc = rt.alloc();
    let mut images = Images::new(alloc);
    for number in 0..33u8 {
        let refused = images.refuses(&[number], &Body::new(alloc));
        let added = images.add(alloc, &[number], Body::new(alloc), b"", b"");
        let expected = if number < 32 {
            Ok(number as usize)
        } else {
            Err(ImageError::TooMany)
        };
        assert_eq!(rt; refused, expected.err());
        assert_eq!(rt; added, expected);
    }
    assert_eq!(rt;
        images.add(alloc, &[31], Body::new(alloc), b"", b""),
        Ok(31)
    );
    Ok(())
}

/// The bytes of a part that has one piece.
fn bytes_of<'a>(part: &Part<'a>) -> &'a [u8] {
    match part.piece(0) {
        Some(piece) => piece.bytes,
        None => &[],
    }
}

/// The parts of a hand-off of `vmlinuz`, each with its number, its index and its bytes.
#[test]
fn parts_in_order(rt: HostRuntime) -> Result<(), Fail> {
    let rows: [(u8, u16, &[u8]); 7] = [
        (5, 0, b"vmlinuz"),
        (0, 0, b"kernel"),
        (2, 0, b"console=ttyS0"),
        (6, 0, b"initrd.img"),
        (1, 0, b"first"),
        (6, 1, b"modules.cpio"),
        (1, 1, b""),
    ];
    let mut images = three(rt.alloc())?;
    if let Some(i) = images.find(b"vmlinuz") {
        images.select(i);
    }
    match images.handoff() {
        Some(handoff) => {
            assert_eq!(rt; handoff.part_count(), rows.len());
            for (k, row) in rows.iter().enumerate() {
                let part = handoff
                    .part(k)
                    .map(|part| (part.kind.number(), part.index, bytes_of(&part)));
                assert_eq!(rt; part, Some(*row), "part {k}");
            }
            assert!(rt; handoff.part(7).is_none());
        }
        None => panic!(rt; "an image is selected"),
    }
    Ok(())
}

/// A part of so many bytes has this piece, or none of that number.
fn has_piece(
    rt: &impl Abort,
    bytes: PartBytes<'_>,
    len: usize,
    p: usize,
    expected: Option<(usize, usize)>,
) {
    let part = Part {
        kind: PartKind::Kernel,
        index: 0,
        bytes,
    };
    let count = if len < 65_537 { 1 } else { 2 };
    let piece = part.piece(p).map(|piece| (piece.offset, piece.bytes.len()));
    assert_eq!(rt;
        (part.piece_count(), piece),
        (count, expected),
        "piece {p} of {len} bytes"
    );
}

/// The numbers by which records name the kinds of parts.
#[test]
fn numbers_of_parts(rt: HostRuntime) -> Result<(), Fail> {
    let rows = [
        (PartKind::Kernel, 0),
        (PartKind::Initrd, 1),
        (PartKind::CommandLine, 2),
        (PartKind::Table, 3),
        (PartKind::Sector, 4),
        (PartKind::KernelName, 5),
        (PartKind::InitrdName, 6),
    ];
    for (kind, number) in rows.iter() {
        assert_eq!(&rt; kind.number(), *number, "a kind of part");
    }
    Ok(())
}

/// Where the pieces of a part begin, and how many bytes they have, of a text and of a body alike.
#[test]
fn pieces_of_a_part(rt: HostRuntime) -> Result<(), Fail> {
    let bytes = [1; 65_537];
    let rows: [(usize, usize, Option<(usize, usize)>); 7] = [
        (0, 0, Some((0, 0))),
        (0, 1, None),
        (65_536, 0, Some((0, 65_536))),
        (65_536, 1, None),
        (65_537, 0, Some((0, 65_536))),
        (65_537, 1, Some((65_536, 1))),
        (65_537, 2, None),
    ];
    for (len, p, expected) in rows {
        let text = &bytes[..len.min(65_537)];
        has_piece(&rt, PartBytes::Text(text), len, p, expected);
        let body = body(rt.alloc(), text)?;
        has_piece(&rt, PartBytes::Pages(&body), len, p, expected);
    }
    Ok(())
}
