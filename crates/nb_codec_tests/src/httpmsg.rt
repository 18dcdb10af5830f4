use nb_httpmsg::{BodyKind, ChunkState, Chunks, Head, MAX_HEAD, read_head};
use nb_terms::NoMemory;
use std::alloc::Global;
use std::test::Fail;

/// How a head of these field lines frames its body, if it is a head.
fn framed(alloc: Global, fields: &[u8]) -> Result<Option<BodyKind>, NoMemory> {
    let mut head = Vec::from_slice(alloc, b"HTTP/1.1 200 OK\r\n")?;
    head.extend_from_slice(fields)?;
    head.extend_from_slice(b"\r\nbody")?;
    Ok(framing_of(head.as_slice()))
}

fn framing_of(bytes: &[u8]) -> Option<BodyKind> {
    if bytes.len() > MAX_HEAD {
        return None;
    }
    match read_head(bytes) {
        Head::Whole(info) => Some(info.body),
        _ => None,
    }
}

/// RFC 9112, section 6.3, by hand, with the framings by which a request is smuggled past a server
/// that reads them otherwise.
#[test]
fn framings(rt: HostRuntime) -> Result<(), Fail> {
    let rows: [(&[u8], Option<BodyKind>); 6] = [
        (b"", Some(BodyKind::ToEnd)),
        (b"content-length:\t5 \r\n", Some(BodyKind::Length(5))),
        (
            b"Content-Length: 5\r\nContent-Length: 6\r\n",
            Some(BodyKind::Bad),
        ),
        (
            b"Content-Length: 5\r\nTransfer-Encoding: chunked\r\n",
            Some(BodyKind::Chunked),
        ),
        (b"Content-Length : 5\r\n", None),
        (b"A: b\rContent-Length: 5\r\n", None),
    ];
    for (number, (fields, expected)) in rows.iter().enumerate() {
        assert_eq!(rt; framed(rt.alloc(), fields)?, *expected, "row {number}");
    }
    Ok(())
}

/// So many field lines, and the bytes of a long one.
fn lines(alloc: Global, fields: usize, long: usize) -> Result<Vec<u8>, NoMemory> {
    let mut text = Vec::new(alloc);
    for _ in 0..fields {
        text.extend_from_slice(b"A: b\r\n")?;
    }
    text.extend_from_slice(b"A: ")?;
    for _ in 0..long {
        text.push(b'a')?;
    }
    text.extend_from_slice(b"\r\n")?;
    Ok(text)
}

/// 64 fields are a head and 65 are too many; a head of 16,384 bytes is one, and of one more isn't.
#[test]
fn limits_of_a_head(rt: HostRuntime) -> Result<(), Fail> {
    let rows = [
        (63, 1, true),
        (64, 1, false),
        (0, 16_360, true),
        (0, 16_361, false),
    ];
    for (fields, long, expected) in rows {
        let lines = lines(rt.alloc(), fields, long)?;
        let read = whole(rt.alloc(), lines.as_slice())?;
        assert_eq!(rt; read, expected, "{fields} fields, {long} bytes");
    }
    Ok(())
}

/// Whether field lines are a head, among its first 16,384 bytes.
fn whole(alloc: Global, fields: &[u8]) -> Result<bool, NoMemory> {
    let mut head = Vec::from_slice(alloc, b"HTTP/1.1 200 OK\r\n")?;
    head.extend_from_slice(fields)?;
    head.extend_from_slice(b"\r\n")?;
    head.truncate(MAX_HEAD);
    Ok(framing_of(head.as_slice()).is_some())
}

/// What a text is read as in pieces of so many bytes, and the body's bytes.
fn read(alloc: Global, text: &[u8], piece: usize) -> Result<(ChunkState, Vec<u8>), NoMemory> {
    let mut chunks = Chunks::new(alloc)?;
    let mut bytes = Vec::new(alloc);
    let mut state = ChunkState::More;
    for part in text.chunks(piece.max(1)) {
        if part.len() > 1000 || state != ChunkState::More {
            break;
        }
        state = chunks.feed(b"", part).state;
        bytes.extend_from_slice(chunks.block())?;
    }
    Ok((state, bytes))
}

/// RFC 9112, section 7.1, by hand: each text is read whole, and in pieces.
#[test]
fn chunked_bodies(rt: HostRuntime) -> Result<(), Fail> {
    let rows: [(&[u8], ChunkState, &[u8]); 3] = [
        (
            b"3\r\nhel\r\n002;a=\"b\" \r\nlo\r\n0\r\nA: b\r\n\r\n",
            ChunkState::Whole,
            b"hello",
        ),
        (b"5\r\nhello\r\n0\r\n", ChunkState::More, b"hello"),
        (b"5\r\nhelloX", ChunkState::Broken, b"hello"),
    ];
    for (number, (text, state, body)) in rows.iter().enumerate() {
        for piece in [1, 2, 1000] {
            let (last, bytes) = read(rt.alloc(), text, piece)?;
            let found = (last, bytes.as_slice());
            assert_eq!(rt; found, (*state, *body), "row {number}");
        }
    }
    Ok(())
}
