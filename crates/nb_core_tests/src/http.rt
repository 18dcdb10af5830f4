use nb_http::Http;
use nb_httpmsg::HttpTarget;
use nb_terms::{Acts, NoMemory};
use nb_wire::Text;
use std::alloc::Global;
use std::process::Abort;
use std::test::Fail;

/// Streams, each with the code and the numbers of the cause with which it ends, where it moves to, and its body. It comes
/// with record 7, and its end with record 8. Each verdict is that of RFC 9112, of RFC 9110, sections 8.6, 10.2.2 and 15,
/// and of this client's own rules, by hand; with the framings by which a request or a body is smuggled past a reader
/// that reads them otherwise (RFC 9112, sections 2.2, 4 to 7 and 11.2).
const STREAMS: &str = "\
HTTP/1.1 200 OK\r\nContent-Length: 5\r\n\r\nhello%0 0 0%%hello@\
HTTP/1.1 200 OK\r\nContent-Length: 0\r\n\r\n%0 0 0%%@\
HTTP/1.0 200 OK\nContent-Encoding: gzip\n\n\x1f!%0 0 0%%\x1f!@\
HTTP/1.1 200 OK\r\nTransfer-Encoding: chunked\r\n\r\n3\r\nhel\r\n2\r\nlo\r\n0\r\n\r\n%0 0 0%%hello@\
HTTP/1.1 200 OK\r\n\r\nhello%0 0 0%%hello@\
HTTP/1.1 200 OK\r\n\r\n%0 0 0%%@\
HTTP/1.1 301 Moved\r\nLocation: /b\r\n\r\n%0 0 0%/b%@\
HTTP/1.1 302 Found\r\nLocation: /b\r\n\r\nmore%0 0 0%/b%@\
HTTP/1.1 303 See\r\nlocation:  /b c\t\r\n\r\n%0 0 0%/b c%@\
HTTP/1.1 307 T\r\nLocation: /b\r\nLocation: /c\r\nContent-Length: x\r\n\r\n%0 0 0%/b%@\
HTTP/1.1 308 P\r\nTransfer-Encoding: x\r\nLocation: /b\r\n\r\n%0 0 0%/b%@\
HTTP/1.1 300 Many\r\nLocation: /b\r\n\r\n%1 7 300%%@\
HTTP/1.1 302 Found\r\nContent-Length: 1\r\n\r\n%1 7 302%%@\
HTTP/1.1 302 F\r\nLocation:\r\nLocation: /b\r\n\r\n%1 7 302%%@\
HTTP/1.1 200 OK\r\nLocation: /b\r\n\r\nhi%0 0 0%%hi@\
HTTP/1.1 100 Continue\r\n\r\nHTTP/1.1 200 OK\r\n\r\nhi%0 0 0%%hi@\
HTTP/1.1 100 C\r\nContent-Length: 5\r\n\r\nHTTP/1.1 199 X\r\n\r\nHTTP/1.1 200 OK\r\n\r\nhi%0 0 0%%hi@\
HTTP/1.1 101 Switching\r\nContent-Length: 5\r\n\r\nhello%3 8 0%%@\
HTTP/1.1 102 P\r\nLocation: /b\r\n\r\n%3 8 0%%@\
HTTP/1.1 204 No Content\r\n\r\n%1 7 204%%@\
HTTP/1.1 206 Partial\r\nContent-Length: 2\r\n\r\nhi%1 7 206%%@\
HTTP/1.1 304 Same\r\nLocation: /b\r\n\r\n%1 7 304%%@\
HTTP/1.1 404 Not Found\r\nLocation: /b\r\n\r\n%1 7 404%%@\
HTTP/1.1 099 X\r\n\r\n%1 7 99%%@\
HTTP/1.1 999 X\r\nTransfer-Encoding: x\r\n\r\n%1 7 999%%@\
HTTP/1.1 20 OK\r\n\r\n%3 7 0%%@\
HTTP/1.1 200 OK\r\nContent-Length: 5\r\n\r\nhel%3 8 0%%hel@\
HTTP/1.1 200 OK\r\nContent-Le%3 8 0%%@\
hello%3 8 0%%@\
HTTP/1.1 200 OK\r\nTransfer-Encoding: chunked\r\n\r\n%3 8 0%%@\
HTTP/1.1 200 OK\r\nTransfer-Encoding: chunked\r\n\r\n5\r\nhello\r\n%3 8 0%%hello@\
HTTP/1.1 200 OK\r\nTransfer-Encoding: chunked\r\n\r\n5\r\nhello\r\n0\r\n%3 8 0%%hello@\
HTTP/1.1 200 OK\r\nTransfer-Encoding: chunked\r\n\r\n5\r\nhello\r\n1%3 8 0%%hello@\
HTTP/1.1 200 OK\r\nContent-Length: 5\r\n\r\nhelloGET / HTTP/1.1%0 0 0%%hello@\
HTTP/1.1 200 OK\r\ncontent-length:\t005 \r\n\r\nhello%0 0 0%%hello@\
HTTP/1.1 200 OK\r\nContent-Length: 5\r\nContent-Length: 5\r\n\r\nhello%0 0 0%%hello@\
HTTP/1.1 200 OK\r\nContent-Length: 5\r\nContent-Length: 6\r\n\r\nhello!%3 7 0%%@\
HTTP/1.1 200 OK\r\nContent-Length: 5\r\nContent-Length: x\r\n\r\nhello%3 7 0%%@\
HTTP/1.1 200 OK\r\nContent-Length: 5, 5\r\n\r\nhello%3 7 0%%@\
HTTP/1.1 200 OK\r\nContent-Length: +5\r\n\r\nhello%3 7 0%%@\
HTTP/1.1 200 OK\r\nContent-Length: -5\r\n\r\nhello%3 7 0%%@\
HTTP/1.1 200 OK\r\nContent-Length: 0x5\r\n\r\nhello%3 7 0%%@\
HTTP/1.1 200 OK\r\nContent-Length: 5 5\r\n\r\nhello%3 7 0%%@\
HTTP/1.1 200 OK\r\nContent-Length:\r\n\r\nhello%3 7 0%%@\
HTTP/1.1 200 OK\r\nContent-Length: 268435457\r\n\r\nhello%6 1 0%%@\
HTTP/1.1 200 OK\r\nContent-Length: 268435456\r\n\r\nhello%3 8 0%%hello@\
HTTP/1.1 200 OK\r\nContent-Length: 4294967301\r\n\r\nhello%6 1 0%%@\
HTTP/1.1 200 OK\r\nContent-Length: 18446744073709551616\r\n\r\nhello%6 1 0%%@\
HTTP/1.1 200 OK\r\nContent-Length: 18446744073709551621\r\n\r\nhello%6 1 0%%@\
HTTP/1.1 200 OK\r\nContent-Length: 5\r\nTransfer-Encoding: chunked\r\n\r\n2\r\nhi\r\n0\r\n\r\n%0 0 0%%hi@\
HTTP/1.1 200 OK\r\nTransfer-Encoding: chunked\r\nContent-Length: 5\r\nContent-Length: x\r\n\r\n2\r\nhi\r\n0\r\n\r\n%0 0 0%%hi@\
HTTP/1.1 200 OK\r\ntransfer-encoding:\tCHUNKED \r\n\r\n2\r\nhi\r\n0\r\n\r\n%0 0 0%%hi@\
HTTP/1.1 200 OK\r\nTransfer-Encoding: identity\r\n\r\nhi%3 7 0%%@\
HTTP/1.1 200 OK\r\nTransfer-Encoding: gzip, chunked\r\n\r\n0\r\n\r\n%3 7 0%%@\
HTTP/1.1 200 OK\r\nTransfer-Encoding: chunked, chunked\r\n\r\n0\r\n\r\n%3 7 0%%@\
HTTP/1.1 200 OK\r\nTransfer-Encoding: xchunked\r\n\r\n0\r\n\r\n%3 7 0%%@\
HTTP/1.1 200 OK\r\nTransfer-Encoding:\r\n\r\n0\r\n\r\n%3 7 0%%@\
HTTP/1.1 200 OK\r\nTransfer-Encoding: chunked\r\nTransfer-Encoding: chunked\r\n\r\n0\r\n\r\n%3 7 0%%@\
HTTP/1.1 200 OK\r\nTransfer-Encoding: chunked\r\nContent-Length: 5\r\nTransfer-Encoding: x\r\n\r\n0\r\n\r\n%3 7 0%%@\
HTTP/1.1 200 OK\r\nTransfer-Encoding: chunked\r\n\r\n2\r\nhi\r\n0\r\n\r\nHTTP/1.1 200 OK%0 0 0%%hi@\
HTTP/1.1 200 OK\r\nTransfer-Encoding: chunked\r\n\r\n02 \t;a=\"b\"\r\nhi\r\n00;c\r\nnot a field\r\n\r\n%0 0 0%%hi@\
HTTP/1.1 200 OK\r\nTransfer-Encoding: chunked\r\n\r\nA\r\n0123456789\r\na\r\n0123456789\r\n0\r\n\n%0 0 0%%01234567890123456789@\
HTTP/1.1 200 OK\r\nTransfer-Encoding: chunked\r\n\r\n+2\r\nhi\r\n0\r\n\r\n%3 7 0%%@\
HTTP/1.1 200 OK\r\nTransfer-Encoding: chunked\r\n\r\n-2\r\nhi\r\n0\r\n\r\n%3 7 0%%@\
HTTP/1.1 200 OK\r\nTransfer-Encoding: chunked\r\n\r\n 2\r\nhi\r\n0\r\n\r\n%3 7 0%%@\
HTTP/1.1 200 OK\r\nTransfer-Encoding: chunked\r\n\r\n2 2\r\nhi\r\n0\r\n\r\n%3 7 0%%@\
HTTP/1.1 200 OK\r\nTransfer-Encoding: chunked\r\n\r\n0x2\r\nhi\r\n0\r\n\r\n%3 7 0%%@\
HTTP/1.1 200 OK\r\nTransfer-Encoding: chunked\r\n\r\n2,\r\nhi\r\n0\r\n\r\n%3 7 0%%@\
HTTP/1.1 200 OK\r\nTransfer-Encoding: chunked\r\n\r\n\r\n2\r\nhi\r\n0\r\n\r\n%3 7 0%%@\
HTTP/1.1 200 OK\r\nTransfer-Encoding: chunked\r\n\r\n;\r\nhi\r\n0\r\n\r\n%3 7 0%%@\
HTTP/1.1 200 OK\r\nTransfer-Encoding: chunked\r\n\r\n2\nhi\r\n0\r\n\r\n%3 7 0%%@\
HTTP/1.1 200 OK\r\nTransfer-Encoding: chunked\r\n\r\n2\rhi\r\n0\r\n\r\n%3 7 0%%@\
HTTP/1.1 200 OK\r\nTransfer-Encoding: chunked\r\n\r\n2;a\nb\r\nhi\r\n0\r\n\r\n%3 7 0%%@\
HTTP/1.1 200 OK\r\nTransfer-Encoding: chunked\r\n\r\n2\r\nhi\n0\r\n\r\n%3 7 0%%hi@\
HTTP/1.1 200 OK\r\nTransfer-Encoding: chunked\r\n\r\n2\r\nhi\r0\r\n\r\n%3 7 0%%hi@\
HTTP/1.1 200 OK\r\nTransfer-Encoding: chunked\r\n\r\n2\r\nhi0\r\n\r\n%3 7 0%%hi@\
HTTP/1.1 200 OK\r\nTransfer-Encoding: chunked\r\n\r\n2\r\nhi!\r\n0\r\n\r\n%3 7 0%%hi@\
HTTP/1.1 200 OK\r\nTransfer-Encoding: chunked\r\n\r\n10000000000000000\r\nhi%3 7 0%%@\
HTTP/1.1 200 OK\r\nTransfer-Encoding: chunked\r\n\r\n10000000000000002\r\nhi\r\n0\r\n\r\n%3 7 0%%@\
HTTP/1.1 200 OK\r\nTransfer-Encoding: chunked\r\n\r\n00000000000000002\r\nhi\r\n0\r\n\r\n%3 7 0%%@\
HTTP/1.1 200 OK\r\nTransfer-Encoding: chunked\r\n\r\nFFFFFFFFFFFFFFFF\r\nhi\r\n0\r\n\r\n%3 8 0%%hi\r\n0\r\n\r\n@\
HTTP/1.1 200 OK\r\nTransfer-Encoding: chunked\r\n\r\n100000002\r\nhi\r\n0\r\n\r\n%3 8 0%%hi\r\n0\r\n\r\n@\
HTTP/1.1 200 OK\r\nTransfer-Encoding: chunked\r\n\r\n\0002\r\nhi\r\n0\r\n\r\n%3 7 0%%@\
HTTP/1.1 200 OK\nA: b\r\nContent-Length: 2\n\nhi!%0 0 0%%hi@\
HTTP/1.1 200\r\nContent-Length: 2\r\n\r\nhi!%0 0 0%%hi@\
HTTP/1.1 200 OK\r\nA: b\rContent-Length: 2\r\n\r\nhi%3 7 0%%@\
HTTP/1.1 200 OK\rContent-Length: 2\r\n\r\nhi%3 7 0%%@\
HTTP/1.1 200 OK\r\nContent-Length: 2\r\r\n\r\nhi%3 7 0%%@\
HTTP/1.1 200 OK\r\nA: b\0\r\n\r\nhi%3 7 0%%@\
HTTP/1.1 200 O\0K\r\n\r\nhi%3 7 0%%@\
HTTP/1.1 200 OK\r\nA\0: b\r\n\r\nhi%3 7 0%%@\
HTTP/1.1 200 OK\r\nA: b\r\n Content-Length: 2\r\n\r\nhi%3 7 0%%@\
HTTP/1.1 200 OK\r\nA: b\r\n\tc\r\n\r\nhi%3 7 0%%@\
HTTP/1.1 200 OK\r\n Content-Length: 2\r\n\r\nhi%3 7 0%%@\
HTTP/1.1 200 OK\r\nContent-Length : 2\r\n\r\nhi%3 7 0%%@\
HTTP/1.1 200 OK\r\n: 2\r\n\r\nhi%3 7 0%%@\
HTTP/1.1 200 OK\r\nContent-Length 2\r\n\r\nhi%3 7 0%%@\
HTTP/1.2 200 OK\r\n\r\nhi%3 7 0%%@\
\r\nHTTP/1.1 200 OK\r\n\r\nhi%3 7 0%%@\
hello\r\n\r\nhi%3 7 0%%@\
ICY 200 OK\r\n\r\nhi%3 7 0%%";

fn target(alloc: Global, port: u16) -> Result<HttpTarget, NoMemory> {
    Ok(HttpTarget {
        host: Text::from_vec(Vec::from_slice(alloc, b"10.0.0.1")?),
        port,
        path: Text::from_vec(Vec::from_slice(alloc, b"/a")?),
    })
}

/// Gives bytes in two slices, adds what is handed on to the body, and returns how many were taken.
fn give(http: &mut Http, bytes: &[u8], acts: &mut Acts, body: &mut Vec<u8>) -> Result<usize, Fail> {
    let half = bytes.len() / 2;
    let first = bytes.get(..half).unwrap_or(b"");
    let second = bytes.get(half..).unwrap_or(b"");
    if first.len() > 20_000 || second.len() > 20_000 {
        return Err(Fail::new("a piece is too long"));
    }
    let took = http.bytes(7, first, second, acts) as usize;
    if let Some((from, to)) = acts.give {
        body.extend_from_slice(bytes.get(from as usize..to as usize).unwrap_or(b""))?;
    }
    body.extend_from_slice(http.block())?;
    Ok(took)
}

/// Reads a stream in pieces of this size, and then its end; shows how it ended as the rows do.
fn ending(alloc: Global, stream: &[u8], piece: usize) -> Result<Vec<u8>, Fail> {
    let mut http = started(alloc)?;
    ending_of(alloc, &mut http, stream, piece)
}

/// A fetch that was asked for.
fn started(alloc: Global) -> Result<Http, Fail> {
    let (http, _text) = Http::start(alloc, &target(alloc, 80)?)?;
    Ok(http)
}

fn ending_of(alloc: Global, http: &mut Http, stream: &[u8], piece: usize) -> Result<Vec<u8>, Fail> {
    let mut acts = Acts::none();
    let mut body = Vec::new(alloc);
    let mut rest = stream;
    for _ in 0..stream.len() {
        let bytes = rest.get(..piece).unwrap_or(rest);
        if bytes.is_empty() || acts.over.is_some() {
            break;
        }
        let took = give(http, bytes, &mut acts, &mut body)?;
        rest = rest.get(took..).unwrap_or(b"");
    }
    if acts.over.is_none() {
        http.finish(8, &mut acts);
    }
    shown(alloc, http, &acts, body.as_slice())
}

fn shown(alloc: Global, http: &Http, acts: &Acts, body: &[u8]) -> Result<Vec<u8>, Fail> {
    let cause = acts.over.ok_or("it goes on")?;
    let (code, a, b) = (cause.code, cause.a, cause.b);
    let mut text = format!(in alloc; "{code} {a} {b}%")?.into_bytes();
    text.extend_from_slice(http.moved().unwrap_or(b""))?;
    text.push(b'%')?;
    text.extend_from_slice(body)?;
    Ok(text)
}

/// Reads a row's stream, cut after each of its bytes.
fn agrees(rt: &impl Abort, alloc: Global, row: &str) -> Result<(), Fail> {
    let (stream, expected) = row.split_once('%').ok_or("no end")?;
    for piece in 1..stream.len() + 1 {
        let found = ending(alloc, stream.as_bytes(), piece)?;
        assert_eq!(rt;
            found.as_slice(),
            expected.as_bytes(),
            "{stream:?} in pieces of {piece}"
        );
    }
    Ok(())
}

#[test]
fn streams(rt: HostRuntime) -> Result<(), Fail> {
    for row in STREAMS.split('@') {
        agrees(&rt, rt.alloc(), row)?;
    }
    Ok(())
}

/// Ports, and the request for a file of a server at each (RFC 9112, section 3.2): the port of plain HTTP isn't named.
const REQUESTS: [(u16, &[u8], usize); 2] = [
    (
        80,
        b"GET /a HTTP/1.1\r\nHost: 10.0.0.1\r\nUser-Agent: netboot\r\nConnection: close\r\n\r\n",
        75,
    ),
    (
        8080,
        b"GET /a HTTP/1.1\r\nHost: 10.0.0.1:8080\r\nUser-Agent: netboot\r\nConnection: close\r\n\r\n",
        80,
    ),
];

fn request(alloc: Global, port: u16) -> Result<Text, Fail> {
    let (_http, asked) = Http::start(alloc, &target(alloc, port)?)?;
    Ok(asked)
}

#[test]
fn requests(rt: HostRuntime) -> Result<(), Fail> {
    for (port, text, length) in REQUESTS {
        let asked = request(rt.alloc(), port)?;
        assert_eq!(rt; (asked.as_slice(), asked.len()), (text, length));
    }
    Ok(())
}

/// Streams that a reset cuts: a chunked body whose segment ends inside a size line, one that ends inside its last line,
/// and a body that goes to the end.
const CUT: [&[u8]; 3] = [
    b"HTTP/1.1 200 OK\r\nTransfer-Encoding: chunked\r\n\r\n5\r\nhello\r\n1",
    b"HTTP/1.1 200 OK\r\nTransfer-Encoding: chunked\r\n\r\n5\r\nhello\r\n0\r\n\r",
    b"HTTP/1.1 200 OK\r\n\r\nhello",
];

/// Whether all of a stream is taken, and none of its bytes ends it.
fn goes_on(http: &mut Http, stream: &[u8], acts: &mut Acts) -> bool {
    let mut rest = stream;
    for _ in 0..stream.len() {
        if rest.is_empty() || rest.len() > 1000 || acts.over.is_some() {
            break;
        }
        let took = http.bytes(1, rest, b"", acts) as usize;
        rest = rest.get(took..).unwrap_or(b"");
    }
    rest.is_empty() && acts.over.is_none()
}

/// Only `finish` or further bytes end such a body, so a connection that is reset there makes none.
#[test]
fn body_that_a_reset_cuts(rt: HostRuntime) -> Result<(), Fail> {
    for (row, stream) in CUT.iter().enumerate() {
        let mut http = started(rt.alloc())?;
        assert!(rt; goes_on(&mut http, stream, &mut Acts::none()), "row {row}");
    }
    Ok(())
}
