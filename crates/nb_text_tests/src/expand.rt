//! Values of each kind by rows: the examples of RFC 3986, RFC 4648 and RFC 9562, and what a script's writer
//! might expect; and words with `${..}`.

use nb_expand::{expand, expand_words, integer, parse, print, text_of_name};
use nb_settings::{Key, Kind, Name, SetError, Table};
use nb_wire::Word;
use std::alloc::{AllocError, Global};
use std::process::Abort;
use std::test::Fail;

/// RFC 4648, section 10; RFC 9562, section 4; RFC 3986, section 2.5.
#[test]
fn values(rt: HostRuntime) -> Result<(), Fail> {
    for (kind, bytes, text) in [
        (Kind::Ipv4, b"\x0a\x00\x00\x01".as_slice(), "10.0.0.1"),
        (Kind::Int16, b"\x80\x00", "-32768"),
        (Kind::Uint16, b"\x00\xff", "0xff"),
        (Kind::Hex, b"\x52\x54\x00", "52:54:00"),
        (Kind::Hexhyp, b"\x52\x54\x0a", "52-54-0a"),
        (Kind::Hexraw, b"foobar", "666f6f626172"),
        (Kind::Base64, b"foo", "Zm9v"),
        (Kind::Base64, b"foob", "Zm9vYg=="),
        (Kind::Base64, b"fooba", "Zm9vYmE="),
        (
            Kind::Uuid,
            b"\xf8\x1d\x4f\xae\x7d\xec\x11\xd0\xa7\x65\x00\xa0\xc9\x1e\x6b\xf6",
            "f81d4fae-7dec-11d0-a765-00a0c91e6bf6",
        ),
        (Kind::Uristring, b"A\xe3\x82\xa2", "A%E3%82%A2"),
    ] {
        is_printed(&rt, rt.alloc(), kind, bytes, text.as_bytes())?;
        let read = parse(rt.alloc(), kind, text.as_bytes())?;
        assert_eq!(rt; read.as_slice(), bytes, "{kind:?}");
    }
    Ok(())
}

/// A value of these bytes is printed so.
fn is_printed(
    rt: &impl Abort,
    alloc: Global,
    kind: Kind,
    bytes: &[u8],
    text: &[u8],
) -> Result<(), Fail> {
    let shown = print(alloc, kind, bytes)?;
    assert_eq!(rt; shown.as_slice(), text, "{kind:?}");
    Ok(())
}

/// A server's TFTP name of option 66 ends in a zero byte.
#[test]
fn a_text_that_ends_in_zeros(rt: HostRuntime) -> Result<(), Fail> {
    let bytes = b"\0tftp\0\0";
    is_printed(&rt, rt.alloc(), Kind::Str, bytes, b"\0tftp")?;
    is_printed(&rt, rt.alloc(), Kind::Uristring, bytes, b"%00tftp")?;
    is_printed(&rt, rt.alloc(), Kind::Hexraw, bytes, b"00746674700000")?;
    assert_eq!(rt; integer(Kind::Int8, b"\x01\xff"), Some(-1));
    Ok(())
}

/// `x`, a number, and `again`, a text that looks like a part.
fn table(alloc: Global) -> Result<Table, SetError> {
    let mut table = Table::new(alloc);
    table.put(alloc, b"", &Key::Free(b"x"), Kind::Uint16, b"\0\xff")?;
    table.put(alloc, b"", &Key::Free(b"again"), Kind::Str, b"${x}")?;
    Ok(table)
}

#[test]
fn words(rt: HostRuntime) -> Result<(), Fail> {
    let table = table(rt.alloc())?;
    for (text, wanted) in [
        ("${x}", "0xff"),
        ("a${x:int16}}", "a255}"),
        ("a${b${x}", "a${b0xff"),
        ("${again}", "${x}"),
        ("${none/x}", ""),
    ] {
        let word = expand(rt.alloc(), text.as_bytes(), &table)?;
        assert_eq!(rt; word.as_slice(), wanted.as_bytes(), "{text}");
    }
    Ok(())
}

fn one_word(alloc: Global, text: &[u8; 4]) -> Result<Vec<Word>, AllocError> {
    let mut words = Vec::new(alloc);
    words.push(Word::from_vec(Vec::from_slice(alloc, text)?))?;
    Ok(words)
}

#[test]
fn a_command(rt: HostRuntime) -> Result<(), Fail> {
    let table = table(rt.alloc())?;
    let words = one_word(rt.alloc(), b"${x}")?;
    let expanded = expand_words(rt.alloc(), words.as_slice(), &table)?;
    let first = expanded.as_slice().first().map(|word| word.as_slice());
    assert_eq!(rt; first, Some(b"0xff".as_slice()));
    let Some(name) = Name::read(b"x") else {
        return Err(Fail::new("no name"));
    };
    let text = text_of_name(rt.alloc(), &name, &table)?;
    assert_eq!(rt; text.as_slice(), b"0xff".as_slice());
    Ok(())
}
