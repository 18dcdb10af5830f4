use nb_chap::{binary, binary_text, byte, response};
use std::test::Fail;

/// RFC 1321, section A.5: the digests of texts of which the first letter is taken as the identifier.
#[test]
fn responses(rt: HostRuntime) -> Result<(), Fail> {
    for (identifier, secret, challenge, digest) in [
        (
            b'a',
            b"".as_slice(),
            b"".as_slice(),
            b"0x0cc175b9c0f1b6a831c399e269772661".as_slice(),
        ),
        (b'a', b"b", b"c", b"0x900150983cd24fb0d6963f7d28e17f72"),
        (
            b'm',
            b"essage",
            b" digest",
            b"0xf96b697d7cb7938d525a2f31aaf161d0",
        ),
        (
            b'a',
            b"bcdefghijklmnopqrstuvwxyz",
            b"",
            b"0xc3fcd3d76192e4007dfb496cca67e13b",
        ),
        (
            b'A',
            b"BCDEFGHIJKLMNOPQRSTUVWXYZ",
            b"abcdefghijklmnopqrstuvwxyz0123456789",
            b"0xd174ab98d277d9f5a5611c2c9f419d9f",
        ),
    ] {
        let bytes = response(identifier, secret, challenge);
        let text = binary_text(rt.alloc(), &bytes)?;
        assert!(rt; text.as_slice() == digest, "{secret:?}");
    }
    Ok(())
}

/// RFC 7143, section 6.1: the marks in either case, the digits in either case, and nothing else.
#[test]
fn binary_values(rt: HostRuntime) -> Result<(), Fail> {
    for (text, value) in [
        (b"0x6a".as_slice(), Some(b"j".as_slice())),
        (b"0X6A", Some(b"j")),
        (b"0bYw==", Some(b"c")),
        (b"0BYWI=", Some(b"ab")),
        (b"0x", None),
        (b"0b", None),
        (b"0x6", None),
        (b"0x6g", None),
        (b"0bYw=", None),
        (b"6a", None),
        (b"1x6a", None),
        (b"0", None),
        (b"", None),
    ] {
        let read = binary(rt.alloc(), text)?;
        assert!(rt;
            read.as_ref().map(|bytes| bytes.as_slice()) == value,
            "{text:?}"
        );
    }
    Ok(())
}

#[test]
fn lengths_of_binary_values(rt: HostRuntime) -> Result<(), Fail> {
    for (len, is_value) in [(1024, true), (1025, false)] {
        let mut bytes = Vec::new(rt.alloc());
        bytes.resize(len, 7)?;
        let text = binary_text(rt.alloc(), bytes.as_slice())?;
        let read = binary(rt.alloc(), text.as_slice())?;
        assert_eq!(rt; read.is_some(), is_value, "{len}");
    }
    Ok(())
}

#[test]
fn identifiers(rt: HostRuntime) -> Result<(), Fail> {
    for (text, value) in [
        (b"0".as_slice(), Some(0)),
        (b"97", Some(97)),
        (b"255", Some(255)),
        (b"256", None),
        (b"0x61", Some(97)),
        (b"0X0061", Some(97)),
        (b"0x100", None),
        (b"097", None),
        (b"0x", None),
        (b"+1", None),
        (b"", None),
    ] {
        assert_eq!(rt; byte(text), value, "{text:?}");
    }
    Ok(())
}
