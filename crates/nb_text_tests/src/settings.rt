//! Names as a script writes them, and a table that is filled by calls and by a lease.

use nb_dhcpmsg::DhcpMsg;
use nb_settings::{Key, Kind, Name, Table, Value, without_nulls};
use std::alloc::{AllocError, Global};
use std::test::Fail;

fn name<'a>(block: Option<&'a [u8]>, key: Key<'a>, kind: Option<Kind>) -> Option<Name<'a>> {
    Some(Name { block, key, kind })
}

#[test]
fn names(rt: HostRuntime) {
    for (text, expected) in [
        (b"filename".as_slice(), name(None, Key::Tag(67), None)),
        (b"175.191", name(None, Key::Sub(175, 191), None)),
        (b"mac:hex", name(None, Key::Free(b"mac"), Some(Kind::Hex))),
        (b"net0.dhcp/6", name(Some(b"net0.dhcp"), Key::Tag(6), None)),
        (b"255", None),
        (b"9/x", None),
        (b"x:HEX", None),
    ] {
        assert!(rt; Name::read(text) == expected, "{text:?}");
    }
}

#[test]
fn a_setting(rt: HostRuntime) -> Result<(), Fail> {
    let alloc = rt.alloc();
    let mut table = Table::new(alloc);
    table.register(alloc, b"net0", 0)?;
    table.put(alloc, b"net0", &Key::Tag(12), Kind::Str, b"client")?;
    let wanted = Some(Value {
        kind: Kind::Str,
        bytes: b"client".as_slice(),
    });
    assert!(rt; table.find(None, &Key::Tag(12)) == wanted);
    assert_eq!(rt; Key::Tag(12).listed_kind(), Some(Kind::Str));
    table.clear(b"net0", &Key::Tag(12))?;
    table.well_formed();
    assert_eq!(rt; table.count(b"net0"), Some(0));
    assert_eq!(rt;
        Kind::named(b"uuid").map(Kind::name),
        Some(b"uuid".as_slice())
    );
    assert_eq!(rt; without_nulls(b"\0pc\0\0"), b"\0pc".as_slice());
    Ok(())
}

/// An acknowledgement's fields before those for names (RFC 2131, section 2).
const HEAD: &[u8] =
    b"\x02\x01\x06\x00\x39\x03\xf3\x26\0\0\0\0\0\0\0\0\x0a\0\0\x02\0\0\0\0\0\0\0\0\x02\0\0\0\0\x01\0\0\0\0\0\0\0\0\0\0";

/// Its options, of RFC 2132 and of ipxe.org within 175; dnsmasq ends a file's name with a zero byte.
const OPTIONS: &[u8] =
    b"\x63\x82\x53\x63\x35\x01\x05\x34\x01\x02\x36\x04\x0a\0\0\x01\x01\x04\xff\xff\xff\0\x0c\x03pc\0\x0f\x01\0\x43\x04one\0\x0c\x02-1\x2b\x02a\0\xaf\x09\x01\x01\xff\xbe\x02u\0\x63\0\xff";

fn acknowledgement(alloc: Global) -> Result<Vec<u8>, AllocError> {
    let mut bytes = Vec::from_slice(alloc, HEAD)?;
    bytes.extend_from_slice(&[0; 192])?;
    bytes.extend_from_slice(OPTIONS)?;
    Ok(bytes)
}

#[test]
fn a_lease(rt: HostRuntime) -> Result<(), Fail> {
    let alloc = rt.alloc();
    let ack = acknowledgement(alloc)?;
    let mut table = Table::new(alloc);
    if DhcpMsg::read(ack.as_slice()).is_some() {
        table.lease(alloc, b"net0.dhcp", ack.as_slice())?;
    }
    for (key, kind, bytes) in [
        (Key::Tag(1), Kind::Ipv4, b"\xff\xff\xff\0".as_slice()),
        (Key::Tag(12), Kind::Str, b"pc\0-1"),
        (Key::Tag(15), Kind::Str, b""),
        (Key::Tag(43), Kind::Hex, b"a\0"),
        (Key::Tag(54), Kind::Ipv4, b"\x0a\0\0\x01"),
        (Key::Tag(67), Kind::Str, b"one"),
        (Key::Sub(175, 1), Kind::Int8, b"\xff"),
        (Key::Sub(175, 99), Kind::Hex, b""),
        (Key::Sub(175, 190), Kind::Str, b"u"),
        (Key::Free(b"ip"), Kind::Ipv4, b"\x0a\0\0\x02"),
    ] {
        let value = table.own(b"net0.dhcp", &key);
        assert!(rt; value == Some(Value { kind, bytes }), "{key:?}");
    }
    assert_eq!(rt; table.count(b"net0.dhcp"), Some(10));
    Ok(())
}
