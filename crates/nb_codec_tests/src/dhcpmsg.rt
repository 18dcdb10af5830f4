//! Messages of real servers, and one of each kind of call.

ghost use Rattle.std.specs.Prelude.{IfOk};
ghost use Rattle.nb_dhcpmsg.specs.Messages.{IsMessage};
ghost use Rattle.nb_dhcpmsg.specs.Views.{parts_of};

use arrayvec::ArrayVec;
use nb_dhcpmsg::{DhcpMsg, has_tag, joined_value, options_within};
use nb_wire::{Ip4, Mac, Out};
use std::alloc::{AllocError, Global};
use std::process::Abort;
use std::test::Fail;

/// The fields before those for names (RFC 2131, section 2) of an offer in dhcp.pcap, one of Wireshark's sample
/// captures.
const CAPTURED: &[u8] =
    b"\x02\x01\x06\x00\x00\x00\x3d\x1d\x00\x00\x00\x00\x00\x00\x00\x00\xc0\xa8\x00\x0a\xc0\xa8\x00\x01\x00\x00\x00\x00\x00\x0b\x82\x01\xfc\x42";

/// Its options.
const CAPTURED_OPTIONS: &[u8] =
    b"\x63\x82\x53\x63\x35\x01\x02\x01\x04\xff\xff\xff\x00\x3a\x04\x00\x00\x07\x08\x3b\x04\x00\x00\x0c\x4e\x33\x04\x00\x00\x0e\x10\x36\x04\xc0\xa8\x00\x01\xff\x00\x00";

/// The fields of an acknowledgement of ISC dhcpd 4.4.3 to a client that takes messages of 576 bytes.
const OVERLOADED: &[u8] =
    b"\x02\x01\x06\x00\x39\x03\x6b\xa1\x00\x00\x80\x00\x00\x00\x00\x00\x0a\x09\x00\x0a\x0a\x09\x00\x01\x00\x00\x00\x00\x02\x00\x00\x00\x00\x01";

/// Its options, but that a value's 376 bytes over all three fields are 9 here, and options within 175 are added.
const OVERLOADED_OPTIONS: &[u8] =
    b"\x63\x82\x53\x63\x35\x01\x05\x36\x04\x0a\x09\x00\x01\x0f\x0cboot.example\xaf\x06\xbe\x01u\x00\xbf\x00\xe0\x03mmm\x34\x01\x03";

/// Puts so many bytes: these, and then zeros.
fn put(to: &mut ArrayVec<u8, 2048>, bytes: &[u8], len: usize) {
    for place in 0..len {
        let _ = to.try_push(bytes.get(place).copied().unwrap_or(0));
    }
}

/// A message of these fields, these options, and these fields for a file's and a server's name.
fn message_of(fields: &[u8], options: &[u8], names: [&[u8]; 2]) -> ArrayVec<u8, 2048> {
    let mut bytes = ArrayVec::new();
    put(&mut bytes, fields, 44);
    put(&mut bytes, names[1], 64);
    put(&mut bytes, names[0], 128);
    put(&mut bytes, options, options.len());
    bytes
}

fn read(bytes: &[u8]) -> Result<DhcpMsg<'_>, Fail>
    ensures { IfOk result (λ message. IsMessage message.whole.now (parts_of message)) }
{
    match DhcpMsg::read(bytes) {
        Some(message) => Ok(message),
        None => Err(Fail::new("no message")),
    }
}

/// The captured offer's fields.
fn is_captured(rt: &impl Abort, message: &DhcpMsg<'_>) {
    assert_eq!(rt; (message.op, message.xid, message.kind), (2, 0x3d1d, 2));
    let hosts = (message.yiaddr, message.chaddr, message.address(54));
    let mac = Mac([0, 11, 130, 1, 252, 66]);
    assert_eq!(rt; hosts, (Ip4(0xc0a8_000a), mac, Some(Ip4(0xc0a8_0001))));
    assert_eq!(rt; message.file(), b"boot".as_slice());
}

#[test]
fn a_captured_offer(rt: HostRuntime) -> Result<(), Fail> {
    let bytes = message_of(CAPTURED, CAPTURED_OPTIONS, [b"boot\0more", b""]);
    let message = read(bytes.as_slice())?;
    is_captured(&rt, &message);
    let mut room = [0; 300];
    let mut out = Out::new(&mut room);
    let is_written = message.write(&mut out).is_ok();
    assert!(rt; is_written && out.written() == bytes.as_slice());
    Ok(())
}

/// The joined value of a tag, or of a tag within 175, as the message finds it.
fn value_of(message: &DhcpMsg<'_>, tag: u8, inner: Option<u8>) -> Option<ArrayVec<u8, 1024>> {
    let mut value = ArrayVec::new();
    let is_found = match inner {
        Some(inner) => message.sub(tag, inner, &mut value),
        None => message.value(tag, &mut value),
    };
    if is_found { Some(value) } else { None }
}

/// The joined value of a tag among the options that were collected.
fn collected(alloc: Global, message: &DhcpMsg<'_>, tag: u8) -> Result<Vec<u8>, AllocError> {
    let options = message.options(alloc)?;
    joined_value(alloc, options.as_slice(), tag)
}

fn is_within(alloc: Global, value: &[u8], tag: u8) -> Result<bool, AllocError> {
    let options = options_within(alloc, value)?;
    Ok(has_tag(options.as_slice(), tag))
}

/// The value of a tag, or of a tag within 175, is this.
fn has_value(
    rt: &impl Abort,
    message: &DhcpMsg<'_>,
    tag: u8,
    inner: Option<u8>,
    wanted: &[u8],
) -> Result<(), Fail> {
    let value = value_of(message, tag, inner).ok_or("no value")?;
    assert_eq!(rt; value.as_slice(), wanted, "{tag}");
    Ok(())
}

// The overload stands last, without an end mark after it.
#[test]
fn an_overloaded_acknowledgement(rt: HostRuntime) -> Result<(), Fail> {
    let names = [b"\xe0\x03fff\xff".as_slice(), b"\xe0\x03sss\xff"];
    let bytes = message_of(OVERLOADED, OVERLOADED_OPTIONS, names);
    let message = read(bytes.as_slice())?;
    has_value(&rt, &message, 224, None, b"mmmfffsss")?;
    has_value(&rt, &message, 175, Some(190), b"u")?;
    let joined = collected(rt.alloc(), &message, 224)?;
    assert_eq!(rt; joined.as_slice(), b"mmmfffsss".as_slice());
    assert!(rt; is_within(rt.alloc(), b"\xbe\x01u\x00\xbf\x00\xbf\x02x", 191)?);
    Ok(())
}
