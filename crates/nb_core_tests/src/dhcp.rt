use arrayvec::ArrayVec;
use nb_dhcp::Dhcp;
use nb_terms::{Acts, Cause};
use nb_wire::{Ip4, Mac};
use std::process::Abort;

const MAC: Mac = Mac([0x52, 0x54, 0, 0, 0, 1]);

const XID: u32 = 0x3903_f326;

const SERVER: Ip4 = Ip4(0x0a00_0001);

/// A message's fields before its options, as a client writes them (RFC 2131, section 2).
const ASKED: &[u8] =
    b"\x01\x01\x06\x00\x39\x03\xf3\x26\x00\x00\x80\x00\x00\x00\x00\x00\x00\x00\x00\x00\x00\x00\x00\x00\x00\x00\x00\x00\x52\x54\x00\x00\x00\x01";

/// The options of a DISCOVER after its kind.
const ASKS: &[u8] =
    b"\x39\x02\x05\xdc\x5d\x02\x00\x07\x5e\x03\x01\x02\x01\x3c\x20PXEClient:Arch:00007:UNDI:002001\x4d\x04iPXE\x37\x0a\x01\x03\x06\x0c\x0f\x11\x42\x43\xaf\xcb\x3d\x07\x01\x52\x54\x00\x00\x00\x01\x61\x11\x00\x01\x02\x03\x04\x05\x06\x07\x08\x09\x0a\x0b\x0c\x0d\x0e\x0f\x10\xff";

/// The fields of an answer of dnsmasq 2.90, captured.
const ANSWERED: &[u8] =
    b"\x02\x01\x06\x00\x39\x03\xf3\x26\x00\x00\x80\x00\x00\x00\x00\x00\x0a\x00\x00\x0d\x0a\x00\x00\x01\x00\x00\x00\x00\x52\x54\x00\x00\x00\x01";

/// The options of its offer, and of its acknowledgement.
const OFFERED: &[u8] =
    b"\x35\x01\x02\x36\x04\x0a\x00\x00\x01\x33\x04\x00\x00\x0e\x10\x42\x07server\x00\x43\x0aboot.ipxe\x00\x3a\x04\x00\x00\x07\x08\x3b\x04\x00\x00\x0c\x4e\x01\x04\xff\xff\xff\x00\x1c\x04\x0a\x00\x00\xff\x03\x04\x0a\x00\x00\x01\x11\x19iscsi:10.0.0.1::::iqn.x:t\xaf\x07\xbf\x01p\xbe\x01u\xff\xff";

const GRANTED: &[u8] =
    b"\x35\x01\x05\x36\x04\x0a\x00\x00\x01\x33\x04\x00\x00\x0e\x10\x42\x07server\x00\x43\x0aboot.ipxe\x00\x3a\x04\x00\x00\x07\x08\x3b\x04\x00\x00\x0c\x4e\x01\x04\xff\xff\xff\x00\x1c\x04\x0a\x00\x00\xff\x03\x04\x0a\x00\x00\x01\x11\x19iscsi:10.0.0.1::::iqn.x:t\xaf\x07\xbf\x01p\xbe\x01u\xff\xff";

/// A message of these fields and options.
fn message(fields: &[u8], options: &[u8]) -> ArrayVec<u8, 1480> {
    let mut bytes = ArrayVec::new();
    let _ = bytes.try_extend_from_slice(fields);
    let _ = bytes.try_extend_from_slice(&[0; 202]);
    let _ = bytes.try_extend_from_slice(b"\x63\x82\x53\x63");
    let _ = bytes.try_extend_from_slice(options);
    bytes
}

/// A client that has asked.
fn started(acts: &mut Acts) -> Dhcp {
    let uuid = [1, 2, 3, 4, 5, 6, 7, 8, 9, 10, 11, 12, 13, 14, 15, 16];
    Dhcp::start(0, MAC, uuid, 7, XID, 0, acts)
}

/// One message is sent to all servers, as this try: one of these options before those of every message. Nothing
/// is sent where there are none.
fn sends(rt: &impl Abort, acts: &Acts, options: &[u8], tried: Option<u8>, what: &str) {
    assert_eq!(rt; acts.tried, tried, "{what}");
    let [send] = acts.sends.as_slice() else {
        assert!(rt;
            acts.sends.as_slice().is_empty() && options.is_empty(),
            "{what}"
        );
        return;
    };
    assert_eq!(rt;
        (send.proto, send.to, send.to_port, send.own_port),
        (17, Ip4(0xffff_ffff), 67, 68)
    );
    let mut wanted = message(ASKED, options);
    let _ = wanted.try_extend_from_slice(ASKS);
    assert_eq!(rt; send.body.as_slice(), wanted.as_slice(), "{what}");
}

/// The length of the message that is sent.
fn first_length(acts: &Acts) -> usize {
    match acts.sends.as_slice() {
        [send] => send.body.len(),
        _ => 0,
    }
}

const DISCOVER: &[u8] = b"\x35\x01\x01";

const REQUEST: &[u8] = b"\x35\x01\x03\x36\x04\x0a\x00\x00\x01\x32\x04\x0a\x00\x00\x0d";

/// The offer is asked for.
fn takes_offer(rt: &impl Abort, dhcp: &mut Dhcp, acts: &mut Acts) {
    sends(rt, acts, DISCOVER, Some(1), "the start");
    assert_eq!(rt; first_length(acts), 337);
    assert!(rt; dhcp.ack().is_none());
    let offered = message(ANSWERED, OFFERED);
    dhcp.message(3, SERVER, offered.as_slice(), 10, acts);
    sends(rt, acts, REQUEST, Some(1), "the offer");
    assert_eq!(rt; first_length(acts), 349);
}

/// The acknowledgement ends it.
fn takes_ack(rt: &impl Abort, dhcp: &mut Dhcp, acts: &mut Acts) {
    let granted = message(ANSWERED, GRANTED);
    dhcp.message(4, SERVER, granted.as_slice(), 20, acts);
    sends(rt, acts, b"", None, "the acknowledgement");
    let over = Cause {
        code: 0,
        a: 0,
        b: 0,
    };
    assert_eq!(rt; acts.over, Some(over));
    assert_eq!(rt; dhcp.ack(), Some(granted.as_slice()));
    dhcp.time(100_000, acts);
    assert_eq!(rt; acts.over, None, "after the end");
}

#[test]
fn asks_and_is_granted(rt: HostRuntime) {
    let mut acts = Acts::none();
    let mut dhcp = started(&mut acts);
    takes_offer(&rt, &mut dhcp, &mut acts);
    takes_ack(&rt, &mut dhcp, &mut acts);
}
