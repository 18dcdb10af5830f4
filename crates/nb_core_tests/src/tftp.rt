use nb_terms::{Acts, Cause};
use nb_tftp::Transfer;
use nb_wire::Ip4;
use std::process::Abort;
use std::test::Fail;

/// The request for `f` in mode octet with blksize and tsize (RFC 1350, section 5; RFC 2347 to 2349).
const REQUEST: &[u8] = b"\x00\x01f\x00octet\x00blksize\x001432\x00tsize\x000\x00";

/// The bytes of the datagram that is sent, or none.
fn sent(acts: &Acts) -> &[u8] {
    match acts.sends.as_slice() {
        [send] => send.body.as_slice(),
        _ => &[],
    }
}

/// The transfer asks twice, takes this grant, and then the only block.
fn fetches(rt: &impl Abort, transfer: &mut Transfer, grant: &[u8], acts: &mut Acts) {
    assert_eq!(rt; sent(acts), REQUEST);
    transfer.time(250, acts);
    assert_eq!(rt; sent(acts), REQUEST, "the second try");
    transfer.message(1, 2000, grant, 300, acts);
    assert_eq!(rt; sent(acts), b"\x00\x04\x00\x00".as_slice());
    transfer.message(2, 2000, b"\x00\x03\x00\x01end", 300, acts);
    assert_eq!(rt; sent(acts), b"\x00\x04\x00\x01".as_slice());
    let over = Cause {
        code: 0,
        a: 0,
        b: 0,
    };
    assert_eq!(rt; (acts.give, acts.over), (Some((4, 7)), Some(over)));
}

/// The OACK of both options is what dnsmasq 2.90 and tftpd-hpa 5.2 answered this request for a file of 1,432 bytes,
/// captured on loopback; that of blksize alone is RFC 2347's example.
const GRANTS: [&[u8]; 2] = [
    b"\x00\x06blksize\x001432\x00tsize\x001432\x00",
    b"\x00\x06blksize\x001432\x00",
];

#[test]
fn fetches_from_real_servers(rt: HostRuntime) -> Result<(), Fail> {
    for grant in GRANTS {
        let mut acts = Acts::none();
        let mut transfer = Transfer::start(0, Ip4(0x0a00_0001), 69, 49_152, b"f", 0, &mut acts)?;
        fetches(&rt, &mut transfer, grant, &mut acts);
    }
    Ok(())
}
