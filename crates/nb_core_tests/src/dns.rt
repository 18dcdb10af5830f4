use nb_dns::{BadName, Dns, is_name};
use nb_terms::{Acts, Cause};
use nb_wire::Ip4;
use std::test::Fail;

const SERVER: Ip4 = Ip4(0x0a00_0001);

const OWN_PORT: u16 = 49_152;

/// The query for `a.b` with number 0x0102 (RFC 1035, section 4.1).
const QUERY: &[u8] =
    b"\x01\x02\x01\x00\x00\x01\x00\x00\x00\x00\x00\x00\x01a\x01b\x00\x00\x01\x00\x01";

/// What dnsmasq 2.90 answers to it, with `--cname=a.b,c.b --host-record=c.b,10.0.0.9`.
const ANSWER: &[u8] =
    b"\x01\x02\x85\x80\x00\x01\x00\x02\x00\x00\x00\x00\x01a\x01b\x00\x00\x01\x00\x01\xc0\x0c\x00\x05\x00\x01\x00\x00\x00\x00\x00\x05\x01c\x01b\x00\xc0!\x00\x01\x00\x01\x00\x00\x00\x00\x00\x04\x0a\x00\x00\x09";

/// What dnsmasq answers where `a.b` isn't there.
const NO_SUCH_NAME: &[u8] =
    b"\x01\x02\x81\x83\x00\x01\x00\x00\x00\x00\x00\x00\x01a\x01b\x00\x00\x01\x00\x01";

/// What dnsmasq answers where `a.b` has no address.
const NO_ADDRESS: &[u8] =
    b"\x01\x02\x85\x80\x00\x01\x00\x00\x00\x00\x00\x00\x01a\x01b\x00\x00\x01\x00\x01";

fn ended(code: u8, a: u32, b: u32) -> Option<Cause> {
    Some(Cause { code, a, b })
}

/// The query is sent to the server's port 53, or nothing is.
fn sends_query(acts: &Acts) -> bool {
    match acts.sends.as_slice() {
        [send] => {
            send.proto == 17
                && send.to == SERVER
                && send.own_port == OWN_PORT
                && send.to_port == 53
                && send.body.as_slice() == QUERY
        }
        _ => false,
    }
}

fn started(name: &[u8], acts: &mut Acts) -> Result<Dns, BadName> {
    Dns::start(0, SERVER, OWN_PORT, 0x0102, name, 0, acts)
}

#[test]
fn starts_with_the_query(rt: HostRuntime) -> Result<(), Fail> {
    let mut acts = Acts::none();
    assert!(rt; is_name(b"a.b."));
    let mut dns = started(b"a.b.", &mut acts)?;
    assert!(rt; sends_query(&acts));
    assert_eq!(rt; acts.tried, Some(1));
    dns.time(250, &mut acts);
    assert!(rt; sends_query(&acts));
    assert_eq!(rt; acts.tried, Some(2));
    Ok(())
}

#[test]
fn ends_with_an_answer(rt: HostRuntime) -> Result<(), Fail> {
    for (bytes, over, address, what) in [
        (ANSWER, ended(0, 0, 0), Some(Ip4(0x0a00_0009)), "an address"),
        (NO_SUCH_NAME, ended(1, 7, 3), None, "no such name"),
        (NO_ADDRESS, ended(1, 7, 0), None, "no address"),
    ] {
        let mut acts = Acts::none();
        let mut dns = started(b"a.b", &mut acts)?;
        dns.message(7, SERVER, bytes, 10, &mut acts);
        assert_eq!(rt; (acts.over, dns.address()), (over, address), "{what}");
    }
    Ok(())
}
