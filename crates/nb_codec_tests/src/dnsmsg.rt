use nb_dnsmsg::{Answer, Question};
use nb_wire::{Ip4, Out};
use std::test::Fail;

/// The query for `a.b` with number 0x0102.
const QUERY: &[u8] =
    b"\x01\x02\x01\x00\x00\x01\x00\x00\x00\x00\x00\x00\x01a\x01b\x00\x00\x01\x00\x01";

/// The text of `a.b`.
const NAME: &[u8] = b"\x01a\x01b\x00";

/// What dnsmasq 2.90 answers to it, with `--cname=a.b,c.b --host-record=c.b,10.0.0.9`.
const ANSWER: &[u8] =
    b"\x01\x02\x85\x80\x00\x01\x00\x02\x00\x00\x00\x00\x01a\x01b\x00\x00\x01\x00\x01\xc0\x0c\x00\x05\x00\x01\x00\x00\x00\x00\x00\x05\x01c\x01b\x00\xc0!\x00\x01\x00\x01\x00\x00\x00\x00\x00\x04\x0a\x00\x00\x09";

/// What BIND 9.18.49 answers for `n1.example`: two aliases, with names shortened within its data too.
const ALIASES: &[u8] =
    b"\x01\x02\x85\x00\x00\x01\x00\x03\x00\x01\x00\x01\x02n1\x07example\x00\x00\x01\x00\x01\xc0\x0c\x00\x05\x00\x01\x00\x00\x01,\x00\x05\x02n2\xc0\x0f\xc0(\x00\x05\x00\x01\x00\x00\x01,\x00\x12\x03www\x04boot\x07example\x00\xc09\x00\x01\x00\x01\x00\x00\x01,\x00\x04\x0a\x00\x00\x09\xc0\x0f\x00\x02\x00\x01\x00\x00\x01,\x00\x05\x02ns\xc0\x0f\xc0g\x00\x01\x00\x01\x00\x00\x01,\x00\x04\x0a\x00\x005";

/// An answer that a public guide to DNS by hand shows as captured from a resolver, for google.com.
const CAPTURED: &[u8] =
    b"\x86*\x81\x80\x00\x01\x00\x01\x00\x00\x00\x00\x06google\x03com\x00\x00\x01\x00\x01\xc0\x0c\x00\x01\x00\x01\x00\x00\x01%\x00\x04\xd8:\xd3\x8e";

/// What dnsmasq answers for `neg.x`, which isn't there.
const NO_SUCH_NAME: &[u8] =
    b"\x01\x02\x81\x83\x00\x01\x00\x00\x00\x00\x00\x00\x03neg\x01x\x00\x00\x01\x00\x01";

/// The names F.ISI.ARPA, FOO.F.ISI.ARPA, ARPA and the root, shortened as RFC 1035, section 4.1.4, shows them: each of
/// the first three is an alias of the next, and the root has an address.
const SHORTENED: &[u8] =
    b"\x00\x07\x80\x00\x00\x01\x00\x04\x00\x00\x00\x00\x01F\x03ISI\x04ARPA\x00\x00\x01\x00\x01\xc0\x0c\x00\x05\x00\x01\x00\x00\x00\x00\x00\x06\x03FOO\xc0\x0c\xc0\x28\x00\x05\x00\x01\x00\x00\x00\x00\x00\x02\xc0\x12\xc0\x12\x00\x05\x00\x01\x00\x00\x00\x00\x00\x01\x00\x00\x00\x01\x00\x01\x00\x00\x00\x00\x00\x04\x0a\x00\x00\x09";

#[test]
fn reads_and_writes_a_query(rt: HostRuntime) -> Result<(), Fail> {
    let Some(question) = Question::read(QUERY) else {
        return Err(Fail::new("no query"));
    };
    assert_eq!(rt; (question.id, question.name), (0x0102, NAME));
    let mut buffer = [0; 21];
    let mut out = Out::new(&mut buffer);
    assert_eq!(rt; question.write(&mut out), Ok(()));
    assert_eq!(rt; out.written(), QUERY);
    Ok(())
}

#[test]
fn reads_answers(rt: HostRuntime) -> Result<(), Fail> {
    for (bytes, id, name, rcode, address) in [
        (
            ANSWER,
            0x0102,
            b"\x01A\x01b\x00".as_slice(),
            0,
            Some(0x0a00_0009),
        ),
        (
            ALIASES,
            0x0102,
            b"\x02n1\x07example\x00",
            0,
            Some(0x0a00_0009),
        ),
        (
            CAPTURED,
            0x862a,
            b"\x06google\x03com\x00",
            0,
            Some(0xd83a_d38e),
        ),
        (
            SHORTENED,
            7,
            b"\x01F\x03ISI\x04ARPA\x00",
            0,
            Some(0x0a00_0009),
        ),
        (NO_SUCH_NAME, 0x0102, b"\x03neg\x01x\x00", 3, None),
    ] {
        let address = address.map(Ip4);
        let answer = Answer::read(bytes, id, name);
        assert_eq!(rt; answer, Some(Answer { rcode, address }), "{name:?}");
    }
    Ok(())
}
