use crate::wire::*;
use nb_lab::Lab;
use nb_record::InRec;
use std::test::Fail;

/// The frame of a record, or none.
fn frame<'a>(entry: &InRec<'a>) -> &'a [u8] {
    match entry {
        InRec::Frame(bytes) => bytes,
        _ => &[],
    }
}

/// Whether these are bytes of an image from a place on: byte `j` of image `i` is `31 i + 7 j` modulo 256.
fn are_of_image(bytes: &[u8], i: u8, from: u16) -> bool {
    let mut expected = ((31 * u32::from(i) + 7 * u32::from(from)) % 256) as u8;
    for byte in bytes {
        if *byte != expected {
            return false;
        }
        expected = expected.wrapping_add(7);
    }
    true
}

/// A transfer of image 0 (RFC 1350, RFC 2347 to 2349): its 1,000 bytes are one full block and an empty one.
#[test]
fn sends_an_image_by_tftp(rt: HostRuntime) -> Result<(), Fail> {
    let mut lab = Lab::new(rt.alloc(), 2)?;
    for (given, answer, rest) in [
        (ARP_REQUEST, ARP_REPLY, 0),
        (REQUEST, OACK, 0),
        (ACK_0, DATA_1, 1000),
        (ACK_1, DATA_2, 0),
    ] {
        lab.give(given)?;
        let entry = lab.next();
        let got = frame(&entry);
        assert_eq!(rt; got.len(), answer.len() + rest);
        assert_eq!(rt; &got[..answer.len()], answer);
        assert!(rt; are_of_image(&got[answer.len()..], 0, 0));
        assert!(rt;
            matches!(lab.next(), InRec::Tick(250)),
            "nothing else comes"
        );
    }
    lab.give(ACK_2)?;
    for _ in 0..5 {
        assert!(rt;
            matches!(lab.next(), InRec::Tick(250)),
            "the transfer is over"
        );
    }
    Ok(())
}

/// A fetch of image 1 by HTTP (RFC 9293, RFC 9112): its 1,977 bytes go in three segments, the last with FIN.
#[test]
fn sends_an_image_by_http(rt: HostRuntime) -> Result<(), Fail> {
    let mut lab = Lab::new(rt.alloc(), 2)?;
    for (given, answer, from, rest) in [
        (SYN, SYN_ACK, 0, 0),
        (ACK_OF_SYN, b"".as_slice(), 0, 0),
        (GET, FIRST_SEGMENT, 0, 940),
        (ACK_OF_1000, SECOND_SEGMENT, 940, 1000),
        (ACK_OF_2000, LAST_SEGMENT, 0, 0),
        (ACK_OF_ALL, b"".as_slice(), 0, 0),
        (CLIENT_FIN, ACK_OF_FIN, 0, 0),
    ] {
        lab.give(given)?;
        if !answer.is_empty() {
            let entry = lab.next();
            let got = frame(&entry);
            assert_eq!(rt; got.len(), answer.len() + rest);
            assert_eq!(rt; &got[..answer.len()], answer);
            assert!(rt; are_of_image(&got[answer.len()..], 1, from));
        }
        assert!(rt;
            matches!(lab.next(), InRec::Tick(250)),
            "nothing else comes"
        );
    }
    Ok(())
}

/// What isn't acknowledged is sent again after three TICKs, and with another number: of a request for a file without
/// options the frames are 1, 2 and so on, and the seventh is lost.
#[test]
fn repeats_what_is_not_acknowledged(rt: HostRuntime) -> Result<(), Fail> {
    let mut lab = Lab::new(rt.alloc(), 1)?;
    lab.give(PLAIN_REQUEST)?;
    for number in 1..9_u8 {
        if number != 7 {
            let entry = lab.next();
            let got = frame(&entry);
            assert_eq!(rt; got.len(), PLAIN_DATA_1.len() + 512);
            assert!(rt; got.starts_with(PLAIN_DATA_1), "frame {number}");
        }
        for _ in 0..3 {
            assert!(rt;
                matches!(lab.next(), InRec::Tick(250)),
                "after frame {number}"
            );
        }
    }
    lab.give(OTHER_REQUEST)?;
    assert_eq!(rt;
        frame(&lab.next()).len(),
        PLAIN_DATA_1.len() + 512,
        "frame 9"
    );
    assert_eq!(rt; frame(&lab.next()), NOT_FOUND);
    Ok(())
}
