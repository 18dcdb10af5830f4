use nb_tftpmsg::Tftp;
use nb_wire::Out;
use std::test::Fail;

// The request of Wireshark's sample capture tftp_rrq.pcap, the exchange in the examples of RFC 2347,
// the size of RFC 2349's example, and the refusal that tftpd-hpa sends for a missing file.
#[test]
fn reads_real_packets(rt: HostRuntime) -> Result<(), Fail> {
    for (bytes, packet, what) in [
        (
            b"\x00\x01rfc1350.txt\x00octet\x00".as_slice(),
            Tftp::Rrq {
                path: b"rfc1350.txt",
                options: false,
            },
            "a plain request",
        ),
        (
            b"\x00\x06blksize\x001432\x00",
            Tftp::Oack {
                blksize: Some(1432),
                tsize: None,
            },
            "RFC 2347's OACK",
        ),
        (b"\x00\x04\x00\x00", Tftp::Ack(0), "RFC 2347's ACK 0"),
        (
            b"\x00\x03\x00\x01rest",
            Tftp::Block {
                n: 1,
                bytes: b"rest",
            },
            "a block",
        ),
        (
            b"\x00\x06tsize\x00673312\x00",
            Tftp::Oack {
                blksize: None,
                tsize: Some(673_312),
            },
            "RFC 2349's size",
        ),
        (
            b"\x00\x05\x00\x01File not found\x00",
            Tftp::Error {
                code: 1,
                text: b"File not found",
            },
            "tftpd-hpa's refusal",
        ),
        (
            b"\x00\x05\x00\x01gone",
            Tftp::Error {
                code: 1,
                text: b"gone",
            },
            "an error without its zero byte",
        ),
        (
            b"\x00\x05\x00\x02no\x00\x00x",
            Tftp::Error {
                code: 2,
                text: b"no",
            },
            "an error with bytes after its zero byte",
        ),
    ] {
        assert_eq!(rt; Tftp::read(bytes), Some(packet), "{what}");
    }
    Ok(())
}

#[test]
fn writes_what_the_client_sends(rt: HostRuntime) -> Result<(), Fail> {
    let mut buffer = [0; 31];
    let mut out = Out::new(&mut buffer);
    let request = Tftp::Rrq {
        path: b"f",
        options: true,
    };
    assert!(rt; request.write(&mut out).is_ok());
    assert_eq!(rt;
        out.written(),
        b"\x00\x01f\x00octet\x00blksize\x001432\x00tsize\x000\x00".as_slice()
    );
    Ok(())
}
