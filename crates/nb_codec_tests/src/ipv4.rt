use nb_ipv4::{ECHO_REPLY, ECHO_REQUEST, Echo, PROTO_ICMP, PROTO_UDP, Packet, Udp};
use nb_wire::{Ip4, Out};
use std::process::Abort;

/// Packets as two Linux hosts sent them to each other: a DNS query, the TFTP read request of curl, and
/// the ICMP message that no port is open for the query, which sets a type of service and may be
/// fragmented.
const DNS_QUERY: [u8; 62] = [
    0x45, 0x00, 0x00, 0x3e, 0x6a, 0x4c, 0x40, 0x00, 0x40, 0x11, 0xbc, 0x60, 0x0a, 0x00, 0x00, 0x02,
    0x0a, 0x00, 0x00, 0x01, 0xc0, 0x00, 0x00, 0x35, 0x00, 0x2a, 0xc3, 0x8c, 0x12, 0x34, 0x01, 0x00,
    0x00, 0x01, 0x00, 0x00, 0x00, 0x00, 0x00, 0x00, 0x04, 0x62, 0x6f, 0x6f, 0x74, 0x07, 0x65, 0x78,
    0x61, 0x6d, 0x70, 0x6c, 0x65, 0x03, 0x63, 0x6f, 0x6d, 0x00, 0x00, 0x01, 0x00, 0x01,
];

const READ_REQUEST: [u8; 76] = [
    0x45, 0x00, 0x00, 0x4c, 0x6a, 0xb3, 0x40, 0x00, 0x40, 0x11, 0xbb, 0xeb, 0x0a, 0x00, 0x00, 0x02,
    0x0a, 0x00, 0x00, 0x01, 0x86, 0xa3, 0x00, 0x45, 0x00, 0x38, 0xc5, 0x43, 0x00, 0x01, 0x62, 0x6f,
    0x6f, 0x74, 0x2e, 0x69, 0x70, 0x78, 0x65, 0x00, 0x6f, 0x63, 0x74, 0x65, 0x74, 0x00, 0x74, 0x73,
    0x69, 0x7a, 0x65, 0x00, 0x30, 0x00, 0x62, 0x6c, 0x6b, 0x73, 0x69, 0x7a, 0x65, 0x00, 0x35, 0x31,
    0x32, 0x00, 0x74, 0x69, 0x6d, 0x65, 0x6f, 0x75, 0x74, 0x00, 0x36, 0x00,
];

const UNREACHABLE: [u8; 90] = [
    0x45, 0xc0, 0x00, 0x5a, 0x8b, 0xab, 0x00, 0x00, 0x40, 0x01, 0xda, 0x35, 0x0a, 0x00, 0x00, 0x01,
    0x0a, 0x00, 0x00, 0x02, 0x03, 0x03, 0x11, 0x3b, 0x00, 0x00, 0x00, 0x00, 0x45, 0x00, 0x00, 0x3e,
    0x6a, 0x4c, 0x40, 0x00, 0x40, 0x11, 0xbc, 0x60, 0x0a, 0x00, 0x00, 0x02, 0x0a, 0x00, 0x00, 0x01,
    0xc0, 0x00, 0x00, 0x35, 0x00, 0x2a, 0xc3, 0x8c, 0x12, 0x34, 0x01, 0x00, 0x00, 0x01, 0x00, 0x00,
    0x00, 0x00, 0x00, 0x00, 0x04, 0x62, 0x6f, 0x6f, 0x74, 0x07, 0x65, 0x78, 0x61, 0x6d, 0x70, 0x6c,
    0x65, 0x03, 0x63, 0x6f, 0x6d, 0x00, 0x00, 0x01, 0x00, 0x01,
];

const CLIENT: Ip4 = Ip4(0x0a000002);

const SERVER: Ip4 = Ip4(0x0a000001);

#[test]
fn captured_packets(rt: HostRuntime) {
    let rows: [(&[u8], Ip4, Ip4, u8); 3] = [
        (&DNS_QUERY, CLIENT, SERVER, PROTO_UDP),
        (&READ_REQUEST, CLIENT, SERVER, PROTO_UDP),
        (&UNREACHABLE, SERVER, CLIENT, PROTO_ICMP),
    ];
    for (bytes, src, dst, proto) in rows {
        let packet = Packet::read(bytes).expect(&rt, "a packet");
        let read = (packet.src, packet.dst, packet.proto, Some(packet.body));
        assert_eq!(rt; read, (src, dst, proto, bytes.get(20..)));
    }
}

/// What is read is written again, and so are the bytes that were sent.
#[test]
fn captured_datagrams(rt: HostRuntime) {
    let rows: [(&[u8], u16, u16); 2] = [(&DNS_QUERY, 49152, 53), (&READ_REQUEST, 34467, 69)];
    for (bytes, src_port, dst_port) in rows {
        let body = bytes.get(20..).expect(&rt, "a body");
        let datagram = Udp::read(CLIENT, SERVER, body).expect(&rt, "a datagram");
        assert_eq!(rt;
            (datagram.src_port, datagram.dst_port),
            (src_port, dst_port)
        );
        is_written(&rt, &datagram, body);
    }
}

/// A datagram of at most 56 bytes is written as these.
fn is_written(rt: &impl Abort, datagram: &Udp<'_>, bytes: &[u8]) {
    assert!(rt; datagram.body.len() <= 56);
    let mut room = [0; 64];
    let mut out = Out::new(&mut room);
    assert!(rt; datagram.write(CLIENT, SERVER, &mut out).is_ok());
    assert_eq!(rt; out.written(), bytes);
}

/// A header that is a common example of the checksum, 0xb861: identification 0, don't-fragment, time
/// to live 64.
#[test]
fn written_header(rt: HostRuntime) {
    let packet = Packet {
        src: Ip4(0xc0a80001),
        dst: Ip4(0xc0a800c7),
        proto: PROTO_UDP,
        body: &[0; 95],
    };
    let mut room = [0; 115];
    let mut out = Out::new(&mut room);
    assert!(rt; packet.write(&mut out).is_ok());
    let header: &[u8] = &[
        0x45, 0x00, 0x00, 0x73, 0x00, 0x00, 0x40, 0x00, 0x40, 0x11, 0xb8, 0x61, 0xc0, 0xa8, 0x00,
        0x01, 0xc0, 0xa8, 0x00, 0xc7,
    ];
    assert_eq!(rt; out.written().get(..20), Some(header));
}

/// What `ping` on Windows sends first, and the reply to it: 32 letters, identifier 1, sequence number 1.
/// Captures of it show the checksums 0x4d5a and 0x555a.
const PING: [u8; 40] = [
    8, 0, 0x4d, 0x5a, 0, 1, 0, 1, b'a', b'b', b'c', b'd', b'e', b'f', b'g', b'h', b'i', b'j', b'k',
    b'l', b'm', b'n', b'o', b'p', b'q', b'r', b's', b't', b'u', b'v', b'w', b'a', b'b', b'c', b'd',
    b'e', b'f', b'g', b'h', b'i',
];

/// The reply is all 0 where Linux answers a request with identifier, number and data of 0.
#[test]
fn pings(rt: HostRuntime) {
    let rows: [(&[u8], u8, u16, u16, usize); 2] = [
        (&PING, ECHO_REQUEST, 1, 1, 32),
        (&[0; 64], ECHO_REPLY, 0, 0, 56),
    ];
    for (bytes, kind, ident, seq, len) in rows {
        let echo = Echo::read(bytes).expect(&rt, "an echo");
        let read = (echo.kind, echo.ident, echo.seq, echo.body.len());
        assert_eq!(rt; read, (kind, ident, seq, len));
    }
}

#[test]
fn written_reply(rt: HostRuntime) {
    let reply = Echo {
        kind: ECHO_REPLY,
        ident: 1,
        seq: 1,
        body: PING.last_chunk::<32>().expect(&rt, "a body"),
    };
    let mut room = [0; 40];
    let mut out = Out::new(&mut room);
    assert!(rt; reply.write(&mut out).is_ok());
    let head: &[u8] = &[0, 0, 0x55, 0x5a, 0, 1, 0, 1];
    assert_eq!(rt; out.written().get(..8), Some(head));
}
