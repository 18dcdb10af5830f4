use nb_ether::{ARP_REPLY, ARP_REQUEST, Arp, EtherFrame, KIND_ARP};
use nb_wire::{Ip4, Mac, Out};

const CLIENT: Mac = Mac([0x52, 0x54, 0, 0, 0, 1]);

const SERVER: Mac = Mac([0x52, 0x54, 0, 0, 0, 2]);

/// An ARP request and its reply, as two Linux hosts sent them over a virtual Ethernet link, and
/// the reply padded to the least length of a frame on a real one.
const REQUEST: [u8; 42] = [
    0xff, 0xff, 0xff, 0xff, 0xff, 0xff, 0x52, 0x54, 0x00, 0x00, 0x00, 0x01, 0x08, 0x06, 0x00, 0x01,
    0x08, 0x00, 0x06, 0x04, 0x00, 0x01, 0x52, 0x54, 0x00, 0x00, 0x00, 0x01, 0x0a, 0x00, 0x00, 0x02,
    0x00, 0x00, 0x00, 0x00, 0x00, 0x00, 0x0a, 0x00, 0x00, 0x01,
];

const REPLY: [u8; 42] = [
    0x52, 0x54, 0x00, 0x00, 0x00, 0x01, 0x52, 0x54, 0x00, 0x00, 0x00, 0x02, 0x08, 0x06, 0x00, 0x01,
    0x08, 0x00, 0x06, 0x04, 0x00, 0x02, 0x52, 0x54, 0x00, 0x00, 0x00, 0x02, 0x0a, 0x00, 0x00, 0x01,
    0x52, 0x54, 0x00, 0x00, 0x00, 0x01, 0x0a, 0x00, 0x00, 0x02,
];

const PADDED_REPLY: [u8; 60] = [
    0x52, 0x54, 0x00, 0x00, 0x00, 0x01, 0x52, 0x54, 0x00, 0x00, 0x00, 0x02, 0x08, 0x06, 0x00, 0x01,
    0x08, 0x00, 0x06, 0x04, 0x00, 0x02, 0x52, 0x54, 0x00, 0x00, 0x00, 0x02, 0x0a, 0x00, 0x00, 0x01,
    0x52, 0x54, 0x00, 0x00, 0x00, 0x01, 0x0a, 0x00, 0x00, 0x02, 0, 0, 0, 0, 0, 0, 0, 0, 0, 0, 0, 0,
    0, 0, 0, 0, 0, 0,
];

#[test]
fn captured_arp(rt: HostRuntime) {
    let asked = Arp {
        op: ARP_REQUEST,
        sha: CLIENT,
        spa: Ip4(0x0a000002),
        tha: Mac([0; 6]),
        tpa: Ip4(0x0a000001),
    };
    let told = Arp {
        op: ARP_REPLY,
        sha: SERVER,
        spa: Ip4(0x0a000001),
        tha: CLIENT,
        tpa: Ip4(0x0a000002),
    };
    let rows: [(&[u8], Mac, Arp); 3] = [
        (&REQUEST, Mac([0xff; 6]), asked),
        (&REPLY, CLIENT, told),
        (&PADDED_REPLY, CLIENT, told),
    ];
    for (number, (bytes, dst, arp)) in rows.iter().enumerate() {
        let frame = EtherFrame::read(bytes).expect(&rt, "a frame");
        assert_eq!(rt;
            (frame.dst, frame.src, frame.kind, Arp::read(frame.body)),
            (*dst, arp.sha, KIND_ARP, Some(*arp)),
            "row {number}"
        );
    }
}

#[test]
fn written_arp(rt: HostRuntime) {
    let message = Arp {
        op: ARP_REPLY,
        sha: SERVER,
        spa: Ip4(0x0a000001),
        tha: CLIENT,
        tpa: Ip4(0x0a000002),
    };
    let mut body = [0; 28];
    let mut arp_out = Out::new(&mut body);
    assert!(rt; message.write(&mut arp_out).is_ok());
    let frame = EtherFrame {
        dst: CLIENT,
        src: SERVER,
        kind: KIND_ARP,
        body: arp_out.written(),
    };
    let mut whole = [0; 42];
    let mut frame_out = Out::new(&mut whole);
    assert!(rt; frame.write(&mut frame_out).is_ok());
    assert_eq!(rt; frame_out.written(), REPLY.as_slice());
}
