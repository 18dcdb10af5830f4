//! The message that a frame brings.

use crate::address::Addr;
use nb_ether::Arp;
use nb_ipv4::{Echo, Packet, Udp};
use nb_tcpseg::Segment;
use nb_wire::Mac;

/// The message that a frame brings a client.
#[derive(Clone, Copy)]
pub(crate) enum Message<'a> {
    /// None.
    Nothing,
    /// An ARP message, in a frame from this interface.
    HasArp {
        from: Mac,
        arp: Arp,
    },
    /// A UDP datagram, in this packet.
    HasDatagram {
        packet: Packet<'a>,
        datagram: Udp<'a>,
    },
    /// An echo request, in this packet, in a frame from this interface.
    HasRequest {
        from: Mac,
        packet: Packet<'a>,
        echo: Echo<'a>,
    },
    /// An echo reply, in this packet.
    HasReply {
        packet: Packet<'a>,
        echo: Echo<'a>,
    },
    /// A TCP segment, in this packet, in a frame from this interface.
    HasSegment {
        from: Mac,
        packet: Packet<'a>,
        segment: Segment<'a>,
    },
}
