ghost use Rattle.std.specs.Prelude.{◌≡◌};
ghost use Rattle.nb_stack.specs.Takes.{outcome, handed};

use nb_ipv4::{PROTO_TCP, Packet};
use nb_wire::Ip4;

/// What became of a frame that was taken.
#[derive(Clone, Copy, Debug, PartialEq, Eq)]
pub enum Taken<'a> {
    /// It brings nobody anything, or it was a message of the link, which the stack has noted.
    Drop,
    /// It asks for a reply, or is reset; the answer was put.
    Reply,
    /// It brings a message.
    To {
        /// Who bound the port.
        to: u64,
        /// The host that sent it.
        src: Ip4,
        /// The address that it was sent to.
        dst: Ip4,
        /// `PROTO_UDP`, `PROTO_TCP` or `PROTO_ICMP`.
        proto: u8,
        /// The port that it was sent from; 0 for an echo reply.
        src_port: u16,
        /// What follows the UDP header, the whole TCP segment, or what follows the sequence number of
        /// an echo reply.
        body: &'a [u8],
    },
}

/// What became of a message that was to be sent.
#[derive(Clone, Copy, Debug, PartialEq, Eq)]
pub enum Fate {
    /// Its frame was put.
    Sent,
    /// The next hop's hardware address isn't known: the ARP request for it was put in place of the
    /// message, which is to be sent again.
    Asked,
    /// The device is down, there is no address, or no gateway for other nets. Nothing was put.
    NoRoute,
}

// A segment is handed on whole, to who bound its port.
#[inline(always)]
pub(crate) fn whole_segment<'a>(to: u64, packet: Packet<'a>, src_port: u16) -> Taken<'a>
    ensures { outcome result ≡
        handed to packet.entry.src packet.entry.dst 6 src_port packet.entry.body.now }
{
    Taken::To {
        to,
        src: packet.src,
        dst: packet.dst,
        proto: PROTO_TCP,
        src_port,
        body: packet.body,
    }
}
