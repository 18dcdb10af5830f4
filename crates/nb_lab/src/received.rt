//! What a frame brings the servers.

ghost use Rattle.std.specs.Prelude.{◌≡◌, ◌⊎◌, ◌↔◌, IsTrue, IfSome, IsSomeAnd};
ghost use Rattle.nb_ether.specs.Frame.{frame_of};
ghost use Rattle.nb_ipv4.specs.PacketText.{packet_parts};
ghost use Rattle.nb_ipv4.specs.UdpText.{UdpParts, IsUdp};
ghost use Rattle.nb_tcpseg.specs.SegmentText.{SegmentParts, IsSegment};
ghost use Rattle.nb_tftpmsg.specs.Packets.{Message, IsTftpPacket};
ghost use Rattle.nb_lab.specs.Hosts.{server_mac, broadcast_mac};
ghost use Rattle.nb_lab.specs.Bringing.{FrameBrought, packet as packet_from, segment as segment_from, FrameBrings, FrameBringsIn, IsPacketIn, peer_of, brought};

use crate::hosts::{EVERYONE, Peer, SERVER, SERVER_MAC};
use nb_ether::{ARP_REQUEST, Arp, EtherFrame, KIND_ARP, KIND_IPV4};
use nb_ipv4::{PROTO_TCP, PROTO_UDP, Packet, Udp};
use nb_tcpseg::Segment;
use nb_tftpmsg::Tftp;
use nb_wire::{Ip4, Mac};

/// What a frame brings.
#[derive(Clone, Copy, Debug)]
pub enum Received<'a> {
    /// A host asks for the servers' interface.
    Question {
        mac: Mac,
        ip: Ip4,
    },
    /// A packet of TFTP, to a port.
    Packet {
        from: Peer,
        port: u16,
        packet: Tftp<'a>,
    },
    /// A segment.
    Segment {
        from: Peer,
        segment: Segment<'a>,
    },
}

/// What a frame brings, if anything.
pub fn read_frame(bytes: &[u8]) -> Option<Received<'_>>
    ensures sound { IfSome result (λ r. FrameBrings bytes.now (brought r)) }
    ensures complete { (b : FrameBrought) → FrameBrings bytes.now b → IsSomeAnd result (λ r. brought r ≡ b) }
{
    let frame = EtherFrame::read(bytes)?;
    if !is_for_servers(frame.dst) {
        return None;
    }
    match frame.kind {
        KIND_ARP => question_in(frame),
        KIND_IPV4 => message_in(frame),
        _ => None,
    }
}

fn is_for_servers(dst: Mac) -> bool
    ensures { IsTrue result ↔ (dst ≡ server_mac) ⊎ (dst ≡ broadcast_mac) }
{
    dst == SERVER_MAC || dst == EVERYONE
}

fn question_in<'a>(frame: EtherFrame<'a>) -> Option<Received<'a>>
    requires { frame.kind ≡ 2054 }
    ensures sound { IfSome result (λ r. FrameBringsIn (frame_of frame.entry) (brought r)) }
    ensures complete { (b : FrameBrought) → FrameBringsIn (frame_of frame.entry) b → IsSomeAnd result (λ r. brought r ≡ b) }
{
    let arp = Arp::read(frame.body)?;
    if arp.op != ARP_REQUEST || arp.tpa != SERVER {
        return None;
    }
    Some(Received::Question {
        mac: arp.sha,
        ip: arp.spa,
    })
}

fn message_in<'a>(frame: EtherFrame<'a>) -> Option<Received<'a>>
    requires { frame.kind ≡ 2048 }
    ensures sound { IfSome result (λ r. FrameBringsIn (frame_of frame.entry) (brought r)) }
    ensures complete { (b : FrameBrought) → FrameBringsIn (frame_of frame.entry) b → IsSomeAnd result (λ r. brought r ≡ b) }
{
    let packet = Packet::read(frame.body)?;
    if packet.dst != SERVER {
        return None;
    }
    match packet.proto {
        PROTO_UDP => datagram_in(frame, packet),
        PROTO_TCP => segment_in(frame, packet),
        _ => None,
    }
}

fn datagram_in<'a>(frame: EtherFrame<'a>, packet: Packet<'a>) -> Option<Received<'a>>
    requires { IsPacketIn (frame_of frame) 17 (packet_parts packet) }
    ensures sound { IfSome result (λ r. FrameBringsIn (frame_of frame.entry) (brought r)) }
    ensures complete { let p = packet_parts packet.entry in (d : UdpParts) (text : Message)
        → IsUdp p.src p.dst p.body d → IsTftpPacket d.body text
        → IsSomeAnd result (λ r. brought r ≡ packet_from (peer_of (frame_of frame.entry) p d.src_port) d.dst_port text) }
{
    let udp = Udp::read(packet.src, packet.dst, packet.body)?;
    Some(Received::Packet {
        from: Peer {
            mac: frame.src,
            ip: packet.src,
            port: udp.src_port,
        },
        port: udp.dst_port,
        packet: Tftp::read(udp.body)?,
    })
}

fn segment_in<'a>(frame: EtherFrame<'a>, packet: Packet<'a>) -> Option<Received<'a>>
    requires { IsPacketIn (frame_of frame) 6 (packet_parts packet) }
    ensures sound { IfSome result (λ r. FrameBringsIn (frame_of frame.entry) (brought r)) }
    ensures complete { let p = packet_parts packet.entry in (parts : SegmentParts) → IsSegment p.src p.dst p.body parts
        → IsSomeAnd result (λ r. brought r ≡ segment_from (peer_of (frame_of frame.entry) p parts.src_port) parts) }
{
    let segment = Segment::read(packet.src, packet.dst, packet.body)?;
    Some(Received::Segment {
        from: Peer {
            mac: frame.src,
            ip: packet.src,
            port: segment.src_port,
        },
        segment,
    })
}
