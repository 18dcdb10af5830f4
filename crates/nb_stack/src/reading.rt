//! The reading of a frame.

ghost use Rattle.std.specs.Prelude.{◌≡◌, ◌⊎◌, ◌↔◌, true, Some, IsSome, IfSome, IfNone, IsSomeAnd, IsTrue};
ghost use Rattle.nb_ether.specs.Frame.{Frame, IsFrame, frame_of};
ghost use Rattle.nb_ipv4.specs.PacketText.{IsPacket, packet_parts};
ghost use Rattle.nb_ipv4.specs.UdpText.{udp_parts};
ghost use Rattle.nb_ipv4.specs.EchoText.{EchoParts, IsEcho, IsEchoKind, echo_parts};
ghost use Rattle.nb_tcpseg.specs.SegmentText.{SegmentParts, IsSegment, segment_parts};
ghost use Rattle.nb_stack.specs.Owns.{owns, everyone};
ghost use Rattle.nb_stack.specs.Brings.{IsFrameFor, IsAddressed, IsEchoOf, BringsIn, BringsNone, datagram, segment, message_brought};

use crate::address::{ALL_HOSTS, Addr, DHCP_CLIENT, EVERYONE, is_own};
use crate::message::Message;
use nb_ether::{Arp, EtherFrame, KIND_ARP, KIND_IPV4};
use nb_ipv4::{ECHO_REQUEST, Echo, PROTO_ICMP, PROTO_TCP, PROTO_UDP, Packet, Udp};
use nb_tcpseg::Segment;
use nb_wire::{Ip4, Mac};

/// Where an IPv4 header names the protocol.
const PROTO_AT: usize = 9;

// The frame that the bytes are, if it is for a client with these addresses.
#[inline(always)]
pub(crate) fn frame_for<'a>(up: bool, mac: Mac, bytes: &'a [u8]) -> Option<EtherFrame<'a>>
    ensures sound { IfSome result (λ f. IsFrameFor up mac bytes.now (frame_of f)) }
    ensures complete { (f : Frame) → IsFrameFor up mac bytes.now f
        → IsSomeAnd result (λ g. frame_of g ≡ f) }
{
    if !up {
        return None;
    }
    let dst = dst_of(bytes)?;
    if is_for(mac, dst) {
        EtherFrame::read(bytes)
    } else {
        None
    }
}

// The interface that a frame is for. It is read before the rest.
#[inline(always)]
fn dst_of(bytes: &[u8]) -> Option<Mac>
    ensures { (f : Frame) → IsFrame bytes.now f → IsSomeAnd result (λ dst. dst ≡ f.dst) }
{
    let (dst, _) = bytes.split_first_chunk::<6>()?;
    Some(Mac(*dst))
}

// Most frames are for the client's own interface, so that the other test stands apart.
#[inline(always)]
fn is_for(mac: Mac, dst: Mac) -> bool
    ensures { IsTrue result ↔ (dst ≡ mac) ⊎ (dst ≡ everyone) }
{
    is_same(dst, mac) || is_everyone(dst)
}

// Two numbers are compared, and not six bytes.
#[inline(always)]
fn is_same(one: Mac, other: Mac) -> bool
    ensures { IsTrue result ↔ (one ≡ other) }
{
    let Mac([a, b, c, d, e, f]) = one;
    let Mac([g, h, i, j, k, l]) = other;
    u32::from_be_bytes([a, b, c, d]) == u32::from_be_bytes([g, h, i, j])
        && u16::from_be_bytes([e, f]) == u16::from_be_bytes([k, l])
}

#[inline(never)]
fn is_everyone(dst: Mac) -> bool
    ensures { IsTrue result ↔ (dst ≡ everyone) }
{
    dst == EVERYONE
}

// The packet of this protocol that the frame has, if it has one.
#[inline(always)]
pub(crate) fn packet_of<'a>(proto: u8, frame: EtherFrame<'a>) -> Option<Packet<'a>>
    ensures kind { IsSome result → frame.entry.kind ≡ 2048 }
    ensures packet { IfSome result (λ p. IsPacket frame.entry.body.now (packet_parts p)) }
    ensures proto { IfSome result (λ p. p.proto ≡ proto) }
{
    if frame.kind != KIND_IPV4 || frame.body.get(PROTO_AT) != Some(&proto) {
        return None;
    }
    let packet = Packet::read(frame.body)?;
    if packet.proto == proto {
        Some(packet)
    } else {
        None
    }
}

// The datagram that a frame has in this packet, if it is for a client with this address.
#[inline(always)]
pub(crate) fn datagram_of<'a>(
    address: Option<Addr>,
    frame: EtherFrame<'a>,
    packet: Packet<'a>,
) -> Option<Udp<'a>>
    requires kind { frame.kind ≡ 2048 }
    requires packet { IsPacket frame.body.now (packet_parts packet) }
    requires proto { packet.proto ≡ 17 }
    ensures sound { IfSome result (λ d. BringsIn address (frame_of frame.entry)
        (datagram (packet_parts packet.entry) (udp_parts d))) }
    ensures none { IfNone result (BringsNone address (frame_of frame.entry)) }
{
    let Some(datagram) = Udp::read(packet.src, packet.dst, packet.body) else {
        return None;
    };
    if is_addressed(address, packet.dst, datagram.dst_port) {
        Some(datagram)
    } else {
        None
    }
}

// The segment that a frame brings a client with this address, after the packet that it is in.
#[inline(always)]
pub(crate) fn segment_of<'a>(
    address: Option<Addr>,
    frame: EtherFrame<'a>,
) -> Option<(Packet<'a>, Segment<'a>)>
    ensures { IfSome result (λ found. BringsIn address (frame_of frame.entry)
        (segment frame.entry.src (packet_parts found.0) (segment_parts found.1))) }
{
    let packet = packet_of(PROTO_TCP, frame)?;
    let segment = segment_for(address, packet)?;
    Some((packet, segment))
}

// The message that a frame for a client with this address brings it.
pub(crate) fn message_in<'a>(address: Option<Addr>, frame: EtherFrame<'a>) -> Message<'a>
    ensures { BringsIn address (frame_of frame.entry) (message_brought result) }
{
    match frame.kind {
        KIND_ARP => arp_in(address, frame),
        KIND_IPV4 => packet_in(address, frame),
        _ => Message::Nothing,
    }
}

fn arp_in<'a>(address: Option<Addr>, frame: EtherFrame<'a>) -> Message<'a>
    requires { frame.kind ≡ 2054 }
    ensures { BringsIn address (frame_of frame.entry) (message_brought result) }
{
    match Arp::read(frame.body) {
        Some(arp) => Message::HasArp {
            from: frame.src,
            arp,
        },
        None => Message::Nothing,
    }
}

fn packet_in<'a>(address: Option<Addr>, frame: EtherFrame<'a>) -> Message<'a>
    requires { frame.kind ≡ 2048 }
    ensures { BringsIn address (frame_of frame.entry) (message_brought result) }
{
    match Packet::read(frame.body) {
        Some(packet) => carried_in(address, frame, packet),
        None => Message::Nothing,
    }
}

fn carried_in<'a>(address: Option<Addr>, frame: EtherFrame<'a>, packet: Packet<'a>) -> Message<'a>
    requires kind { frame.kind ≡ 2048 }
    requires packet { IsPacket frame.body.now (packet_parts packet) }
    ensures { BringsIn address (frame_of frame.entry) (message_brought result) }
{
    match packet.proto {
        PROTO_UDP => datagram_in(address, frame, packet),
        PROTO_ICMP => echo_in(address, frame, packet),
        PROTO_TCP => segment_in(address, frame, packet),
        _ => Message::Nothing,
    }
}

fn datagram_in<'a>(address: Option<Addr>, frame: EtherFrame<'a>, packet: Packet<'a>) -> Message<'a>
    requires kind { frame.kind ≡ 2048 }
    requires packet { IsPacket frame.body.now (packet_parts packet) }
    requires proto { packet.proto ≡ 17 }
    ensures { BringsIn address (frame_of frame.entry) (message_brought result) }
{
    match datagram_of(address, frame, packet) {
        Some(datagram) => Message::HasDatagram { packet, datagram },
        None => Message::Nothing,
    }
}

fn echo_in<'a>(address: Option<Addr>, frame: EtherFrame<'a>, packet: Packet<'a>) -> Message<'a>
    requires kind { frame.kind ≡ 2048 }
    requires packet { IsPacket frame.body.now (packet_parts packet) }
    requires proto { packet.proto ≡ 1 }
    ensures { BringsIn address (frame_of frame.entry) (message_brought result) }
{
    match echo_for(address, packet) {
        Some(echo) => echo_message(frame.src, packet, echo),
        None => Message::Nothing,
    }
}

fn echo_message<'a>(from: Mac, packet: Packet<'a>, echo: Echo<'a>) -> Message<'a>
    requires { IsEchoKind echo.kind }
    ensures { IsEchoOf from (packet_parts packet.entry) (echo_parts echo.entry) (message_brought result) }
{
    match echo.kind {
        ECHO_REQUEST => Message::HasRequest { from, packet, echo },
        _ => Message::HasReply { packet, echo },
    }
}

fn segment_in<'a>(address: Option<Addr>, frame: EtherFrame<'a>, packet: Packet<'a>) -> Message<'a>
    requires kind { frame.kind ≡ 2048 }
    requires packet { IsPacket frame.body.now (packet_parts packet) }
    requires proto { packet.proto ≡ 6 }
    ensures { BringsIn address (frame_of frame.entry) (message_brought result) }
{
    match segment_for(address, packet) {
        Some(segment) => Message::HasSegment {
            from: frame.src,
            packet,
            segment,
        },
        None => Message::Nothing,
    }
}

// Most datagrams are for the client's own address, so that the other tests stand apart.
#[inline(always)]
fn is_addressed(address: Option<Addr>, dst: Ip4, port: u16) -> bool
    ensures { IsTrue result ↔ IsAddressed address dst port }
{
    is_own(address, dst) || is_for_all(dst, port)
}

// Whether a datagram is for every host, or for one that needn't have an address yet.
#[inline(never)]
fn is_for_all(dst: Ip4, port: u16) -> bool
    ensures { IsTrue result ↔ (dst.0 ≡ ALL_HOSTS.0) ⊎ (port ≡ DHCP_CLIENT) }
{
    dst.0 == ALL_HOSTS.0 || port == DHCP_CLIENT
}

fn echo_for<'a>(address: Option<Addr>, packet: Packet<'a>) -> Option<Echo<'a>>
    ensures sound { let p = packet_parts packet.entry in IfSome result
        (λ e. IsEcho p.body (echo_parts e) × (owns address p.dst ≡ true)) }
    ensures complete { let p = packet_parts packet.entry in (e : EchoParts)
        → IsEcho p.body e → owns address p.dst ≡ true → IsSomeAnd result (λ f. echo_parts f ≡ e) }
{
    if is_own(address, packet.dst) {
        Echo::read(packet.body)
    } else {
        None
    }
}

#[inline(always)]
fn segment_for<'a>(address: Option<Addr>, packet: Packet<'a>) -> Option<Segment<'a>>
    ensures sound { let p = packet_parts packet.entry in IfSome result
        (λ s. IsSegment p.src p.dst p.body (segment_parts s) × (owns address p.dst ≡ true)) }
    ensures complete { let p = packet_parts packet.entry in (s : SegmentParts)
        → IsSegment p.src p.dst p.body s → owns address p.dst ≡ true
        → IsSomeAnd result (λ t. segment_parts t ≡ s) }
{
    if is_own(address, packet.dst) {
        Segment::read(packet.src, packet.dst, packet.body)
    } else {
        None
    }
}
