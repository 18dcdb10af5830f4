//! The frames that are put, part after part, into the room that is given.

ghost use Rattle.std.specs.Prelude.{◌≡◌, ℕ, ◌+◌, ◌*◌, ◌%◌, ◌<◌, ◌≤◌, ◌^◌, List, ◌++◌, None, length, take, drop, slice_index};
ghost use Rattle.std.specs.Int.{w16, to_be_bytes};
ghost use Rattle.nb_wire.specs.Checksum.{HasSum};
ghost use Rattle.nb_ipv4.specs.UdpText.{sent_udp, sent_datagram};
ghost use Rattle.nb_ipv4.specs.EchoText.{IsEchoKind, echo_of, sent_echo};
ghost use Rattle.nb_tcpseg.specs.SegmentText.{tcp_pseudo_header, segment_parts, sent_segment};
ghost use Rattle.nb_stack.specs.Envelope.{message_of};
ghost use Rattle.nb_stack.specs.Sends.{arp_frame, packet_between, message_frame, IsCarried, without_checksum, with_checksum};
ghost use Rattle.nb_stack.specs.Sizes.{IsFrameSize};

use crate::envelope::Envelope;
use nb_ether::{Arp, EtherFrame, KIND_ARP, KIND_IPV4};
use nb_ipv4::{ECHO_REQUEST, Echo, PROTO_ICMP, PROTO_TCP, PROTO_UDP, Packet, Udp};
use nb_tcpseg::Segment;
use nb_wire::{Ip4, Mac, Out, sum_of_address, sum16_after};

/// The bytes of a TCP header without options.
pub(crate) const SEGMENT_HEAD: u16 = 20;

/// The bytes of a UDP header.
pub(crate) const DATAGRAM_HEAD: u16 = 8;

/// Between whom a packet goes: the interfaces that its frame names, and the two hosts.
#[derive(Clone, Copy)]
pub(crate) struct Endpoints {
    pub(crate) dst: Mac,
    pub(crate) src: Mac,
    pub(crate) from: Ip4,
    pub(crate) to: Ip4,
}

// Puts an ARP message in a frame to this interface, from its sender's.
pub(crate) fn put_arp(dst: Mac, arp: &Arp, out: &mut Out<'_>)
    requires room { 1522 ≤ out.old.left }
    ensures put { out.new.written ≡ out.old.written ++ arp_frame dst arp.now }
    ensures size { IsFrameSize (length (arp_frame dst arp.now)) }
{
    put(&EtherFrame::head(dst, arp.sha, KIND_ARP), out);
    put(&arp.bytes(), out);
}

// Puts a message from this address, in a frame between these interfaces. Its body is `first` and then
// `second`.
#[inline(always)]
pub(crate) fn put_message(
    dst: Mac,
    src: Mac,
    from: Ip4,
    envelope: &Envelope,
    first: &[u8],
    second: &[u8],
    out: &mut Out<'_>,
)
    requires carried { IsCarried envelope.now.proto first.now }
    requires even { length first.now % 2 ≡ 0 }
    requires short { length first.now + length second.now ≤ 1480 }
    requires room { 1522 ≤ out.old.left }
    ensures put { out.new.written ≡ out.old.written
        ++ message_frame dst src from (message_of envelope.now first.now second.now) }
    ensures size { IsFrameSize
        (length (message_frame dst src from (message_of envelope.now first.now second.now))) }
{
    let to = envelope.to;
    match envelope.proto {
        PROTO_UDP => {
            let ends = Endpoints { dst, src, from, to };
            put_datagram(
                ends,
                envelope.own_port,
                envelope.to_port,
                first,
                second,
                out,
            )
        }
        _ => put_other(dst, src, from, envelope, first, second, out),
    }
}

// Puts a message that is no datagram.
#[inline(never)]
fn put_other(
    dst: Mac,
    src: Mac,
    from: Ip4,
    envelope: &Envelope,
    first: &[u8],
    second: &[u8],
    out: &mut Out<'_>,
)
    requires carried { IsCarried envelope.now.proto first.now }
    requires other { envelope.now.proto ≡ 17 → ⊥ }
    requires even { length first.now % 2 ≡ 0 }
    requires short { length first.now + length second.now ≤ 1480 }
    requires room { 1522 ≤ out.old.left }
    ensures put { out.new.written ≡ out.old.written
        ++ message_frame dst src from (message_of envelope.now first.now second.now) }
    ensures size { IsFrameSize
        (length (message_frame dst src from (message_of envelope.now first.now second.now))) }
{
    let to = envelope.to;
    let ends = Endpoints { dst, src, from, to };
    let (own, other) = (envelope.own_port, envelope.to_port);
    match envelope.proto {
        PROTO_ICMP => put_echo(ends, ECHO_REQUEST, own, other, first, second, out),
        _ => put_segment(ends, first, second, out),
    }
}

#[inline(never)]
fn put_datagram(
    ends: Endpoints,
    own_port: u16,
    to_port: u16,
    first: &[u8],
    second: &[u8],
    out: &mut Out<'_>,
)
    requires even { length first.now % 2 ≡ 0 }
    requires short { length first.now + length second.now ≤ 1480 }
    requires room { 1522 ≤ out.old.left }
    ensures put { let d = sent_udp own_port to_port first.now second.now in
        out.new.written
        ≡ out.old.written ++ packet_between ends 17 (sent_datagram ends.from ends.to d) }
    ensures size { let d = sent_udp own_port to_port first.now second.now in
        IsFrameSize (length (packet_between ends 17 (sent_datagram ends.from ends.to d))) }
{
    let head = Udp::head(ends.from, ends.to, own_port, to_port, first, second);
    let len = DATAGRAM_HEAD + (first.len() + second.len()) as u16;
    let heads = frame_heads(ends, PROTO_UDP, len);
    put(&with_head(heads, head), out);
    put(first, out);
    put(second, out);
}

// These heads and a datagram's as one array, which is stored at once.
#[inline(always)]
pub(crate) fn with_head(heads: [u8; 34], head: [u8; 8]) -> [u8; 42]
    ensures { result ≡ heads ++ head }
{
    let mut both = [0; 42];
    *both.last_chunk_mut().unwrap() = head;
    *both.first_chunk_mut().unwrap() = heads;
    both
}

// Puts an echo of this kind, identifier and sequence number.
#[inline(never)]
pub(crate) fn put_echo(
    ends: Endpoints,
    kind: u8,
    ident: u16,
    seq: u16,
    first: &[u8],
    second: &[u8],
    out: &mut Out<'_>,
)
    requires kind { IsEchoKind kind }
    requires even { length first.now % 2 ≡ 0 }
    requires short { length first.now + length second.now ≤ 1480 }
    requires room { 1522 ≤ out.old.left }
    ensures put { out.new.written ≡ out.old.written
        ++ packet_between ends 1 (sent_echo (echo_of kind ident seq first.now second.now)) }
    ensures size { IsFrameSize (length
        (packet_between ends 1 (sent_echo (echo_of kind ident seq first.now second.now)))) }
{
    let head = Echo::head(kind, ident, seq, first, second);
    put_packet(ends, PROTO_ICMP, &head, first, second, out)
}

// Puts the segment that these bytes are but for its checksum. Its header lies in `first`.
#[inline(never)]
fn put_segment(ends: Endpoints, first: &[u8], second: &[u8], out: &mut Out<'_>)
    requires whole { 20 ≤ length first.now }
    requires even { length first.now % 2 ≡ 0 }
    requires short { length first.now + length second.now ≤ 1480 }
    requires room { 1522 ≤ out.old.left }
    ensures put { let segment = with_checksum ends.from ends.to (first.now ++ second.now) in
        out.new.written ≡ out.old.written ++ packet_between ends 6 segment }
    ensures size { let segment = with_checksum ends.from ends.to (first.now ++ second.now) in
        IsFrameSize (length (packet_between ends 6 segment)) }
{
    let (fixed, options) = first.split_first_chunk::<20>().unwrap();
    let len = (first.len() + second.len()) as u16;
    let before = segment_sum(ends.from, ends.to, len, fixed);
    let head = header_with(fixed, sum16_after(before, options, second));
    put_packet(ends, PROTO_TCP, &head, options, second, out)
}

// Puts a segment that is a header alone.
pub(crate) fn put_header(ends: Endpoints, segment: &Segment<'_>, out: &mut Out<'_>)
    requires no_options { segment.now.mss ≡ None }
    requires no_body { length segment.now.body.now ≡ 0 }
    requires room { 1522 ≤ out.old.left }
    ensures put { let text = sent_segment ends.from ends.to (segment_parts segment.now) in
        out.new.written ≡ out.old.written ++ packet_between ends 6 text }
    ensures size { let text = sent_segment ends.from ends.to (segment_parts segment.now) in
        IsFrameSize (length (packet_between ends 6 text)) }
{
    put_heads(ends, PROTO_TCP, SEGMENT_HEAD, out);
    segment.write(ends.from, ends.to, out).unwrap();
}

// The sum of the words before a segment's options: those of the pseudo-header, and those of the
// header but for its checksum.
#[inline(always)]
fn segment_sum(src: Ip4, dst: Ip4, len: u16, fixed: &[u8; 20]) -> u32
    requires whole { length fixed.now ≡ 20 }
    requires bytes { (i : ℕ) → slice_index fixed.now i < 256 }
    ensures { HasSum (tcp_pseudo_header src dst len ++ without_checksum fixed.now) result }
{
    let [
        a0,
        a1,
        b0,
        b1,
        c0,
        c1,
        d0,
        d1,
        e0,
        e1,
        f0,
        f1,
        g0,
        g1,
        h0,
        h1,
        _,
        _,
        u0,
        u1,
    ] = *fixed;
    let ports = word(a0, a1) + word(b0, b1);
    let numbers = word(c0, c1) + word(d0, d1) + word(e0, e1) + word(f0, f1);
    let others = word(g0, g1) + word(h0, h1) + word(u0, u1);
    pseudo_sum(src, dst, len) + ports + numbers + others
}

// The sum of the words of the pseudo-header, which the checksum covers before the segment.
#[inline(always)]
pub(crate) fn pseudo_sum(src: Ip4, dst: Ip4, len: u16) -> u32
    ensures sum { HasSum (tcp_pseudo_header src dst len) result }
    ensures room { result < 2 ^ 20 }
{
    sum_of_address(src) + sum_of_address(dst) + u32::from(PROTO_TCP) + u32::from(len)
}

#[inline(always)]
fn word(high: u8, low: u8) -> u32
    ensures { result ≡ 256 * high + low }
{
    256 * u32::from(high) + u32::from(low)
}

// The header with this checksum in its place.
#[inline(always)]
pub(crate) fn header_with(fixed: &[u8; 20], checksum: u16) -> [u8; 20]
    ensures { result ≡ take 16 fixed.now ++ to_be_bytes w16 checksum ++ drop 18 fixed.now }
{
    let [c0, c1] = checksum.to_be_bytes();
    let mut header = *fixed;
    header[16] = c0;
    header[17] = c1;
    header
}

// Puts a packet whose body is `head`, `first` and then `second`.
#[inline(always)]
fn put_packet(
    ends: Endpoints,
    proto: u8,
    head: &[u8],
    first: &[u8],
    second: &[u8],
    out: &mut Out<'_>,
)
    requires short { length head.now + (length first.now + length second.now) ≤ 1488 }
    requires room { 1522 ≤ out.old.left }
    ensures put { out.new.written ≡ out.old.written
        ++ packet_between ends proto (head.now ++ (first.now ++ second.now)) }
    ensures size { IsFrameSize
        (length (packet_between ends proto (head.now ++ (first.now ++ second.now)))) }
{
    let len = (head.len() + first.len() + second.len()) as u16;
    put_heads(ends, proto, len, out);
    put(head, out);
    put(first, out);
    put(second, out);
}

// Puts what stands before the body of a packet between these endpoints. The body, whose bytes are
// `len`, is to be put after it.
#[inline(always)]
fn put_heads(ends: Endpoints, proto: u8, len: u16, out: &mut Out<'_>)
    requires short { len ≤ 1488 }
    requires room { 34 ≤ out.old.left }
    ensures put { (body : List ℕ) → length body ≡ len → out.new.written ++ body
        ≡ out.old.written ++ packet_between ends proto body }
    ensures size { (body : List ℕ) → length body ≡ len
        → length (packet_between ends proto body) ≡ 34 + len }
    ensures room { out.new.left + 34 ≡ out.old.left }
{
    put(&frame_heads(ends, proto, len), out);
}

// The heads of a frame and of the packet in it, whose body has `len` bytes.
#[inline(always)]
pub(crate) fn frame_heads(ends: Endpoints, proto: u8, len: u16) -> [u8; 34]
    requires { len ≤ 1488 }
    ensures put { (body : List ℕ) → length body ≡ len
        → result ++ body ≡ packet_between ends proto body }
    ensures size { (body : List ℕ) → length body ≡ len
        → length (packet_between ends proto body) ≡ 34 + len }
{
    let link = EtherFrame::head(ends.dst, ends.src, KIND_IPV4);
    let packet = Packet::head(ends.from, ends.to, proto, len);
    joined(link, packet)
}

// Both heads as one array, which is stored at once.
#[inline(always)]
fn joined(link: [u8; 14], packet: [u8; 20]) -> [u8; 34]
    ensures { result ≡ link ++ packet }
{
    let mut both = [0; 34];
    *both.last_chunk_mut().unwrap() = packet;
    *both.first_chunk_mut().unwrap() = link;
    both
}

#[inline(always)]
fn put(bytes: &[u8], out: &mut Out<'_>)
    requires { length bytes.now ≤ out.old.left }
    ensures put { out.new.written ≡ out.old.written ++ bytes.now }
    ensures room { out.new.left + length bytes.now ≡ out.old.left }
{
    out.push(bytes)
}
