ghost use Rattle.std.specs.Prelude.{◌≡◌, ◌+◌, ◌%◌, ◌<◌, ◌≤◌, ◌^◌, ◌++◌, ◌↔◌, ◌⊎◌, length, IfSome, IsSomeAnd, IsErr, OnOk, OnErr, MatchBool};
ghost use Rattle.nb_wire.specs.Checksum.{checksum, HasSum};
ghost use Rattle.nb_ipv4.specs.UdpText.{UdpParts, udp_header, pseudo_header, sent_field};

use crate::packet::PROTO_UDP;
use nb_wire::{Full, Ip4, Out, is_intact_after, sum_of_address, sum16_after};

/// The bytes of a UDP header.
const HEADER_LEN: u16 = 8;

/// A UDP datagram (RFC 768).
#[derive(Clone, Copy, Debug, PartialEq, Eq)]
pub struct Udp<'a> {
    /// The port that sent it.
    pub src_port: u16,
    /// The port that it is for.
    pub dst_port: u16,
    /// The bytes between the header and the end that the header's length gives.
    pub body: &'a [u8],
}

impl<'a> Udp<'a> {
    ghost use Rattle.nb_ipv4.specs.UdpText.{IsUdp, udp_parts, sent_udp, sent_datagram};

    /// The datagram between these addresses that the body of an IPv4 packet is, if it is one. Bytes
    /// may follow it.
    #[inline(always)]
    pub fn read(src: Ip4, dst: Ip4, bytes: &'a [u8]) -> Option<Udp<'a>>
        ensures sound { IfSome result (λ d. IsUdp src dst bytes.now (udp_parts d)) }
        ensures complete { (d : UdpParts) → IsUdp src dst bytes.now d
            → IsSomeAnd result (λ e. udp_parts e ≡ d) }
    {
        let (fixed, _) = bytes.split_first_chunk::<8>()?;
        let [s0, s1, d0, d1, l0, l1, c0, c1] = *fixed;
        let len = u16::from_be_bytes([l0, l1]);
        if len < HEADER_LEN || bytes.len() < usize::from(len) {
            return None;
        }
        let (datagram, _) = bytes.split_at(usize::from(len));
        let field = u16::from_be_bytes([c0, c1]);
        if !is_intact(field, src, dst, datagram) {
            return None;
        }
        let (_, body) = datagram.split_at(usize::from(HEADER_LEN));
        Some(Udp {
            src_port: u16::from_be_bytes([s0, s1]),
            dst_port: u16::from_be_bytes([d0, d1]),
            body,
        })
    }

    /// Puts the datagram's bytes with its checksum between these addresses.
    pub fn write(&self, src: Ip4, dst: Ip4, out: &mut Out<'_>) -> Result<(), Full>
        requires { length self.now.body.now ≤ 65527 }
        ensures full { IsErr result ↔ (out.old.left < 8 + length self.now.body.now) }
        ensures appended { OnOk result
            (out.new.written ≡ out.old.written ++ sent_datagram src dst (udp_parts self.now)) }
        ensures room { OnOk result (out.new.left + (8 + length self.now.body.now) ≡ out.old.left) }
        ensures refused { OnErr result (out.new ≡ out.old) }
        ensures readable { IsUdp src dst (sent_datagram src dst (udp_parts self.now))
            (udp_parts self.now) }
    {
        let head = Udp::head(src, dst, self.src_port, self.dst_port, &[], self.body);
        out.put_both(&head, self.body)
    }

    /// The eight bytes before a datagram's body, with the checksum between these addresses, for who
    /// puts the body's two parts after them.
    #[inline(always)]
    pub fn head(
        src: Ip4,
        dst: Ip4,
        src_port: u16,
        dst_port: u16,
        first: &[u8],
        second: &[u8],
    ) -> [u8; 8]
        requires even { length first.now % 2 ≡ 0 }
        requires room { length first.now + length second.now ≤ 65527 }
        ensures value { result ++ (first.now ++ second.now)
            ≡ sent_datagram src dst (sent_udp src_port dst_port first.now second.now) }
        ensures readable { IsUdp src dst
            (sent_datagram src dst (sent_udp src_port dst_port first.now second.now))
            (sent_udp src_port dst_port first.now second.now) }
    {
        let len = HEADER_LEN + (first.len() + second.len()) as u16;
        let before = covered_sum(src, dst, src_port, dst_port, len);
        let field = field_of(sum16_after(before, first, second));
        header_bytes(src_port, dst_port, len, field)
    }
}

// The sum of the words of the pseudo-header, which the checksum covers before the datagram.
#[inline(always)]
fn pseudo_sum(src: Ip4, dst: Ip4, len: u16) -> u32
    ensures sum { HasSum (pseudo_header src dst len) result }
    ensures room { result < 2 ^ 20 }
{
    sum_of_address(src) + sum_of_address(dst) + u32::from(PROTO_UDP) + u32::from(len)
}

// A number that stands for the words of the pseudo-header: in their sum a carry counts as 1, so each
// address is added as one number.
#[inline(always)]
fn pseudo_total(src: Ip4, dst: Ip4, len: u16) -> u64
    ensures sum { HasSum (pseudo_header src dst len) result }
    ensures room { result < 2 ^ 40 }
{
    u64::from(src.0) + u64::from(dst.0) + u64::from(PROTO_UDP) + u64::from(len)
}

// The sum of the words of the pseudo-header and of a header whose checksum is 0.
#[inline(always)]
fn covered_sum(src: Ip4, dst: Ip4, src_port: u16, dst_port: u16, len: u16) -> u32
    ensures { (d : UdpParts) → d.src_port ≡ src_port → d.dst_port ≡ dst_port
        → 8 + length d.body ≡ len → HasSum (pseudo_header src dst len ++ udp_header d 0) result }
{
    let ports = u32::from(src_port) + u32::from(dst_port);
    pseudo_sum(src, dst, len) + ports + u32::from(len)
}

#[inline(always)]
fn header_bytes(src_port: u16, dst_port: u16, len: u16, checksum: u16) -> [u8; 8]
    ensures value { (d : UdpParts) → d.src_port ≡ src_port → d.dst_port ≡ dst_port
        → 8 + length d.body ≡ len → result ≡ udp_header d checksum }
    ensures fits { (src_port < 2 ^ 16) × (dst_port < 2 ^ 16) }
{
    let [s0, s1] = src_port.to_be_bytes();
    let [d0, d1] = dst_port.to_be_bytes();
    let [l0, l1] = len.to_be_bytes();
    let [c0, c1] = checksum.to_be_bytes();
    [s0, s1, d0, d1, l0, l1, c0, c1]
}

// Without a checksum a datagram is taken as it is.
#[inline(always)]
fn is_intact(field: u16, src: Ip4, dst: Ip4, datagram: &[u8]) -> bool
    requires { length datagram.now < 65536 }
    ensures { let sum = checksum (pseudo_header src dst (length datagram.now) ++ datagram.now) in
        MatchBool result ((field ≡ 0) ⊎ (sum ≡ 0)) ((0 < field) × (0 < sum)) }
{
    field == 0 || is_intact_after(pseudo_total(src, dst, datagram.len() as u16), datagram)
}

// A computed 0 is sent as all ones, since 0 says that there is no checksum.
fn field_of(sum: u16) -> u16
    ensures { result ≡ sent_field sum }
{
    if sum == 0 { 0xffff } else { sum }
}
