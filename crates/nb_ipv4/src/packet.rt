ghost use Rattle.std.specs.Prelude.{◌≡◌, ℕ, List, ◌+◌, ◌-◌, ◌*◌, ◌%◌, ◌<◌, ◌≤◌, ◌^◌, ◌++◌, ◌↔◌, ◌⊎◌, length, IfSome, IsSomeAnd, IsErr, OnOk, OnErr, IfNone, MatchBool};
ghost use Rattle.std.specs.Int.{w32, to_be_bytes};
ghost use Rattle.nb_wire.specs.Checksum.{checksum, HasSum};
ghost use Rattle.nb_ipv4.specs.PacketText.{sent_parts, header_text, sent_header};

use nb_wire::{Full, Ip4, Out, is_intact_after, sum_of_address, sum16, sum16_of};

/// The protocol of a packet whose body is an ICMP message (RFC 792).
pub const PROTO_ICMP: u8 = 1;

/// The protocol of a packet whose body is a TCP segment (RFC 9293).
pub const PROTO_TCP: u8 = 6;

/// The protocol of a packet whose body is a UDP datagram (RFC 768).
pub const PROTO_UDP: u8 = 17;

/// An IPv4 packet that is no fragment (RFC 791).
#[derive(Clone, Copy, Debug, PartialEq, Eq)]
pub struct Packet<'a> {
    /// The host that sent it.
    pub src: Ip4,
    /// The host that it is for.
    pub dst: Ip4,
    /// What the body is: `PROTO_UDP`, `PROTO_TCP`, `PROTO_ICMP` or another.
    pub proto: u8,
    /// The bytes between the header and the end that the header's total length gives.
    pub body: &'a [u8],
}

impl<'a> Packet<'a> {
    ghost use Rattle.nb_ipv4.specs.PacketText.{PacketParts, IsPacket, packet_parts, sent_packet};

    /// The packet that the bytes are, if they are one. Padding may follow it.
    #[inline(always)]
    pub fn read(bytes: &'a [u8]) -> Option<Packet<'a>>
        ensures sound { IfSome result (λ p. IsPacket bytes.now (packet_parts p)) }
        ensures complete { (p : PacketParts) → IsPacket bytes.now p
            → IsSomeAnd result (λ q. packet_parts q ≡ p) }
    {
        let (fixed, _) = bytes.split_first_chunk::<20>()?;
        let [first, _, t0, t1, _, _, f0, f1, _, proto, ..] = *fixed;
        let [.., s0, s1, s2, s3, d0, d1, d2, d3] = *fixed;
        let header_len = header_len(first)?;
        let total_len = usize::from(u16::from_be_bytes([t0, t1]));
        if is_fragment(f0, f1) || total_len < header_len || bytes.len() < total_len {
            return None;
        }
        let (header, body) = bytes[..total_len].split_at(header_len);
        if !is_header_intact(header) {
            return None;
        }
        Some(Packet {
            src: Ip4(u32::from_be_bytes([s0, s1, s2, s3])),
            dst: Ip4(u32::from_be_bytes([d0, d1, d2, d3])),
            proto,
            body,
        })
    }

    /// Puts the packet's bytes: a header of 20 bytes with identification 0, don't-fragment and time
    /// to live 64, and the body.
    pub fn write(&self, out: &mut Out<'_>) -> Result<(), Full>
        requires { length self.now.body.now ≤ 65515 }
        ensures full { IsErr result ↔ (out.old.left < 20 + length self.now.body.now) }
        ensures appended { OnOk result
            (out.new.written ≡ out.old.written ++ sent_packet (packet_parts self.now)) }
        ensures room { OnOk result (out.new.left + (20 + length self.now.body.now) ≡ out.old.left) }
        ensures refused { OnErr result (out.new ≡ out.old) }
        ensures readable { IsPacket (sent_packet (packet_parts self.now)) (packet_parts self.now) }
    {
        let head = Packet::head(self.src, self.dst, self.proto, self.body.len() as u16);
        out.put_both(&head, self.body)
    }

    /// The 20 bytes before the body of a packet that is sent, for who puts the `len` bytes of the body
    /// after them.
    #[inline(always)]
    pub fn head(src: Ip4, dst: Ip4, proto: u8, len: u16) -> [u8; 20]
        requires { len ≤ 65515 }
        ensures value { (body : List ℕ) → length body ≡ len
            → result ++ body ≡ sent_packet (sent_parts src dst proto body) }
        ensures readable { (body : List ℕ) → length body ≡ len
            → IsPacket (sent_packet (sent_parts src dst proto body)) (sent_parts src dst proto body) }
    {
        let sum = sum16_of(header_sum(src, dst, proto, len));
        header_bytes(src, dst, proto, len, sum)
    }
}

// The sum of the words of a header whose checksum is 0.
#[inline(always)]
fn header_sum(src: Ip4, dst: Ip4, proto: u8, len: u16) -> u32
    requires { len ≤ 65515 }
    ensures { (body : List ℕ) → length body ≡ len
        → HasSum (header_text (sent_header 0) (sent_parts src dst proto body)) result }
{
    let first_words = 256 * u32::from(LEAST_FIRST) + 20 + u32::from(len);
    let middle_words = 256 * (u32::from(DONT_FRAGMENT) + u32::from(TIME_TO_LIVE))
        + u32::from(proto);
    first_words + middle_words + sum_of_address(src) + sum_of_address(dst)
}

#[inline(always)]
fn header_bytes(src: Ip4, dst: Ip4, proto: u8, len: u16, checksum: u16) -> [u8; 20]
    requires { len ≤ 65515 }
    ensures value { (body : List ℕ) → length body ≡ len
        → result ≡ header_text (sent_header checksum) (sent_parts src dst proto body) }
    ensures fits { (src.0 < 2 ^ 32) × (dst.0 < 2 ^ 32) × (proto < 256) }
{
    let [t0, t1] = (20 + len).to_be_bytes();
    let [c0, c1] = checksum.to_be_bytes();
    let mut header = [
        LEAST_FIRST,
        0,
        t0,
        t1,
        0,
        0,
        DONT_FRAGMENT,
        0,
        TIME_TO_LIVE,
        proto,
        c0,
        c1,
        0,
        0,
        0,
        0,
        0,
        0,
        0,
        0,
    ];
    *header.last_chunk_mut().unwrap() = addresses(src, dst);
    header
}

// Both addresses as a header has them. Each is stored as one number, and not byte by byte.
#[inline(always)]
fn addresses(src: Ip4, dst: Ip4) -> [u8; 8]
    ensures { result ≡ to_be_bytes w32 src.0 ++ to_be_bytes w32 dst.0 }
{
    let mut both = [0; 8];
    *both.last_chunk_mut().unwrap() = dst.0.to_be_bytes();
    *both.first_chunk_mut().unwrap() = src.0.to_be_bytes();
    both
}

/// The first byte of a header without options: version 4 and a length of five words.
const LEAST_FIRST: u8 = 0x45;

/// The first byte of the longest header: version 4 and a length of fifteen words.
const MOST_FIRST: u8 = 0x4f;

/// The don't-fragment bit in the first byte of flags and fragment offset.
const DONT_FRAGMENT: u8 = 0x40;

/// The time to live of a packet that is sent.
const TIME_TO_LIVE: u8 = 64;

// The length of a header in bytes, by its first byte.
fn header_len(first: u8) -> Option<usize>
    ensures none { IfNone result ((first < 69) ⊎ (79 < first)) }
    ensures length { IfSome result (λ n. (n ≡ 4 * (first - 64)) × (69 ≤ first) × (first ≤ 79)) }
{
    match first {
        LEAST_FIRST..=MOST_FIRST => Some(4 * usize::from(first - 0x40)),
        _ => None,
    }
}

// More fragments follow, or the packet is not the first one. The reserved bit is passed over.
fn is_fragment(high: u8, low: u8) -> bool
    ensures { MatchBool result ((0 < high % 64) ⊎ (0 < low)) ((high % 64 ≡ 0) × (low ≡ 0)) }
{
    high % DONT_FRAGMENT != 0 || low != 0
}

#[inline(always)]
fn is_header_intact(header: &[u8]) -> bool
    requires even { length header.now % 2 ≡ 0 }
    requires room { length header.now ≤ 60 }
    ensures { MatchBool result (checksum header.now ≡ 0) (0 < checksum header.now) }
{
    match header.first_chunk::<20>() {
        Some(fixed) if header.len() == 20 => is_intact_after(0, fixed),
        _ => sum16(header, &[]) == 0,
    }
}
