//! A segment.

ghost use Rattle.std.specs.Prelude.{◌≡◌, ℕ, Option, ◌+◌, ◌*◌, ◌/◌, ◌%◌, ◌<◌, ◌≤◌, ◌^◌, ◌++◌, ◌↔◌, length, take, slice_index, IfSome, IfNone, IsSomeAnd, IsErr, OnOk, OnErr, MatchBool};
ghost use Rattle.std.specs.Option.{unwrap_or};
ghost use Rattle.nb_wire.specs.Checksum.{checksum, HasSum};
ghost use Rattle.nb_tcpseg.specs.SegmentText.{tcp_pseudo_header, IsIntact, sent_header_len};

use crate::options::mss_of;
use nb_ipv4::PROTO_TCP;
use nb_wire::{Full, Ip4, Out, is_intact_after, sum16};

/// The flag of a segment after which the sender has no more data.
pub const FIN: u8 = 1;

/// The flag of a segment that begins a connection.
pub const SYN: u8 = 2;

/// The flag of a segment that resets the connection.
pub const RST: u8 = 4;

/// The flag of a segment whose data should be delivered at once.
pub const PSH: u8 = 8;

/// The flag of a segment whose acknowledgement number counts.
pub const ACK: u8 = 16;

/// The bytes of a header without options.
const FIXED_LEN: usize = 20;

/// The most bytes of a segment: the pseudo-header has their number in 16 bits.
const MOST_LEN: usize = 65_535;

/// The least data offset: five words, in the high half of the byte.
const LEAST_OFFSET: u8 = 0x50;

/// A TCP segment (RFC 9293, section 3.1).
#[derive(Clone, Copy, Debug, PartialEq, Eq)]
pub struct Segment<'a> {
    /// The port that sent it.
    pub src_port: u16,
    /// The port that it is for.
    pub dst_port: u16,
    /// The sequence number of its first byte, or of its SYN.
    pub seq: u32,
    /// The sequence number that the sender expects next, where the flag ACK is set.
    pub ack: u32,
    /// `FIN`, `SYN`, `RST`, `PSH`, `ACK` and others, added up.
    pub flags: u8,
    /// How many bytes the sender takes from `ack` on, unscaled.
    pub window: u16,
    /// The maximum segment size, where an option gives one.
    pub mss: Option<u16>,
    /// The bytes after the options.
    pub body: &'a [u8],
}

impl<'a> Segment<'a> {
    ghost use Rattle.nb_tcpseg.specs.SegmentText.{SegmentParts, IsLaidOut, IsSegment, segment_parts, segment_text, tcp_header, mss_option, sent_segment, Fits};

    /// The segment between these addresses that the bytes are, if they are one.
    #[inline(always)]
    pub fn read(src: Ip4, dst: Ip4, bytes: &'a [u8]) -> Option<Segment<'a>>
        ensures sound { IfSome result (λ s. IsSegment src dst bytes.now (segment_parts s)) }
        ensures complete { (s : SegmentParts) → IsSegment src dst bytes.now s
            → IsSomeAnd result (λ found. segment_parts found ≡ s) }
    {
        let segment = Segment::parse(bytes)?;
        if !is_intact(src, dst, bytes) {
            return None;
        }
        Some(segment)
    }

    /// The segment that the bytes are laid out as, whatever their checksum says: for bytes that a layer below has summed.
    #[inline(always)]
    pub fn parse(bytes: &'a [u8]) -> Option<Segment<'a>>
        ensures sound { IfSome result (λ s. IsLaidOut bytes.now (segment_parts s)) }
        ensures complete { (s : SegmentParts) → IsLaidOut bytes.now s
            → IsSomeAnd result (λ found. segment_parts found ≡ s) }
    {
        let (fixed, _) = bytes.split_first_chunk::<20>()?;
        let [
            s0,
            s1,
            d0,
            d1,
            q0,
            q1,
            q2,
            q3,
            a0,
            a1,
            a2,
            a3,
            offset,
            flags,
            w0,
            w1,
            ..
        ] = *fixed;
        let header_len = header_len(offset)?;
        if bytes.len() < header_len || bytes.len() > MOST_LEN {
            return None;
        }
        let (header, body) = bytes.split_at(header_len);
        let (_, options) = header.split_at(FIXED_LEN);
        let mss = mss_of(options)?;
        Some(Segment {
            src_port: u16::from_be_bytes([s0, s1]),
            dst_port: u16::from_be_bytes([d0, d1]),
            seq: u32::from_be_bytes([q0, q1, q2, q3]),
            ack: u32::from_be_bytes([a0, a1, a2, a3]),
            flags,
            window: u16::from_be_bytes([w0, w1]),
            mss,
            body,
        })
    }

    /// Puts the segment's bytes with its checksum between these addresses: the header, with the maximum
    /// segment size as its only option, and the body. Their length is a number of 16 bits, as the
    /// pseudo-header has it, and that of an IPv4 packet.
    pub fn write(&self, src: Ip4, dst: Ip4, out: &mut Out<'_>) -> Result<(), Full>
        requires { sent_header_len self.now.mss + length self.now.body.now < 2 ^ 16 }
        ensures full { IsErr result
            ↔ (out.old.left < sent_header_len self.now.mss + length self.now.body.now) }
        ensures appended { OnOk result
            (out.new.written ≡ out.old.written ++ sent_segment src dst (segment_parts self.now)) }
        ensures room { OnOk result
            (out.new.left + (sent_header_len self.now.mss + length self.now.body.now) ≡ out.old.left) }
        ensures refused { OnErr result (out.new ≡ out.old) }
        ensures readable { IsSegment src dst (sent_segment src dst (segment_parts self.now))
            (segment_parts self.now) }
    {
        let header_len = sent_header_len(self.mss);
        let total = (header_len + self.body.len()) as u16;
        let pseudo = pseudo_bytes(src, dst, total);
        let sum = covered_sum(&pseudo, &self.header(0), header_len, self.body);
        out.put_both(&self.header(sum)[..header_len], self.body)
    }

    /// The header with checksum 0, for a layer below that fills it in: the first `header_len` bytes.
    #[inline(always)]
    pub fn unsummed_header(&self) -> [u8; 24]
        ensures { take (sent_header_len self.now.mss) result ++ self.now.body.now
            ≡ segment_text (segment_parts self.now) 0 }
    {
        self.header(0)
    }

    /// How many bytes the header has with the options that are sent.
    #[inline(always)]
    pub fn header_len(&self) -> usize
        ensures value { result ≡ sent_header_len self.now.mss }
        ensures most { result ≤ 24 }
    {
        sent_header_len(self.mss)
    }

    // The header with this checksum, and with room for the maximum segment size where there is none.
    #[inline(always)]
    fn header(&self, checksum: u16) -> [u8; 24]
        ensures value { result ≡ tcp_header (segment_parts self.now) (4 * sent_header_len self.now.mss) checksum 0
            ++ mss_option (unwrap_or self.now.mss 0) }
        ensures fits { Fits (segment_parts self.now) × (self.now.flags < 256)
            × (unwrap_or self.now.mss 0 < 2 ^ 16) }
    {
        let [s0, s1] = self.src_port.to_be_bytes();
        let [d0, d1] = self.dst_port.to_be_bytes();
        let [q0, q1, q2, q3] = self.seq.to_be_bytes();
        let [a0, a1, a2, a3] = self.ack.to_be_bytes();
        let offset = (4 * sent_header_len(self.mss)) as u8;
        let [w0, w1] = self.window.to_be_bytes();
        let [c0, c1] = checksum.to_be_bytes();
        let [m0, m1] = self.mss.unwrap_or(0).to_be_bytes();
        let f = self.flags;
        [
            s0, s1, d0, d1, q0, q1, q2, q3, a0, a1, a2, a3, offset, f, w0, w1, c0, c1, 0, 0, 2, 4,
            m0, m1,
        ]
    }
}

// The length of a header in bytes, by the byte of its data offset.
#[inline(always)]
fn header_len(offset: u8) -> Option<usize>
    ensures none { IfNone result (offset < 80) }
    ensures length { IfSome result (λ n. (n ≡ 4 * (offset / 16)) × (80 ≤ offset)) }
{
    if offset < LEAST_OFFSET {
        return None;
    }
    Some(4 * usize::from(offset / 16))
}

#[inline(always)]
fn sent_header_len(mss: Option<u16>) -> usize
    ensures value { result ≡ sent_header_len mss }
    ensures most { result ≤ 24 }
    ensures even { result % 4 ≡ 0 }
{
    if mss.is_some() {
        FIXED_LEN + 4
    } else {
        FIXED_LEN
    }
}

// What the checksum covers before the segment.
fn pseudo_bytes(src: Ip4, dst: Ip4, len: u16) -> [u8; 12]
    ensures { result ≡ tcp_pseudo_header src dst len }
{
    let [s0, s1, s2, s3] = src.0.to_be_bytes();
    let [d0, d1, d2, d3] = dst.0.to_be_bytes();
    let [l0, l1] = len.to_be_bytes();
    [s0, s1, s2, s3, d0, d1, d2, d3, 0, PROTO_TCP, l0, l1]
}

// A number that stands for the words of the pseudo-header: in their sum a carry counts as 1, so each
// address is added as one number.
#[inline(always)]
fn pseudo_total(src: Ip4, dst: Ip4, len: u16) -> u64
    ensures sum { HasSum (tcp_pseudo_header src dst len) result }
    ensures room { result < 2 ^ 40 }
{
    u64::from(src.0) + u64::from(dst.0) + u64::from(PROTO_TCP) + u64::from(len)
}

#[inline(always)]
fn is_intact(src: Ip4, dst: Ip4, bytes: &[u8]) -> bool
    ensures { MatchBool result (IsIntact src dst bytes.now) (IsIntact src dst bytes.now → ⊥) }
{
    let Ok(len) = u16::try_from(bytes.len()) else {
        return false;
    };
    is_intact_after(pseudo_total(src, dst, len), bytes)
}

// The checksum of a pseudo-header, so much of a header, and a body.
fn covered_sum(pseudo: &[u8; 12], header: &[u8; 24], header_len: usize, body: &[u8]) -> u16
    requires least { header_len ≤ 24 }
    requires even { header_len % 4 ≡ 0 }
    requires room { header_len + length body.now < 2 ^ 16 }
    ensures value { result ≡ checksum (pseudo.now ++ take header_len header.now ++ body.now) }
    ensures bytes { (i : ℕ) → slice_index body.now i < 256 }
{
    let [p0, p1, p2, p3, p4, p5, p6, p7, p8, p9, pa, pb] = *pseudo;
    let [h0, h1, h2, h3, h4, h5, h6, h7, h8, h9, ha, hb, ..] = *header;
    let [.., i0, i1, i2, i3, i4, i5, i6, i7, i8, i9, ia, ib] = *header;
    let first = [
        p0, p1, p2, p3, p4, p5, p6, p7, p8, p9, pa, pb, h0, h1, h2, h3, h4, h5, h6, h7, h8, h9, ha,
        hb, i0, i1, i2, i3, i4, i5, i6, i7, i8, i9, ia, ib,
    ];
    sum16(&first[..12 + header_len], body)
}
