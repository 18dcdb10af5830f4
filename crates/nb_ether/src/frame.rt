ghost use Rattle.std.specs.Prelude.{◌≡◌, ℕ, ◌+◌, ◌<◌, List, ◌++◌, ◌↔◌, length, IfSome, IsSomeAnd, IsErr, OnOk, OnErr};
ghost use Rattle.std.specs.Int.{w16, to_be_bytes};

use nb_wire::{Full, Mac, Out};

/// The kind of a frame whose body is an IPv4 packet (RFC 894).
pub const KIND_IPV4: u16 = 0x0800;

/// The kind of a frame whose body is an ARP message (RFC 826).
pub const KIND_ARP: u16 = 0x0806;

/// An Ethernet frame (RFC 894).
#[derive(Clone, Copy, Debug, PartialEq, Eq)]
pub struct EtherFrame<'a> {
    /// The interface that it is for.
    pub dst: Mac,
    /// The interface that sent it.
    pub src: Mac,
    /// What the body is: `KIND_IPV4`, `KIND_ARP` or another.
    pub kind: u16,
    /// All bytes after the kind, padding included.
    pub body: &'a [u8],
}

impl<'a> EtherFrame<'a> {
    ghost use Rattle.nb_ether.specs.Frame.{Frame, IsFrame, frame_of, frame_head, frame_text};

    /// The frame that the bytes are, if they are one.
    #[inline(always)]
    pub fn read(bytes: &'a [u8]) -> Option<EtherFrame<'a>>
        ensures sound { IfSome result (λ f. IsFrame bytes.now (frame_of f)) }
        ensures complete { (f : Frame) → IsFrame bytes.now f
            → IsSomeAnd result (λ g. frame_of g ≡ f) }
    {
        let (dst, rest) = bytes.split_first_chunk::<6>()?;
        let (src, rest) = rest.split_first_chunk::<6>()?;
        let (kind, body) = rest.split_first_chunk::<2>()?;
        Some(EtherFrame {
            dst: Mac(*dst),
            src: Mac(*src),
            kind: u16::from_be_bytes(*kind),
            body,
        })
    }

    /// Puts the frame's bytes.
    pub fn write(&self, out: &mut Out<'_>) -> Result<(), Full>
        ensures full { IsErr result ↔ (out.old.left < 14 + length self.now.body.now) }
        ensures appended { OnOk result
            (out.new.written ≡ out.old.written ++ frame_text (frame_of self.now)) }
        ensures room { OnOk result (out.new.left + (14 + length self.now.body.now) ≡ out.old.left) }
        ensures refused { OnErr result (out.new ≡ out.old) }
        ensures readable { IsFrame (frame_text (frame_of self.now)) (frame_of self.now) }
    {
        out.put_both(&EtherFrame::head(self.dst, self.src, self.kind), self.body)
    }

    /// The fourteen bytes before a frame's body, for who puts the body after them.
    #[inline(always)]
    pub fn head(dst: Mac, src: Mac, kind: u16) -> [u8; 14]
        ensures value { result ≡ frame_head dst src kind }
        ensures readable { (body : List ℕ) → IsFrame (frame_head dst src kind ++ body)
            (record { dst = dst; src = src; kind = kind; body = body }) }
    {
        let Mac(address) = dst;
        let mut head = [0; 14];
        *head.last_chunk_mut().unwrap() = after_dst(src, kind);
        *head.first_chunk_mut().unwrap() = address;
        head
    }
}

// What follows the first address of a frame. The addresses are copied whole, and not byte by byte.
#[inline(always)]
fn after_dst(src: Mac, kind: u16) -> [u8; 8]
    ensures { result ≡ src.0 ++ to_be_bytes w16 kind }
{
    let Mac(address) = src;
    let mut rest = [0; 8];
    *rest.last_chunk_mut().unwrap() = kind.to_be_bytes();
    *rest.first_chunk_mut().unwrap() = address;
    rest
}
