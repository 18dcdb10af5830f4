//! A PDU as bytes (RFC 7143, section 11.1).

ghost use Rattle.std.specs.Prelude.{◌≡◌, ◌≤◌, ◌<◌, ◌+◌, ◌-◌, ◌++◌, ◌↔◌, Some, length, replicate, IsErr, IfSome, IfOk, OnOk, OnErr, option_map};
ghost use Rattle.nb_iscsipdu.specs.Heads.{word_at, lengths, padded_len};

use nb_terms::NoMemory;
use nb_wire::{Full, Out, Text};
use std::alloc::Global;

/// The bytes of a head.
pub const HEAD_LEN: usize = 48;
/// The most bytes of a data segment.
pub const MAX_SEGMENT: usize = 8_192;

/// The place in a head of the number of additional header segments and the data segment's length.
pub(crate) const LENGTHS: usize = 4;

const ZEROS: [u8; 3] = [0; 3];

/// A PDU, without digests and additional header segments.
#[derive(Clone, Copy, Drop)]
pub struct Pdu<'a> {
    /// The basic header segment.
    pub head: [u8; 48],
    /// The data segment, without its padding.
    pub seg: &'a [u8],
}

impl<'a> Pdu<'a> {
    ghost use Rattle.nb_iscsipdu.specs.PduTexts.{PduParts, IsPdu, IsPduText, pdu_parts, pdu_text};

    /// The PDU that the bytes are, with any padding, if they are one.
    pub fn read(bytes: &'a [u8]) -> Option<Pdu<'a>>
        ensures sound { IfSome result (λ p. IsPduText bytes.now (pdu_parts p)) }
        ensures complete { (p : PduParts) → IsPduText bytes.now p → option_map pdu_parts result ≡ Some p }
    {
        let (head, rest) = bytes.split_first_chunk::<48>()?;
        let len = segment_len(head)?;
        if rest.len() != padded_len(len) {
            return None;
        }
        Some(Pdu {
            head: *head,
            seg: &rest[..len],
        })
    }

    /// Puts the PDU, with zeros as its padding.
    pub fn write(&self, out: &mut Out<'_>) -> Result<(), Full>
        requires { IsPdu (pdu_parts self.now) }
        ensures full { IsErr result ↔ (out.old.left < length (pdu_text (pdu_parts self.now))) }
        ensures appended { OnOk result (out.new.written ≡ out.old.written ++ pdu_text (pdu_parts self.now)) }
        ensures room { OnOk result (out.new.left + length (pdu_text (pdu_parts self.now)) ≡ out.old.left) }
        ensures refused { OnErr result (out.new ≡ out.old) }
        // What was put is a spelling of the PDU, so `read` gives it back.
        ensures readable { IsPduText (pdu_text (pdu_parts self.now)) (pdu_parts self.now) }
    {
        let padding = padding_for(self.seg.len());
        if out.room() < HEAD_LEN + self.seg.len() + padding.len() {
            return Err(Full);
        }
        out.push(&self.head);
        out.push(self.seg);
        out.push(padding);
        Ok(())
    }

    /// The PDU as a text, with zeros as its padding.
    pub fn text(&self, alloc: Global) -> Result<Text, NoMemory>
        requires { IsPdu (pdu_parts self.now) }
        ensures text { IfOk result (λ text. text ≡ pdu_text (pdu_parts self.now)) }
        ensures readable { IsPduText (pdu_text (pdu_parts self.now)) (pdu_parts self.now) }
    {
        if self.seg.is_empty() {
            return head_text(alloc, &self.head);
        }
        let padding = padding_for(self.seg.len());
        let mut text = Vec::with_capacity(alloc, HEAD_LEN + self.seg.len() + padding.len())?;
        text.extend_from_slice(&self.head)?;
        text.extend_from_slice(self.seg)?;
        text.extend_from_slice(padding)?;
        Ok(Text::from_vec(text))
    }
}

/// The text of a PDU that is a head alone.
fn head_text(alloc: Global, head: &[u8; 48]) -> Result<Text, NoMemory>
    ensures { IfOk result (λ text. text ≡ head.now) }
{
    Ok(Text::from_vec(Vec::from_slice(alloc, head)?))
}

/// The big-endian number in four bytes of a head.
#[inline(always)]
pub(crate) fn word_at(head: &[u8; 48], place: usize) -> u32
    requires { place + 4 ≤ 48 }
    ensures { result ≡ word_at place head.now }
{
    u32::from_be_bytes([
        head[place],
        head[place + 1],
        head[place + 2],
        head[place + 3],
    ])
}

/// The data segment's length by a head, where there are no additional header segments and it is at most 8,192.
fn segment_len(head: &[u8; 48]) -> Option<usize>
    ensures some { IfSome result (λ len. (len ≡ lengths head.now) × (len ≤ 8192)) }
    ensures none { lengths head.now ≤ 8192 → result ≡ Some (lengths head.now) }
{
    let len = word_at(head, LENGTHS) as usize;
    if len > MAX_SEGMENT {
        return None;
    }
    Some(len)
}

/// A length rounded up to a multiple of 4.
pub(crate) fn padded_len(len: usize) -> usize
    requires { len ≤ 8192 }
    ensures value { result ≡ padded_len len }
    ensures least { len ≤ result }
    ensures most { result < len + 4 }
{
    (len + 3) / 4 * 4
}

/// The zeros after data of this length.
fn padding_for(len: usize) -> &'static [u8]
    requires { len ≤ 8192 }
    ensures { result.now ≡ replicate (padded_len len - len) 0 }
{
    &ZEROS[..padded_len(len) - len]
}
