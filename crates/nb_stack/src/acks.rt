//! Frames of a known length: those of the acknowledgements, which are most of what is sent. They cost less
//! than others, since their sums and copies have a known length.

ghost use Rattle.std.specs.Prelude.{◌≡◌, List, ℕ, ◌++◌, []};
ghost use Rattle.nb_ipv4.specs.UdpText.{sent_udp, sent_datagram};
ghost use Rattle.nb_stack.specs.Sends.{packet_between, with_checksum};

use crate::Stack;
use crate::envelope::Envelope;
use crate::put::{
    DATAGRAM_HEAD, Endpoints, SEGMENT_HEAD, frame_heads, header_with, pseudo_sum, with_head,
};
use crate::route::Way;
use nb_ipv4::{PROTO_TCP, PROTO_UDP, Udp};
use nb_wire::{Ip4, sum16_after};

impl Stack {
    ghost use Rattle.std.specs.Prelude.{◌≡◌, ℕ, List, [], IfSome};
    ghost use Rattle.nb_stack.specs.Envelope.{message_of};
    ghost use Rattle.nb_stack.specs.Acks.{GoesBetween, LeavesIn};

    /// The frame of a datagram of four bytes, as a transfer's acknowledgement is. None where the hardware
    /// address of its next hop isn't known, and where it goes to all hosts.
    #[inline(always)]
    pub fn short_datagram(&self, envelope: &Envelope, body: [u8; 4]) -> Option<[u8; 46]>
        requires { envelope.now.proto ≡ 17 }
        ensures { IfSome result (LeavesIn self.now (message_of envelope.now [] body)) }
    {
        let ends = self.ends(envelope)?;
        Some(datagram_frame(ends, envelope.own_port, envelope.to_port, body))
    }

    /// The frame of a segment that is a header alone, its checksum aside. None where the hardware address of
    /// its next hop isn't known.
    #[inline(always)]
    pub fn short_segment(&self, envelope: &Envelope, header: [u8; 20]) -> Option<[u8; 54]>
        requires { envelope.now.proto ≡ 6 }
        ensures { IfSome result (LeavesIn self.now (message_of envelope.now [] header)) }
    {
        let ends = self.ends(envelope)?;
        Some(segment_frame(ends, header))
    }

    // Between whom a message goes, where its next hop's hardware address is known.
    #[inline(always)]
    fn ends(&self, envelope: &Envelope) -> Option<Endpoints>
        ensures { IfSome result (λ ends. (body : List ℕ) → GoesBetween self.now (message_of envelope.now [] body) ends) }
    {
        let Way::Hop { from, hop } = self.way(envelope) else {
            return None;
        };
        let dst = self.near.mac(hop)?;
        Some(Endpoints {
            dst,
            src: self.mac,
            from,
            to: envelope.to,
        })
    }
}

#[inline(always)]
fn datagram_frame(ends: Endpoints, own_port: u16, to_port: u16, body: [u8; 4]) -> [u8; 46]
    ensures { result ≡ packet_between ends 17 (sent_datagram ends.from ends.to (sent_udp own_port to_port [] body)) }
{
    let head = Udp::head(ends.from, ends.to, own_port, to_port, &[], &body);
    let heads = frame_heads(ends, PROTO_UDP, DATAGRAM_HEAD + 4);
    with_body(with_head(heads, head), body)
}

#[inline(always)]
fn with_body(heads: [u8; 42], body: [u8; 4]) -> [u8; 46]
    ensures { result ≡ heads ++ body }
{
    let mut both = [0; 46];
    *both.last_chunk_mut().unwrap() = body;
    *both.first_chunk_mut().unwrap() = heads;
    both
}

#[inline(always)]
fn segment_frame(ends: Endpoints, fixed: [u8; 20]) -> [u8; 54]
    ensures { result ≡ packet_between ends 6 (with_checksum ends.from ends.to fixed) }
{
    let head = with_sum(ends.from, ends.to, fixed);
    with_header(frame_heads(ends, PROTO_TCP, SEGMENT_HEAD), head)
}

// The header of a segment that is nothing else, with its checksum in its place.
#[inline(always)]
fn with_sum(src: Ip4, dst: Ip4, fixed: [u8; 20]) -> [u8; 20]
    ensures { result ≡ with_checksum src dst fixed }
{
    let before = pseudo_sum(src, dst, SEGMENT_HEAD);
    let sum = sum16_after(before, &header_with(&fixed, 0), &[]);
    header_with(&fixed, sum)
}

#[inline(always)]
fn with_header(heads: [u8; 34], header: [u8; 20]) -> [u8; 54]
    ensures { result ≡ heads ++ header }
{
    let mut both = [0; 54];
    *both.last_chunk_mut().unwrap() = header;
    *both.first_chunk_mut().unwrap() = heads;
    both
}
