//! The answer to a segment for a port that isn't bound (RFC 9293, section 3.10.7.1).

ghost use Rattle.std.specs.Prelude.{◌≡◌, ◌<◌, ◌≤◌, ◌^◌, length};
ghost use Rattle.nb_tcpseg.specs.SegmentText.{segment_parts};
ghost use Rattle.nb_stack.specs.Resets.{has_flag, flag_length, sequence_length, segment_answer, reset_of};

use nb_tcpseg::{ACK, FIN, RST, SYN, Segment};

// A reset itself is never answered.
pub(crate) fn is_reset(segment: &Segment<'_>) -> bool
    ensures { result ≡ has_flag 4 (segment_parts segment.now) }
{
    has(segment, RST)
}

// The reset of a segment without RST.
pub(crate) fn reset_of(segment: &Segment<'_>) -> Segment<'static>
    requires { length segment.now.body.now < 2 ^ 16 }
    ensures { segment_parts result ≡ reset_of (segment_parts segment.now) }
{
    if has(segment, ACK) {
        return answer(segment, segment.ack, 0, RST);
    }
    let behind = segment.seq.wrapping_add(sequence_length(segment));
    answer(segment, 0, behind, RST + ACK)
}

fn answer(segment: &Segment<'_>, seq: u32, ack: u32, flags: u8) -> Segment<'static>
    ensures { segment_parts result ≡ segment_answer (segment_parts segment.now) seq ack flags }
{
    Segment {
        src_port: segment.dst_port,
        dst_port: segment.src_port,
        seq,
        ack,
        flags,
        window: 0,
        mss: None,
        body: &[],
    }
}

// How many sequence numbers the segment takes.
fn sequence_length(segment: &Segment<'_>) -> u32
    requires { length segment.now.body.now < 2 ^ 16 }
    ensures { result ≡ sequence_length (segment_parts segment.now) }
{
    segment.body.len() as u32 + flag_length(segment, SYN) + flag_length(segment, FIN)
}

fn flag_length(segment: &Segment<'_>, flag: u8) -> u32
    ensures value { result ≡ flag_length (has_flag flag (segment_parts segment.now)) }
    ensures most { result ≤ 1 }
{
    u32::from(has(segment, flag))
}

fn has(segment: &Segment<'_>, flag: u8) -> bool
    ensures { result ≡ has_flag flag (segment_parts segment.now) }
{
    segment.flags & flag != 0
}
