//! What a segment means before the connection is established.

ghost use Rattle.std.specs.Prelude.{◌≡◌};
ghost use Rattle.nb_streams.specs.Flows.{answers_syn};
ghost use Rattle.nb_tcp.specs.Arriving.{incoming};
ghost use Rattle.nb_tcp.specs.Replies.{syn_answered};

use crate::place::{has, number_of};
use nb_tcpseg::{ACK, RST, SYN, Segment};

/// What a segment means to a connection whose SYN is out (RFC 9293, section 3.10.7.3).
#[derive(Clone, Copy, Debug, PartialEq, Eq, Drop)]
pub(crate) enum SynAnswer {
    /// It acknowledges the SYN, and has one of its own.
    Establishes,
    /// It acknowledges the SYN, and resets.
    Refuses,
    /// It acknowledges something else.
    Wrong,
    /// Nothing.
    Nothing,
}

/// What the segment means, by the number of our SYN.
pub(crate) fn judge_answer(isn: u32, segment: &Segment<'_>) -> SynAnswer
    ensures { result ≡ syn_answered isn (incoming segment.now) }
{
    if answers_syn(isn, segment) {
        if has(segment, RST) {
            return SynAnswer::Refuses;
        }
        if has(segment, SYN) {
            return SynAnswer::Establishes;
        }
        return SynAnswer::Nothing;
    }
    if has(segment, ACK) && !has(segment, RST) {
        return SynAnswer::Wrong;
    }
    SynAnswer::Nothing
}

/// It acknowledges exactly the SYN.
fn answers_syn(isn: u32, segment: &Segment<'_>) -> bool
    ensures { result ≡ answers_syn isn (incoming segment.now) }
{
    has(segment, ACK) && segment.ack == number_of(isn, 0)
}
