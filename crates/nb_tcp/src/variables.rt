//! The variables of an established connection, and how a segment changes them.

ghost use Rattle.std.specs.Prelude.{◌≡◌, ◌<◌, ◌^◌, ◌+◌, true, length};
ghost use Rattle.nb_streams.specs.Flows.{is_beyond, advance_of, advances};
ghost use Rattle.nb_streams.specs.Streams.{is_stop};
ghost use Rattle.nb_tcp.specs.Arriving.{sets_flag, incoming};
ghost use Rattle.nb_tcp.specs.InOrder.{is_data, continues_by, has_said_all, is_next};
ghost use Rattle.nb_tcp.specs.Numbers.{bare_flow, judged, found_stop, with_stop, with_next, with_ack, piece_place, piece_bytes, kept_bytes, passes_limit, breached, sends_more, next_sending, segment_size, ack_number, opened_variables};

use crate::place::{distance, has, is_forward, number_of};
use nb_tcpseg::{ACK, FIN, RST, SYN, Segment};

/// The window that is offered, the most that the field can say (RFC 9293, section 3.1).
pub(crate) const WINDOW: u16 = 65_535;

/// No byte of a stream counts at this place or after it.
pub(crate) const LIMIT: u32 = 0x7fff_ffff;

/// The segment size of a peer that gives none (RFC 9293, section 3.7.1).
const DEFAULT_MSS: u16 = 536;

/// The most bytes of a segment: an Ethernet payload of 1,500 less the headers of IPv4 and TCP.
pub(crate) const MAX_SIZE: u16 = 1460;

/// The variables of an established connection (RFC 9293, section 3.3.1). A place counts the bytes of a
/// stream from 0.
#[derive(Clone, Copy, Debug, PartialEq, Eq, Drop)]
pub(crate) struct Variables {
    /// The number of our SYN. Our first byte has the one after it.
    pub(crate) iss: u32,
    /// The number of the peer's SYN.
    pub(crate) irs: u32,
    /// The least place of the peer's stream that hasn't come.
    pub(crate) next: u32,
    /// The place at which the peer's stream ends, once its FIN has come.
    pub(crate) stop: Option<u32>,
    /// Our bytes below this place are acknowledged.
    pub(crate) acked: u32,
    /// The segment that waits to be acknowledged has the bytes below this place.
    pub(crate) upto: u32,
    /// Our bytes below this place were sent.
    pub(crate) sent: u32,
    /// The most bytes that the peer takes in a segment.
    pub(crate) mss: u16,
    /// The peer's window.
    pub(crate) room: u16,
}

/// What a segment of an established connection calls for.
#[derive(Clone, Copy, Debug, PartialEq, Eq, Drop)]
pub(crate) enum Verdict {
    /// It resets the connection.
    Reset,
    /// It counts.
    Taken,
    /// It doesn't count, and is answered by an acknowledgement.
    Answered,
    /// Nothing.
    Dropped,
}

/// A rule that a segment breaks.
#[derive(Clone, Copy, Debug, PartialEq, Eq, Drop)]
pub(crate) enum Breach {
    /// None.
    None,
    /// The stream goes on at a place that is too high.
    TooLong,
    /// It has a FIN at another place than an earlier one.
    OtherStop,
}

impl Variables {
    /// Those of a connection that this segment establishes.
    pub(crate) fn opened(iss: u32, segment: &Segment<'_>) -> Variables
        ensures { result ≡ opened_variables iss (incoming segment.now) }
    {
        Variables {
            iss,
            irs: segment.seq,
            next: 0,
            stop: None,
            acked: 0,
            upto: 0,
            sent: 0,
            mss: segment.mss.unwrap_or(DEFAULT_MSS),
            room: segment.window,
        }
    }

    /// How far the segment's acknowledgement is ahead of the first byte that isn't acknowledged.
    fn advance_of(self, segment: &Segment<'_>) -> u32
        ensures { result ≡ advance_of (bare_flow self) (incoming segment.now) }
    {
        distance(self.iss, self.acked, segment.ack)
    }

    /// It acknowledges what was never sent.
    fn is_beyond(self, segment: &Segment<'_>) -> bool
        ensures { result ≡ is_beyond (bare_flow self) (incoming segment.now) }
    {
        let advance = self.advance_of(segment);
        is_forward(advance) && u64::from(self.sent) < u64::from(self.acked) + u64::from(advance)
    }

    /// It acknowledges more than any before.
    pub(crate) fn is_advanced_by(self, segment: &Segment<'_>) -> bool
        ensures { result ≡ advances (bare_flow self) (incoming segment.now) }
    {
        let advance = self.advance_of(segment);
        is_forward(advance) && 0 < advance
    }

    /// What a segment calls for (RFC 9293, section 3.10.7.4).
    pub(crate) fn judge(self, segment: &Segment<'_>) -> Verdict
        ensures { result ≡ judged self (incoming segment.now) }
    {
        if has(segment, RST) {
            return self.judge_reset(segment);
        }
        if has(segment, SYN) {
            return Verdict::Answered;
        }
        if !has(segment, ACK) {
            return Verdict::Dropped;
        }
        if self.is_beyond(segment) {
            return Verdict::Answered;
        }
        Verdict::Taken
    }

    /// A reset counts at the next place alone, and elsewhere in the window it is answered (RFC 5961, section 3.2).
    fn judge_reset(self, segment: &Segment<'_>) -> Verdict
        requires { sets_flag segment.now.flags 4 ≡ true }
        ensures { result ≡ judged self (incoming segment.now) }
    {
        let distance = distance(self.irs, self.next, segment.seq);
        if distance == 0 {
            return Verdict::Reset;
        }
        if distance < u32::from(WINDOW) {
            return Verdict::Answered;
        }
        Verdict::Dropped
    }

    /// The place of the segment's FIN, where it has one in the window or just after it.
    fn found_stop(self, segment: &Segment<'_>) -> Option<u32>
        requires { length segment.now.body.now < 2 ^ 16 }
        ensures { result ≡ found_stop self (incoming segment.now) }
    {
        if !has(segment, FIN) {
            return None;
        }
        let end = segment.seq.wrapping_add(segment.body.len() as u32);
        let distance = distance(self.irs, self.next, end);
        if distance > u32::from(WINDOW) {
            return None;
        }
        Some(self.next.saturating_add(distance))
    }

    /// The same with the segment's end, if none is known yet.
    pub(crate) fn with_stop(self, segment: &Segment<'_>) -> Variables
        requires { length segment.now.body.now < 2 ^ 16 }
        ensures { result ≡ with_stop self (incoming segment.now) }
    {
        Variables {
            stop: self.stop.or(self.found_stop(segment)),
            ..self
        }
    }

    /// The same where the peer's stream has come up to this place, or to its end.
    pub(crate) fn with_next(self, next: u32) -> Variables
        ensures { result ≡ with_next self next }
    {
        let next = match self.stop {
            None => next,
            Some(stop) => next.min(stop),
        };
        Variables { next, ..self }
    }

    /// The same with the segment's acknowledgement and window, where it acknowledges no less than any before.
    pub(crate) fn with_ack(self, segment: &Segment<'_>) -> Variables
        ensures { result ≡ with_ack self (incoming segment.now) }
    {
        let advance = self.advance_of(segment);
        if !is_forward(advance) {
            return self;
        }
        Variables {
            acked: self.acked.wrapping_add(advance),
            room: segment.window,
            ..self
        }
    }

    /// The place of the segment's first byte that isn't before the window, which is full_window wide.
    pub(crate) fn piece_place(self, segment: &Segment<'_>) -> u32
        ensures { result ≡ piece_place self (incoming segment.now) }
    {
        let distance = distance(self.irs, self.next, segment.seq);
        if distance < u32::from(WINDOW) {
            return self.next.saturating_add(distance);
        }
        self.next
    }

    /// The segment's bytes from that place on.
    pub(crate) fn piece_bytes<'a>(self, segment: &Segment<'a>) -> &'a [u8]
        ensures { result.now ≡ piece_bytes self (incoming segment.now) }
    {
        let distance = distance(self.irs, self.next, segment.seq);
        if distance < u32::from(WINDOW) {
            return segment.body;
        }
        let before = (1_u64 << 32) - u64::from(distance);
        segment.body.get(before as usize..).unwrap_or(&[])
    }

    /// Of these bytes from a place on those that count: below the limit and the end.
    pub(crate) fn kept_bytes<'a>(self, place: u32, bytes: &'a [u8]) -> &'a [u8]
        ensures value { result.now ≡ kept_bytes self place bytes.now }
        ensures low { 0 < length result.now → place + length result.now < 2 ^ 31 }
    {
        let end = self.stop.unwrap_or(LIMIT).min(LIMIT);
        let most = end.saturating_sub(place) as usize;
        &bytes[..most.min(bytes.len())]
    }

    /// The window has one of the segment's bytes at the limit or after it.
    fn passes_limit(self, segment: &Segment<'_>) -> bool
        requires { length segment.now.body.now < 2 ^ 16 }
        ensures { result ≡ passes_limit self (incoming segment.now) }
    {
        let bytes = self.piece_bytes(segment);
        let end = u64::from(self.piece_place(segment)) + bytes.len() as u64;
        let window_end = u64::from(self.next) + u64::from(WINDOW);
        !bytes.is_empty() && u64::from(LIMIT) < end.min(window_end)
    }

    /// The rule that a segment breaks. A stream that is too long goes before a second end.
    pub(crate) fn breach(self, segment: &Segment<'_>) -> Breach
        requires { length segment.now.body.now < 2 ^ 16 }
        ensures { result ≡ breached self (incoming segment.now) }
    {
        if self.passes_limit(segment) {
            return Breach::TooLong;
        }
        match (self.stop, self.found_stop(segment)) {
            (Some(stop), Some(found)) if stop != found => Breach::OtherStop,
            _ => Breach::None,
        }
    }

    /// The segment's bytes come next, and it has nothing else that is new: it acknowledges just what was
    /// acknowledged, which is all of the text, of which so many bytes were given.
    #[inline(always)]
    pub(crate) fn is_next(self, segment: &Segment<'_>, given: u32) -> bool
        requires { length segment.now.body.now < 2 ^ 16 }
        ensures value { result ≡ is_next self given (incoming segment.now) }
        ensures low { given < 2 ^ 32 }
    {
        is_data(segment) && (self.continues_by(segment) && self.has_said_all(segment, given))
    }

    /// The segment's bytes come next, below the limit, and no end is known.
    #[inline(always)]
    fn continues_by(self, segment: &Segment<'_>) -> bool
        requires { length segment.now.body.now < 2 ^ 16 }
        ensures { result ≡ continues_by self (incoming segment.now) }
    {
        let end = u64::from(self.next) + segment.body.len() as u64;
        self.stop.is_none()
            && (distance(self.irs, self.next, segment.seq) == 0 && end <= u64::from(LIMIT))
    }

    /// All of the text was acknowledged before, and is again.
    #[inline(always)]
    fn has_said_all(self, segment: &Segment<'_>, given: u32) -> bool
        ensures { result ≡ has_said_all self given (incoming segment.now) }
    {
        self.advance_of(segment) == 0 && (self.acked == self.sent && self.sent == given)
    }

    /// A new segment of the text is to begin, of which so many bytes were given: the last one was acknowledged
    /// in part, or none waits to be acknowledged.
    pub(crate) fn is_sending(self, advanced: bool, given: u32) -> bool
        ensures { result ≡ sends_more advanced given self }
    {
        (advanced && self.acked < self.sent) || (self.acked == self.sent && self.acked < given)
    }

    /// The same with a new segment, from the first byte that isn't acknowledged.
    pub(crate) fn sending(self, given: u32) -> Variables
        ensures { result ≡ next_sending given self }
    {
        let upto = self.acked.saturating_add(u32::from(self.size())).min(given);
        Variables {
            upto,
            sent: self.sent.max(upto),
            ..self
        }
    }

    /// The most bytes of a segment that the peer takes now: at least one, so that it is probed.
    fn size(self) -> u16
        ensures { result ≡ segment_size self }
    {
        self.mss.max(1).min(self.room.max(1)).min(MAX_SIZE)
    }

    /// The number that is acknowledged: the next place, and one for a FIN that was reached.
    pub(crate) fn ack_number(self) -> u32
        ensures { result ≡ ack_number self }
    {
        let number = number_of(self.irs, self.next);
        if self.is_at_end() {
            return number.wrapping_add(1);
        }
        number
    }

    /// All of the peer's stream has come.
    pub(crate) fn is_at_end(self) -> bool
        ensures { result ≡ is_stop self.stop self.next }
    {
        match self.stop {
            None => false,
            Some(stop) => stop == self.next,
        }
    }
}

/// The segment acknowledges, and neither begins, ends nor resets a stream.
#[inline(always)]
fn is_data(segment: &Segment<'_>) -> bool
    ensures { result ≡ is_data (incoming segment.now) }
{
    has(segment, ACK) && (!has(segment, SYN) && (!has(segment, RST) && !has(segment, FIN)))
}
