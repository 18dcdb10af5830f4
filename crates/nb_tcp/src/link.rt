//! Both ends of a connection, and the segments that are sent between them.

ghost use Rattle.std.specs.Prelude.{◌≡◌, ◌<◌, ◌≤◌, ◌+◌, ◌++◌, ◌∷◌, [], length, None, if◌then◌else◌};
ghost use Rattle.nb_streams.specs.Sending.{rst_asking, rst_for, syn, has_stop};
ghost use Rattle.nb_tcpseg.specs.SegmentText.{segment_parts, sent_header_len};
ghost use Rattle.nb_tcp.specs.Arriving.{incoming};
ghost use Rattle.nb_tcp.specs.Messages.{outgoing_parts, packet};
ghost use Rattle.nb_tcp.specs.Numbers.{outgoing_at, probe_at};
ghost use Rattle.nb_tcp.specs.Replies.{conn_reset};

use crate::place::{as_it_is, number_of};
use crate::variables::{Variables, WINDOW};
use nb_tcpseg::{ACK, FIN, PSH, RST, SYN, Segment};
use nb_terms::Acts;
use nb_wire::Ip4;

/// TCP's number in an IPv4 header.
const TCP: u8 = 6;

/// The segment size that is offered: an Ethernet payload of 1,500 less the headers of IPv4 and TCP.
const OFFERED_MSS: u16 = 1460;

/// Both ends of a connection, and the number of our SYN.
#[derive(Clone, Copy, Debug, PartialEq, Eq, Drop)]
pub(crate) struct Link {
    pub(crate) own_port: u16,
    pub(crate) peer: Ip4,
    pub(crate) peer_port: u16,
    /// The number of our SYN.
    pub(crate) isn: u32,
}

impl Link {
    /// Asks for the segment to be sent, with checksum 0.
    #[inline(always)]
    pub(crate) fn send(&self, segment: &Segment<'_>, acts: &mut Acts)
        requires room { length acts.old.sends.items < 2 }
        requires fits { sent_header_len segment.now.mss + length segment.now.body.now ≤ 1480 }
        ensures { acts.new ≡ record acts.old { sends = record { items = acts.old.sends.items ++ packet self.now (segment_parts segment.now) ∷ [] } } }
    {
        acts.sends.add(
            TCP,
            self.peer,
            self.peer_port,
            self.own_port,
            &segment.unsummed_header()[..segment.header_len()],
            segment.body,
        );
    }

    /// The SYN (RFC 9293, section 3.5).
    pub(crate) fn syn(&self) -> Segment<'static>
        ensures { segment_parts result ≡ outgoing_parts self.now (syn self.now.isn) }
    {
        Segment {
            src_port: self.own_port,
            dst_port: self.peer_port,
            seq: as_it_is(self.isn),
            ack: 0,
            flags: SYN,
            window: WINDOW,
            mss: Some(OFFERED_MSS),
            body: &[],
        }
    }

    /// The reset for an acknowledgement that isn't the SYN's (RFC 9293, section 3.10.7.3).
    pub(crate) fn reset_for(&self, segment: &Segment<'_>) -> Segment<'static>
        ensures { segment_parts result ≡ outgoing_parts self.now (rst_for (incoming segment.now)) }
    {
        self.reset(segment.ack, RST)
    }

    /// The reset of a connection that isn't established.
    pub(crate) fn early_reset(&self) -> Segment<'static>
        ensures { segment_parts result ≡ outgoing_parts self.now (rst_asking self.now.isn) }
    {
        self.reset(number_of(self.isn, 0), RST + ACK)
    }

    fn reset(&self, seq: u32, flags: u8) -> Segment<'static>
        ensures { segment_parts result ≡ outgoing_parts self.now (record { number = seq; acknowledges = 0; flags = flags; window = 0; mss = None; body = [] }) }
    {
        Segment {
            src_port: self.own_port,
            dst_port: self.peer_port,
            seq,
            ack: 0,
            flags,
            window: 0,
            mss: None,
            body: &[],
        }
    }

    /// The segment of an established connection with this place of ours and these bytes.
    #[inline(always)]
    fn segment<'a>(
        &self,
        variables: Variables,
        place: u32,
        flags: u8,
        window: u16,
        body: &'a [u8],
    ) -> Segment<'a>
        ensures { segment_parts result ≡ outgoing_parts self.now (outgoing_at flags window body.now place variables) }
    {
        Segment {
            src_port: self.own_port,
            dst_port: self.peer_port,
            seq: number_of(variables.iss, place),
            ack: variables.ack_number(),
            flags,
            window,
            mss: None,
            body,
        }
    }

    /// The acknowledgement of what has come.
    #[inline(always)]
    pub(crate) fn pure_ack(&self, variables: Variables) -> Segment<'static>
        ensures { segment_parts result ≡ outgoing_parts self.now (outgoing_at 16 65535 [] variables.sent variables) }
    {
        self.segment(variables, variables.sent, ACK, WINDOW, &[])
    }

    /// The segment of these bytes, from the first one on that isn't acknowledged.
    pub(crate) fn text<'a>(&self, variables: Variables, body: &'a [u8]) -> Segment<'a>
        ensures { segment_parts result ≡ outgoing_parts self.now (outgoing_at 24 65535 body.now variables.acked variables) }
    {
        self.segment(variables, variables.acked, PSH + ACK, WINDOW, body)
    }

    /// An acknowledgement one below the next number, which a peer that is there answers (RFC 9293, section 3.8.4).
    pub(crate) fn probe(&self, variables: Variables) -> Segment<'static>
        ensures { segment_parts result ≡ outgoing_parts self.now (probe_at variables) }
    {
        let mut probe = self.pure_ack(variables);
        probe.seq = probe.seq.wrapping_sub(1);
        probe
    }

    /// A close: a FIN where the peer's has come, else a reset.
    pub(crate) fn closing(&self, variables: Variables) -> Segment<'static>
        ensures { segment_parts result ≡ outgoing_parts self.now (if has_stop variables.stop then outgoing_at 17 65535 [] variables.sent variables else conn_reset variables) }
    {
        if variables.stop.is_some() {
            return self.fin(variables);
        }
        self.reset_now(variables)
    }

    /// A close after the peer's.
    fn fin(&self, variables: Variables) -> Segment<'static>
        ensures { segment_parts result ≡ outgoing_parts self.now (outgoing_at 17 65535 [] variables.sent variables) }
    {
        self.segment(variables, variables.sent, FIN + ACK, WINDOW, &[])
    }

    /// A close before the peer's. It acknowledges what has come, and no FIN.
    pub(crate) fn reset_now(&self, variables: Variables) -> Segment<'static>
        ensures { segment_parts result ≡ outgoing_parts self.now (conn_reset variables) }
    {
        let mut reset = self.segment(variables, variables.sent, RST + ACK, 0, &[]);
        reset.ack = number_of(variables.irs, variables.next);
        reset
    }
}
