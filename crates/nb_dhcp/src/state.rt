//! The core's state, and its steps.

ghost use Rattle.std.specs.Prelude.{◌≡◌, ◌≤◌, [], length, Some};
ghost use Rattle.nb_dhcp.specs.History.{handed_body};
ghost use Rattle.nb_dhcp.specs.Acting.{no_acts, lease_asking, verdict_acts};
ghost use Rattle.nb_dhcp.specs.declared.state.Phase.TheVariants.{Bound};
ghost use Rattle.nb_dhcp.specs.LeaseSteps.{offer_at, is_over_at, asking_state, after_offered, after_verdict, after_reply, acts_on_reply, after_time, acts_on_time};

use crate::asker::Asker;
use crate::offer::Offer;
use crate::request::put_message;
use arrayvec::ArrayVec;
use nb_retry::{Due, Plan, Retry};
use nb_terms::{Acts, Cause, Plain, Reason};
use nb_wire::Ip4;

/// UDP (RFC 768).
const UDP: u8 = 17;
/// All hosts (RFC 919, section 7).
const ALL: Ip4 = Ip4(0xffff_ffff);
/// The ports of servers and clients (RFC 2131, section 4.1).
const SERVERS: u16 = 67;

const CLIENT: u16 = 68;
/// The kinds of a server's verdict (RFC 2132, section 9.6).
const ACK: u8 = 5;

const NAK: u8 = 6;
/// The plan's tries had no answer.
const TIMED_OUT: Reason = Reason::TimedOut { tries: 4 };

/// How far a core is.
#[derive(Clone, Copy, Drop)]
pub(crate) enum Phase {
    /// The DISCOVER is out.
    Selecting,
    /// The REQUEST of this offer is out.
    Requesting(Offer),
    /// The server has acknowledged.
    Bound,
    /// It was refused, or the tries ran out.
    Ended,
}

/// How far a core is, and for which client.
#[derive(Drop)]
pub(crate) struct State {
    pub(crate) asker: Asker,
    pub(crate) phase: Phase,
    pub(crate) retry: Retry,
    /// The acknowledgement's bytes, in `Phase::Bound`.
    pub(crate) ack: ArrayVec<u8, 1480>,
}

impl Phase {
    pub(crate) fn is_over(self) -> bool
        ensures { result ≡ is_over_at self }
    {
        match self {
            Phase::Selecting | Phase::Requesting(_) => false,
            Phase::Bound | Phase::Ended => true,
        }
    }

    /// The offer that is requested.
    fn offer(self) -> Option<Offer>
        ensures { result ≡ offer_at self }
    {
        match self {
            Phase::Requesting(offer) => Some(offer),
            Phase::Selecting | Phase::Bound | Phase::Ended => None,
        }
    }
}

impl State {
    /// A core whose DISCOVER is out.
    pub(crate) fn asking(asker: Asker, now: u64) -> State
        ensures { result ≡ asking_state asker now }
    {
        let mut retry = Retry::stopped();
        retry.start(now, Plan::Dhcp);
        State {
            asker,
            phase: Phase::Selecting,
            retry,
            ack: ArrayVec::new(),
        }
    }

    /// A datagram's body comes.
    pub(crate) fn reply(&mut self, rec: u32, body: &[u8], now: u64, acts: &mut Acts)
        requires plain { acts.old ≡ no_acts }
        requires fits { length body.now ≤ 1480 }
        ensures acts { acts.new ≡ acts_on_reply self.old (handed_body rec body.now) }
        ensures after { self.new ≡ after_reply self.old self.old.phase (handed_body rec body.now) now }
    {
        match self.phase {
            Phase::Selecting => {
                if let Some(offer) = self.asker.offer(body) {
                    self.request(offer, now, acts);
                }
            }
            Phase::Requesting(offer) => {
                let kind = self.asker.kind_from(offer.server, body);
                self.take_verdict(rec, kind, body, acts);
            }
            Phase::Bound | Phase::Ended => {}
        }
    }

    /// It is this time.
    pub(crate) fn tick(&mut self, now: u64, acts: &mut Acts)
        requires { acts.old ≡ no_acts }
        ensures acts { acts.new ≡ acts_on_time self.old now }
        ensures after { self.new ≡ after_time self.old now }
    {
        if self.phase.is_over() {
            return;
        }
        match self.retry.due(now) {
            Due::Not => {}
            Due::Again(n) => self.send(n, acts),
            Due::Over => {
                self.phase = Phase::Ended;
                acts.over = Some(Cause::from(TIMED_OUT));
            }
        }
    }

    /// Requests an offer.
    fn request(&mut self, offer: Offer, now: u64, acts: &mut Acts)
        requires { acts.old ≡ no_acts }
        ensures acts { acts.new ≡ lease_asking self.old.asker (Some offer) 1 }
        ensures after { self.new ≡ after_offered self.old (Some offer) now }
    {
        self.phase = Phase::Requesting(offer);
        self.retry.start(now, Plan::Dhcp);
        self.send(1, acts);
    }

    /// A message of this kind comes from the server whose offer is requested, or another message.
    fn take_verdict(&mut self, rec: u32, kind: Option<u8>, body: &[u8], acts: &mut Acts)
        requires plain { acts.old ≡ no_acts }
        requires fits { length body.now ≤ 1480 }
        ensures acts { acts.new ≡ verdict_acts rec kind }
        ensures after { self.new ≡ after_verdict self.old kind body.now }
    {
        match kind {
            Some(ACK) => {
                self.keep(body);
                acts.over = Some(Cause::from(Reason::Plain(Plain::Ok)));
            }
            Some(NAK) => {
                self.phase = Phase::Ended;
                acts.over = Some(Cause::from(Reason::Refused {
                    rec,
                    code: u16::from(NAK),
                }));
            }
            _ => {}
        }
    }

    /// Keeps the acknowledgement.
    fn keep(&mut self, body: &[u8])
        requires { length body.now ≤ 1480 }
        ensures { self.new ≡ record self.old { phase = Bound; ack = record { items = body.now } } }
    {
        self.phase = Phase::Bound;
        self.ack.clear();
        let _ = self.ack.try_extend_from_slice(body);
    }

    /// Sends the DISCOVER, or the REQUEST, as this try.
    pub(crate) fn send(&self, tried: u8, acts: &mut Acts)
        requires { acts.old ≡ no_acts }
        ensures { acts.new ≡ lease_asking self.now.asker (offer_at self.now.phase) tried }
    {
        let mut message = ArrayVec::new();
        put_message(&self.asker, self.phase.offer(), &mut message);
        acts.sends
            .add(UDP, ALL, SERVERS, CLIENT, message.as_slice(), b"");
        acts.tried = Some(tried);
    }
}
