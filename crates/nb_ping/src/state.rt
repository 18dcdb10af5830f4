//! The ping's state, and its steps.

ghost use Rattle.std.specs.Prelude.{◌≡◌};
ghost use Rattle.nb_retry.specs.declared.plan.Plan.TheVariants.{Common};
ghost use Rattle.nb_retry.specs.Timer.{started};
ghost use Rattle.nb_ping.specs.declared.state.PingPhase.TheVariants.{Waiting};
ghost use Rattle.nb_ping.specs.Pings.{asks_nothing, asks_try, echo_request};
ghost use Rattle.nb_ping.specs.PingCalls.{echo_reply, answers_ping};
ghost use Rattle.nb_ping.specs.PingStands.{ping_has_ended, pinged_of};
ghost use Rattle.nb_ping.specs.PingSteps.{acts_on_echo, after_echo, acts_on_clock, after_waiting};

use nb_retry::{Due, Plan, Retry};
use nb_terms::{Acts, Cause, Plain, Reason};
use nb_wire::Ip4;

/// ICMP (RFC 792).
const ICMP: u8 = 1;

/// The sequence number of each request: all tries send the same request.
const SEQUENCE: u16 = 0;

/// The plan's tries had no reply.
const TIMED_OUT: Reason = Reason::TimedOut { tries: 6 };

/// How far a ping is.
#[derive(Clone, Copy, Drop)]
pub(crate) enum PingPhase {
    /// The request is out.
    Waiting,
    /// The host has replied, or the tries have run out.
    Ended,
}

/// How far a ping is, and what it was begun with.
#[derive(Drop)]
pub(crate) struct State {
    pub(crate) host: Ip4,
    pub(crate) ident: u16,
    pub(crate) phase: PingPhase,
    pub(crate) retry: Retry,
}

impl State {
    /// A ping whose request is out.
    pub(crate) fn begun(host: Ip4, ident: u16, now: u64) -> State
        ensures { result ≡ record { host = host; ident = ident; phase = Waiting; retry = started now Common } }
    {
        let mut retry = Retry::stopped();
        retry.start(now, Plan::Common);
        State {
            host,
            ident,
            phase: PingPhase::Waiting,
            retry,
        }
    }

    /// An echo reply comes. One from another host or with another identifier is ignored.
    pub(crate) fn reply(&mut self, src: Ip4, ident: u16, acts: &mut Acts)
        requires { acts.old ≡ asks_nothing }
        ensures acts { acts.new ≡ acts_on_echo self.old (echo_reply src ident) }
        ensures after { self.new ≡ after_echo self.old (echo_reply src ident) }
    {
        if self.phase.has_ended() || !self.is_answered(src, ident) {
            return;
        }
        self.phase = PingPhase::Ended;
        acts.over = Some(Cause::from(Reason::Plain(Plain::Ok)));
    }

    /// Whether an echo reply from this address, with this identifier, is the one that is waited for.
    fn is_answered(&self, src: Ip4, ident: u16) -> bool
        ensures { result ≡ answers_ping (pinged_of self.now) (echo_reply src ident) }
    {
        src == self.host && ident == self.ident
    }

    /// It is this time.
    pub(crate) fn clock(&mut self, now: u64, acts: &mut Acts)
        requires { acts.old ≡ asks_nothing }
        ensures acts { acts.new ≡ acts_on_clock self.old now }
        ensures after { self.new ≡ after_waiting self.old now }
    {
        if self.phase.has_ended() {
            return;
        }
        match self.retry.due(now) {
            Due::Not => {}
            Due::Again(n) => self.ask(n, acts),
            Due::Over => {
                self.phase = PingPhase::Ended;
                acts.over = Some(Cause::from(TIMED_OUT));
            }
        }
    }

    /// The request is sent, as the try of this number.
    pub(crate) fn ask(&self, n: u8, acts: &mut Acts)
        requires { acts.old ≡ asks_nothing }
        ensures { acts.new ≡ asks_try (echo_request (pinged_of self.now)) n }
    {
        acts.sends
            .add(ICMP, self.host, SEQUENCE, self.ident, b"", b"");
        acts.tried = Some(n);
    }
}

impl PingPhase {
    pub(crate) fn has_ended(self) -> bool
        ensures { result ≡ ping_has_ended self }
    {
        match self {
            PingPhase::Waiting => false,
            PingPhase::Ended => true,
        }
    }
}
