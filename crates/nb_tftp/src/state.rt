//! The transfer's state, and its steps.

ghost use Rattle.std.specs.Prelude.{◌≡◌, ◌≤◌, ◌∷◌, ℕ, length, [], None, Some, IfSome, true};
ghost use Rattle.nb_tftpmsg.specs.Texts.{HasNoZero};
ghost use Rattle.nb_tftp.specs.Decisions.{awaits_full, fixed_of, last_of};
ghost use Rattle.nb_tftp.specs.Asks.{begun_asking, datagram, last_message, acts_of, nothing, sending};
ghost use Rattle.nb_tftpmsg.specs.Packets.{packet_text, ack, block, error};
ghost use Rattle.nb_tftpmsg.specs.Reading.{packet_read};
ghost use Rattle.nb_tftp.specs.Steps.{begun_of, first_state, state_after_answer, packet_acts, after_packet, bytes_acts, after_bytes, tick_acts, after_tick};
ghost use Rattle.nb_tftpmsg.specs.Views.{message};
ghost use Rattle.nb_tftp.specs.declared.answer.Phase.TheVariants.{Taking};
ghost use Rattle.nb_retry.specs.declared.plan.Plan.TheVariants.{Common};
ghost use Rattle.nb_retry.specs.Timer.{started};

use crate::acts::take_block;
use crate::answer::{Answer, Phase};
use crate::request::request_bytes;
use arrayvec::ArrayVec;
use nb_retry::{Due, Plan, Retry};
use nb_terms::{Acts, Cause, Reason};
use nb_tftpmsg::Tftp;
use nb_wire::Ip4;

/// UDP (RFC 768).
const UDP: u8 = 17;
/// The opcode of a block (RFC 1350, section 5).
const DATA: u8 = 3;
/// "Unknown transfer ID" (RFC 1350, appendix).
const UNKNOWN_TRANSFER: u16 = 5;
/// The options that were granted are refused (RFC 2347).
const OPTIONS_REFUSED: u16 = 8;
/// The plan's tries had no answer.
const TIMED_OUT: Reason = Reason::TimedOut { tries: 6 };

/// How far a transfer is, and what it was begun with.
#[derive(Drop)]
pub(crate) struct State {
    pub(crate) server: Ip4,
    /// The port that was asked.
    pub(crate) port: u16,
    pub(crate) own_port: u16,
    /// Options were asked for.
    pub(crate) options: bool,
    /// The request's packet.
    pub(crate) request: ArrayVec<u8, 1480>,
    pub(crate) phase: Phase,
    pub(crate) retry: Retry,
}

impl State {
    /// A transfer whose request is out, with or without options.
    pub(crate) fn begun(
        options: bool,
        server: Ip4,
        port: u16,
        own_port: u16,
        path: &[u8],
        now: u64,
    ) -> State
        requires clean { HasNoZero path.now }
        requires fits { length path.now ≤ 1024 }
        ensures { result ≡ first_state options (begun_asking options server port own_port path.now) now }
    {
        let mut retry = Retry::stopped();
        retry.start(now, Plan::Common);
        State {
            server,
            port,
            own_port,
            options,
            request: request_bytes(path, options),
            phase: Phase::Asking,
            retry,
        }
    }

    /// A datagram's body comes from this port. What is no packet is ignored. All of `acts` is replaced. Not
    /// inlined, as its caller's caller has no registers left.
    #[inline(never)]
    pub(crate) fn datagram(&mut self, rec: u32, from: u16, body: &[u8], now: u64, acts: &mut Acts)
        ensures acts { acts.new ≡ bytes_acts self.old rec from body.now }
        ensures after { self.new ≡ after_bytes self.old rec from body.now now }
    {
        match block_in(body) {
            Some((number, bytes)) if self.phase.awaits_full(from, number, bytes.len()) => {
                self.take_full(from, number, bytes, now, acts);
            }
            _ => self.any_datagram(rec, from, body, now, acts),
        }
    }

    /// Any datagram. It stands apart, so that a full block costs less.
    #[cold]
    #[inline(never)]
    fn any_datagram(&mut self, rec: u32, from: u16, body: &[u8], now: u64, acts: &mut Acts)
        ensures acts { acts.new ≡ bytes_acts self.old rec from body.now }
        ensures after { self.new ≡ after_bytes self.old rec from body.now now }
    {
        acts.clear();
        if let Some(packet) = Tftp::read(body) {
            self.packet(rec, from, &packet, now, acts);
        }
    }

    /// A packet comes from this port.
    fn packet(&mut self, rec: u32, from: u16, packet: &Tftp<'_>, now: u64, acts: &mut Acts)
        requires { acts.old ≡ nothing }
        ensures acts { acts.new ≡ packet_acts self.old rec from (message packet.now) }
        ensures after { self.new ≡ after_packet self.old rec from (message packet.now) now }
    {
        if self.phase.is_over() {
            return;
        }
        let answer = self.phase.decide(self.options, rec, from, packet);
        self.follow(from, answer, now);
        self.ask(from, answer, acts);
    }

    /// The next block comes in its full size, and more can follow it. The message is added last, so that
    /// nothing has to be kept over that call.
    #[inline(always)]
    fn take_full(&mut self, port: u16, number: u16, bytes: &[u8], now: u64, acts: &mut Acts)
        requires awaits { awaits_full self.old.phase port number (length bytes.now) ≡ true }
        requires fits { length bytes.now ≤ 65535 }
        ensures acts { (rec : ℕ) → acts.new ≡ packet_acts self.old rec port (block number bytes.now) }
        ensures after { (rec : ℕ) → self.new ≡ after_packet self.old rec port (block number bytes.now) now }
    {
        self.phase.take(number);
        self.restart(now);
        acts.clear();
        take_block(number, bytes.len() as u16, None, acts);
        self.send_to(port, &ack_bytes(number), acts);
    }

    /// It is this time.
    pub(crate) fn tick(&mut self, now: u64, acts: &mut Acts)
        requires { acts.old ≡ nothing }
        ensures acts { acts.new ≡ tick_acts self.old now }
        ensures after { self.new ≡ after_tick self.old now }
    {
        if self.phase.is_over() {
            return;
        }
        match self.retry.due(now) {
            Due::Not => {}
            Due::Again(n) => self.ask_last(Some(n), acts),
            Due::Over => {
                self.phase = Phase::Over;
                acts.over = Some(Cause::from(TIMED_OUT));
            }
        }
    }

    /// The message that is sent again: the request, or the last block's acknowledgement.
    pub(crate) fn ask_last(&self, tried: Option<u8>, acts: &mut Acts)
        requires { acts.old ≡ nothing }
        ensures { acts.new ≡ sending (last_message (begun_of self.now) (fixed_of self.now.phase) (last_of self.now.phase)) tried }
    {
        match self.phase {
            Phase::Taking { port, last, .. } => self.send_to(port, &ack_bytes(last), acts),
            _ => self.send_to(self.port, self.request.as_slice(), acts),
        }
        acts.tried = tried;
    }

    /// The state after an answer.
    fn follow(&mut self, from: u16, answer: Answer, now: u64)
        ensures { self.new ≡ state_after_answer self.old from answer now }
    {
        match answer {
            Answer::Agreed { size } => self.await_block(from, size, 0, now),
            Answer::Taken {
                block,
                over: None,
                ..
            } => self.await_block(from, self.phase.block_size(), block, now),
            Answer::Taken { .. } | Answer::Declined { .. } | Answer::Ended(_) => {
                self.phase = Phase::Over;
            }
            _ => {}
        }
    }

    /// Blocks of this size come from this port, after this one. The timer starts anew.
    fn await_block(&mut self, port: u16, size: u16, last: u16, now: u64)
        ensures { self.new ≡ record self.old { phase = Taking port size last; retry = started now Common } }
    {
        self.phase = Phase::Taking { port, size, last };
        self.restart(now);
    }

    /// The timer starts anew.
    fn restart(&mut self, now: u64)
        ensures { self.new ≡ record self.old { retry = started now Common } }
    {
        self.retry.start(now, Plan::Common);
    }

    /// What an answer asks of the caller.
    fn ask(&self, from: u16, answer: Answer, acts: &mut Acts)
        requires { acts.old ≡ nothing }
        ensures { acts.new ≡ acts_of (begun_of self.now) from answer }
    {
        match answer {
            Answer::Ignored => {}
            Answer::Stranger => self.send_to(from, &refusal_bytes(UNKNOWN_TRANSFER), acts),
            Answer::Again { block } => self.send_to(from, &ack_bytes(block), acts),
            Answer::Agreed { .. } => {
                self.send_to(from, &ack_bytes(0), acts);
                acts.tried = Some(1);
            }
            Answer::Declined { rec } => {
                self.send_to(from, &refusal_bytes(OPTIONS_REFUSED), acts);
                acts.over = Some(Cause::from(Reason::Broken { rec }));
            }
            Answer::Taken { block, len, over } => {
                self.send_to(from, &ack_bytes(block), acts);
                take_block(block, len, over, acts);
            }
            Answer::Ended(cause) => acts.over = Some(cause),
        }
    }

    /// A message is sent, the only one.
    fn send_to(&self, to_port: u16, body: &[u8], acts: &mut Acts)
        requires none { acts.old.sends.items ≡ [] }
        requires fits { length body.now ≤ 1480 }
        ensures { acts.new ≡ record acts.old { sends = record { items = datagram (begun_of self.now) to_port body.now ∷ [] } } }
    {
        acts.sends
            .add(UDP, self.server, to_port, self.own_port, body, b"");
    }
}

/// The number and the bytes of the block that a packet carries (RFC 1350, section 5). None where it
/// carries none, or one without bytes.
#[inline(always)]
fn block_in(packet: &[u8]) -> Option<(u16, &[u8])>
    ensures { IfSome result (λ found. packet_read packet.now ≡ Some (block found.0 found.1.now)) }
{
    match packet {
        [0, DATA, high, low, bytes @ ..] if !bytes.is_empty() => {
            Some((u16::from_be_bytes([*high, *low]), bytes))
        }
        _ => None,
    }
}

/// The packet `Ack(n)` (RFC 1350, section 5).
fn ack_bytes(n: u16) -> [u8; 4]
    ensures { result ≡ packet_text (ack n) }
{
    let [high, low] = n.to_be_bytes();
    [0, 4, high, low]
}

/// The packet `Error` of this code and no text (RFC 1350, section 5).
fn refusal_bytes(code: u16) -> [u8; 5]
    ensures { result ≡ packet_text (error code []) }
{
    let [high, low] = code.to_be_bytes();
    [0, 5, high, low, 0]
}
