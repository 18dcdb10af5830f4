//! The steps of a connection: first what a segment calls for, then what is sent and kept.

ghost use Rattle.std.specs.Prelude.{◌≡◌, ◌<◌, ◌≤◌, ◌+◌, ◌^◌, true, false, length, Some, Ok, Err, IsOk, IfOk, IfErr, OnOk, OnErr, MatchBool};
ghost use Rattle.nb_retry.specs.Timer.{started};
ghost use Rattle.nb_retry.specs.declared.plan.Plan.TheVariants.{Common, Probe};
ghost use Rattle.nb_terms.specs.Reasons.{as_cause};
ghost use Rattle.nb_streams.specs.Endings.{plan_tries, end_cause};
ghost use Rattle.nb_tcp.specs.Arriving.{incoming};
ghost use Rattle.nb_tcp.specs.InOrder.{is_next_of};
ghost use Rattle.nb_tcp.specs.Numbers.{breached, judged, opened_variables};
ghost use Rattle.nb_tcp.specs.Replies.{only_ready, also_sending, also_over, all_sending, first_tried, unacked_text, went_on, ongoing_acts, ongoing_retry, grown_acts, acknowledging, taken_acts, breach_state, breach_retry, syn_answered, syn_answer_acts, syn_answer_state, syn_answer_retry, established_acts, sent_again, has_come_all, given_acts, given_state, given_retry, has_finished};
ghost use Rattle.nb_tcp.specs.SegmentSteps.{TakesSegment, FollowsVerdict, FollowsState, HandsBodyOn};
ghost use Rattle.nb_tcp.specs.declared.conn.ConnState.TheVariants.{SynSent, Established, Ended};
ghost use Rattle.nb_tcp.specs.declared.conn.SendError.TheVariants as SendError;
ghost use Rattle.nb_tcp.specs.OtherSteps.{ticked_acts, ticked_conn, FollowsGiven, SameConn, closed_acts, closed_conn};
ghost use Rattle.nb_tcp.specs.ConnStanding.{waits_in, HasDelivered};

use crate::conn::{Conn, ConnState, SendError};
use crate::place::has;
use crate::receiving::{forget, is_bare_at, receive, receive_next, unacked_text};
use crate::syn_answer::{SynAnswer, judge_answer};
use crate::variables::{Breach, LIMIT, Variables, Verdict};
use nb_retry::{Due, Plan};
use nb_tcpseg::{FIN, Segment};
use nb_terms::{Acts, Cause, Long, Reason};

/// What a reset gives as the number of a refusal.
const RESET: u16 = 65_535;

impl Conn {
    /// A segment comes.
    #[inline(always)]
    pub(crate) fn come(&mut self, rec: u32, segment: &Segment<'_>, now: u64, acts: &mut Acts)
        requires none { acts.old ≡ only_ready false }
        requires body { length segment.now.body.now < 2 ^ 16 }
        ensures { FollowsState self.old self.old.state rec (incoming segment.now) now self.new acts.new }
    {
        if self.is_next(segment) {
            return self.take_next(rec, segment, now, acts);
        }
        match self.state {
            ConnState::SynSent => self.asked(rec, segment, now, acts),
            ConnState::Established(variables) => {
                self.established(variables, rec, segment, now, acts)
            }
            ConnState::Ended { .. } => {}
        }
    }

    /// The segment's bytes come next, and it has nothing else that is new.
    #[inline(always)]
    fn is_next(&self, segment: &Segment<'_>) -> bool
        requires { length segment.now.body.now < 2 ^ 16 }
        ensures value { result ≡ is_next_of self.now.state self.now.given (incoming segment.now) }
        ensures low { result ≡ true → self.now.given < 2 ^ 32 }
    {
        match &self.state {
            ConnState::SynSent => false,
            ConnState::Established(variables) => variables.is_next(segment, self.given),
            ConnState::Ended { .. } => false,
        }
    }

    /// A segment comes before the connection is established (RFC 9293, section 3.10.7.3).
    #[inline(never)]
    fn asked(&mut self, rec: u32, segment: &Segment<'_>, now: u64, acts: &mut Acts)
        requires none { acts.old ≡ only_ready false }
        requires asked { self.old.state ≡ SynSent }
        ensures acts { acts.new ≡ syn_answer_acts self.old.link self.old.given self.old.unacked.items rec (incoming segment.now) (syn_answered self.old.link.isn (incoming segment.now)) }
        ensures after { self.new ≡ record self.old { state = syn_answer_state self.old.link self.old.given (incoming segment.now) (syn_answered self.old.link.isn (incoming segment.now)); retry = syn_answer_retry self.old.link self.old.given (incoming segment.now) now (syn_answered self.old.link.isn (incoming segment.now)) self.old.retry } }
    {
        match judge_answer(self.link.isn, segment) {
            SynAnswer::Establishes => self.establish(segment, now, acts),
            SynAnswer::Refuses => self.end(false, Reason::Refused { rec, code: RESET }, acts),
            SynAnswer::Wrong => self.link.send(&self.link.reset_for(segment), acts),
            SynAnswer::Nothing => {}
        }
    }

    fn establish(&mut self, segment: &Segment<'_>, now: u64, acts: &mut Acts)
        requires { acts.old ≡ only_ready false }
        ensures acts { acts.new ≡ established_acts self.old.link self.old.given self.old.unacked.items (incoming segment.now) }
        ensures after { self.new ≡ record self.old { state = Established (went_on false self.old.given (opened_variables self.old.link.isn (incoming segment.now))); retry = ongoing_retry false self.old.given (opened_variables self.old.link.isn (incoming segment.now)) now self.old.retry } }
    {
        let opened = Variables::opened(self.link.isn, segment);
        self.link.send(&self.link.pure_ack(opened), acts);
        self.go_on(opened, false, now, acts);
    }

    /// A segment comes to an established connection (RFC 9293, section 3.10.7.4).
    #[inline(never)]
    fn established(
        &mut self,
        variables: Variables,
        rec: u32,
        segment: &Segment<'_>,
        now: u64,
        acts: &mut Acts,
    )
        requires none { acts.old ≡ only_ready false }
        requires body { length segment.now.body.now < 2 ^ 16 }
        ensures { FollowsVerdict self.old variables rec (incoming segment.now) now (judged variables (incoming segment.now)) self.new acts.new }
    {
        match variables.judge(segment) {
            Verdict::Reset => {
                self.end(
                    variables.is_at_end(),
                    Reason::Refused { rec, code: RESET },
                    acts,
                )
            }
            Verdict::Taken => self.take(variables, rec, segment, now, acts),
            Verdict::Answered => self.link.send(&self.link.pure_ack(variables), acts),
            Verdict::Dropped => {}
        }
    }

    /// Takes a segment whose bytes come next, and that has nothing else that is new.
    #[inline(always)]
    fn take_next(&mut self, _rec: u32, segment: &Segment<'_>, now: u64, acts: &mut Acts)
        requires none { acts.old ≡ only_ready false }
        requires next { is_next_of self.old.state self.old.given (incoming segment.now) ≡ true }
        requires low { self.old.given < 2 ^ 32 }
        ensures { FollowsState self.old self.old.state _rec (incoming segment.now) now self.new acts.new }
    {
        let ConnState::Established(variables) = &mut self.state else {
            return;
        };
        let before = variables.next;
        receive_next(&mut self.held, variables, segment);
        variables.room = segment.window;
        let after = *variables;
        tell_growth(before, after.next, acts);
        self.acknowledge(after, segment, acts);
        self.retry.start(now, Plan::Probe);
    }

    /// Takes a segment whose bytes come next, while nothing is held, and holds none of them. Else it does nothing.
    #[inline(always)]
    pub(crate) fn pass_on(&mut self, segment: &Segment<'_>, now: u64, acts: &mut Acts) -> bool
        requires delivered { HasDelivered self.old }
        requires body { length segment.now.body.now < 2 ^ 16 }
        ensures { MatchBool result (HandsBodyOn self.old (incoming segment.now) now self.new acts.new) (self.new ≡ self.old) }
    {
        let ConnState::Established(variables) = &mut self.state else {
            return false;
        };
        let Some(held) = &mut self.held else {
            return false;
        };
        if segment.body.is_empty() {
            return false;
        }
        if !variables.is_next(segment, self.given) {
            return false;
        }
        if !is_bare_at(held, variables.next) {
            return false;
        }
        let before = variables.next;
        held.pass(segment.body.len() as u32);
        variables.next = before + segment.body.len() as u32;
        variables.room = segment.window;
        let after = *variables;
        acts.clear();
        tell_growth(before, after.next, acts);
        self.acknowledge(after, segment, acts);
        self.retry.start(now, Plan::Probe);
        true
    }

    fn take(
        &mut self,
        variables: Variables,
        rec: u32,
        segment: &Segment<'_>,
        now: u64,
        acts: &mut Acts,
    )
        requires none { acts.old ≡ only_ready false }
        requires body { length segment.now.body.now < 2 ^ 16 }
        ensures { TakesSegment self.old variables rec (incoming segment.now) now self.new acts.new }
    {
        let after = receive(&mut self.held, variables, segment).with_ack(segment);
        forget(&mut self.unacked, after.acked.wrapping_sub(variables.acked));
        self.answer(variables, after, rec, segment, now, acts);
    }

    /// What a taken segment calls for, which led to the variables after it.
    fn answer(
        &mut self,
        variables: Variables,
        after: Variables,
        rec: u32,
        segment: &Segment<'_>,
        now: u64,
        acts: &mut Acts,
    )
        requires none { acts.old ≡ only_ready false }
        requires body { length segment.now.body.now < 2 ^ 16 }
        ensures acts { acts.new ≡ taken_acts self.old.link variables after self.old.given self.old.unacked.items rec (incoming segment.now) }
        ensures after { self.new ≡ record self.old { state = breach_state variables after self.old.given (incoming segment.now) (breached variables (incoming segment.now)); retry = breach_retry variables after self.old.given (incoming segment.now) now (breached variables (incoming segment.now)) self.old.retry } }
    {
        tell_growth(variables.next, after.next, acts);
        self.acknowledge(after, segment, acts);
        let advanced = variables.is_advanced_by(segment);
        match variables.breach(segment) {
            Breach::TooLong => {
                self.link.send(&self.link.reset_now(after), acts);
                self.end(after.is_at_end(), Reason::TooLong(Long::Stream), acts);
            }
            Breach::OtherStop => {
                self.go_on(after, advanced, now, acts);
                self.end(after.is_at_end(), Reason::Broken { rec }, acts);
            }
            Breach::None => self.go_on(after, advanced, now, acts),
        }
    }

    /// What a segment brings is acknowledged.
    #[inline(always)]
    fn acknowledge(&self, after: Variables, segment: &Segment<'_>, acts: &mut Acts)
        requires { length acts.old.sends.items < 2 }
        ensures { acts.new ≡ acknowledging self.now.link after (incoming segment.now) acts.old }
    {
        if !segment.body.is_empty() || has(segment, FIN) {
            self.link.send(&self.link.pure_ack(after), acts);
        }
    }

    /// A new segment of text goes out, where one is to begin. Else the connection is probed from now on, where
    /// nothing waits to be acknowledged.
    fn go_on(&mut self, variables: Variables, advanced: bool, now: u64, acts: &mut Acts)
        requires { length acts.old.sends.items < 2 }
        ensures acts { acts.new ≡ ongoing_acts self.old.link advanced self.old.given variables self.old.unacked.items acts.old }
        ensures after { self.new ≡ record self.old { state = Established (went_on advanced self.old.given variables); retry = ongoing_retry advanced self.old.given variables now self.old.retry } }
    {
        if variables.is_sending(advanced, self.given) {
            return self.send_text(variables.sending(self.given), now, acts);
        }
        self.state = ConnState::Established(variables);
        if variables.acked == variables.sent {
            self.retry.start(now, Plan::Probe);
        }
    }

    /// A time comes.
    pub(crate) fn tick(&mut self, now: u64, acts: &mut Acts)
        requires { acts.old ≡ only_ready false }
        ensures acts { acts.new ≡ ticked_acts self.old now }
        ensures after { self.new ≡ ticked_conn self.old now }
    {
        acts.ready = self.is_waiting();
        if self.has_finished() {
            return;
        }
        match self.retry.due(now) {
            Due::Not => {}
            Due::Again(n) => self.try_again(n, acts),
            Due::Over => self.give_up(acts),
        }
    }

    /// More text comes from above.
    pub(crate) fn give(&mut self, bytes: &[u8], now: u64, acts: &mut Acts) -> Result<(), SendError>
        requires { acts.old ≡ only_ready false }
        ensures ok { OnOk result (FollowsGiven (has_finished self.old.state) self.old bytes.now now self.new acts.new) }
        ensures err { OnErr result (SameConn self.old self.new × (acts.new ≡ only_ready (waits_in self.old.held))) }
        ensures long { IfErr result (λ e. e ≡ SendError.TooLong → 2 ^ 31 ≤ self.old.given + length bytes.now) }
        ensures refused { has_finished self.old.state ≡ false → 2 ^ 31 ≤ self.old.given + length bytes.now → result ≡ Err SendError.TooLong }
        ensures ended { has_finished self.old.state ≡ true → IsOk result }
    {
        acts.ready = self.is_waiting();
        if self.has_finished() {
            return Ok(());
        }
        let given = self.given_with(bytes.len())?;
        if self.unacked.extend_from_slice(bytes).is_err() {
            return Err(SendError::NoMemory);
        }
        self.given = given;
        self.send_given(now, acts);
        Ok(())
    }

    /// It is closed from above.
    pub(crate) fn close(&mut self, acts: &mut Acts)
        requires { acts.old ≡ only_ready false }
        ensures acts { acts.new ≡ closed_acts self.old }
        ensures after { self.new ≡ closed_conn self.old }
    {
        acts.ready = self.is_waiting();
        match self.state {
            ConnState::SynSent => self.link.send(&self.link.early_reset(), acts),
            ConnState::Established(variables) => {
                self.link.send(&self.link.closing(variables), acts)
            }
            ConnState::Ended { .. } => {}
        }
        let at_end = self.has_come_all();
        self.state = ConnState::Ended { at_end };
    }

    /// All of the peer's stream has come.
    pub(crate) fn has_come_all(&self) -> bool
        ensures { result ≡ has_come_all self.now.state }
    {
        match self.state {
            ConnState::SynSent => false,
            ConnState::Established(variables) => variables.is_at_end(),
            ConnState::Ended { at_end } => at_end,
        }
    }

    /// Something waits in the window to be delivered.
    fn is_waiting(&self) -> bool
        ensures { result ≡ waits_in self.now.held }
    {
        match &self.held {
            Some(held) => held.base() < held.next(),
            None => false,
        }
    }

    fn has_finished(&self) -> bool
        ensures { result ≡ has_finished self.now.state }
    {
        match self.state {
            ConnState::Ended { .. } => true,
            _ => false,
        }
    }

    /// How many bytes were given, with so many more.
    fn given_with(&self, more: usize) -> Result<u32, SendError>
        ensures ok { IfOk result (λ given. (given ≡ self.now.given + more) × (given < 2 ^ 31)) }
        ensures err { IfErr result (λ e. (e ≡ SendError.TooLong) × (2 ^ 31 ≤ self.now.given + more)) }
    {
        let given = u64::from(self.given).saturating_add(more as u64);
        if u64::from(LIMIT) < given {
            return Err(SendError::TooLong);
        }
        Ok(given as u32)
    }

    /// More text was given.
    fn send_given(&mut self, now: u64, acts: &mut Acts)
        requires { length acts.old.sends.items < 2 }
        ensures acts { acts.new ≡ given_acts self.old.link self.old.given self.old.unacked.items self.old.state acts.old }
        ensures after { self.new ≡ record self.old { state = given_state self.old.given self.old.state; retry = given_retry self.old.given now self.old.state self.old.retry } }
    {
        if let ConnState::Established(variables) = self.state {
            if variables.is_sending(false, self.given) {
                self.send_text(variables.sending(self.given), now, acts);
            }
        }
    }

    /// The segment of text that the variables say goes out for the first time.
    fn send_text(&mut self, variables: Variables, now: u64, acts: &mut Acts)
        requires { length acts.old.sends.items < 2 }
        ensures acts { acts.new ≡ first_tried (also_sending self.old.link (unacked_text variables self.old.unacked.items) acts.old) }
        ensures after { self.new ≡ record self.old { state = Established variables; retry = started now Common } }
    {
        self.state = ConnState::Established(variables);
        self.retry.start(now, Plan::Common);
        let text = unacked_text(&self.unacked, variables);
        self.link.send(&self.link.text(variables, text), acts);
        acts.tried = Some(1);
    }

    /// What isn't answered is sent again: the SYN, the text, or a probe.
    fn try_again(&self, number: u8, acts: &mut Acts)
        requires { length acts.old.sends.items < 2 }
        ensures { acts.new ≡ record (all_sending self.now.link (sent_again self.now.link self.now.unacked.items self.now.state) acts.old) { tried = Some number } }
    {
        match self.state {
            ConnState::SynSent => self.link.send(&self.link.syn(), acts),
            ConnState::Established(variables) if variables.acked < variables.sent => {
                let text = unacked_text(&self.unacked, variables);
                self.link.send(&self.link.text(variables, text), acts);
            }
            ConnState::Established(variables) => {
                self.link.send(&self.link.probe(variables), acts)
            }
            ConnState::Ended { .. } => {}
        }
        acts.tried = Some(number);
    }

    /// The last try had no answer.
    fn give_up(&mut self, acts: &mut Acts)
        ensures acts { acts.new ≡ also_over (end_cause 2 (plan_tries self.old.retry.plan) 0) acts.old }
        ensures after { self.new ≡ record self.old { state = Ended (has_come_all self.old.state) } }
    {
        let tries = tries_of(self.retry.plan);
        self.end(self.has_come_all(), Reason::TimedOut { tries }, acts);
    }

    fn end(&mut self, at_end: bool, reason: Reason, acts: &mut Acts)
        ensures acts { acts.new ≡ also_over (as_cause reason) acts.old }
        ensures after { self.new ≡ record self.old { state = Ended at_end } }
    {
        self.state = ConnState::Ended { at_end };
        acts.over = Some(Cause::from(reason));
    }
}

/// How far the peer's stream has come, where it came further. Then its bytes wait to be delivered.
fn tell_growth(before: u32, after: u32, acts: &mut Acts)
    requires { acts.old ≡ only_ready false }
    ensures { acts.new ≡ grown_acts before after }
{
    acts.advance = if before == after { None } else { Some(after) };
    acts.ready = before != after;
}

/// How many tries the plan makes.
fn tries_of(plan: Plan) -> u32
    ensures { result ≡ plan_tries plan }
{
    match plan {
        Plan::Common => 6,
        Plan::Dhcp | Plan::Probe => 4,
    }
}
