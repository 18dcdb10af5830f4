//! How far a login is.

ghost use Rattle.std.specs.Prelude.{◌≡◌, IfOk, OnErr, false};
ghost use Rattle.nb_iscsipdu.specs.PduTexts.{pdu_parts};
ghost use Rattle.nb_iscsipdu.specs.Answers.{answer_parts};
ghost use Rattle.nb_login.specs.LoginHistory.{pdu_came, login_ending, expected_by, expected_of};
ghost use Rattle.nb_login.specs.LoginStands.{TakesPdu, decided_by, next_of_decision, FollowsFrom, is_negotiating, session_held, after_handing, session_after_login};
ghost use Rattle.nb_login.specs.declared.state.State.TheVariants.{Negotiating, Opened};

use crate::info::LoginInfo;
use crate::request::{FIRST_COMMAND, FIRST_TASK};
use crate::session::Session;
use crate::step::{Chap, Decision, LoginStep};
use nb_iscsipdu::{Answer, Pdu};
use nb_terms::{Acts, Cause, NoMemory, Plain, Reason};
use nb_wire::Text;
use std::alloc::Global;
use std::mem;

/// A login whose request is out.
#[derive(Drop)]
pub(crate) struct Negotiation {
    pub(crate) info: LoginInfo,
    /// What the request waits for.
    pub(crate) step: LoginStep,
    /// How many requests without keys were made.
    pub(crate) repeats: u8,
}

/// How far a login is.
#[derive(Drop)]
pub(crate) enum State {
    Negotiating(Negotiation),
    /// The session is open, and not yet handed out.
    Opened(Session),
    /// It was refused, or the session was handed out.
    Over,
}

/// What an answer comes to, with all that takes memory done.
#[derive(Drop)]
pub(crate) enum Next {
    /// This text is put, and then waits for this, after so many requests without keys.
    Asks(Text, LoginStep, u8),
    /// The session opens; the next answer of the target has this number.
    Opens(Chap, u32),
    Ends(Reason),
}

/// The number of the answer that follows, where this is a Login Response.
fn expected_by(answer: &Answer<'_>) -> u32
    ensures { result ≡ expected_by (answer_parts answer.now) }
{
    match answer {
        Answer::Login(response) => response.stat_sn.wrapping_add(1),
        Answer::Scsi(_) | Answer::Data(_) | Answer::Nop(_) | Answer::Other => 0,
    }
}

impl Negotiation {
    /// What a PDU comes to.
    fn next(&self, alloc: Global, rec: u32, pdu: &Pdu<'_>) -> Result<Next, NoMemory>
        ensures { IfOk result (λ next. next
            ≡ next_of_decision self.now (expected_of (pdu_came rec (pdu_parts pdu.now)))
            (decided_by self.now (pdu_came rec (pdu_parts pdu.now)))) }
    {
        let answer = Answer::read(pdu);
        let exp_stat_sn = expected_by(&answer);
        let decision = self.decide(alloc, rec, &answer)?;
        self.prepare(alloc, exp_stat_sn, decision)
    }

    /// Makes the text of a request.
    fn prepare(&self, alloc: Global, exp_stat_sn: u32, decision: Decision) -> Result<Next, NoMemory>
        ensures { IfOk result (λ next. next ≡ next_of_decision self.now exp_stat_sn decision) }
    {
        match decision {
            Decision::Ask(request) => {
                let text = self.info.request(alloc, &request, exp_stat_sn)?;
                Ok(Next::Asks(text, request.step(), request.repeats(self.repeats)))
            }
            Decision::Open(chap) => Ok(Next::Opens(chap, exp_stat_sn)),
            Decision::End(reason) => Ok(Next::Ends(reason)),
        }
    }

    /// The session that it opens.
    fn opened(self, chap: Chap, exp_stat_sn: u32) -> Session
        ensures { result ≡ session_after_login self.info exp_stat_sn chap }
    {
        let Negotiation { info, .. } = self;
        Session {
            info,
            cmd_sn: FIRST_COMMAND,
            exp_stat_sn,
            task: FIRST_TASK,
            chap: chap.number(),
        }
    }
}

impl State {
    /// Takes a PDU, and returns the text of the next request.
    pub(crate) fn receive(
        &mut self,
        alloc: Global,
        rec: u32,
        pdu: &Pdu<'_>,
        acts: &mut Acts,
    ) -> Result<Option<Text>, NoMemory>
        requires { acts.old ≡ login_ending None }
        ensures takes { (n : Negotiation) → self.old ≡ Negotiating n → IfOk result (λ text.
            TakesPdu n (pdu_came rec (pdu_parts pdu.now)) (decided_by n (pdu_came rec (pdu_parts pdu.now)))
            self.new text acts.new) }
        ensures memory { OnErr result ((self.new ≡ self.old) × (acts.new ≡ login_ending None)) }
        ensures ended { is_negotiating self.old ≡ false
            → (result ≡ Ok None) × (self.new ≡ self.old) × (acts.new ≡ login_ending None) }
    {
        let next = match self {
            State::Negotiating(negotiation) => negotiation.next(alloc, rec, pdu)?,
            State::Opened(_) | State::Over => return Ok(None),
        };
        Ok(self.follow(next, acts))
    }

    /// Goes on as an answer says.
    fn follow(&mut self, next: Next, acts: &mut Acts) -> Option<Text>
        requires { acts.old ≡ login_ending None }
        ensures { (n : Negotiation) → self.old ≡ Negotiating n → FollowsFrom n next self.new result acts.new }
    {
        match next {
            Next::Asks(text, step, repeats) => {
                if let State::Negotiating(negotiation) = self {
                    negotiation.step = step;
                    negotiation.repeats = repeats;
                }
                Some(text)
            }
            Next::Opens(chap, exp_stat_sn) => {
                self.open(chap, exp_stat_sn);
                acts.over = Some(Plain::Ok.cause());
                None
            }
            Next::Ends(reason) => {
                *self = State::Over;
                acts.over = Some(Cause::from(reason));
                None
            }
        }
    }

    fn open(&mut self, chap: Chap, exp_stat_sn: u32)
        ensures { (n : Negotiation) → self.old ≡ Negotiating n
            → self.new ≡ Opened (session_after_login n.info exp_stat_sn chap) }
    {
        if let State::Negotiating(negotiation) = mem::replace(self, State::Over) {
            *self = State::Opened(negotiation.opened(chap, exp_stat_sn));
        }
    }

    /// Hands the session out.
    pub(crate) fn hand_out(&mut self) -> Option<Session>
        ensures value { result ≡ session_held self.old }
        ensures left { self.new ≡ after_handing self.old }
    {
        match mem::replace(self, State::Over) {
            State::Opened(session) => Some(session),
            state => {
                *self = state;
                None
            }
        }
    }
}
