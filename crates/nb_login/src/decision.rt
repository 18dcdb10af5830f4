//! What an answer comes to, by the request that is out: first its status, then where it goes on to, then the
//! digests, and the stage's keys last (RFC 7143, sections 6.3 and 11.13).

ghost use Rattle.std.specs.Prelude.{◌≡◌, IfOk};
ghost use Rattle.nb_terms.specs.declared.reason.Reason.TheVariants as reason;
ghost use Rattle.nb_iscsipdu.specs.Answers.{answer_parts, login_response_parts};
ghost use Rattle.nb_login.specs.LoginVerdicts.{decided, by_response, by_keys, begin_chap, challenge_in, at_method, at_challenge, at_response, at_parameters, go_on, ask_again, broken_login, chap_kind};

use crate::answers::{chooses_chap, goes_astray, has_digest, names_method};
use crate::challenge::challenge_in;
use crate::info::LoginInfo;
use crate::state::Negotiation;
use crate::step::{Chap, Decision, LoginStep, NextRequest};
use nb_iscsipdu::{Answer, LoginResponse};
use nb_terms::{NoMemory, Plain, Reason};
use std::alloc::Global;

/// The most requests without keys in a login.
const MAX_REPEATS: u8 = 4;

/// The answer isn't allowed in its place.
fn broken(rec: u32) -> Decision
    ensures { result ≡ broken_login rec }
{
    Decision::End(Reason::Broken { rec })
}

/// Asks once more without keys, unless that was done too often.
fn ask_again(rec: u32, repeats: u8, step: LoginStep) -> Decision
    ensures { result ≡ ask_again rec repeats step }
{
    if repeats < MAX_REPEATS {
        Decision::Ask(NextRequest::Again(step, repeats + 1))
    } else {
        broken(rec)
    }
}

/// On to the parameters, where the target goes on.
fn go_on(rec: u32, repeats: u8, step: LoginStep, chap: Chap, answer: &LoginResponse<'_>) -> Decision
    ensures { result ≡ go_on rec repeats step chap (login_response_parts answer.now) }
{
    if answer.transit {
        Decision::Ask(NextRequest::Parameters(chap))
    } else {
        ask_again(rec, repeats, step)
    }
}

impl Negotiation {
    /// What a PDU comes to: only a Login Response is allowed.
    pub(crate) fn decide(
        &self,
        alloc: Global,
        rec: u32,
        answer: &Answer<'_>,
    ) -> Result<Decision, NoMemory>
        ensures { IfOk result (λ does. does
            ≡ decided self.now.info self.now.step rec self.now.repeats (answer_parts answer.now)) }
    {
        match answer {
            Answer::Login(response) => self.by_response(alloc, rec, response),
            Answer::Scsi(_) | Answer::Data(_) | Answer::Nop(_) | Answer::Other => Ok(broken(rec)),
        }
    }

    #[tactic(auto, unfolding(crate::specs::LoginVerdicts::by_response))]
    fn by_response(
        &self,
        alloc: Global,
        rec: u32,
        answer: &LoginResponse<'_>,
    ) -> Result<Decision, NoMemory>
        ensures { IfOk result (λ does. does
            ≡ by_response self.now.info self.now.step rec self.now.repeats (login_response_parts answer.now)) }
    {
        if answer.class != 0 {
            let code = u16::from(answer.class) * 256 + u16::from(answer.detail);
            return Ok(Decision::End(Reason::Refused { rec, code }));
        }
        if goes_astray(self.step, answer) || has_digest(&answer.keys) {
            return Ok(broken(rec));
        }
        self.by_keys(alloc, rec, answer)
    }

    /// What the keys of the stage come to.
    fn by_keys(
        &self,
        alloc: Global,
        rec: u32,
        answer: &LoginResponse<'_>,
    ) -> Result<Decision, NoMemory>
        ensures { IfOk result (λ does. does
            ≡ by_keys self.now.info self.now.step rec self.now.repeats (login_response_parts answer.now)) }
    {
        let repeats = self.repeats;
        match self.step {
            LoginStep::Method => Ok(self.info.at_method(rec, repeats, answer)),
            LoginStep::Challenge => at_challenge(alloc, rec, answer),
            LoginStep::Response => self.info.at_response(alloc, rec, repeats, answer),
            LoginStep::Identified => {
                let chap = self.info.chap_kind();
                Ok(go_on(rec, repeats, LoginStep::Identified, chap, answer))
            }
            LoginStep::Parameters(chap) => Ok(at_parameters(rec, repeats, chap, answer)),
        }
    }
}

impl LoginInfo {
    /// Which sides are authenticated by a login that uses CHAP.
    fn chap_kind(&self) -> Chap
        ensures { result ≡ chap_kind self.now }
    {
        if self.asks_back() {
            Chap::BothWays
        } else {
            Chap::OneWay
        }
    }

    /// The target's choice of a method.
    fn at_method(&self, rec: u32, repeats: u8, answer: &LoginResponse<'_>) -> Decision
        ensures { result ≡ at_method self.now rec repeats (login_response_parts answer.now) }
    {
        if chooses_chap(&answer.keys) {
            return self.begin_chap();
        }
        if self.asks_back() && (answer.transit || names_method(&answer.keys)) {
            return broken(rec);
        }
        go_on(rec, repeats, LoginStep::Method, Chap::No, answer)
    }

    fn begin_chap(&self) -> Decision
        ensures { result ≡ begin_chap self.now }
    {
        if self.has_secret() {
            Decision::Ask(NextRequest::Algorithm)
        } else {
            Decision::End(Reason::Plain(Plain::NoSecret))
        }
    }

    /// What the target says to our response. Its own response, where we asked for it, stands in this answer.
    fn at_response(
        &self,
        alloc: Global,
        rec: u32,
        repeats: u8,
        answer: &LoginResponse<'_>,
    ) -> Result<Decision, NoMemory>
        ensures { IfOk result (λ does. does
            ≡ at_response self.now rec repeats (login_response_parts answer.now)) }
    {
        if self.asks_back() && !self.is_answered(alloc, &answer.keys)? {
            return Ok(broken(rec));
        }
        let chap = self.chap_kind();
        Ok(go_on(rec, repeats, LoginStep::Response, chap, answer))
    }
}

/// The target's challenge.
fn at_challenge(alloc: Global, rec: u32, answer: &LoginResponse<'_>) -> Result<Decision, NoMemory>
    ensures { IfOk result (λ does. does ≡ at_challenge rec (challenge_in answer.now.keys.bytes.now)) }
{
    match challenge_in(alloc, &answer.keys)? {
        Some(challenge) => Ok(Decision::Ask(NextRequest::Response(challenge))),
        None => Ok(broken(rec)),
    }
}

/// Where the target goes on, the session is open.
fn at_parameters(rec: u32, repeats: u8, chap: Chap, answer: &LoginResponse<'_>) -> Decision
    ensures { result ≡ at_parameters rec repeats chap (login_response_parts answer.now) }
{
    if answer.transit {
        Decision::Open(chap)
    } else {
        ask_again(rec, repeats, LoginStep::Parameters(chap))
    }
}
