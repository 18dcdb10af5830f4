//! The core of one login.

use crate::info::LoginInfo;
use crate::refusal::LoginRefusal;
use crate::session::Session;
use crate::state::{Negotiation, State};
use crate::step::{LoginStep, NextRequest};
use nb_iscsipdu::Pdu;
use nb_terms::{Acts, NoMemory};
use nb_wire::Text;
use std::alloc::Global;
use std::marker::Model;

/// The login of one session.
#[derive(Drop)]
pub struct Login {
    state: State,
}

impl Model for Login {
    ghost use Rattle.nb_login.specs.declared.state.State.{State};

    ghost Value = { State };

    ghost view = { λ l. l.state };
}

impl Login {
    ghost use Rattle.std.specs.Prelude.{◌≡◌, ◌∷◌, ◌++◌, [], ℕ, List, IfOk, OnOk, OnErr, IsSome, None, Some, Ok, true, false};
    ghost use Rattle.nb_iscsipdu.specs.PduTexts.{pdu_parts};
    ghost use Rattle.nb_login.specs.Asking.{login_text};
    ghost use Rattle.nb_login.specs.LoginHistory.{LoginEntry, login_entry, pdu_came, decided_at, expected_of, text_put, end_given, login_ending, login_ended};
    ghost use Rattle.nb_login.specs.LoginStands.{LoginStands, IsDone, session_opened};
    ghost use Rattle.nb_login.specs.Refusals.{BeginsLogin};
    ghost use Rattle.nb_login.specs.declared.step.NextRequest.TheVariants.{Names};

    /// Begins a login, and returns the text of its first request.
    pub fn start(alloc: Global, info: LoginInfo) -> Result<(Login, Text), LoginRefusal>
        ensures stands { IfOk result (λ r. LoginStands info r.0 []) }
        ensures names { IfOk result (λ r. r.1 ≡ login_text info Names 0) }
        // It is refused exactly where a name that may be sent holds a zero byte, but for memory.
        ensures refused { BeginsLogin info result }
    {
        if let Some(name) = info.zero_name() {
            return Err(LoginRefusal::ZeroByte(name));
        }
        let text = info.request(alloc, &NextRequest::Names, 0)?;
        let negotiation = Negotiation {
            info,
            step: LoginStep::Method,
            repeats: 0,
        };
        let login = Login {
            state: State::Negotiating(negotiation),
        };
        Ok((login, text))
    }

    /// Takes a PDU of the target, which the record `rec` completed, and returns the text of the next request.
    pub fn pdu(
        &mut self,
        alloc: Global,
        rec: u32,
        p: &Pdu<'_>,
        acts: &mut Acts,
    ) -> Result<Option<Text>, NoMemory>
        // With this PDU and what it comes to, the login stands for one answer more. `LoginStands` has what it
        // promises of all of them.
        ensures stands { (i : LoginInfo) (h : List LoginEntry) → LoginStands i self.old h
            → login_ended h ≡ false → let m = pdu_came rec (pdu_parts p.now) in
            OnOk result (LoginStands i self.new (h ++ login_entry m (decided_at i h m) ∷ [])) }
        // It returns the request that the answer calls for, and none exactly where it ends.
        ensures text { (i : LoginInfo) (h : List LoginEntry) → LoginStands i self.old h
            → login_ended h ≡ false → let m = pdu_came rec (pdu_parts p.now) in
            IfOk result (λ text. text ≡ text_put i (expected_of m) (decided_at i h m)) }
        // It asks for nothing but its end.
        ensures ends { (i : LoginInfo) (h : List LoginEntry) → LoginStands i self.old h
            → login_ended h ≡ false → let m = pdu_came rec (pdu_parts p.now) in
            OnOk result (acts.new ≡ login_ending (end_given (decided_at i h m))) }
        ensures memory { OnErr result ((self.new ≡ self.old) × (acts.new ≡ login_ending None)) }
        // After its end it ignores every PDU.
        ensures ended { (i : LoginInfo) (h : List LoginEntry) → LoginStands i self.old h
            → login_ended h ≡ true → (result ≡ Ok None) × (self.new ≡ self.old) × (acts.new ≡ login_ending None) }
        ensures over { IsDone self.old
            → (result ≡ Ok None) × (self.new ≡ self.old) × (acts.new ≡ login_ending None) }
    {
        acts.clear();
        self.state.receive(alloc, rec, p, acts)
    }

    /// Hands the session out. None exactly where the login didn't end with one, or handed it out before.
    pub fn session(&mut self) -> Option<Session>
        ensures opened { (i : LoginInfo) (h : List LoginEntry) → LoginStands i self.old h
            → result ≡ session_opened i h }
        // What has handed it out, or was refused, has none and stays so.
        ensures once { IsSome result → IsDone self.new }
        ensures over { IsDone self.old → (result ≡ None) × IsDone self.new }
        ensures unopened { result ≡ None → self.new ≡ self.old }
    {
        self.state.hand_out()
    }
}
