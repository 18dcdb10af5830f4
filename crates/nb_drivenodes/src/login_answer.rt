//! What a PDU makes of a login.

ghost use Rattle.std.specs.Prelude.{◌≡◌, ◌++◌, List, ℕ, false, IfOk};
ghost use Rattle.nb_iscsipdu.specs.PduTexts.{pdu_parts};
ghost use Rattle.nb_login.specs.declared.info.LoginInfo.{LoginInfo as Info};
ghost use Rattle.nb_login.specs.LoginHistory.{LoginEntry, pdu_came, login_ended};
ghost use Rattle.nb_login.specs.LoginStands.{LoginStands};
ghost use Rattle.nb_drivenodes.specs.SessionTalks.{AnswersLogin};

use crate::session_note::note_text;
use nb_iscsipdu::Pdu;
use nb_login::Login;
use nb_terms::{Acts, Cause, NoMemory};
use nb_wire::Text;
use std::alloc::Global;

/// What a PDU makes of a login.
#[derive(Drop)]
pub(crate) enum LoginAnswer {
    /// This request is sent.
    Asks(Text),
    /// The session is open: what its user needs of it, the number of the next answer, and the kind of CHAP.
    Opens(Text, u32, u8),
    /// It has failed so.
    Fails(Option<Cause>),
}

/// What a login makes of a PDU, which this record completed.
pub(crate) fn answer_to(
    alloc: Global,
    login: &mut Login,
    rec: u32,
    pdu: &Pdu<'_>,
    acts: &mut Acts,
) -> Result<LoginAnswer, NoMemory>
    ensures { IfOk result (λ a. (i : Info) (h : List LoginEntry) → LoginStands i login.old h → login_ended h ≡ false
        → AnswersLogin i h (pdu_came rec (pdu_parts pdu.now)) (LoginStands i login.new) a) }
{
    if let Some(text) = login.pdu(alloc, rec, pdu, acts)? {
        return Ok(LoginAnswer::Asks(text));
    }
    match login.session() {
        Some(session) => {
            let note = note_text(alloc, &session)?;
            Ok(LoginAnswer::Opens(note, session.exp_stat_sn, session.chap))
        }
        None => Ok(LoginAnswer::Fails(acts.over)),
    }
}
