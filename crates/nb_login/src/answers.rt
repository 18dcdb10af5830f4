//! What the keys of an answer say.

ghost use Rattle.std.specs.Prelude.{◌≡◌, IfOk};
ghost use Rattle.nb_iscsipdu.specs.Answers.{login_response_parts};
ghost use Rattle.nb_login.specs.LoginVerdicts.{has_value, has_other_value, has_digest, chooses_chap, names_method, binary_of_key, goes_astray, is_same_stage, is_wanted_value, answers_back};

use crate::info::LoginInfo;
use crate::step::LoginStep;
use nb_chap::{binary, response};
use nb_iscsipdu::{Keys, LoginResponse, Stage};
use nb_terms::NoMemory;
use nb_wire::Text;
use std::alloc::Global;

/// Whether a key has this value.
#[tactic(auto, unfolding(crate::specs::LoginVerdicts::has_value))]
pub(crate) fn has_value(keys: &Keys<'_>, name: &[u8], value: &[u8]) -> bool
    ensures { result ≡ has_value name.now value.now keys.now.bytes.now }
{
    match keys.get(name) {
        Some(got) => got == value,
        None => false,
    }
}

/// Whether a key is there with another value.
#[tactic(auto, unfolding(crate::specs::LoginVerdicts::has_other_value))]
fn has_other_value(keys: &Keys<'_>, name: &[u8], value: &[u8]) -> bool
    ensures { result ≡ has_other_value name.now value.now keys.now.bytes.now }
{
    match keys.get(name) {
        Some(got) => got != value,
        None => false,
    }
}

/// Whether a digest is asked for.
#[tactic(auto, unfolding(crate::specs::LoginVerdicts::has_digest))]
pub(crate) fn has_digest(keys: &Keys<'_>) -> bool
    ensures { result ≡ has_digest keys.now.bytes.now }
{
    has_other_value(keys, b"HeaderDigest", b"None") || has_other_value(keys, b"DataDigest", b"None")
}

/// Whether the target chooses CHAP.
#[tactic(auto, unfolding(crate::specs::LoginVerdicts::chooses_chap))]
pub(crate) fn chooses_chap(keys: &Keys<'_>) -> bool
    ensures { result ≡ chooses_chap keys.now.bytes.now }
{
    has_value(keys, b"AuthMethod", b"CHAP")
}

/// Whether the target says anything of methods.
#[tactic(auto, unfolding(crate::specs::LoginVerdicts::names_method))]
pub(crate) fn names_method(keys: &Keys<'_>) -> bool
    ensures { result ≡ names_method keys.now.bytes.now }
{
    keys.get(b"AuthMethod").is_some()
}

/// The binary value of a key.
#[tactic(auto, unfolding(crate::specs::LoginVerdicts::binary_of_key))]
pub(crate) fn binary_of_key(
    alloc: Global,
    keys: &Keys<'_>,
    name: &[u8],
) -> Result<Option<Text>, NoMemory>
    ensures { IfOk result (λ value. value ≡ binary_of_key name.now keys.now.bytes.now) }
{
    match keys.get(name) {
        Some(text) => binary(alloc, text),
        None => Ok(None),
    }
}

/// Whether the target goes on where that wasn't asked for, or to another stage.
pub(crate) fn goes_astray(step: LoginStep, answer: &LoginResponse<'_>) -> bool
    ensures { result ≡ goes_astray step (login_response_parts answer.now) }
{
    answer.transit && !is_same_stage(step.next_stage(), answer.next)
}

fn is_same_stage(asked: Option<Stage>, given: Option<Stage>) -> bool
    ensures { result ≡ is_same_stage asked given }
{
    match (asked, given) {
        (Some(asked), Some(given)) => asked.number() == given.number(),
        _ => false,
    }
}

impl LoginInfo {
    /// Whether the target answers our challenge, under its name.
    #[tactic(auto, unfolding(crate::specs::LoginVerdicts::answers_back))]
    pub(crate) fn is_answered(&self, alloc: Global, keys: &Keys<'_>) -> Result<bool, NoMemory>
        ensures { IfOk result (λ is. is ≡ answers_back self.now keys.now.bytes.now) }
    {
        let own = response(
            self.own_identifier(),
            self.reverse_secret.as_slice(),
            &self.own_challenge(),
        );
        let given = binary_of_key(alloc, keys, b"CHAP_R")?;
        Ok(has_value(keys, b"CHAP_N", self.reverse_user.as_slice()) && is_value(&given, &own))
    }
}

fn is_value(given: &Option<Text>, wanted: &[u8]) -> bool
    ensures { result ≡ is_wanted_value given.now wanted.now }
{
    match given {
        Some(value) => value.as_slice() == wanted,
        None => false,
    }
}
