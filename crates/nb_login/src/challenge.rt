//! The target's challenge (RFC 7143, section 12.1.3).

ghost use Rattle.std.specs.Prelude.{◌≡◌, IfOk, option_and_then};
ghost use Rattle.nb_iscsipdu.specs.KeyTexts.{key_value};
ghost use Rattle.nb_chap.specs.Values.{byte_in};
ghost use Rattle.nb_login.specs.LoginVerdicts.{challenge_of, challenge_in};

use crate::answers::{binary_of_key, has_value};
use crate::step::Challenge;
use nb_chap::byte;
use nb_iscsipdu::Keys;
use nb_terms::NoMemory;
use nb_wire::Text;
use std::alloc::Global;

/// The challenge among an answer's keys, for the algorithm that was offered.
#[tactic(auto, unfolding(crate::specs::LoginVerdicts::challenge_in))]
pub(crate) fn challenge_in(alloc: Global, keys: &Keys<'_>) -> Result<Option<Challenge>, NoMemory>
    ensures { IfOk result (λ challenge. challenge ≡ challenge_in keys.now.bytes.now) }
{
    if !has_value(keys, b"CHAP_A", b"5") {
        return Ok(None);
    }
    let identifier = byte_of_key(keys, b"CHAP_I");
    let value = binary_of_key(alloc, keys, b"CHAP_C")?;
    Ok(challenge_of(identifier, value))
}

fn byte_of_key(keys: &Keys<'_>, name: &[u8]) -> Option<u8>
    ensures { result ≡ option_and_then byte_in (key_value name.now keys.now.bytes.now) }
{
    byte(keys.get(name)?)
}

fn challenge_of(identifier: Option<u8>, value: Option<Text>) -> Option<Challenge>
    ensures { result ≡ challenge_of identifier value }
{
    Some(Challenge {
        identifier: identifier?,
        value: value?,
    })
}
