//! The response to a challenge.

ghost use Rattle.std.specs.Prelude.{◌≡◌};
ghost use Rattle.nb_chap.specs.Responses.{chap_response};

use md5::{Digest, Md5};

/// The response of one who knows the secret to a challenge with this identifier (RFC 1994, section 4.1).
#[tactic(auto, unfolding(crate::specs::Responses::chap_response))]
pub fn response(identifier: u8, secret: &[u8], challenge: &[u8]) -> [u8; 16]
    ensures { result ≡ chap_response identifier secret.now challenge.now }
{
    let mut hasher = Md5::new();
    hasher.update([identifier].as_slice());
    hasher.update(secret);
    hasher.update(challenge);
    hasher.finalize()
}
