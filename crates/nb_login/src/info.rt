//! What an initiator brings.

ghost use Rattle.std.specs.Prelude.{◌≡◌};
ghost use Rattle.nb_login.specs.Infos.{is_set};
ghost use Rattle.nb_login.specs.Refusals.{name_has_zero};

use crate::refusal::SentName;
use nb_wire::Text;

/// What a login is begun with. An empty `user`, `secret` or `reverse_user` counts as unset.
#[derive(Drop)]
pub struct LoginInfo {
    /// The initiator's name.
    pub initiator: Text,
    /// The target's name.
    pub target: Text,
    /// The unit that the session is for; the login doesn't look at it.
    pub lun: [u8; 8],
    /// Our name for CHAP.
    pub user: Text,
    /// The secret with which we answer the target's challenge.
    pub secret: Text,
    /// The target's name for CHAP, where it is to answer ours.
    pub reverse_user: Text,
    /// The secret with which the target answers.
    pub reverse_secret: Text,
    /// Random words, of which 1 to 6 are used.
    pub words: [u32; 8],
}

impl LoginInfo {
    ghost use Rattle.nb_login.specs.Infos.{has_secret, asks_back, isid, own_identifier, own_challenge};
    ghost use Rattle.nb_login.specs.Refusals.{zero_name};

    /// The first name that may be sent and that holds a zero byte.
    pub(crate) fn zero_name(&self) -> Option<SentName>
        ensures { result ≡ zero_name self.now }
    {
        if has_zero(&self.initiator) {
            Some(SentName::Initiator)
        } else if has_zero(&self.target) {
            Some(SentName::Target)
        } else if has_zero(&self.user) {
            Some(SentName::User)
        } else {
            None
        }
    }

    /// Whether we can answer a challenge.
    pub(crate) fn has_secret(&self) -> bool
        ensures { result ≡ has_secret self.now }
    {
        is_set(&self.user) && is_set(&self.secret)
    }

    /// Whether the target is to answer a challenge of ours.
    pub(crate) fn asks_back(&self) -> bool
        ensures { result ≡ asks_back self.now }
    {
        is_set(&self.reverse_user)
    }

    /// Our part of the session's identifier: a random one (RFC 7143, section 11.12.5).
    pub(crate) fn isid(&self) -> [u8; 6]
        ensures { result ≡ isid self.now }
    {
        let [_, a, b, c] = self.words[1].to_be_bytes();
        [0x80, a, b, c, 0, 0]
    }

    /// The identifier of our challenge.
    pub(crate) fn own_identifier(&self) -> u8
        ensures { result ≡ own_identifier self.now }
    {
        (self.words[2] % 256) as u8
    }

    /// The value of our challenge.
    pub(crate) fn own_challenge(&self) -> [u8; 16]
        ensures { result ≡ own_challenge self.now }
    {
        let [a0, a1, a2, a3] = self.words[3].to_be_bytes();
        let [b0, b1, b2, b3] = self.words[4].to_be_bytes();
        let [c0, c1, c2, c3] = self.words[5].to_be_bytes();
        let [d0, d1, d2, d3] = self.words[6].to_be_bytes();
        [
            a0, a1, a2, a3, b0, b1, b2, b3, c0, c1, c2, c3, d0, d1, d2, d3,
        ]
    }
}

fn is_set(text: &Text) -> bool
    ensures { result ≡ is_set text.now }
{
    text.len() > 0
}

fn has_zero(name: &Text) -> bool
    ensures { result ≡ name_has_zero name.now }
{
    name.as_slice().contains(&0)
}
