//! Why a login isn't begun.

ghost use Rattle.std.specs.Prelude.{◌≡◌};
ghost use Rattle.nb_login.specs.Refusals.{refusal_cause};

use nb_terms::{Cause, NoMemory, Plain};

/// A name that a request of a login may send.
#[derive(Clone, Copy, Debug, PartialEq, Eq)]
pub enum SentName {
    /// The initiator's.
    Initiator,
    /// The target's.
    Target,
    /// Ours for CHAP.
    User,
}

/// Why a login isn't begun.
#[derive(Clone, Copy, Debug, PartialEq, Eq)]
pub enum LoginRefusal {
    /// This name holds a zero byte. Such a byte ends a key's text (RFC 7143, section 6.1), so what follows it in
    /// the name would be a key of its own.
    ZeroByte(SentName),
    NoMemory,
}

impl From<NoMemory> for LoginRefusal {
    ghost use Rattle.std.specs.Prelude.{◌≡◌};
    ghost use Rattle.nb_login.specs.declared.refusal.LoginRefusal.TheVariants as refusal;

    ghost from_gives = { λ _ e. e ≡ refusal.NoMemory };

    fn from(_: NoMemory) -> LoginRefusal {
        LoginRefusal::NoMemory
    }
}

impl LoginRefusal {
    /// The cause of an open that isn't begun for it: a target's name is part of a URI, the others are settings.
    pub fn cause(self) -> Cause
        ensures { result ≡ refusal_cause self }
    {
        match self {
            LoginRefusal::ZeroByte(SentName::Target) => Plain::BadUri.cause(),
            LoginRefusal::ZeroByte(SentName::Initiator | SentName::User) => Plain::BadValue.cause(),
            LoginRefusal::NoMemory => Plain::NoMemory.cause(),
        }
    }
}
