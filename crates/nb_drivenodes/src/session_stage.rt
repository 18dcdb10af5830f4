//! How far a session is.

ghost use Rattle.std.specs.Prelude.{◌≡◌};
ghost use Rattle.nb_drivenodes.specs.SessionTalks.{stage_is_ended_session};

use nb_login::Login;

/// How far a session is.
#[derive(Drop)]
pub(crate) enum SessionStage {
    /// Nothing is asked for yet.
    Unasked,
    /// The connection was asked for, and the login is at work.
    LoggingIn(Login),
    /// The session is open: PDUs go up, and texts go down.
    Open,
    /// It was open, and no PDU comes any more: it waits for its close.
    Drained,
    /// The login has failed, or a port was closed.
    Ended,
}

impl SessionStage {
    pub(crate) fn is_ended(&self) -> bool
        ensures { result ≡ stage_is_ended_session self.now }
    {
        match self {
            SessionStage::Unasked => false,
            SessionStage::LoggingIn(_) => false,
            SessionStage::Open => false,
            SessionStage::Drained => false,
            SessionStage::Ended => true,
        }
    }
}
