//! What is asked of a target, and what its answers come to.

ghost use Rattle.std.specs.Prelude.{◌≡◌};
ghost use Rattle.nb_login.specs.Asking.{step_again, step_of, current_stage, next_stage};
ghost use Rattle.nb_login.specs.LoginHistory.{counted_repeats};
ghost use Rattle.nb_login.specs.LoginStands.{chap_number};
ghost use Rattle.nb_login.specs.declared.step.Decision.TheVariants.{Ask};

use nb_iscsipdu::Stage;
use nb_terms::Reason;
use nb_wire::Text;

/// Which sides were authenticated by CHAP.
#[derive(Clone, Copy, PartialEq, Eq, Drop)]
pub(crate) enum Chap {
    No,
    /// The target has taken our response.
    OneWay,
    /// We have taken the target's response too.
    BothWays,
}

/// What the request that is out waits for.
#[derive(Clone, Copy, PartialEq, Eq, Drop)]
pub(crate) enum LoginStep {
    /// Which method the target chooses.
    Method,
    /// The target's challenge.
    Challenge,
    /// What the target says to our response, and its response where it is to give one.
    Response,
    /// That the target goes on, after CHAP.
    Identified,
    /// That the target takes the parameters, which opens the session.
    Parameters(Chap),
}

/// A challenge of the target.
#[derive(Drop)]
pub(crate) struct Challenge {
    pub(crate) identifier: u8,
    pub(crate) value: Text,
}

/// A request to the target.
#[derive(Drop)]
pub(crate) enum NextRequest {
    /// Who we are, whom we want, and which methods we offer.
    Names,
    /// CHAP with MD5.
    Algorithm,
    /// Our response to this challenge, and our own challenge where the target is to answer one.
    Response(Challenge),
    /// The session's parameters.
    Parameters(Chap),
    /// No keys, in the same stage; so many such requests were made with it.
    Again(LoginStep, u8),
}

/// What an answer comes to.
#[derive(Drop)]
pub(crate) enum Decision {
    Ask(NextRequest),
    /// The session is open.
    Open(Chap),
    End(Reason),
}

impl Chap {
    pub(crate) fn number(self) -> u8
        ensures { result ≡ chap_number self }
    {
        match self {
            Chap::No => 0,
            Chap::OneWay => 1,
            Chap::BothWays => 2,
        }
    }
}

impl LoginStep {
    /// The stage of a request that waits for this.
    pub(crate) fn stage(self) -> Stage
        ensures { result ≡ current_stage self }
    {
        match self {
            LoginStep::Parameters(_) => Stage::Operational,
            _ => Stage::Security,
        }
    }

    /// The stage that the request asks to go on to.
    pub(crate) fn next_stage(self) -> Option<Stage>
        ensures { result ≡ next_stage self }
    {
        match self {
            LoginStep::Challenge => None,
            LoginStep::Parameters(_) => Some(Stage::FullFeature),
            LoginStep::Method | LoginStep::Response | LoginStep::Identified => Some(
                Stage::Operational,
            ),
        }
    }

    /// What the same stage's request without keys waits for.
    pub(crate) fn again(self) -> LoginStep
        ensures { result ≡ step_again self }
    {
        match self {
            LoginStep::Response => LoginStep::Identified,
            step => step,
        }
    }
}

impl NextRequest {
    /// What the request waits for.
    pub(crate) fn step(&self) -> LoginStep
        ensures { result ≡ step_of self.now }
    {
        match self {
            NextRequest::Names => LoginStep::Method,
            NextRequest::Algorithm => LoginStep::Challenge,
            NextRequest::Response(_) => LoginStep::Response,
            NextRequest::Parameters(chap) => LoginStep::Parameters(*chap),
            NextRequest::Again(step, _) => step.again(),
        }
    }

    /// How many requests without keys were made with it, after so many before it.
    pub(crate) fn repeats(&self, before: u8) -> u8
        ensures { result ≡ counted_repeats before (Ask self.now) }
    {
        match self {
            NextRequest::Again(_, number) => *number,
            _ => before,
        }
    }
}
