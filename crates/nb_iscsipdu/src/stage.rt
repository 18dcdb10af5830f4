//! The stages of a login.

ghost use Rattle.std.specs.Prelude.{◌≡◌};
ghost use Rattle.nb_iscsipdu.specs.Stages.{stage_number, stage_numbered};

/// A stage of the login (RFC 7143, section 11.12.3).
#[derive(Clone, Copy, Debug, PartialEq, Eq, Drop)]
pub enum Stage {
    /// Who each side is.
    Security,
    /// The session's parameters.
    Operational,
    /// The session is open.
    FullFeature,
}

impl Stage {
    /// The number that the fields CSG and NSG have for it.
    pub fn number(self) -> u8
        ensures { result ≡ stage_number self }
    {
        match self {
            Stage::Security => 0,
            Stage::Operational => 1,
            Stage::FullFeature => 3,
        }
    }

    /// The stage of a number. 2 is reserved.
    pub(crate) fn numbered(number: u8) -> Option<Stage>
        ensures { result ≡ stage_numbered number }
    {
        match number {
            0 => Some(Stage::Security),
            1 => Some(Stage::Operational),
            3 => Some(Stage::FullFeature),
            _ => None,
        }
    }
}
