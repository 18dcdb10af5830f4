//! How far a logical unit is.

ghost use Rattle.std.specs.Prelude.{◌≡◌, if◌then◌else◌};
ghost use Rattle.nb_drivenodes.specs.declared.unit_stage.UnitStage.TheVariants as stage;
ghost use Rattle.nb_drivenodes.specs.UnitTalks.{stage_is_ended_unit};

use nb_disk::Disk;

/// How far a logical unit is.
#[derive(Drop)]
pub(crate) enum UnitStage {
    /// Nothing is asked for yet.
    Unasked,
    /// The session was asked for.
    Waiting,
    /// The session is open, by a login with this kind of CHAP.
    Working(Disk, u32),
    /// The session has ended, or a port was closed.
    Ended,
}

impl UnitStage {
    pub(crate) fn is_ended(&self) -> bool
        ensures { result ≡ stage_is_ended_unit self.now }
    {
        match self {
            UnitStage::Unasked => false,
            UnitStage::Waiting => false,
            UnitStage::Working(_, _) => false,
            UnitStage::Ended => true,
        }
    }

    /// It has ended where the session has.
    pub(crate) fn end_if(&mut self, is_over: bool)
        ensures { self.new ≡ (if is_over then stage.Ended else self.old) }
    {
        if is_over {
            *self = UnitStage::Ended;
        }
    }
}
