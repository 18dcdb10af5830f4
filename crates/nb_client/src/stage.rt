ghost use Rattle.std.specs.Prelude.{◌≡◌};
ghost use Rattle.nb_client.specs.Serving.{rested};
ghost use Rattle.nb_client.specs.Soundness.{WasStarted, awaited_at};
ghost use Rattle.nb_client.specs.Turning.{IsTurnOf};

use crate::{Expected, KeptNext, Turn};
use nb_record::Cause;
use nb_runner::{Handing, RunningScript, Status, status_after};

/// Where a run stands.
#[derive(Drop)]
pub enum Stage {
    /// START wasn't used yet.
    Ready,
    /// A script runs.
    Running(RunningScript),
    /// The script's last command waits.
    Waiting(RunningScript, Expected),
    /// The script's last command asks for something next: its server's address was found, or its file was moved.
    Reaching(RunningScript, KeptNext),
    /// 4,096 commands of the script began in this step, and another is to begin.
    Yielded(RunningScript),
    /// A script within this one was left with this cause, which the command that ran it has.
    Returning(RunningScript, Cause),
    /// An image or a disk is handed off.
    HandingOff(Handing),
    /// The first script was left with this cause.
    Left(Cause),
    /// All was handed off.
    HandedOff,
    /// The power was switched off.
    Stopped,
}

/// How a call ended after which the run stands so.
pub(crate) fn turn_of(stage: &Stage) -> Turn
    requires { WasStarted stage.now }
    ensures { IsTurnOf result stage.now }
{
    match stage {
        Stage::Running(_) | Stage::Reaching(..) | Stage::Returning(..) | Stage::HandingOff(_) =>
            Turn::More,
        Stage::Waiting(..) => Turn::Waiting,
        Stage::Yielded(_) => Turn::Yielded,
        Stage::Left(cause) => Turn::Over(status_after(*cause)),
        Stage::HandedOff => Turn::Over(Status::HandedOff),
        Stage::Stopped => Turn::Over(Status::Unfinished),
        Stage::Ready => unreachable!(),
    }
}

impl Stage {
    /// The number of the open that a command waits for, if one does.
    #[inline(always)]
    pub(crate) fn awaited(&self) -> Option<u16>
        ensures { result ≡ awaited_at self.now }
    {
        match self {
            Stage::Waiting(_, Expected::Open(pending)) => Some(pending.get().number),
            _ => None,
        }
    }

    /// A step ends in which a command has waited on.
    #[inline(always)]
    pub(crate) fn rest(&mut self)
        ensures { self.new ≡ rested self.old }
    {
        if let Stage::Waiting(script, _) = self {
            script.begin_step();
        }
    }
}
