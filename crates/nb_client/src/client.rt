ghost use Rattle.std.specs.Prelude.{◌≡◌, ◌<◌, ◌-◌, ◌^◌, [], ◌∷◌, Some, IfOk, OnOk, OnErr};
ghost use Rattle.nb_defs.specs.Records.{IsIn, IsStart};
ghost use Rattle.nb_record.specs.View.{in_of, start_of};
ghost use Rattle.nb_runner.specs.StatusNumber.{status_number};
ghost use Rattle.nb_client.specs.Progressing.{CanUse, ComesNearer, FinishesBy, IsAtWork, TurnsBy};
ghost use Rattle.nb_client.specs.Snapshots.{FitsOutput};
ghost use Rattle.nb_client.specs.Soundness.{IsSound, awaited_at, snapshot_at};
ghost use Rattle.nb_client.specs.Turning.{GoesOnBy, IsServed, MovesOn};
ghost use Rattle.nb_traced.specs.Holdings.{no_holdings};
ghost use Rattle.nb_client.specs.declared.stage.Stage.TheVariants as stage;

use crate::Stage;
use crate::concluding::go_on_with;
use crate::site::Site;
use crate::stage::turn_of;
use nb_record::{InRec, Log, NoMemory, Start};
use nb_runner::Status;
use std::alloc::Global;
use std::marker::Model;
use std::mem;

/// How a call of the client ended.
#[derive(Clone, Copy, Debug, PartialEq, Eq)]
pub enum Turn {
    /// A line, a command or a piece is done, and the step isn't over: call `more`.
    More,
    /// A command waits or sleeps: the step is over.
    Waiting,
    /// 4,096 commands began in this step, and another is to begin: the step is over.
    Yielded,
    /// The run is over.
    Over(Status),
}

/// A client: a run of scripts over records.
#[derive(Drop)]
pub struct Client {
    pub(crate) site: Site,
    pub(crate) stage: Stage,
    /// Memory ran out in a step: nothing more is done.
    pub(crate) lost: bool,
}

impl Model for Client {
    ghost use Rattle.nb_client.specs.Snapshots.{Snapshot, snapshot};
    ghost use Rattle.nb_client.specs.Soundness.{IsUsable, snapshot_at};

    ghost Value = { Snapshot };

    ghost view = { λ c. snapshot_at c.site c.stage };

    ghost invariant = { λ c. IsUsable c.lost (snapshot_at c.site c.stage) };
}

impl Client {
    /// A client for this START, before any record. It keeps the allocator.
    pub fn new(alloc: Global, start: &Start<'_>) -> Result<Client, NoMemory>
        requires { IsStart (start_of start.now) }
        ensures used { IfOk result (λ c. c.used ≡ 0) }
        ensures ready { IfOk result (λ c. c.stage ≡ stage.Ready) }
        ensures opens { IfOk result (λ c. c.world.opens ≡ 0) }
        ensures fits { IfOk result (λ c. FitsOutput c no_holdings) }
    {
        Ok(Client {
            site: Site::new(alloc, start)?,
            stage: Stage::Ready,
            lost: false,
        })
    }

    /// Uses a record: START is the first, and each other one comes while a command waits, or where the last step has yielded.
    /// Where memory runs out nothing is put, and the client is of no use any more.
    #[inline(always)]
    pub fn step(&mut self, entry: &InRec<'_>, log: &mut Log) -> Turn
        requires valid { IsIn (in_of entry.now) }
        requires fits { CanUse (in_of entry.now) self.old.stage }
        requires few { self.old.used < 2 ^ 32 - 1 }
        ensures { TurnsBy result (in_of entry.now ∷ []) self.old self.new log.old log.new }
    {
        if let (Some(number), InRec::Frame(_)) = (self.stage.awaited(), entry) {
            return self.wait_on(number, entry, log);
        }
        self.use_apart(entry, log)
    }

    /// Uses a frame while a command waits for the open of this number.
    #[inline(always)]
    fn wait_on(&mut self, number: u16, entry: &InRec<'_>, log: &mut Log) -> Turn
        requires valid { IsIn (in_of entry.now) }
        requires served { IsServed (in_of entry.now) }
        requires awaits { awaited_at self.old.stage ≡ Some number }
        requires few { self.old.used < 2 ^ 32 - 1 }
        ensures { TurnsBy result (in_of entry.now ∷ []) self.old self.new log.old log.new }
    {
        match self.site.wait_in(&mut self.stage, number, entry, log) {
            Ok(turn) => turn,
            Err(NoMemory) => {
                self.stage = Stage::Stopped;
                self.lost = true;
                Turn::Over(Status::NoMemory)
            }
        }
    }

    /// Uses any record. It stands apart from the frames that come while a command waits.
    #[inline(never)]
    fn use_apart(&mut self, entry: &InRec<'_>, log: &mut Log) -> Turn
        requires valid { IsIn (in_of entry.now) }
        requires fits { CanUse (in_of entry.now) self.old.stage }
        requires few { self.old.used < 2 ^ 32 - 1 }
        ensures { TurnsBy result (in_of entry.now ∷ []) self.old self.new log.old log.new }
    {
        let stage = mem::replace(&mut self.stage, Stage::Stopped);
        let Ok(stage) = self.site.use_record(stage, entry, log) else {
            self.lost = true;
            return Turn::Over(Status::NoMemory);
        };
        let turn = turn_of(&stage);
        self.stage = stage;
        turn
    }

    /// Goes on in the step: the script passes a line or does a command, or the next piece of the hand-off is put. Where
    /// memory runs out nothing is put.
    pub fn more(&mut self, log: &mut Log) -> Turn
        requires { IsAtWork self.old.stage }
        ensures does { TurnsBy result [] self.old self.new log.old log.new }
        ensures nearer { ComesNearer result self.old self.new }
    {
        let stage = mem::replace(&mut self.stage, Stage::Stopped);
        let Ok(stage) = self.site.go_on(stage, log) else {
            self.lost = true;
            return Turn::Over(Status::NoMemory);
        };
        let turn = turn_of(&stage);
        self.stage = stage;
        turn
    }

    /// Ends the run: closes each open that lives, lets go what waits, and puts that, their ends, and DONE with the run's
    /// status, the last record. Where memory runs out nothing is put.
    pub fn finish(&mut self, status: Status, log: &mut Log) -> Result<(), NoMemory>
        ensures puts { OnOk result (FinishesBy (status_number status) self.old log.old log.new) }
        ensures nothing { OnErr result (log.new ≡ log.old) }
    {
        if self.lost {
            return Err(NoMemory);
        }
        let stage = mem::replace(&mut self.stage, Stage::Stopped);
        let Ok(()) = self.site.end(&stage, status, log) else {
            self.lost = true;
            return Err(NoMemory);
        };
        Ok(())
    }
}

impl Site {
    /// Uses a record: where the run stands then. Where memory runs out nothing is put.
    #[inline(always)]
    fn use_record(
        &mut self,
        stage: Stage,
        entry: &InRec<'_>,
        log: &mut Log,
    ) -> Result<Stage, NoMemory>
        requires valid { IsIn (in_of entry.now) }
        requires fits { CanUse (in_of entry.now) stage }
        requires few { self.old.used < 2 ^ 32 - 1 }
        requires sound { IsSound self.old.used self.old.world self.old.opens stage }
        ensures goes { IfOk result (λ st. GoesOnBy (in_of entry.now ∷ []) (snapshot_at self.old stage) (snapshot_at self.new st) log.old log.new) }
        ensures nothing { OnErr result (log.new ≡ log.old) }
    {
        match (stage, entry) {
            (Stage::Ready, InRec::Start(record)) => self.start(&record.fields(), log),
            (stage, InRec::Off) => self.switch_off(&stage, log),
            (Stage::Waiting(script, expected), entry) => {
                self.wait_on(script, expected, entry, log)
            }
            (Stage::Yielded(script), entry) => self.resume(script, entry, log),
            _ => unreachable!(),
        }
    }

    /// Goes on in the step. Where memory runs out nothing is put.
    fn go_on(&mut self, stage: Stage, log: &mut Log) -> Result<Stage, NoMemory>
        requires work { IsAtWork stage }
        requires sound { IsSound self.old.used self.old.world self.old.opens stage }
        ensures moves { IfOk result (λ st. MovesOn (snapshot_at self.old stage) (snapshot_at self.new st) log.old log.new) }
        ensures nothing { OnErr result (log.new ≡ log.old) }
    {
        match stage {
            Stage::Running(script) => self.advance(script, log),
            Stage::Reaching(script, next) => self.go_onward(script, next, log),
            Stage::Returning(script, cause) => Ok(go_on_with(script, cause, log)),
            Stage::HandingOff(handing) => Ok(self.hand_on(handing, log)),
            _ => unreachable!(),
        }
    }
}
