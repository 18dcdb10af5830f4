ghost use Rattle.std.specs.Prelude.{◌≡◌, ◌-◌, ◌<◌, ◌^◌, [], ◌∷◌, Some, IfOk, OnOk, OnErr};
ghost use Rattle.nb_defs.specs.Records.{IsIn, In};
ghost use Rattle.nb_record.specs.Logged.{Logged};
ghost use Rattle.nb_record.specs.View.{in_of};
ghost use Rattle.nb_client.specs.Serving.{Concludes, ConcludesAt, IsAnswerAt, IsAnswerBy, IsAnswerable, IsSoundAfter, IsWaitingFor, WaitsOrEnds, WakesBy};
ghost use Rattle.nb_client.specs.Soundness.{IsDriveAnswered, IsSound, awaited_at, snapshot_at};
ghost use Rattle.nb_client.specs.Turning.{GoesOnBy, IsServed, IsTurnOf};
ghost use Rattle.nb_client.specs.declared.pending.Expected.TheVariants as expected;
ghost use Rattle.nb_client.specs.declared.stage.Stage.TheVariants as stage;

use crate::site::{Site, lent_log};
use crate::stage::turn_of;
use crate::{Answer, Asked, Expected, KeptPending, Pending, Stage, Turn};
use nb_network::KeptEnd;
use nb_record::{InRec, Log, NoMemory};
use nb_runner::RunningScript;
use nb_teller::put_result;
use nb_terms::Plain;
use std::mem;

impl Site {
    /// A record is used while the script's command waits: for the end of an open, or a time.
    #[inline(always)]
    pub(crate) fn wait_on(
        &mut self,
        script: RunningScript,
        expected: Expected,
        entry: &InRec<'_>,
        log: &mut Log,
    ) -> Result<Stage, NoMemory>
        requires valid { IsIn (in_of entry.now) }
        requires served { IsServed (in_of entry.now) }
        requires few { self.old.used < 2 ^ 32 - 1 }
        requires sound { IsSound self.old.used self.old.world self.old.opens (stage.Waiting script expected) }
        ensures goes { IfOk result (λ st. GoesOnBy (in_of entry.now ∷ []) (snapshot_at self.old (stage.Waiting script expected))
            (snapshot_at self.new st) log.old log.new) }
        ensures nothing { OnErr result (log.new ≡ log.old) }
    {
        match expected {
            Expected::Open(pending) => self.wait_for_end(script, pending, entry, log),
            Expected::Moment(until) => self.sleep_on(script, until, entry, log),
        }
    }

    /// A record is used while the script's command waits for the end of an open.
    #[inline(always)]
    fn wait_for_end(
        &mut self,
        script: RunningScript,
        pending: KeptPending,
        entry: &InRec<'_>,
        log: &mut Log,
    ) -> Result<Stage, NoMemory>
        requires valid { IsIn (in_of entry.now) }
        requires served { IsServed (in_of entry.now) }
        requires few { self.old.used < 2 ^ 32 - 1 }
        requires sound { IsSound self.old.used self.old.world self.old.opens (stage.Waiting script (expected.Open pending)) }
        ensures goes { IfOk result (λ st. GoesOnBy (in_of entry.now ∷ []) (snapshot_at self.old (stage.Waiting script (expected.Open pending)))
            (snapshot_at self.new st) log.old log.new) }
        ensures nothing { OnErr result (log.new ≡ log.old) }
    {
        let place = log.place();
        let awaited = Some(pending.get().number);
        let ended = self.serve(entry, awaited, log)?;
        let answer = self.answer_by(pending.get(), ended);
        match self.answer(script, pending, answer, log) {
            Ok(stage) => Ok(stage),
            Err(NoMemory) => {
                log.go_back(place);
                Err(NoMemory)
            }
        }
    }

    /// A record is used while the command of this stage waits for the end of the open of this number. The stage stays in its
    /// place while that lives.
    #[inline(always)]
    pub(crate) fn wait_in(
        &mut self,
        stage: &mut Stage,
        number: u16,
        entry: &InRec<'_>,
        log: &mut Log,
    ) -> Result<Turn, NoMemory>
        requires valid { IsIn (in_of entry.now) }
        requires served { IsServed (in_of entry.now) }
        requires few { self.old.used < 2 ^ 32 - 1 }
        requires awaits { awaited_at stage.old ≡ Some number }
        requires sound { IsSound self.old.used self.old.world self.old.opens stage.old }
        ensures goes { OnOk result (GoesOnBy (in_of entry.now ∷ []) (snapshot_at self.old stage.old) (snapshot_at self.new stage.new)
            log.old log.new) }
        ensures turn { IfOk result (λ t. IsTurnOf t stage.new) }
        ensures nothing { OnErr result (log.new ≡ log.old) }
    {
        let place = log.place();
        let ended = self.serve(entry, Some(number), log)?;
        match self.answer_at(stage, ended) {
            None => {
                stage.rest();
                Ok(Turn::Waiting)
            }
            Some(answer) => match self.answer_in(stage, answer, log) {
                Ok(turn) => Ok(turn),
                Err(NoMemory) => {
                    log.go_back(place);
                    Err(NoMemory)
                }
            },
        }
    }

    /// What a command gets that has asked for this open, where that has ended or not.
    fn answer_by(&self, pending: &Pending, ended: Option<KeptEnd>) -> Option<Answer>
        ensures { IsAnswerBy pending.now ended self.now.opens result }
    {
        match ended {
            Some(ended) => Some(Answer::End(ended)),
            None if self.is_answered(pending) => Some(Answer::Drive),
            None => None,
        }
    }

    /// Whether it is a drive's, which has answered, or has read the block that it was asked for.
    fn is_answered(&self, pending: &Pending) -> bool
        ensures { IsDriveAnswered pending.now.asked pending.now.number self.now.opens result }
    {
        match pending.asked {
            Asked::Disk(_) => self.opens.answered(pending.number),
            Asked::Block(_) => self.opens.read(pending.number).is_some(),
            Asked::File(_) | Asked::Query(_) => false,
        }
    }

    /// The same by where the run stands.
    #[inline(always)]
    fn answer_at(&self, stage: &Stage, ended: Option<KeptEnd>) -> Option<Answer>
        requires { IsWaitingFor stage.now }
        ensures { IsAnswerAt stage.now ended self.now.opens result }
    {
        match stage {
            Stage::Waiting(_, Expected::Open(pending)) => self.answer_by(pending.get(), ended),
            _ => unreachable!(),
        }
    }

    /// What the command of this stage waits for has come.
    #[inline(never)]
    fn answer_in(
        &mut self,
        stage: &mut Stage,
        answer: Answer,
        log: &mut Log,
    ) -> Result<Turn, NoMemory>
        requires ready { IsAnswerable stage.old answer self.old }
        ensures concludes { OnOk result (ConcludesAt stage.old answer self.old (snapshot_at self.new stage.new) log.old log.new) }
        ensures turn { IfOk result (λ t. IsTurnOf t stage.new) }
        ensures nothing { OnErr result (log.new ≡ log.old) }
    {
        let Stage::Waiting(mut script, expected) = mem::replace(stage, Stage::Stopped) else {
            unreachable!()
        };
        let Expected::Open(pending) = expected else {
            unreachable!()
        };
        script.begin_step();
        let next = self.conclude_apart(script, pending, answer, log)?;
        let turn = turn_of(&next);
        *stage = next;
        Ok(turn)
    }

    /// The command waits on, or what it waits for has come.
    #[inline(always)]
    fn answer(
        &mut self,
        mut script: RunningScript,
        pending: KeptPending,
        answer: Option<Answer>,
        log: &mut Log,
    ) -> Result<Stage, NoMemory>
        requires { IsSoundAfter answer self.old script pending }
        ensures answers { IfOk result (λ st. WaitsOrEnds answer pending script self.old (snapshot_at self.new st) log.old log.new) }
        ensures nothing { OnErr result (log.new ≡ log.old) }
    {
        script.begin_step();
        match answer {
            None => Ok(Stage::Waiting(script, Expected::Open(pending))),
            Some(answer) => self.conclude_apart(script, pending, answer, log),
        }
    }

    /// What the command waits for has come. What comes of it is gathered until nothing can fail any more.
    #[inline(never)]
    fn conclude_apart(
        &mut self,
        script: RunningScript,
        pending: KeptPending,
        answer: Answer,
        log: &mut Log,
    ) -> Result<Stage, NoMemory>
        requires { IsSoundAfter (Some answer) self.old script pending }
        ensures concludes { IfOk result (λ st. Concludes pending answer script self.old (snapshot_at self.new st) log.old log.new) }
        ensures nothing { OnErr result (log.new ≡ log.old) }
    {
        let mut out = lent_log(self.alloc, self.gathered.take())?;
        let stage = self.conclude(script, pending.into_inner(), answer, &mut out)?;
        self.put_gathered(out, log)?;
        Ok(stage)
    }

    /// A record is used while the script's command waits for a time.
    #[inline(never)]
    fn sleep_on(
        &mut self,
        script: RunningScript,
        until: u64,
        entry: &InRec<'_>,
        log: &mut Log,
    ) -> Result<Stage, NoMemory>
        requires valid { IsIn (in_of entry.now) }
        requires served { IsServed (in_of entry.now) }
        requires few { self.old.used < 2 ^ 32 - 1 }
        requires sound { IsSound self.old.used self.old.world self.old.opens (stage.Waiting script (expected.Moment until)) }
        ensures goes { IfOk result (λ st. GoesOnBy (in_of entry.now ∷ []) (snapshot_at self.old (stage.Waiting script (expected.Moment until)))
            (snapshot_at self.new st) log.old log.new) }
        ensures nothing { OnErr result (log.new ≡ log.old) }
    {
        self.serve(entry, None, log)?;
        Ok(wake(script, until, self.world.time, log))
    }

    /// A record is used, and the script goes on, which had all the commands of a step.
    #[inline(never)]
    pub(crate) fn resume(
        &mut self,
        mut script: RunningScript,
        entry: &InRec<'_>,
        log: &mut Log,
    ) -> Result<Stage, NoMemory>
        requires valid { IsIn (in_of entry.now) }
        requires served { IsServed (in_of entry.now) }
        requires few { self.old.used < 2 ^ 32 - 1 }
        requires sound { IsSound self.old.used self.old.world self.old.opens (stage.Yielded script) }
        ensures goes { IfOk result (λ st. GoesOnBy (in_of entry.now ∷ []) (snapshot_at self.old (stage.Yielded script))
            (snapshot_at self.new st) log.old log.new) }
        ensures nothing { OnErr result (log.new ≡ log.old) }
    {
        self.serve(entry, None, log)?;
        script.begin_step();
        Ok(Stage::Running(script))
    }
}

/// The command waits on, or its time has come.
fn wake(mut script: RunningScript, until: u64, now: u64, log: &mut Log) -> Stage
    ensures { WakesBy until now script result log.old log.new }
{
    script.begin_step();
    if now < until {
        return Stage::Waiting(script, Expected::Moment(until));
    }
    put_result(Plain::Ok.cause(), log);
    script.end_with(Plain::Ok.cause());
    Stage::Running(script)
}
