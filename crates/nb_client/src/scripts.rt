ghost use Rattle.std.specs.Prelude.{◌≡◌, ◌+◌, ◌*◌, ◌≤◌, [], ◌∷◌, Ok, IfOk, IfSome, OnErr, length, true};
ghost use Rattle.nb_command.specs.Planning.{planned};
ghost use Rattle.nb_command.specs.Printed.{most_printed};
ghost use Rattle.nb_defs.specs.Commands.{refused};
ghost use Rattle.nb_defs.specs.Records.{leave, out_texts};
ghost use Rattle.nb_defs.specs.ScriptLines.{label_place};
ghost use Rattle.nb_record.specs.Logged.{Puts};
ghost use Rattle.nb_machine.specs.CommandRecords.{command_record};
ghost use Rattle.nb_machine.specs.Effects.{shown_as};
ghost use Rattle.nb_machine.specs.Running.{entered};
ghost use Rattle.nb_runner.specs.CommandWords.{IsLocal, PrintsAtMost, done_of};
ghost use Rattle.nb_runner.specs.NextCommand.{HasCommand, IsReady};
ghost use Rattle.nb_runner.specs.declared.world.World.{World as TheWorld};
ghost use Rattle.nb_client.specs.Snapshots.{snapshot};
ghost use Rattle.nb_client.specs.Soundness.{IsSound, snapshot_at};
ghost use Rattle.nb_client.specs.Turning.{ComesToEnd, EndsCommand, GoesAt, IsCarriedOutBy, IsLeftAt, IsSettledAt, MovesOn};
ghost use Rattle.nb_client.specs.declared.pending.Expected.TheVariants as expected;
ghost use Rattle.nb_client.specs.declared.stage.Stage.TheVariants as stage;

use crate::site::Site;
use crate::{Expected, Stage};
use nb_command::{CommandPlan, PlanError, plan};
use nb_record::{Cause, Log, NoMemory};
use nb_runner::{Deed, Done, Next, RunningScript};
use nb_terms::Plain;
use nb_wire::Word;

impl Site {
    /// The script goes on: it passes a line or a command, does a command, or is left.
    pub(crate) fn advance(
        &mut self,
        mut script: RunningScript,
        log: &mut Log,
    ) -> Result<Stage, NoMemory>
        requires sound { IsSound self.old.used self.old.world self.old.opens (stage.Running script) }
        ensures moves { IfOk result (λ st. MovesOn (snapshot_at self.old (stage.Running script)) (snapshot_at self.new st) log.old log.new) }
        ensures nothing { OnErr result (log.new ≡ log.old) }
    {
        match script.next(self.alloc, &self.world.state.table)? {
            Next::Passed => Ok(Stage::Running(script)),
            Next::Left(cause) => Ok(self.leave_with(&script, cause, log)),
            Next::Begins(list) => self.command(script, list.as_slice(), log),
            Next::Refused(list, cause) => {
                Ok(self.refuse(script, false, list.as_slice(), cause, log))
            }
            Next::Full => Ok(Stage::Yielded(script)),
        }
    }

    /// Does a command of these words, which were expanded.
    fn command(
        &mut self,
        script: RunningScript,
        words: &[Word],
        log: &mut Log,
    ) -> Result<Stage, NoMemory>
        requires sound { IsSound self.old.used self.old.world self.old.opens (stage.Running script) }
        requires words { HasCommand script self.old.world.state.table words.now }
        ensures moves { IfOk result (λ st. MovesOn (snapshot_at self.old (stage.Running script)) (snapshot_at self.new st) log.old log.new) }
        ensures nothing { OnErr result (log.new ≡ log.old) }
    {
        match plan(self.alloc, words) {
            Ok(CommandPlan::Images(command)) => self.do_images(script, words, &command, log),
            Ok(CommandPlan::Drives(command)) => self.do_drives(script, words, &command, log),
            Ok(
                plan @ (CommandPlan::Dhcp(_)
                | CommandPlan::Ping { .. }
                | CommandPlan::Nslookup { .. }),
            ) => self.inquire(script, words, &plan, log),
            Ok(plan) => self.carry_out(script, words, &plan, log),
            Err(PlanError::NoMemory) => Err(NoMemory),
            Err(PlanError::Unknown) => {
                Ok(self.refuse(script, true, words, Plain::Unknown.cause(), log))
            }
            Err(PlanError::Usage) => {
                Ok(self.refuse(script, true, words, Plain::Usage.cause(), log))
            }
        }
    }

    /// A command is refused with this cause, and the script goes on.
    pub(crate) fn refuse(
        &mut self,
        mut script: RunningScript,
        expanded: bool,
        words: &[Word],
        cause: Cause,
        log: &mut Log,
    ) -> Stage
        requires sound { IsSound self.old.used self.old.world self.old.opens (stage.Running script) }
        requires words { IsReady script words.now }
        requires refused { ComesToEnd script self.old.world (shown_as expanded words.now) (refused cause) self.old.world }
        ensures { MovesOn (snapshot_at self.old (stage.Running script)) (snapshot_at self.new result) log.old log.new }
    {
        let left = script.finish(expanded, words, &Done::with(cause), log);
        self.settled(script, left)
    }

    /// Does a command that asks for nothing.
    fn carry_out(
        &mut self,
        script: RunningScript,
        words: &[Word],
        plan: &CommandPlan,
        log: &mut Log,
    ) -> Result<Stage, NoMemory>
        requires sound { IsSound self.old.used self.old.world self.old.opens (stage.Running script) }
        requires words { HasCommand script self.old.world.state.table words.now }
        requires value { planned words.now ≡ Ok plan.now }
        requires local { IsLocal plan.now }
        requires printed { most_printed plan.now ≤ 4160 }
        ensures moves { IfOk result (λ st. MovesOn (snapshot_at self.old (stage.Running script)) (snapshot_at self.new st) log.old log.new) }
        ensures nothing { OnErr result (log.new ≡ log.old) }
    {
        let deed = self.world.carry_out(self.alloc, plan)?;
        self.go_by(script, words, &deed, log)
    }

    /// Goes on as a command was carried out.
    pub(crate) fn go_by(
        &mut self,
        script: RunningScript,
        words: &[Word],
        deed: &Deed,
        log: &mut Log,
    ) -> Result<Stage, NoMemory>
        requires sound { IsSound self.old.used self.old.world self.old.opens (stage.Running script) }
        requires words { IsReady script words.now }
        requires printed { PrintsAtMost deed.now 4160 }
        ensures moves { IfOk result (λ st. (w : TheWorld) → IsCarriedOutBy w deed.now script words.now self.old.world
            → MovesOn (snapshot self.old.used w self.old.opens (stage.Running script)) (snapshot_at self.new st) log.old log.new) }
        ensures nothing { OnErr result (log.new ≡ log.old) }
    {
        match deed {
            Deed::Ends(done) => Ok(self.finish(script, words, done, log)),
            Deed::Goes(label) => Ok(go_to(script, words, label.as_slice(), log)),
            Deed::Sleeps(seconds) => {
                let until = self.world.time + 1000 * u64::from(*seconds);
                Ok(sleep(script, words, until, log))
            }
            Deed::Shuts => self.close_device(script, words, log),
        }
    }

    /// The script is left with this cause.
    fn leave_with(&mut self, script: &RunningScript, cause: Cause, log: &mut Log) -> Stage
        ensures left { IsLeftAt script.now.begun cause self.old result self.new }
        ensures puts { Puts log.old log.new (out_texts (leave script.now.depth cause ∷ [])) }
    {
        script.put_leave(cause, log);
        self.leave(script.commands(), cause)
    }

    /// The script goes on after a command, or was left with a cause.
    fn settled(&mut self, script: RunningScript, left: Option<Cause>) -> Stage
        ensures { IsSettledAt left script self.old result self.new }
    {
        match left {
            Some(cause) => self.leave(script.commands(), cause),
            None => Stage::Running(script),
        }
    }

    /// A command is over so.
    fn finish(
        &mut self,
        mut script: RunningScript,
        words: &[Word],
        done: &Done,
        log: &mut Log,
    ) -> Stage
        requires words { IsReady script words.now }
        requires printed { IfSome done.now.prints (λ text. length text ≤ 4160) }
        ensures { EndsCommand (shown_as true words.now) (done_of done.now) script self.old result self.new log.old log.new }
    {
        let left = script.finish(true, words, done, log);
        self.settled(script, left)
    }
}

/// Goes to this label.
fn go_to(mut script: RunningScript, words: &[Word], label: &[u8], log: &mut Log) -> Stage
    requires { IsReady script words.now }
    ensures { GoesAt (shown_as true words.now) (label_place label.now script.code) script result log.old log.new }
{
    script.go_to(words, label, log);
    Stage::Running(script)
}

/// The script's command waits until this time.
fn sleep(mut script: RunningScript, words: &[Word], until: u64, log: &mut Log) -> Stage
    requires words { IsReady script words.now }
    ensures stage { result ≡ stage.Waiting (entered script) (expected.Moment until) }
    ensures puts { Puts log.old log.new (out_texts (command_record script (shown_as true words.now) ∷ [])) }
{
    script.put_begun(true, words, log);
    script.enter();
    Stage::Waiting(script, Expected::Moment(until))
}
