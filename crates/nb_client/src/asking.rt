ghost use Rattle.std.specs.Prelude.{◌≡◌, ◌<◌, [], ◌∷◌, Ok, Some, IfOk, OnOk, OnErr};
ghost use Rattle.nb_command.specs.Planning.{planned};
ghost use Rattle.nb_defs.specs.Records as defs;
ghost use Rattle.nb_machine.specs.Running.{with_result};
ghost use Rattle.nb_machine.specs.Effects.{full_opens};
ghost use Rattle.nb_runner.specs.CommandWords.{FitsOnward, IsForInquiry};
ghost use Rattle.nb_runner.specs.Drives.{MayIntend};
ghost use Rattle.nb_runner.specs.NextCommand.{HasCommand, IsReady};
ghost use Rattle.nb_runner.specs.declared.world.World.{World as TheWorld};
ghost use Rattle.nb_client.specs.Asked.{asked_onward, onward_kind};
ghost use Rattle.nb_client.specs.Beginnings.{DropsWaiting, OpensOwn};
ghost use Rattle.nb_client.specs.Openings.{AsksFor, Intends, IsNoDisk, OpensNext};
ghost use Rattle.nb_client.specs.Snapshots.{snapshot};
ghost use Rattle.nb_client.specs.Soundness.{FitsAsked, HasRoomFor, IsSound, snapshot_at};
ghost use Rattle.nb_client.specs.Turning.{MovesOn};
ghost use Rattle.nb_client.specs.declared.stage.Stage.TheVariants as stage;

use crate::drives::asked_disk;
use crate::site::{Site, lent_log};
use crate::{Asked, KeptNext, Next, Stage};
use nb_chains::ChainKind;
use nb_command::CommandPlan;
use nb_record::{Log, NoMemory};
use nb_runner::{Deed, Done, Intent, MAX_OPENS, Onward, Query, RunningScript, World, full_opens};
use nb_teller::{lent, put_result};
use nb_wire::Word;
use std::alloc::Global;

impl Site {
    /// Does a command that asks for a lease, an echo or a name's address.
    pub(crate) fn inquire(
        &mut self,
        script: RunningScript,
        words: &[Word],
        plan: &CommandPlan,
        log: &mut Log,
    ) -> Result<Stage, NoMemory>
        requires sound { IsSound self.old.used self.old.world self.old.opens (stage.Running script) }
        requires words { HasCommand script self.old.world.state.table words.now }
        requires value { planned words.now ≡ Ok plan.now }
        requires inquiring { IsForInquiry plan.now }
        ensures moves { IfOk result (λ st. MovesOn (snapshot_at self.old (stage.Running script)) (snapshot_at self.new st) log.old log.new) }
        ensures nothing { OnErr result (log.new ≡ log.old) }
    {
        let intent = self.world.intend(self.alloc, plan)?;
        self.intend(script, words, intent, log)
    }

    /// Goes on as a command intends, which was carried out.
    pub(crate) fn intend(
        &mut self,
        script: RunningScript,
        words: &[Word],
        intent: Intent,
        log: &mut Log,
    ) -> Result<Stage, NoMemory>
        requires sound { IsSound self.old.used self.old.world self.old.opens (stage.Running script) }
        requires words { IsReady script words.now }
        requires may { MayIntend self.old.world.opens self.old.world.state.drives intent }
        ensures moves { IfOk result (λ st. (w : TheWorld) → Intends w intent script words.now self.old.world
            → MovesOn (snapshot self.old.used w self.old.opens (stage.Running script)) (snapshot_at self.new st) log.old log.new) }
        ensures nothing { OnErr result (log.new ≡ log.old) }
    {
        match intent {
            Intent::Over(cause) => self.go_by(script, words, &Deed::Ends(Done::with(cause)), log),
            Intent::Asks(query) => self.ask(script, words, Asked::Query(query), log),
            Intent::Fetches(wanted) => self.ask(script, words, Asked::File(wanted), log),
            Intent::Hooks(hooking) => self.go_to_hook(script, words, hooking, log),
            Intent::LetsGo(number, cause) => self.let_drive_go(script, words, number, cause, log),
            Intent::Boots(number) => self.boot_hooked(script, words, number, log),
        }
    }

    /// The script's command asks for this, and waits for it.
    fn ask(
        &mut self,
        script: RunningScript,
        words: &[Word],
        asked: Asked,
        log: &mut Log,
    ) -> Result<Stage, NoMemory>
        requires sound { IsSound self.old.used self.old.world self.old.opens (stage.Running script) }
        requires words { IsReady script words.now }
        requires few { self.old.world.opens < 16384 }
        requires fits { FitsAsked asked }
        requires room { IsNoDisk asked × HasRoomFor asked self.old.world.state.drives }
        ensures moves { IfOk result (λ st. (w : TheWorld) → AsksFor w asked script words.now self.old.world
            → MovesOn (snapshot self.old.used w self.old.opens (stage.Running script)) (snapshot_at self.new st) log.old log.new) }
        ensures nothing { OnErr result (log.new ≡ log.old) }
    {
        let mut out = lent_log(self.alloc, self.gathered.take())?;
        let stage = self.open(script, Some(words), asked, None, &mut out)?;
        self.put_gathered(out, log)?;
        Ok(stage)
    }

    /// The open begins that a command asks for next, or no more may be made.
    pub(crate) fn go_onward(
        &mut self,
        script: RunningScript,
        next: KeptNext,
        log: &mut Log,
    ) -> Result<Stage, NoMemory>
        requires sound { IsSound self.old.used self.old.world self.old.opens (stage.Reaching script next) }
        ensures moves { IfOk result (λ st. MovesOn (snapshot_at self.old (stage.Reaching script next)) (snapshot_at self.new st) log.old log.new) }
        ensures nothing { OnErr result (log.new ≡ log.old) }
    {
        let mut out = lent_log(self.alloc, self.gathered.take())?;
        let stage = self.open_next(script, next, &mut out)?;
        self.put_gathered(out, log)?;
        Ok(stage)
    }

    /// The same, put to a log of its own.
    fn open_next(
        &mut self,
        script: RunningScript,
        next: KeptNext,
        out: &mut Log,
    ) -> Result<Stage, NoMemory>
        requires sound { IsSound self.old.used self.old.world self.old.opens (stage.Reaching script next) }
        ensures { IfOk result (λ st. OpensNext script next self.old (snapshot_at self.new st) out.old out.new) }
    {
        if self.world.opens == MAX_OPENS {
            return self.open_no_more(script, &next, out);
        }
        let Next { onward, waits } = next.into_inner();
        let asked = asked_onward(self.alloc, &self.world, onward)?;
        self.open(script, None, asked, waits, out)
    }

    /// No more opens may be made: what has waited is let go, and the script goes on.
    fn open_no_more(
        &mut self,
        mut script: RunningScript,
        next: &KeptNext,
        out: &mut Log,
    ) -> Result<Stage, NoMemory>
        requires sound { IsSound self.old.used self.old.world self.old.opens (stage.Reaching script next.now) }
        ensures stage { IfOk result (λ st. st ≡ stage.Running (with_result script full_opens)) }
        ensures used { OnOk result (self.new.used ≡ self.old.used) }
        ensures world { OnOk result (self.new.world ≡ self.old.world) }
        ensures lets { OnOk result (DropsWaiting (onward_kind next.now.onward) next.now.waits self.old.world.opens self.old self.new
            (defs.result full_opens ∷ []) out.old out.new) }
    {
        let desk = lent(self.alloc, self.desk.take())?;
        self.let_go(kind_onward(next.onward()), next.waits(), desk, out)?;
        put_result(full_opens(), out);
        script.end_with(full_opens());
        Ok(Stage::Running(script))
    }
}

/// What is asked for next, in this world.
fn asked_onward(alloc: Global, world: &World, onward: Onward) -> Result<Asked, NoMemory>
    requires { world.now.opens < 16384 }
    ensures asks { IfOk result (λ a. a ≡ asked_onward world.now onward) }
    ensures fits { FitsOnward onward → IfOk result FitsAsked }
    ensures opens { IfOk result OpensOwn }
{
    match onward {
        Onward::File(wanted) => Ok(Asked::File(wanted)),
        Onward::Echo(server) => Ok(Asked::Query(Query::Echo(server))),
        Onward::Disk { hooking, server } => {
            Ok(Asked::Disk(asked_disk(alloc, world, hooking, server)?))
        }
        Onward::Name { errand, name, by } => Ok(Asked::Query(Query::Host { errand, name, by })),
    }
}

/// The kind of its objects, or of the one that may wait for them.
pub(crate) fn kind_onward(onward: &Onward) -> ChainKind
    ensures { result ≡ onward_kind onward.now }
{
    match onward {
        Onward::File(_) => ChainKind::File,
        Onward::Echo(_) => ChainKind::Echo,
        Onward::Disk { .. } => ChainKind::Drive,
        Onward::Name { .. } => ChainKind::Name,
    }
}
