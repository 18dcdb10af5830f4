//! Drives: hooked by a command, let go by another, and forgotten once their open has ended.

ghost use Rattle.std.specs.Prelude.{◌≡◌, ◌<◌, ◌≤◌, Ok, IfOk, OnOk, OnErr, length};
ghost use Rattle.nb_command.specs.Planning.{planned};
ghost use Rattle.nb_command.specs.declared.command_plan.CommandPlan.TheVariants as plan;
ghost use Rattle.nb_drivecmd.specs.HookedDrives.{with_hooked};
ghost use Rattle.nb_machine.specs.Running.{Running};
ghost use Rattle.nb_network.specs.Ones.{HasOpen};
ghost use Rattle.nb_runner.specs.CommandWords.{IsHookedWell};
ghost use Rattle.nb_runner.specs.NextCommand.{HasCommand, IsReady};
ghost use Rattle.nb_runner.specs.World.{world_with_drives};
ghost use Rattle.nb_runner.specs.declared.intent.Intent.TheVariants as intent;
ghost use Rattle.nb_runner.specs.declared.world.World.{World as TheWorld};
ghost use Rattle.nb_client.specs.Asked.{asked_disk, target_of};
ghost use Rattle.nb_client.specs.Concluding.{IsBootTable};
ghost use Rattle.nb_client.specs.Drives.{BeginsDrop, ClosesDrives, ClosesLowest, ClosesNumber, DropsOne, ReachesDisk, forgotten_at};
ghost use Rattle.nb_client.specs.Openings.{Intends};
ghost use Rattle.nb_client.specs.Snapshots.{snapshot};
ghost use Rattle.nb_client.specs.Soundness.{FitsDisk, IsSound, kept_drives, snapshot_at};
ghost use Rattle.nb_client.specs.Turning.{MovesOn};
ghost use Rattle.nb_client.specs.declared.stage.Stage.TheVariants as stage;

use crate::concluding::go_on_with;
use crate::next_open::open_words;
use crate::site::{Site, lent_log};
use crate::{AskedDisk, KeptNext, Next, Stage};
use nb_drivecmd::{Drive, DriveCommand, Hooking};
use nb_drivelogin::{drive_info, login_info, named_disks_are_short, sent_names_hold_no_zero};
use nb_ibft::table;
use nb_record::{Cause, Log, NoMemory};
use nb_runner::{Following, RunningScript, World};
use nb_teller::{lent, put_result};
use nb_terms::Plain;
use nb_wire::{Ip4, Text, Word};
use std::alloc::Global;

/// The most bytes of a boot table that a hand-off takes.
const MOST_TABLE: usize = 268_435_456;

/// What is asked for of a disk's server by the next open.
pub(crate) fn asked_disk(
    alloc: Global,
    world: &World,
    hooking: Hooking,
    server: Ip4,
) -> Result<AskedDisk, NoMemory>
    requires few { world.now.opens < 16384 }
    ensures asks { IfOk result (λ a. a ≡ asked_disk world.now hooking server) }
    ensures fits { IsHookedWell hooking → IfOk result FitsDisk }
{
    named_disks_are_short();
    sent_names_hold_no_zero();
    unit_is_whole(hooking.disk.lun);
    let words = open_words(&world.machine, world.opens);
    let login = login_info(alloc, &hooking.disk, words, &world.state.table)?;
    let target = target_text(alloc, &hooking)?;
    Ok(AskedDisk {
        hooking,
        server,
        login,
        target,
    })
}

/// A law: a unit has eight bytes.
fn unit_is_whole(unit: [u8; 8])
    ensures { length unit ≡ 8 }
{}

/// The target's name, a zero byte, and the logical unit.
fn target_text(alloc: Global, hooking: &Hooking) -> Result<Text, NoMemory>
    ensures { IfOk result (λ t. t ≡ target_of hooking.now.disk) }
{
    let mut text = Vec::from_slice(alloc, hooking.disk.name.as_slice())?;
    text.push(0)?;
    text.extend_from_slice(&hooking.disk.lun)?;
    Ok(Text::from_vec(text))
}

impl Site {
    /// Does a drive command.
    pub(crate) fn do_drives(
        &mut self,
        script: RunningScript,
        words: &[Word],
        command: &DriveCommand,
        log: &mut Log,
    ) -> Result<Stage, NoMemory>
        requires sound { IsSound self.old.used self.old.world self.old.opens (stage.Running script) }
        requires words { HasCommand script self.old.world.state.table words.now }
        requires value { planned words.now ≡ Ok (plan.Drives command.now) }
        ensures moves { IfOk result (λ st. MovesOn (snapshot_at self.old (stage.Running script)) (snapshot_at self.new st) log.old log.new) }
        ensures nothing { OnErr result (log.new ≡ log.old) }
    {
        let intent = self.world.do_drives(self.alloc, command, script.base())?;
        self.intend(script, words, intent, log)
    }

    /// A disk is to be hooked: the drive of its number is closed, and the command's open is next, or it is over.
    pub(crate) fn go_to_hook(
        &mut self,
        script: RunningScript,
        words: &[Word],
        hooking: Hooking,
        log: &mut Log,
    ) -> Result<Stage, NoMemory>
        requires sound { IsSound self.old.used self.old.world self.old.opens (stage.Running script) }
        requires words { IsReady script words.now }
        requires fits { IsHookedWell hooking }
        ensures moves { IfOk result (λ st. (w : TheWorld) → Intends w (intent.Hooks hooking) script words.now self.old.world
            → MovesOn (snapshot self.old.used w self.old.opens (stage.Running script)) (snapshot_at self.new st) log.old log.new) }
        ensures nothing { OnErr result (log.new ≡ log.old) }
    {
        let mut out = lent_log(self.alloc, self.gathered.take())?;
        let script = self.begin_drop(script, words, hooking.number, &mut out)?;
        let stage = self.reach_disk(script, hooking, &mut out)?;
        self.put_gathered(out, log)?;
        Ok(stage)
    }

    /// The open that a disk asks for is next, or the command is over.
    fn reach_disk(
        &self,
        script: RunningScript,
        hooking: Hooking,
        out: &mut Log,
    ) -> Result<Stage, NoMemory>
        requires few { self.now.world.opens ≤ 16384 }
        requires fits { IsHookedWell hooking }
        ensures { IfOk result (λ st. ReachesDisk script hooking self.now.world st out.old out.new) }
    {
        match self.world.reach_disk(self.alloc, hooking)? {
            Following::Over(cause) => Ok(go_on_with(script, cause, out)),
            Following::Next(onward) => {
                let waits = None;
                let next = KeptNext::of(self.alloc, Next { onward, waits })?;
                Ok(Stage::Reaching(script, next))
            }
        }
    }

    /// The drive of this number is closed, and the command is over with this cause.
    pub(crate) fn let_drive_go(
        &mut self,
        script: RunningScript,
        words: &[Word],
        number: u8,
        cause: Cause,
        log: &mut Log,
    ) -> Result<Stage, NoMemory>
        requires sound { IsSound self.old.used self.old.world self.old.opens (stage.Running script) }
        requires words { IsReady script words.now }
        ensures moves { IfOk result (λ st. (w : TheWorld) → Intends w (intent.LetsGo number cause) script words.now self.old.world
            → MovesOn (snapshot self.old.used w self.old.opens (stage.Running script)) (snapshot_at self.new st) log.old log.new) }
        ensures nothing { OnErr result (log.new ≡ log.old) }
    {
        let mut out = lent_log(self.alloc, self.gathered.take())?;
        let script = self.begin_drop(script, words, number, &mut out)?;
        let stage = go_on_with(script, cause, &mut out);
        self.put_gathered(out, log)?;
        Ok(stage)
    }

    /// Puts COMMAND, and closes the drive of this number, if one is hooked.
    fn begin_drop(
        &mut self,
        mut script: RunningScript,
        words: &[Word],
        number: u8,
        out: &mut Log,
    ) -> Result<RunningScript, NoMemory>
        requires sound { IsSound self.old.used self.old.world self.old.opens (stage.Running script) }
        requires words { IsReady script words.now }
        ensures { IfOk result (λ s. BeginsDrop script words.now number self.old s self.new out.old out.new) }
    {
        script.put_begun(true, words, out);
        script.enter();
        self.drop_drive(number, out)?;
        Ok(script)
    }

    /// Closes the drive of this number, if one is hooked, and forgets it.
    fn drop_drive(&mut self, number: u8, out: &mut Log) -> Result<(), NoMemory>
        requires { (s : Running) × IsSound self.old.used self.old.world self.old.opens (stage.Running s) }
        ensures { OnOk result (DropsOne number self.old self.new out.old out.new) }
    {
        // They rise by number, so one alone has this.
        let _count = self.world.state.drives.len();
        let Some(drive) = self.world.state.drives.find(number) else {
            return Ok(());
        };
        let ended = drive.open_number;
        self.close_open(ended, &Plain::Stopped.cause(), out)?;
        Ok(())
    }

    /// Closes the drives with this cause, by rising number.
    pub(crate) fn close_drives(&mut self, cause: &Cause, out: &mut Log) -> Result<(), NoMemory>
        requires { (s : Running) × IsSound self.old.used self.old.world self.old.opens (stage.Running s) }
        ensures { OnOk result (ClosesDrives cause.now self.old self.new out.old out.new) }
    {
        // They are two at most.
        let _count = self.world.state.drives.len();
        self.close_lowest(cause, out)?;
        self.close_lowest(cause, out)?;
        Ok(())
    }

    /// Closes the drive of the lowest number with this cause, if one is hooked.
    fn close_lowest(&mut self, cause: &Cause, out: &mut Log) -> Result<(), NoMemory>
        requires { (s : Running) × IsSound self.old.used self.old.world self.old.opens (stage.Running s) }
        ensures { OnOk result (ClosesLowest self.old.world.state.drives cause.now self.old self.new out.old out.new) }
    {
        let Some(drive) = self.world.state.drives.get(0) else {
            return Ok(());
        };
        let number = drive.open_number;
        self.close_open(number, cause, out)?;
        Ok(())
    }

    /// Closes the open of this number with this cause, and forgets the drives that it hooked.
    fn close_open(&mut self, number: u16, cause: &Cause, out: &mut Log) -> Result<(), NoMemory>
        requires sound { (s : Running) × IsSound self.old.used self.old.world self.old.opens (stage.Running s) }
        requires lives { HasOpen number self.old.opens.list }
        ensures { OnOk result (ClosesNumber number cause.now self.old self.new out.old out.new) }
    {
        let desk = lent(self.alloc, self.desk.take())?;
        let (now, net) = (self.world.time, &mut self.world.net);
        let desk = self.opens.close_one(net, number, cause, now, desk, out)?;
        self.desk = Some(desk);
        self.forget_ended();
        Ok(())
    }

    /// A disk is hooked as this drive, if its open lives on.
    pub(crate) fn hook(&mut self, drive: Drive)
        requires { length self.old.world.state.drives < 2 }
        ensures used { self.new.used ≡ self.old.used }
        ensures opens { self.new.opens ≡ self.old.opens }
        ensures world { self.new.world ≡ world_with_drives self.old.world
            (kept_drives self.old.opens.list (with_hooked drive self.old.world.state.drives)) }
    {
        self.world.state.drives.hook(drive);
        self.forget_ended();
    }

    /// Drives whose open has ended are forgotten.
    #[inline(always)]
    pub(crate) fn forget_ended(&mut self)
        ensures used { self.new.used ≡ self.old.used }
        ensures opens { self.new.opens ≡ self.old.opens }
        ensures world { self.new.world ≡ world_with_drives self.old.world (kept_drives self.old.opens.list self.old.world.state.drives) }
    {
        if self.world.state.drives.len() == 0 {
            return;
        }
        self.forget_at(1);
        self.forget_at(0);
    }

    /// Drives whose open is that of the drive at this place, if it has ended.
    fn forget_at(&mut self, place: usize)
        ensures used { self.new.used ≡ self.old.used }
        ensures opens { self.new.opens ≡ self.old.opens }
        ensures world { self.new.world ≡ world_with_drives self.old.world (forgotten_at place self.old.opens.list self.old.world.state.drives) }
    {
        let Some(drive) = self.world.state.drives.get(place) else {
            return;
        };
        let number = drive.open_number;
        if self.opens.lives(number) {
            return;
        }
        self.world.state.drives.end_open(number);
    }

    /// The boot table of the drives that are hooked and described, if any is.
    pub(crate) fn boot_table(&self) -> Result<Option<Text>, NoMemory>
        ensures { IfOk result (λ t. IsBootTable self.now t) }
    {
        let (alloc, state) = (self.alloc, &self.world.state);
        let opens = self.opens.drive_opens(alloc)?;
        let mac = self.world.net.mac();
        let info = drive_info(alloc, mac, &state.table, &state.drives, opens.as_slice())?;
        let Some(info) = info else {
            return Ok(None);
        };
        let bytes = table(alloc, &info)?;
        // None is that long.
        if bytes.as_slice().len() > MOST_TABLE {
            return Err(NoMemory);
        }
        Ok(Some(bytes))
    }
}
