//! A disk is booted: its drive is asked for its first block, which is handed off.

ghost use Rattle.std.specs.Prelude.{◌≡◌, ◌≤◌, IfOk, None, OnErr, Some, length};
ghost use Rattle.std.specs.Option.{is_some};
ghost use Rattle.nb_drivecmd.specs.HookedDrives.{drive_numbered};
ghost use Rattle.nb_drivecmd.specs.declared.drive.Drive.{Drive as TheDrive};
ghost use Rattle.nb_network.specs.Many.{AreSound};
ghost use Rattle.nb_network.specs.Ones.{HasDrive};
ghost use Rattle.nb_runner.specs.NextCommand.{IsReady};
ghost use Rattle.nb_runner.specs.declared.intent.Intent.TheVariants as intent;
ghost use Rattle.nb_runner.specs.declared.world.World.{World as TheWorld};
ghost use Rattle.nb_client.specs.Booting.{AsksFirst, HasCome, HasComeOf, block_pending, booted_world};
ghost use Rattle.nb_client.specs.Openings.{Intends};
ghost use Rattle.nb_client.specs.Serving.{Concludes, FitsAnswer, asks_still};
ghost use Rattle.nb_client.specs.Snapshots.{snapshot};
ghost use Rattle.nb_client.specs.Soundness.{HasRoomIf, IsSound, IsSoundBut, snapshot_at};
ghost use Rattle.nb_client.specs.Turning.{MovesOn};
ghost use Rattle.nb_client.specs.declared.asked.Asked.TheVariants as asked;
ghost use Rattle.nb_client.specs.declared.booting.FirstBlock.TheVariants as first;
ghost use Rattle.nb_client.specs.declared.pending.Pending.{Pending as ThePending};
ghost use Rattle.nb_client.specs.declared.stage.Stage.TheVariants as stage;

use crate::concluding::go_on_with;
use crate::site::{Site, lent_log};
use crate::{Answer, Asked, Expected, KeptPending, Pending, Stage};
use nb_drivecmd::Drive;
use nb_network::HasEnded;
use nb_record::{Cause, Log, NoMemory};
use nb_runner::{Booted, RunningScript, copy};
use nb_teller::lent;
use nb_wire::{Text, Word};
use std::alloc::Global;

/// The most bytes of a block that a hand-off takes.
const MOST_BLOCK: usize = 268_435_456;

/// A disk's first block, or why it didn't come.
#[derive(Drop)]
pub enum FirstBlock {
    /// It has come.
    Read(Text),
    /// The disk's open has ended before that, with this cause.
    Lost(Cause),
}

impl Site {
    /// A drive that is hooked is to be booted: it is asked for its first block.
    pub(crate) fn boot_hooked(
        &mut self,
        mut script: RunningScript,
        words: &[Word],
        number: u8,
        log: &mut Log,
    ) -> Result<Stage, NoMemory>
        requires sound { IsSound self.old.used self.old.world self.old.opens (stage.Running script) }
        requires words { IsReady script words.now }
        requires hooked { (d : TheDrive) × (drive_numbered number self.old.world.state.drives ≡ Some d) }
        ensures moves { IfOk result (λ st. (w : TheWorld) → Intends w (intent.Boots number) script words.now self.old.world
            → MovesOn (snapshot self.old.used w self.old.opens (stage.Running script)) (snapshot_at self.new st) log.old log.new) }
        ensures nothing { OnErr result (log.new ≡ log.old) }
    {
        let mut out = lent_log(self.alloc, self.gathered.take())?;
        let Some(drive) = self.world.state.drives.find(number) else {
            unreachable!()
        };
        let open_number = drive.open_number;
        script.put_begun(true, words, &mut out);
        script.enter();
        let stage = self.ask_block(script, open_number, None, &mut out)?;
        self.put_gathered(out, log)?;
        Ok(stage)
    }

    /// The drive of the open of this number is asked for its first block: the script's command waits for that, unless there is
    /// no way to the drive any more. The disk is to be hooked as this drive, if it isn't yet.
    pub(crate) fn ask_block(
        &mut self,
        script: RunningScript,
        number: u16,
        drive: Option<Drive>,
        out: &mut Log,
    ) -> Result<Stage, NoMemory>
        requires sound { IsSound self.old.used self.old.world self.old.opens (stage.Running script) }
        requires lives { HasDrive number self.old.opens.list }
        requires room { HasRoomIf (is_some drive) self.old.world.state.drives }
        ensures { IfOk result (λ st. AsksFirst script number drive self.old (snapshot_at self.new st) out.old out.new) }
    {
        let pending = block_pending(self.alloc, number, drive)?;
        let desk = lent(self.alloc, self.desk.take())?;
        let (alloc, rec, now, net) = (self.alloc, self.used, self.world.time, &mut self.world.net);
        let awaited = Some(number);
        let (ended, desk) = self
            .opens
            .ask(alloc, net, number, rec, 0, 1, now, awaited, desk, out)?;
        self.desk = Some(desk);
        self.forget_ended();
        match ended {
            Some(ended) => Ok(go_on_with(script, ended.into_inner().cause, out)),
            None => Ok(Stage::Waiting(script, Expected::Open(pending))),
        }
    }

    /// A disk's first block has come, and it is booted, or its open has ended before that.
    pub(crate) fn take_block(
        &mut self,
        script: RunningScript,
        number: u16,
        drive: Option<Drive>,
        answer: Answer,
        out: &mut Log,
    ) -> Result<Stage, NoMemory>
        requires sound { IsSoundBut (asks_still answer (asked.Block drive) number) self.old.used self.old.world self.old.opens }
        requires room { HasRoomIf (is_some drive) self.old.world.state.drives }
        requires fits { FitsAnswer answer (asked.Block drive) number self.old.opens }
        ensures { IfOk result (λ st. (p : ThePending) → p.asked ≡ asked.Block drive → p.number ≡ number → p.waits ≡ None
            → Concludes p answer script self.old (snapshot_at self.new st) out.old out.new) }
    {
        match self.first_block(number, answer)? {
            FirstBlock::Lost(cause) => Ok(go_on_with(script, cause, out)),
            FirstBlock::Read(block) => {
                self.hook_booted(drive);
                self.begin_handing(Booted::Disk(block), out)
            }
        }
    }

    /// What came of the block that the drive of the open of this number was asked for.
    fn first_block(&self, number: u16, answer: Answer) -> Result<FirstBlock, NoMemory>
        requires sound { AreSound self.now.world.w self.now.world.opens self.now.world.net self.now.opens }
        requires fits { FitsAnswer answer (asked.Block None) number self.now.opens }
        ensures came { IfOk result (λ b. HasCome b answer number self.now.opens) }
    {
        match answer {
            Answer::Drive => match self.opens.read(number) {
                Some(bytes) => whole_block(copy(self.alloc, bytes)?),
                None => unreachable!(),
            },
            Answer::End(ended) => block_of(ended.into_inner()),
        }
    }

    /// A disk that is booted is hooked as this drive, if it wasn't.
    fn hook_booted(&mut self, drive: Option<Drive>)
        requires { HasRoomIf (is_some drive) self.old.world.state.drives }
        ensures used { self.new.used ≡ self.old.used }
        ensures opens { self.new.opens ≡ self.old.opens }
        ensures world { self.new.world ≡ booted_world self.old.opens.list drive self.old.world }
    {
        if let Some(drive) = drive {
            self.hook(drive);
        }
    }
}

/// What came of it where the disk's open has ended so.
fn block_of(ended: HasEnded) -> Result<FirstBlock, NoMemory>
    ensures { IfOk result (λ b. HasComeOf b ended) }
{
    let (read, cause) = (ended.read, ended.cause);
    match read {
        Some(block) => whole_block(block),
        None => Ok(FirstBlock::Lost(cause)),
    }
}

/// A block that has come. None is too long.
fn whole_block(block: Text) -> Result<FirstBlock, NoMemory>
    ensures { IfOk result (λ b. (b ≡ first.Read block) × (length block ≤ 268435456)) }
{
    if block.as_slice().len() > MOST_BLOCK {
        return Err(NoMemory);
    }
    Ok(FirstBlock::Read(block))
}

/// What a command waits for that has asked the drive of this open for its first block.
fn block_pending(alloc: Global, number: u16, drive: Option<Drive>) -> Result<KeptPending, NoMemory>
    ensures { IfOk result (λ k. k ≡ block_pending number drive) }
{
    let (asked, waits) = (Asked::Block(drive), None);
    KeptPending::of(
        alloc,
        Pending {
            number,
            asked,
            waits,
        },
    )
}
