//! What a drive command comes to, and what is asked of the host of a disk that is to be hooked.

ghost use Rattle.std.specs.Prelude.{◌≡◌, ◌⊎◌, ◌≤◌, ℕ, List, Ok, Err, IfOk, IfErr};
ghost use Rattle.std.specs.Option.{option_copied};
ghost use Rattle.nb_drivecmd.specs.DriveEffect.{drive_effect};
ghost use Rattle.nb_drivecmd.specs.declared.drive.Drive.{Drive};
ghost use Rattle.nb_drivecmd.specs.declared.error.DriveFailure.TheVariants as failure;
ghost use Rattle.nb_machine.specs.Effects.{drive_outcome_effect, drives_effect, is_host_text, next_at_target, refusal_effect};
ghost use Rattle.nb_drivecmd.specs.DriveFailures.{drive_cause};
ghost use Rattle.nb_runner.specs.CommandWords.{IsHookedWell};
ghost use Rattle.nb_runner.specs.Drives.{FitsDriveOutcome, IsOfHooked, LeavesRoom, MayIntend};
ghost use Rattle.nb_runner.specs.Following.{following_of, CanFollow};
ghost use Rattle.nb_runner.specs.Intents.{intent_effect};
ghost use Rattle.nb_runner.specs.World.{surroundings_in_world};

use crate::World;
use crate::errand::Errand;
use crate::following::{Following, next_at_host};
use crate::intent::{Intent, with_domain};
use crate::texts::copy;
use nb_command::script_base;
use nb_dns::is_name;
use nb_drivecmd::{
    DriveCommand, DriveFailure, DriveOutcome, DriveRefusal, Drives, Hooking, carry_out,
};
use nb_record::{Cause, NoMemory};
use nb_settings::Table;
use nb_terms::Plain;
use nb_uri::number;
use std::alloc::Global;

/// What an outcome comes to.
fn intent_by(outcome: DriveOutcome) -> Intent
    requires { FitsDriveOutcome outcome }
    ensures value { intent_effect result ≡ drive_outcome_effect outcome }
    ensures may { (opens : ℕ) (drives : List Drive) → IsOfHooked outcome drives → MayIntend opens drives result }
{
    match outcome {
        DriveOutcome::Hook(hooking) => Intent::Hooks(hooking),
        DriveOutcome::Boot { number, .. } => Intent::Boots(number),
        DriveOutcome::Unhook(number) => Intent::LetsGo(number, Plain::Ok.cause()),
    }
}

/// What a refusal comes to: the drive that it lets go is closed.
fn intent_of_refusal(refusal: DriveRefusal) -> Intent
    ensures value { intent_effect result ≡ refusal_effect (drive_cause refusal.why) refusal.unhooks }
    ensures may { (opens : ℕ) (drives : List Drive) → MayIntend opens drives result }
{
    match refusal.unhooks {
        None => Intent::Over(refusal.why.cause()),
        Some(number) => Intent::LetsGo(number, refusal.why.cause()),
    }
}

/// Carries a drive command out, whose URI is joined to this base.
fn outcome_by(
    alloc: Global,
    command: &DriveCommand,
    base: Option<&[u8]>,
    table: &Table,
    drives: &Drives,
) -> Result<DriveOutcome, DriveRefusal>
    ensures value { IfOk result (λ outcome.
        drive_effect command.now (option_copied base.entry) table.now drives.now ≡ Ok outcome) }
    ensures cause { IfErr result (λ refusal. (refusal.why ≡ failure.NoMemory)
        ⊎ (drive_effect command.now (option_copied base.entry) table.now drives.now ≡ Err refusal)) }
    ensures fits { IfOk result FitsDriveOutcome }
    ensures hooked { IfOk result (λ outcome. IsOfHooked outcome drives.now) }
{
    carry_out(alloc, command, base, table, drives)
}

/// Whether a text is four decimals, or a name that may be looked up.
fn is_host_text(alloc: Global, table: &Table, text: &[u8]) -> Result<bool, NoMemory>
    ensures { IfOk result (λ is. is ≡ is_host_text table.now text.now) }
{
    if number(text).is_some() {
        return Ok(true);
    }
    let name = with_domain(alloc, table, text)?;
    Ok(is_name(name.as_slice()))
}

impl World {
    /// Does a drive command of a script that was fetched from this URI, if it was: what is to be hooked, booted or let go.
    /// The drives stay as they were.
    pub fn do_drives(
        &self,
        alloc: Global,
        command: &DriveCommand,
        own: Option<&[u8]>,
    ) -> Result<Intent, NoMemory>
        ensures value { (depth : ℕ) → IfOk result (λ i. drives_effect (surroundings_in_world self.now (option_copied own.entry) depth) command.now
            ≡ intent_effect i) }
        ensures may { (opens : ℕ) → IfOk result (λ i. MayIntend opens self.now.state.drives i) }
    {
        let (table, drives) = (&self.state.table, &self.state.drives);
        let base = script_base(alloc, own, table)?;
        let answer = match base {
            Some(ref uri) => outcome_by(alloc, command, Some(uri.as_slice()), table, drives),
            None => outcome_by(alloc, command, None, table, drives),
        };
        match answer {
            Ok(outcome) => Ok(intent_by(outcome)),
            Err(
                DriveRefusal {
                    why: DriveFailure::NoMemory,
                    ..
                },
            ) => Err(NoMemory),
            Err(refusal) => Ok(intent_of_refusal(refusal)),
        }
    }

    /// What is asked of the host of a disk that is to be hooked, once the drive of its number is closed.
    pub fn reach_disk(&self, alloc: Global, hooking: Hooking) -> Result<Following, NoMemory>
        requires few { self.now.opens ≤ 16384 }
        requires fits { IsHookedWell hooking }
        ensures value { IfOk result (λ f. following_of f ≡ next_at_target self.now.opens self.now.state.table self.now.state.drives hooking) }
        ensures can { IfOk result (λ f. CanFollow self.now.opens f) }
        ensures room { IfOk result (λ f. LeavesRoom f self.now.state.drives) }
    {
        let host = copy(alloc, hooking.disk.host.as_slice())?;
        let table = &self.state.table;
        if !is_host_text(alloc, table, host.as_slice())? {
            return Ok(Following::Over(Plain::BadName.cause()));
        }
        if let Err(why) = self.state.drives.room() {
            return Ok(Following::Over(why.cause()));
        }
        let errand = Errand::Disk(hooking);
        next_at_host(alloc, self.opens, table, host.as_slice(), errand)
    }
}
