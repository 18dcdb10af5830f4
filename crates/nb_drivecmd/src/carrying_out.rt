ghost use Rattle.std.specs.Prelude.{◌≡◌, ◌⊎◌, Ok, Err, Some, IfOk, IfErr, IfSome};
ghost use Rattle.std.specs.Option.{option_copied};
ghost use Rattle.nb_drivecmd.specs.DriveEffect.{drive_effect, given_drive, outcome_for, hooks, if_hooked, unhooked_by};
ghost use Rattle.nb_drivecmd.specs.DriveNumbers.{chosen_drive};
ghost use Rattle.nb_drivecmd.specs.DiskNames.{named_disk};
ghost use Rattle.nb_drivecmd.specs.declared.error.DriveFailure.TheVariants as failure;

use crate::disk_names::named_disk;
use crate::numbers::chosen_drive;
use crate::{AfterHook, DriveCommand, DriveFailure, DriveOutcome, DriveRefusal, Drives, Hooking};
use nb_settings::Table;
use nb_wire::Word;
use std::alloc::Global;

/// What a drive command comes to, whose URI is joined to this base. It changes nothing yet.
#[tactic(auto, unfolding(crate::specs::DriveEffect::drive_effect))]
pub fn carry_out(
    alloc: Global,
    command: &DriveCommand,
    base: Option<&[u8]>,
    table: &Table,
    drives: &Drives,
) -> Result<DriveOutcome, DriveRefusal>
    ensures value { IfOk result (λ outcome.
        drive_effect command.now (option_copied base.entry) table.now drives.now ≡ Ok outcome) }
    ensures cause { IfErr result (λ refusal. (refusal.why ≡ failure.NoMemory)
        ⊎ (drive_effect command.now (option_copied base.entry) table.now drives.now ≡ Err refusal)) }
    // No drive is let go but that of a `sanboot`, also where memory ran out.
    ensures unhooks { IfErr result (λ refusal. IfSome refusal.unhooks (λ number.
        unhooked_by command.now (chosen_drive (given_drive command.now) table.now) ≡ Some number)) }
{
    let Ok(number) = chosen_drive(alloc, command.drive(), table) else {
        return Err(DriveRefusal {
            why: DriveFailure::NoMemory,
            unhooks: None,
        });
    };
    match outcome_for(alloc, number, command, base, drives) {
        Ok(outcome) => Ok(outcome),
        Err(why) => Err(DriveRefusal {
            why,
            unhooks: command.unhooks(number),
        }),
    }
}

impl DriveCommand {
    /// The drive that it names.
    fn drive(&self) -> Option<u8>
        ensures { result ≡ given_drive self.now }
    {
        match self {
            DriveCommand::Hook { drive, .. } => *drive,
            DriveCommand::Boot { drive, .. } => *drive,
            DriveCommand::Unhook { drive } => *drive,
        }
    }

    /// The drive that it lets go where it fails: that of a `sanboot` without `--keep`.
    fn unhooks(&self, number: u8) -> Option<u8>
        ensures { result ≡ unhooked_by self.now number }
    {
        match self {
            DriveCommand::Boot { keep, .. } => (!*keep).then_some(number),
            DriveCommand::Hook { .. } => None,
            DriveCommand::Unhook { .. } => None,
        }
    }
}

/// What a command on the drive of a number comes to.
fn outcome_for(
    alloc: Global,
    number: u8,
    command: &DriveCommand,
    base: Option<&[u8]>,
    drives: &Drives,
) -> Result<DriveOutcome, DriveFailure>
    ensures value { IfOk result (λ outcome.
        outcome_for number command.now (option_copied base.entry) drives.now ≡ Ok outcome) }
    ensures cause { IfErr result (λ why. (why ≡ failure.NoMemory)
        ⊎ (outcome_for number command.now (option_copied base.entry) drives.now ≡ Err why)) }
{
    match command {
        DriveCommand::Hook { describe, uri, .. } => {
            hook(alloc, number, *describe, AfterHook::Keep, base, uri)
        }
        DriveCommand::Boot {
            describe,
            keep,
            uri: Some(uri),
            ..
        } => hook(
            alloc,
            number,
            *describe,
            AfterHook::Boot { keep: *keep },
            base,
            uri,
        ),
        DriveCommand::Boot {
            keep,
            uri: None,
            ..
        } => if_hooked(
            number,
            DriveOutcome::Boot {
                number,
                keep: *keep,
            },
            drives,
        ),
        DriveCommand::Unhook { .. } => if_hooked(number, DriveOutcome::Unhook(number), drives),
    }
}

/// The disk that a word names is to be hooked.
fn hook(
    alloc: Global,
    number: u8,
    described: bool,
    after: AfterHook,
    base: Option<&[u8]>,
    uri: &Word,
) -> Result<DriveOutcome, DriveFailure>
    ensures value { IfOk result (λ outcome.
        hooks number described after (named_disk (option_copied base.entry) uri.now) ≡ Ok outcome) }
    ensures cause { IfErr result (λ why. (why ≡ failure.NoMemory)
        ⊎ (hooks number described after (named_disk (option_copied base.entry) uri.now) ≡ Err why)) }
{
    let disk = named_disk(alloc, base, uri)?;
    Ok(DriveOutcome::Hook(Hooking {
        number,
        described,
        disk,
        after,
    }))
}

/// This, where the drive of a number is hooked.
fn if_hooked(
    number: u8,
    outcome: DriveOutcome,
    drives: &Drives,
) -> Result<DriveOutcome, DriveFailure>
    ensures { result ≡ if_hooked number outcome drives.now }
{
    if drives.find(number).is_none() {
        return Err(DriveFailure::NoDrive);
    }
    Ok(outcome)
}
