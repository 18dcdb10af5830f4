//! The words of a drive command, read.

ghost use Rattle.nb_drivecmd.specs.DriveReading.{ReadsDriveAs, drive_command, drive_named_read};
ghost use Rattle.nb_drivecmd.specs.DriveReading.{hook_read, hook_with, boot_read, boot_with, unhook_read, unhook_with};
ghost use Rattle.nb_drivecmd.specs.DriveOptions.{shown_drive_options};

use crate::DriveCommand;
use crate::command_names::DriveCommandName;
use crate::options::{DriveOptions, read_options};
use nb_imagecmd::{PlanError, copy_word};
use nb_wire::Word;
use std::alloc::Global;

/// The drive command that words say, its name first. They are expanded already.
#[tactic(auto, unfolding(crate::specs::DriveReading::drive_command))]
pub fn read_command(alloc: Global, words: &[Word]) -> Result<DriveCommand, PlanError>
    // What it is, or which of the two refusals, as one equation.
    ensures { ReadsDriveAs result (drive_command words.now) }
{
    let Some((name, args)) = words.split_first() else {
        return Err(PlanError::Unknown);
    };
    match DriveCommandName::named(name.as_slice()) {
        Some(command) => read_named(alloc, command, args),
        None => Err(PlanError::Unknown),
    }
}

/// The command of a name with the words after it.
fn read_named(
    alloc: Global,
    command: DriveCommandName,
    args: &[Word],
) -> Result<DriveCommand, PlanError>
    ensures { ReadsDriveAs result (drive_named_read command args.now) }
{
    match command {
        DriveCommandName::Sanhook => read_hook(alloc, args),
        DriveCommandName::Sanboot => read_boot(alloc, args),
        DriveCommandName::Sanunhook => read_unhook(args),
    }
}

fn read_hook(alloc: Global, args: &[Word]) -> Result<DriveCommand, PlanError>
    ensures { ReadsDriveAs result (hook_read args.now) }
{
    match read_options(args) {
        Some(options) => hook(alloc, options),
        None => Err(PlanError::Usage),
    }
}

/// What is hooked, after these options.
fn hook(alloc: Global, options: DriveOptions<'_>) -> Result<DriveCommand, PlanError>
    ensures { ReadsDriveAs result (hook_with (shown_drive_options options.entry)) }
{
    if options.keep {
        return Err(PlanError::Usage);
    }
    match options.rest {
        [uri] => Ok(DriveCommand::Hook {
            drive: options.drive,
            describe: !options.no_describe,
            uri: copy_word(alloc, uri)?,
        }),
        _ => Err(PlanError::Usage),
    }
}

fn read_boot(alloc: Global, args: &[Word]) -> Result<DriveCommand, PlanError>
    ensures { ReadsDriveAs result (boot_read args.now) }
{
    match read_options(args) {
        Some(options) => boot(alloc, options),
        None => Err(PlanError::Usage),
    }
}

/// What is booted, after these options.
fn boot(alloc: Global, options: DriveOptions<'_>) -> Result<DriveCommand, PlanError>
    ensures { ReadsDriveAs result (boot_with (shown_drive_options options.entry)) }
{
    let uri = match options.rest {
        [] => None,
        [uri] => Some(copy_word(alloc, uri)?),
        _ => return Err(PlanError::Usage),
    };
    Ok(DriveCommand::Boot {
        drive: options.drive,
        describe: !options.no_describe,
        keep: options.keep,
        uri,
    })
}

fn read_unhook(args: &[Word]) -> Result<DriveCommand, PlanError>
    ensures { ReadsDriveAs result (unhook_read args.now) }
{
    match read_options(args) {
        Some(options) => unhook(options),
        None => Err(PlanError::Usage),
    }
}

/// What is closed, after these options.
fn unhook(options: DriveOptions<'_>) -> Result<DriveCommand, PlanError>
    ensures { ReadsDriveAs result (unhook_with (shown_drive_options options.entry)) }
{
    if options.keep || options.no_describe || !options.rest.is_empty() {
        return Err(PlanError::Usage);
    }
    Ok(DriveCommand::Unhook {
        drive: options.drive,
    })
}
