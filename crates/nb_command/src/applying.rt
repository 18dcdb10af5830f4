ghost use Rattle.std.specs.Prelude.{◌≡◌, ◌⊎◌, ℕ, List, false, Ok, Err, IfOk, IfErr, OnErr, ◌≤◌, length};
ghost use Rattle.std.specs.Result.{result_map_both};
ghost use Rattle.nb_settings.specs.Tables.{own_value};
ghost use Rattle.nb_settings.specs.declared.setting.OwnedKey.{OwnedKey};
ghost use Rattle.std.specs.Option.{option_copied};
ghost use Rattle.nb_imagecmd.specs.CarryingOut.{image_effect};
ghost use Rattle.nb_drivecmd.specs.DriveEffect.{drive_effect};
ghost use Rattle.nb_command.specs.Applying.{out_of_memory, truth, carried_out, applied, with_image_list, with_drives, AsksRightly};
ghost use Rattle.nb_command.specs.Bases.{base_by};
ghost use Rattle.nb_command.specs.Failures.{image_failure};
ghost use Rattle.nb_command.specs.Others.{may_change, is_on_images};
ghost use Rattle.nb_command.specs.Printed.{most_printed, IfText};
ghost use Rattle.nb_command.specs.declared.error.ApplyError.TheVariants as failure;
ghost use Rattle.nb_command.specs.declared.outcome.Job.TheVariants as job;
ghost use Rattle.nb_command.specs.declared.outcome.Outcome.TheVariants as outcome;

use crate::base::script_base;
use crate::clear::clear_setting;
use crate::device::set_device;
use crate::echo::echo_text;
use crate::error::ApplyError;
use crate::inc::inc_setting;
use crate::isset::is_word_set;
use crate::nslookup::lookup_job;
use crate::ping::ping_job;
use crate::set::set_setting;
use crate::show::show_setting;
use crate::{CommandPlan, Job, Outcome, State};
use nb_drivecmd::DriveCommand;
use nb_imagecmd::{ImageCommand, ImageFailure, ImageOutcome, copy_word};
use nb_terms::Cause;
use std::alloc::Global;

/// Carries a command out, whose script was fetched from this URI, if it was. What it refuses has the cause of its
/// result.
#[tactic(auto, unfolding(crate::specs::Applying::applied))]
pub fn apply(
    alloc: Global,
    p: &CommandPlan,
    own: Option<&[u8]>,
    s: &mut State,
) -> Result<Outcome, Cause>
    // What it comes to, and the state that it leaves.
    ensures value { IfOk result (λ outcome. applied p.now (option_copied own.entry) s.old ≡ Ok (outcome, s.new)) }
    ensures cause { IfErr result
        (λ cause. (cause ≡ out_of_memory) ⊎ (applied p.now (option_copied own.entry) s.old ≡ Err cause)) }
    ensures refused { OnErr result (s.new ≡ s.old) }
    // Of settings it changes at most the one that it names, and images only where it is a command on images.
    ensures others { (block : List ℕ) (key : OwnedKey) → may_change p.now block key ≡ false
        → own_value block key s.new.table ≡ own_value block key s.old.table }
    ensures images { is_on_images p.now ≡ false → s.new.images ≡ s.old.images }
    // It prints at most so many bytes as one text, whatever the settings are.
    ensures fits { IfOk result
        (λ outcome. IfText outcome (λ text. length text ≤ most_printed p.now)) }
    // A file that it asks for may be fetched.
    ensures fetched { IfOk result AsksRightly }
{
    match carry_out(alloc, p, own, s) {
        Ok(outcome) => Ok(outcome),
        Err(why) => Err(why.cause()),
    }
}

fn carry_out(
    alloc: Global,
    p: &CommandPlan,
    own: Option<&[u8]>,
    s: &mut State,
) -> Result<Outcome, ApplyError>
    ensures value { IfOk result (λ outcome. carried_out p.now (option_copied own.entry) s.old ≡ Ok (outcome, s.new)) }
    ensures cause { IfErr result
        (λ why. (why ≡ failure.NoMemory) ⊎ (carried_out p.now (option_copied own.entry) s.old ≡ Err why)) }
    ensures refused { OnErr result (s.new ≡ s.old) }
    ensures images { is_on_images p.now ≡ false → s.new.images ≡ s.old.images }
    ensures fits { IfOk result
        (λ outcome. IfText outcome (λ text. length text ≤ most_printed p.now)) }
    ensures fetched { IfOk result AsksRightly }
{
    let table = &mut s.table;
    match p {
        CommandPlan::Echo { newline, text } => {
            Ok(Outcome::Text(echo_text(alloc, *newline, text.as_slice())?))
        }
        CommandPlan::Goto(label) => Ok(Outcome::Goto(copy_word(alloc, label)?)),
        CommandPlan::Exit(n) => Ok(Outcome::Leave(*n)),
        CommandPlan::Isset(word) => truth(is_word_set(word)),
        CommandPlan::Iseq(a, b) => truth(a.as_slice() == b.as_slice()),
        CommandPlan::Set { name, value } => done(set_setting(alloc, name, value.as_slice(), table)),
        CommandPlan::Clear(name) => done(clear_setting(name, table)),
        CommandPlan::Show(name) => Ok(Outcome::Text(show_setting(alloc, name, table)?)),
        CommandPlan::Inc { name, by } => done(inc_setting(alloc, name, *by, table)),
        CommandPlan::Images(command) => Ok(on_images(alloc, command, own, s)?),
        CommandPlan::Drives(command) => on_drives(alloc, command, own, s),
        CommandPlan::Ifopen(device) => done(set_device(device, true, &mut s.up)),
        CommandPlan::Ifclose(device) => down(set_device(device, false, &mut s.up)),
        CommandPlan::Dhcp(device) => leasing(set_device(device, true, &mut s.up)),
        CommandPlan::Ping { host } => Ok(Outcome::Wait(ping_job(alloc, host)?)),
        CommandPlan::Nslookup { name, host } => {
            Ok(Outcome::Wait(lookup_job(alloc, name, host, table)?))
        }
        CommandPlan::Sleep(seconds) => Ok(Outcome::Wait(Job::Sleep(*seconds))),
    }
}

/// Carries a command on images out.
fn on_images(
    alloc: Global,
    command: &ImageCommand,
    own: Option<&[u8]>,
    s: &mut State,
) -> Result<Outcome, ApplyError>
    ensures value { IfOk result (λ outcome. with_image_list s.old
        (image_effect command.now (base_by (option_copied own.entry) s.old.table) s.old.images) ≡ Ok (outcome, s.new)) }
    ensures cause { IfErr result (λ why. (why ≡ failure.NoMemory) ⊎ (with_image_list s.old
        (image_effect command.now (base_by (option_copied own.entry) s.old.table) s.old.images) ≡ Err why)) }
    ensures refused { OnErr result (s.new ≡ s.old) }
    ensures fits { IfOk result (λ outcome. IfText outcome (λ text. length text ≤ 0)) }
    ensures fetched { IfOk result AsksRightly }
{
    let base = script_base(alloc, own, &s.table)?;
    let outcome = match base {
        Some(ref uri) => {
            nb_imagecmd::carry_out(alloc, command, Some(uri.as_slice()), &mut s.images)?
        }
        None => nb_imagecmd::carry_out(alloc, command, None, &mut s.images)?,
    };
    Ok(Outcome::Images(outcome))
}

/// Carries a drive command out. What it comes to is for who keeps the opens: the drives stay as they were.
fn on_drives(
    alloc: Global,
    command: &DriveCommand,
    own: Option<&[u8]>,
    s: &State,
) -> Result<Outcome, ApplyError>
    ensures value { IfOk result (λ outcome. with_drives s.now
        (drive_effect command.now (base_by (option_copied own.entry) s.now.table) s.now.table s.now.drives) ≡ Ok (outcome, s.now)) }
    ensures cause { IfErr result (λ why. (why ≡ failure.NoMemory) ⊎ (with_drives s.now
        (drive_effect command.now (base_by (option_copied own.entry) s.now.table) s.now.table s.now.drives) ≡ Err why)) }
    ensures fits { IfOk result (λ outcome. IfText outcome (λ text. length text ≤ 0)) }
    ensures fetched { IfOk result AsksRightly }
{
    let base = script_base(alloc, own, &s.table)?;
    let answer = match base {
        Some(ref uri) => {
            nb_drivecmd::carry_out(alloc, command, Some(uri.as_slice()), &s.table, &s.drives)
        }
        None => nb_drivecmd::carry_out(alloc, command, None, &s.table, &s.drives),
    };
    match answer {
        Ok(outcome) => Ok(Outcome::Drives(outcome)),
        Err(refusal) => Err(ApplyError::from(refusal.why)),
    }
}

/// Done where it is true.
fn truth(is_true: bool) -> Result<Outcome, ApplyError>
    ensures { result ≡ truth is_true }
{
    if is_true {
        Ok(Outcome::Done)
    } else {
        Err(ApplyError::False)
    }
}

/// Done where the state was changed.
fn done(change: Result<(), ApplyError>) -> Result<Outcome, ApplyError>
    ensures { result ≡ result_map_both (λ _. outcome.Done) (λ why. why) change }
{
    change?;
    Ok(Outcome::Done)
}

/// The same for a device that was set down: what is open there is to be closed.
fn down(change: Result<(), ApplyError>) -> Result<Outcome, ApplyError>
    ensures { result ≡ result_map_both (λ _. outcome.Down) (λ why. why) change }
{
    change?;
    Ok(Outcome::Down)
}

/// The same for a device that was set up and is to get a lease.
fn leasing(change: Result<(), ApplyError>) -> Result<Outcome, ApplyError>
    ensures { result ≡ result_map_both (λ _. outcome.Wait job.Lease) (λ why. why) change }
{
    change?;
    Ok(Outcome::Wait(Job::Lease))
}
