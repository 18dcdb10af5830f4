ghost use Rattle.std.specs.Prelude.{◌≡◌, ◌≤◌, Ok, Err, IfOk, IsErrOf, length, sum_by};
ghost use Rattle.nb_command.specs.Plans.{PlansAs};
ghost use Rattle.nb_command.specs.Planning.{plan_named, images_planned, others_planned, planned};
ghost use Rattle.nb_imagecmd.specs.Reading.{image_command};
ghost use Rattle.nb_drivecmd.specs.DriveReading.{drive_command};
ghost use Rattle.nb_command.specs.Printed.{most_printed, most_text};

use crate::clear::plan_clear;
use crate::command_name::CommandName;
use crate::dhcp::plan_dhcp;
use crate::echo::plan_echo;
use crate::exit::plan_exit;
use crate::goto::plan_goto;
use crate::ifclose::plan_ifclose;
use crate::ifopen::plan_ifopen;
use crate::inc::plan_inc;
use crate::iseq::plan_iseq;
use crate::isset::plan_isset;
use crate::nslookup::plan_nslookup;
use crate::ping::plan_ping;
use crate::set::plan_set;
use crate::show::plan_show;
use crate::sleep::plan_sleep;
use crate::{CommandPlan, PlanError};
use nb_imagecmd::read_command;
use nb_wire::Word;
use std::alloc::Global;

/// The command that words say, its name first. They are expanded already.
#[tactic(auto, unfolding(crate::specs::Planning::planned))]
pub fn plan(alloc: Global, words: &[Word]) -> Result<CommandPlan, PlanError>
    ensures value { IfOk result (λ plan. planned words.now ≡ Ok plan) }
    // No words name no command.
    ensures unknown { IsErrOf result PlanError.Unknown → planned words.now ≡ Err PlanError.Unknown }
    ensures usage { IsErrOf result PlanError.Usage → planned words.now ≡ Err PlanError.Usage }
    // What the command of a line prints fits a record.
    ensures small { length words.now ≤ 64 → sum_by length words.now ≤ 4096
        → IfOk result (λ plan. most_printed plan ≤ 4160) }
    // So do the arguments that it gives an image.
    ensures args { length words.now ≤ 64 → sum_by length words.now ≤ 4096
        → IfOk result (λ plan. most_text plan ≤ 4160) }
{
    let Some((name, args)) = words.split_first() else {
        return Err(PlanError::Unknown);
    };
    match CommandName::named(name.as_slice()) {
        Some(command) => plan_named(alloc, command, args),
        None => plan_others(alloc, words),
    }
}

/// The command on drives or images that words say.
fn plan_others(alloc: Global, words: &[Word]) -> Result<CommandPlan, PlanError>
    ensures value { PlansAs result (others_planned (drive_command words.now) words.now) }
    ensures small { IfOk result (λ plan. most_printed plan ≡ 0) }
    ensures args { length words.now ≤ 64 → sum_by length words.now ≤ 4096
        → IfOk result (λ plan. most_text plan ≤ 4160) }
{
    match nb_drivecmd::read_command(alloc, words) {
        Ok(command) => Ok(CommandPlan::Drives(command)),
        Err(PlanError::Unknown) => plan_images(alloc, words),
        Err(why) => Err(why),
    }
}

/// The command on images that words say.
fn plan_images(alloc: Global, words: &[Word]) -> Result<CommandPlan, PlanError>
    ensures value { PlansAs result (images_planned (image_command words.now)) }
    ensures small { IfOk result (λ plan. most_printed plan ≡ 0) }
    ensures args { length words.now ≤ 64 → sum_by length words.now ≤ 4096
        → IfOk result (λ plan. most_text plan ≤ 4160) }
{
    Ok(CommandPlan::Images(read_command(alloc, words)?))
}

/// The command of a name with the words after it.
fn plan_named(alloc: Global, command: CommandName, args: &[Word]) -> Result<CommandPlan, PlanError>
    ensures { PlansAs result (plan_named command args.now) }
{
    match command {
        CommandName::Echo => plan_echo(alloc, args),
        CommandName::Goto => plan_goto(alloc, args),
        CommandName::Exit => plan_exit(args),
        CommandName::Isset => plan_isset(alloc, args),
        CommandName::Iseq => plan_iseq(alloc, args),
        CommandName::Set => plan_set(alloc, args),
        CommandName::Clear => plan_clear(alloc, args),
        CommandName::Show => plan_show(alloc, args),
        CommandName::Inc => plan_inc(alloc, args),
        CommandName::Ifopen => plan_ifopen(alloc, args),
        CommandName::Ifclose => plan_ifclose(alloc, args),
        CommandName::Dhcp => plan_dhcp(alloc, args),
        CommandName::Ping => plan_ping(alloc, args),
        CommandName::Nslookup => plan_nslookup(alloc, args),
        CommandName::Sleep => plan_sleep(args),
    }
}
