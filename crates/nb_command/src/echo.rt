//! `echo [-n] [text]`: prints the words, joined by one space, and a line feed unless `-n`.

ghost use Rattle.std.specs.Prelude.{◌≡◌, IfOk, Ok};
ghost use Rattle.nb_command.specs.Plans.{PlansAs};
ghost use Rattle.nb_command.specs.Echo.{echo_plan, unbroken_plan, echoed};
ghost use Rattle.nb_command.specs.declared.command_plan.CommandPlan.TheVariants as plan;

use crate::words::{begins_with_option, is_minus_n, is_option};
use crate::{CommandPlan, PlanError};
use nb_imagecmd::{copy_words, joined};
use nb_terms::NoMemory;
use nb_wire::{Text, Word};
use std::alloc::Global;

#[tactic(auto, unfolding(crate::specs::Echo::echo_plan))]
pub(crate) fn plan_echo(alloc: Global, args: &[Word]) -> Result<CommandPlan, PlanError>
    ensures { PlansAs result (echo_plan args.now) }
{
    let Some((first, others)) = args.split_first() else {
        return echo(alloc, true, args);
    };
    if is_minus_n(first) {
        return plan_unbroken(alloc, others);
    }
    if is_option(first) {
        return Err(PlanError::Usage);
    }
    echo(alloc, true, args)
}

/// The words after `-n`, which is given once.
fn plan_unbroken(alloc: Global, text: &[Word]) -> Result<CommandPlan, PlanError>
    ensures { PlansAs result (unbroken_plan text.now) }
{
    if begins_with_option(text) {
        return Err(PlanError::Usage);
    }
    echo(alloc, false, text)
}

fn echo(alloc: Global, newline: bool, text: &[Word]) -> Result<CommandPlan, PlanError>
    ensures { PlansAs result (Ok (plan.Echo newline text.now)) }
{
    Ok(CommandPlan::Echo {
        newline,
        text: copy_words(alloc, text)?,
    })
}

/// What is printed.
pub(crate) fn echo_text(alloc: Global, newline: bool, text: &[Word]) -> Result<Text, NoMemory>
    ensures { IfOk result (λ printed. printed ≡ echoed newline text.now) }
{
    let mut printed = joined(alloc, text)?;
    if newline {
        printed.push(b'\n')?;
    }
    Ok(Text::from_vec(printed))
}
