//! `goto label`: the script goes on after the first line that is this label.

ghost use Rattle.nb_command.specs.Plans.{PlansAs};
ghost use Rattle.nb_command.specs.Goto.{goto_plan};

use crate::words::one_word;
use crate::{CommandPlan, PlanError};
use nb_imagecmd::copy_word;
use nb_wire::Word;
use std::alloc::Global;

pub(crate) fn plan_goto(alloc: Global, args: &[Word]) -> Result<CommandPlan, PlanError>
    ensures { PlansAs result (goto_plan args.now) }
{
    match one_word(args) {
        Some(label) => Ok(CommandPlan::Goto(copy_word(alloc, label)?)),
        None => Err(PlanError::Usage),
    }
}
