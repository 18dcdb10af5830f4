//! `ifclose [net0]`: sets a device down, and closes what is open there.

ghost use Rattle.nb_command.specs.Plans.{PlansAs};
ghost use Rattle.nb_command.specs.Ifclose.{ifclose_plan};

use crate::words::is_option;
use crate::{CommandPlan, PlanError};
use nb_imagecmd::copy_word;
use nb_wire::Word;
use std::alloc::Global;

#[tactic(auto, unfolding(crate::specs::Ifclose::ifclose_plan))]
pub(crate) fn plan_ifclose(alloc: Global, args: &[Word]) -> Result<CommandPlan, PlanError>
    ensures { PlansAs result (ifclose_plan args.now) }
{
    match args {
        [] => Ok(CommandPlan::Ifclose(None)),
        [word] if !is_option(word) => Ok(CommandPlan::Ifclose(Some(copy_word(alloc, word)?))),
        _ => Err(PlanError::Usage),
    }
}
