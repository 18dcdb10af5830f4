//! `ifopen [net0]`: sets a device up.

ghost use Rattle.nb_command.specs.Plans.{PlansAs};
ghost use Rattle.nb_command.specs.Ifopen.{ifopen_plan};

use crate::words::is_option;
use crate::{CommandPlan, PlanError};
use nb_imagecmd::copy_word;
use nb_wire::Word;
use std::alloc::Global;

#[tactic(auto, unfolding(crate::specs::Ifopen::ifopen_plan))]
pub(crate) fn plan_ifopen(alloc: Global, args: &[Word]) -> Result<CommandPlan, PlanError>
    ensures { PlansAs result (ifopen_plan args.now) }
{
    match args {
        [] => Ok(CommandPlan::Ifopen(None)),
        [word] if !is_option(word) => Ok(CommandPlan::Ifopen(Some(copy_word(alloc, word)?))),
        _ => Err(PlanError::Usage),
    }
}
