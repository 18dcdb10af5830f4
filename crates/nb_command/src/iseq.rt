//! `iseq a b`: true where the words are equal.

ghost use Rattle.nb_command.specs.Plans.{PlansAs};
ghost use Rattle.nb_command.specs.Iseq.{iseq_plan};

use crate::words::is_option;
use crate::{CommandPlan, PlanError};
use nb_imagecmd::copy_word;
use nb_wire::Word;
use std::alloc::Global;

#[tactic(auto, unfolding(crate::specs::Iseq::iseq_plan))]
pub(crate) fn plan_iseq(alloc: Global, args: &[Word]) -> Result<CommandPlan, PlanError>
    ensures { PlansAs result (iseq_plan args.now) }
{
    match args {
        [a, b] if !is_option(a) => Ok(CommandPlan::Iseq(
            copy_word(alloc, a)?,
            copy_word(alloc, b)?,
        )),
        _ => Err(PlanError::Usage),
    }
}
