//! `exit [n]`: the script is left, with failure where the number isn't 0.

ghost use Rattle.nb_command.specs.Plans.{PlansAs};
ghost use Rattle.nb_command.specs.Exit.{exit_plan};

use crate::words::number_to;
use crate::{CommandPlan, PlanError};
use nb_wire::Word;

#[tactic(auto, unfolding(crate::specs::Exit::exit_plan))]
pub(crate) fn plan_exit(args: &[Word]) -> Result<CommandPlan, PlanError>
    ensures { PlansAs result (exit_plan args.now) }
{
    match args {
        [] => Ok(CommandPlan::Exit(0)),
        [word] => match number_to(255, word) {
            Some(n) => Ok(CommandPlan::Exit(n as u8)),
            None => Err(PlanError::Usage),
        },
        _ => Err(PlanError::Usage),
    }
}
