//! `sleep seconds`: waits.

ghost use Rattle.nb_command.specs.Plans.{PlansAs};
ghost use Rattle.nb_command.specs.Sleep.{sleep_plan};

use crate::words::number_to;
use crate::{CommandPlan, PlanError};
use nb_wire::Word;

/// The most seconds of a sleep.
const MAX_SECONDS: u32 = 4_000_000;

#[tactic(auto, unfolding(crate::specs::Sleep::sleep_plan))]
pub(crate) fn plan_sleep(args: &[Word]) -> Result<CommandPlan, PlanError>
    ensures { PlansAs result (sleep_plan args.now) }
{
    match args {
        [seconds] => match number_to(MAX_SECONDS, seconds) {
            Some(n) => Ok(CommandPlan::Sleep(n)),
            None => Err(PlanError::Usage),
        },
        _ => Err(PlanError::Usage),
    }
}
