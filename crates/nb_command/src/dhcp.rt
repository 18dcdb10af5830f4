//! `dhcp [net0]`: sets a device up and gets a lease for it.

ghost use Rattle.nb_command.specs.Plans.{PlansAs};
ghost use Rattle.nb_command.specs.Dhcp.{dhcp_plan};

use crate::words::is_option;
use crate::{CommandPlan, PlanError};
use nb_imagecmd::copy_word;
use nb_wire::Word;
use std::alloc::Global;

#[tactic(auto, unfolding(crate::specs::Dhcp::dhcp_plan))]
pub(crate) fn plan_dhcp(alloc: Global, args: &[Word]) -> Result<CommandPlan, PlanError>
    ensures { PlansAs result (dhcp_plan args.now) }
{
    match args {
        [] => Ok(CommandPlan::Dhcp(None)),
        [word] if !is_option(word) => Ok(CommandPlan::Dhcp(Some(copy_word(alloc, word)?))),
        _ => Err(PlanError::Usage),
    }
}
