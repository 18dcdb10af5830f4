//! `nslookup name host`: the address of a host becomes the value of a setting.

ghost use Rattle.std.specs.Prelude.{◌≡◌, ◌⊎◌, Ok, Err, IfOk, IfErr};
ghost use Rattle.nb_command.specs.Plans.{PlansAs};
ghost use Rattle.nb_command.specs.Nslookup.{nslookup_plan, lookup_job};
ghost use Rattle.nb_command.specs.declared.error.ApplyError.TheVariants as failure;

use crate::address::refuses_address;
use crate::error::ApplyError;
use crate::words::is_option;
use crate::{CommandPlan, Job, PlanError};
use nb_imagecmd::{copy_text, copy_word};
use nb_settings::Table;
use nb_wire::Word;
use std::alloc::Global;

#[tactic(auto, unfolding(crate::specs::Nslookup::nslookup_plan))]
pub(crate) fn plan_nslookup(alloc: Global, args: &[Word]) -> Result<CommandPlan, PlanError>
    ensures { PlansAs result (nslookup_plan args.now) }
{
    match args {
        [name, host] if !is_option(name) => Ok(CommandPlan::Nslookup {
            name: copy_word(alloc, name)?,
            host: copy_word(alloc, host)?,
        }),
        _ => Err(PlanError::Usage),
    }
}

/// The look-up to wait for. What the setting would refuse is refused before it.
pub(crate) fn lookup_job(
    alloc: Global,
    name: &Word,
    host: &Word,
    table: &Table,
) -> Result<Job, ApplyError>
    ensures ok { IfOk result (λ job. lookup_job name.now host.now table.now ≡ Ok job) }
    ensures cause { IfErr result (λ why. (why ≡ failure.NoMemory)
        ⊎ (lookup_job name.now host.now table.now ≡ Err why)) }
{
    if let Some(why) = refuses_address(name.as_slice(), table) {
        return Err(why);
    }
    Ok(Job::Lookup {
        name: copy_text(alloc, name.as_slice())?,
        host: copy_text(alloc, host.as_slice())?,
    })
}
