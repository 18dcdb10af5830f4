//! `ping host`: waits for an echo from a host.

ghost use Rattle.std.specs.Prelude.{◌≡◌, IfOk};
ghost use Rattle.nb_command.specs.Plans.{PlansAs};
ghost use Rattle.nb_command.specs.Ping.{ping_plan};
ghost use Rattle.nb_command.specs.declared.outcome.Job.TheVariants as job;

use crate::words::one_word;
use crate::{CommandPlan, Job, PlanError};
use nb_imagecmd::{copy_text, copy_word};
use nb_terms::NoMemory;
use nb_wire::Word;
use std::alloc::Global;

pub(crate) fn plan_ping(alloc: Global, args: &[Word]) -> Result<CommandPlan, PlanError>
    ensures { PlansAs result (ping_plan args.now) }
{
    match one_word(args) {
        Some(host) => Ok(CommandPlan::Ping {
            host: copy_word(alloc, host)?,
        }),
        None => Err(PlanError::Usage),
    }
}

/// The echo to wait for.
pub(crate) fn ping_job(alloc: Global, host: &Word) -> Result<Job, NoMemory>
    ensures { IfOk result (λ wanted. wanted ≡ job.Ping host.now) }
{
    Ok(Job::Ping {
        host: copy_text(alloc, host.as_slice())?,
    })
}
