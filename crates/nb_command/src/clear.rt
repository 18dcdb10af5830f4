//! `clear name`: drops a setting.

ghost use Rattle.std.specs.Prelude.{◌≡◌, ◌⊎◌, Ok, Err, OnOk, OnErr, IfErr};
ghost use Rattle.nb_command.specs.Plans.{PlansAs};
ghost use Rattle.nb_command.specs.Clear.{clear_plan, cleared_table};
ghost use Rattle.nb_command.specs.declared.error.ApplyError.TheVariants as failure;

use crate::error::ApplyError;
use crate::setting::block_of;
use crate::words::one_word;
use crate::{CommandPlan, PlanError};
use nb_imagecmd::copy_word;
use nb_settings::{Name, Table};
use nb_wire::Word;
use std::alloc::Global;

pub(crate) fn plan_clear(alloc: Global, args: &[Word]) -> Result<CommandPlan, PlanError>
    ensures { PlansAs result (clear_plan args.now) }
{
    match one_word(args) {
        Some(name) => Ok(CommandPlan::Clear(copy_word(alloc, name)?)),
        None => Err(PlanError::Usage),
    }
}

/// Drops the setting, where there is one.
pub(crate) fn clear_setting(name: &Word, table: &mut Table) -> Result<(), ApplyError>
    ensures ok { OnOk result (cleared_table name.now table.old ≡ Ok table.new) }
    ensures cause { IfErr result (λ why. (why ≡ failure.NoMemory)
        ⊎ (cleared_table name.now table.old ≡ Err why)) }
    ensures refused { OnErr result (table.new ≡ table.old) }
{
    let Some(name) = Name::read(name.as_slice()) else {
        return Err(ApplyError::BadName);
    };
    table.clear(block_of(&name), &name.key)?;
    Ok(())
}
