//! `show name`: prints the name and the value of a setting.

ghost use Rattle.std.specs.Prelude.{◌≡◌, ◌⊎◌, ◌++◌, ◌≤◌, ◌+◌, Ok, Err, IfOk, IfErr, codes, length};
ghost use Rattle.nb_command.specs.Plans.{PlansAs};
ghost use Rattle.nb_command.specs.Show.{show_plan, setting_line, setting_shown};
ghost use Rattle.nb_command.specs.declared.error.ApplyError.TheVariants as failure;

use crate::error::ApplyError;
use crate::words::one_word;
use crate::{CommandPlan, PlanError};
use nb_expand::text_of_name;
use nb_imagecmd::copy_word;
use nb_settings::{Name, Table};
use nb_terms::NoMemory;
use nb_wire::{Text, Word};
use std::alloc::Global;

pub(crate) fn plan_show(alloc: Global, args: &[Word]) -> Result<CommandPlan, PlanError>
    ensures { PlansAs result (show_plan args.now) }
{
    match one_word(args) {
        Some(name) => Ok(CommandPlan::Show(copy_word(alloc, name)?)),
        None => Err(PlanError::Usage),
    }
}

/// What is printed.
#[tactic(auto, unfolding(nb_expand::specs::Values::named_text))]
pub(crate) fn show_setting(alloc: Global, name: &Word, table: &Table) -> Result<Text, ApplyError>
    ensures ok { IfOk result (λ text. setting_shown name.now table.now ≡ Ok text) }
    ensures cause { IfErr result (λ why. (why ≡ failure.NoMemory)
        ⊎ (setting_shown name.now table.now ≡ Err why)) }
    // A name has at most 201 bytes, and a value as text 3,108.
    ensures fits { IfOk result (λ text. length text ≤ 3313) }
{
    let Some(read) = Name::read(name.as_slice()) else {
        return Err(ApplyError::BadName);
    };
    let value = text_of_name(alloc, &read, table)?;
    Ok(line(alloc, name.as_slice(), value.as_slice())?)
}

fn line(alloc: Global, name: &[u8], value: &[u8]) -> Result<Text, NoMemory>
    ensures value { IfOk result (λ text. text ≡ setting_line name.now value.now) }
    ensures long { IfOk result (λ text. length text ≡ length name.now + length value.now + 4) }
{
    let mut text = Vec::from_slice(alloc, name)?;
    text.extend_from_slice(b" = ")?;
    text.extend_from_slice(value)?;
    text.push(b'\n')?;
    Ok(Text::from_vec(text))
}
