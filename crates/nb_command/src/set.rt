//! `set name [value]`: sets a setting to the words, joined by one space.

ghost use Rattle.std.specs.Prelude.{◌≡◌, ◌⊎◌, true, Ok, Err, OnOk, OnErr, IfErr};
ghost use Rattle.nb_settings.specs.Names.{name_of};
ghost use Rattle.nb_settings.specs.Tables.{has_block};
ghost use Rattle.nb_command.specs.Plans.{PlansAs};
ghost use Rattle.nb_command.specs.Settings.{named_block};
ghost use Rattle.nb_command.specs.Set.{set_plan, set_kind, set_value, set_table};
ghost use Rattle.nb_command.specs.declared.error.ApplyError.TheVariants as failure;

use crate::error::ApplyError;
use crate::setting::{block_of, has_block, put_text};
use crate::words::is_option;
use crate::{CommandPlan, PlanError};
use nb_imagecmd::{copy_word, copy_words, joined};
use nb_settings::{Kind, Name, Table};
use nb_wire::Word;
use std::alloc::Global;

#[tactic(auto, unfolding(crate::specs::Set::set_plan))]
pub(crate) fn plan_set(alloc: Global, args: &[Word]) -> Result<CommandPlan, PlanError>
    ensures { PlansAs result (set_plan args.now) }
{
    match args {
        [name, value @ ..] if !is_option(name) => Ok(CommandPlan::Set {
            name: copy_word(alloc, name)?,
            value: copy_words(alloc, value)?,
        }),
        _ => Err(PlanError::Usage),
    }
}

/// The kind by which the value is read: the one given, else the listed one, else string.
fn set_kind(name: &Name<'_>) -> Kind
    ensures { result ≡ set_kind (name_of name.now) }
{
    match name.kind {
        Some(kind) => kind,
        None => name.key.listed_kind().unwrap_or(Kind::Str),
    }
}

/// Sets the value; an empty one clears.
pub(crate) fn set_setting(
    alloc: Global,
    name: &Word,
    value: &[Word],
    table: &mut Table,
) -> Result<(), ApplyError>
    ensures ok { OnOk result (set_table name.now value.now table.old ≡ Ok table.new) }
    ensures cause { IfErr result (λ why. (why ≡ failure.NoMemory)
        ⊎ (set_table name.now value.now table.old ≡ Err why)) }
    ensures refused { OnErr result (table.new ≡ table.old) }
{
    let Some(name) = Name::read(name.as_slice()) else {
        return Err(ApplyError::BadName);
    };
    if !has_block(&name, table) {
        return Err(ApplyError::BadName);
    }
    let value = joined(alloc, value)?;
    set_value(alloc, &name, value.as_slice(), table)
}

fn set_value(
    alloc: Global,
    name: &Name<'_>,
    value: &[u8],
    table: &mut Table,
) -> Result<(), ApplyError>
    requires { has_block (named_block (name_of name.now)) table.old.blocks ≡ true }
    ensures ok { OnOk result (set_value value.now table.old (name_of name.now) ≡ Ok table.new) }
    ensures cause { IfErr result (λ why. (why ≡ failure.NoMemory)
        ⊎ (set_value value.now table.old (name_of name.now) ≡ Err why)) }
    ensures refused { OnErr result (table.new ≡ table.old) }
{
    if value.is_empty() {
        table.clear(block_of(name), &name.key)?;
        return Ok(());
    }
    put_text(alloc, name, set_kind(name), value, table)
}
