//! `inc name [n]`: adds to an integer setting.

ghost use Rattle.std.specs.Prelude.{◌≡◌, ◌⊎◌, Ok, Err, OnOk, OnErr, IfErr, IfSome};
ghost use Rattle.std.specs.Prelude.{negsuc, pos, ◌≤ℤ◌};
ghost use Rattle.nb_settings.specs.Names.{name_of};
ghost use Rattle.nb_command.specs.Plans.{PlansAs};
ghost use Rattle.nb_command.specs.Inc.{inc_plan, inc_plan_by};
ghost use Rattle.nb_command.specs.Inc.{named_count, put_number, summed, increased_table};
ghost use Rattle.nb_command.specs.declared.error.ApplyError.TheVariants as failure;

use crate::error::ApplyError;
use crate::setting::{block_of, has_block, put_text};
use crate::words::{is_option, signed_number};
use crate::{CommandPlan, PlanError};
use nb_expand::integer;
use nb_imagecmd::copy_word;
use nb_settings::{Kind, Name, Table};
use nb_wire::Word;
use std::alloc::Global;

#[tactic(auto, unfolding(crate::specs::Inc::inc_plan))]
pub(crate) fn plan_inc(alloc: Global, args: &[Word]) -> Result<CommandPlan, PlanError>
    ensures { PlansAs result (inc_plan args.now) }
{
    match args {
        [name] if !is_option(name) => plan_by(alloc, name, Some(1)),
        [name, n] if !is_option(name) => plan_by(alloc, name, signed_number(n)),
        _ => Err(PlanError::Usage),
    }
}

fn plan_by(alloc: Global, name: &Word, by: Option<i32>) -> Result<CommandPlan, PlanError>
    ensures { PlansAs result (inc_plan_by name.now by) }
{
    let Some(by) = by else {
        return Err(PlanError::Usage);
    };
    Ok(CommandPlan::Inc {
        name: copy_word(alloc, name)?,
        by,
    })
}

/// Adds to the setting. An unset one counts from 0.
pub(crate) fn inc_setting(
    alloc: Global,
    name: &Word,
    by: i32,
    table: &mut Table,
) -> Result<(), ApplyError>
    ensures ok { OnOk result (increased_table name.now by table.old ≡ Ok table.new) }
    ensures cause { IfErr result (λ why. (why ≡ failure.NoMemory)
        ⊎ (increased_table name.now by table.old ≡ Err why)) }
    ensures refused { OnErr result (table.new ≡ table.old) }
{
    let Some(name) = Name::read(name.as_slice()) else {
        return Err(ApplyError::BadName);
    };
    if !has_block(&name, table) {
        return Err(ApplyError::BadName);
    }
    add(alloc, &name, by, table)
}

/// Adds to the setting that a name means.
fn add(alloc: Global, name: &Name<'_>, by: i32, table: &mut Table) -> Result<(), ApplyError>
    ensures ok { OnOk result (summed by table.old (name_of name.now) ≡ Ok table.new) }
    ensures cause { IfErr result (λ why. (why ≡ failure.NoMemory)
        ⊎ (summed by table.old (name_of name.now) ≡ Err why)) }
    ensures refused { OnErr result (table.new ≡ table.old) }
{
    let Some((kind, number)) = counted_from(name, table) else {
        return Err(ApplyError::BadValue);
    };
    put_number(alloc, name, kind, number + i64::from(by), table)
}

/// The kind and the number from which it counts. None where the setting is no integer.
fn counted_from(name: &Name<'_>, table: &Table) -> Option<(Kind, i64)>
    ensures value { result ≡ named_count (name_of name.now) table.now }
    ensures low { IfSome result (λ from. negsuc 2147483647 ≤ℤ from.1) }
    ensures high { IfSome result (λ from. from.1 ≤ℤ pos 4294967295) }
{
    match table.own(block_of(name), &name.key) {
        Some(value) => Some((value.kind, integer(value.kind, value.bytes)?)),
        None => Some((Kind::Int32, 0)),
    }
}

/// Puts a number, where it is one of the kind.
fn put_number(
    alloc: Global,
    name: &Name<'_>,
    kind: Kind,
    number: i64,
    table: &mut Table,
) -> Result<(), ApplyError>
    ensures ok { OnOk result (put_number (name_of name.now) kind number table.old ≡ Ok table.new) }
    ensures cause { IfErr result (λ why. (why ≡ failure.NoMemory)
        ⊎ (put_number (name_of name.now) kind number table.old ≡ Err why)) }
    ensures refused { OnErr result (table.new ≡ table.old) }
{
    let text = format!(in alloc; "{number}")?;
    put_text(alloc, name, kind, text.as_bytes(), table)
}
