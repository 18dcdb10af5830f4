//! The setting that a name means, and a value put into it.

ghost use Rattle.std.specs.Prelude.{◌≡◌, ◌⊎◌, Ok, Err, Some, OnOk, OnErr, IfErr};
ghost use Rattle.nb_settings.specs.Names.{name_of};
ghost use Rattle.nb_settings.specs.Tables.{has_block};
ghost use Rattle.nb_command.specs.Settings.{named_block, put_text, put_value};
ghost use Rattle.nb_command.specs.declared.error.ApplyError.TheVariants as failure;

use crate::error::ApplyError;
use nb_expand::parse;
use nb_settings::{Kind, Name, Table};
use std::alloc::Global;

/// The name of the root.
const ROOT: &[u8] = b"";

/// The block that a name means: the root where it names none.
pub(crate) fn block_of<'a>(name: &Name<'a>) -> &'a [u8]
    ensures { result.now ≡ named_block (name_of name.now) }
{
    name.block.unwrap_or(ROOT)
}

/// Whether that block is there.
pub(crate) fn has_block(name: &Name<'_>, table: &Table) -> bool
    ensures { result ≡ has_block (named_block (name_of name.now)) table.now.blocks }
{
    table.count(block_of(name)).is_some()
}

/// Puts the value that a text is of a kind.
pub(crate) fn put_text(
    alloc: Global,
    name: &Name<'_>,
    kind: Kind,
    text: &[u8],
    table: &mut Table,
) -> Result<(), ApplyError>
    ensures ok { OnOk result (put_text (name_of name.now) kind text.now table.old ≡ Ok table.new) }
    ensures cause { IfErr result (λ why. (why ≡ failure.NoMemory)
        ⊎ (put_text (name_of name.now) kind text.now table.old ≡ Err why)) }
    ensures refused { OnErr result (table.new ≡ table.old) }
{
    let bytes = parse(alloc, kind, text)?;
    put_bytes(alloc, name, kind, bytes.as_slice(), table)
}

/// Puts a value of a kind.
pub(crate) fn put_bytes(
    alloc: Global,
    name: &Name<'_>,
    kind: Kind,
    bytes: &[u8],
    table: &mut Table,
) -> Result<(), ApplyError>
    ensures ok { OnOk result (put_value (named_block (name_of name.now)) (name_of name.now).key kind
        (Some bytes.now) table.old ≡ Ok table.new) }
    ensures cause { IfErr result (λ why. (why ≡ failure.NoMemory)
        ⊎ (put_value (named_block (name_of name.now)) (name_of name.now).key kind
        (Some bytes.now) table.old ≡ Err why)) }
    ensures refused { OnErr result (table.new ≡ table.old) }
{
    table.put(alloc, block_of(name), &name.key, kind, bytes)?;
    Ok(())
}
