//! An address as the value of the setting that a name means.

ghost use Rattle.std.specs.Prelude.{◌≡◌, ◌⊎◌, ℕ, List, true, false, Ok, Err, None, OnOk, OnErr, IfErr, IfSome, IsOk};
ghost use Rattle.nb_settings.specs.Names.{name_of, name_read};
ghost use Rattle.nb_settings.specs.Tables.{has_block, is_full, own_value};
ghost use Rattle.nb_settings.specs.declared.setting.OwnedKey.{OwnedKey};
ghost use Rattle.nb_command.specs.Addresses.{address_table};
ghost use Rattle.nb_command.specs.Others.{is_meant};
ghost use Rattle.nb_command.specs.Settings.{named_block};
ghost use Rattle.nb_command.specs.declared.error.ApplyError.TheVariants as failure;

use crate::error::ApplyError;
use crate::setting::{block_of, has_block, put_bytes};
use nb_settings::{Kind, MAX_SETTINGS, Name, Table};
use nb_wire::Ip4;
use std::alloc::Global;

/// Sets the setting that a name means to an address, as `ipv4`; a kind in the name is ignored.
pub fn put_address(
    alloc: Global,
    name: &[u8],
    address: Ip4,
    table: &mut Table,
) -> Result<(), ApplyError>
    ensures ok { OnOk result (address_table name.now address.0 table.old ≡ Ok table.new) }
    ensures cause { IfErr result (λ why. (why ≡ failure.NoMemory)
        ⊎ (address_table name.now address.0 table.old ≡ Err why)) }
    ensures refused { OnErr result (table.new ≡ table.old) }
    // Of settings it changes the one alone that the name means.
    ensures others { (block : List ℕ) (key : OwnedKey) → is_meant (name_read name.now) block key ≡ false
        → own_value block key table.new ≡ own_value block key table.old }
{
    let Some(name) = Name::read(name) else {
        return Err(ApplyError::BadName);
    };
    if !has_block(&name, table) {
        return Err(ApplyError::BadName);
    }
    put_bytes(alloc, &name, Kind::Ipv4, &address.0.to_be_bytes(), table)
}

/// Why the setting that a name means would refuse an address. None where it takes one.
pub fn refuses_address(name: &[u8], table: &Table) -> Option<ApplyError>
    // It refuses each address or none.
    ensures refused { (address : ℕ)
        → IfSome result (λ why. address_table name.now address table.now ≡ Err why) }
    ensures taken { (address : ℕ) → result ≡ None → IsOk (address_table name.now address table.now) }
{
    let Some(name) = Name::read(name) else {
        return Some(ApplyError::BadName);
    };
    if !has_block(&name, table) {
        return Some(ApplyError::BadName);
    }
    is_full(&name, table).then_some(ApplyError::ManySettings)
}

/// Whether the named block has as many settings as it may, and the one that is meant isn't among them.
fn is_full(name: &Name<'_>, table: &Table) -> bool
    requires { has_block (named_block (name_of name.now)) table.now.blocks ≡ true }
    ensures { result ≡ is_full (named_block (name_of name.now)) (name_of name.now).key table.now.settings }
{
    let count = table.count(block_of(name)).unwrap_or(0);
    count >= MAX_SETTINGS && table.own(block_of(name), &name.key).is_none()
}
