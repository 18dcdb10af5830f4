//! The settings that START gives: the block `net0`.

ghost use Rattle.std.specs.Prelude.{◌≡◌, OnOk, IfOk, codes};
ghost use Rattle.nb_settings.specs.Keys.{key_of};
ghost use Rattle.nb_record.specs.View.{start_of};
ghost use Rattle.nb_machine.specs.StartTable.{with_own, with_address, with_names, with_addresses, net0_alone, start_table};

use crate::link::{GATEWAY, MASK, NET0};
use nb_record::{NoMemory, Start};
use nb_settings::{Key, Kind, Table};
use nb_wire::Ip4;
use std::alloc::Global;

/// The option of RFC 2132 that is the name server.
pub(crate) const DNS: Key<'static> = Key::Tag(6);

/// Puts a value into the block. It is there, and is far from full, so only memory may be wanting.
fn put_own(
    alloc: Global,
    table: &mut Table,
    key: Key<'_>,
    kind: Kind,
    bytes: &[u8],
) -> Result<(), NoMemory>
    ensures { OnOk result (table.new ≡ with_own (key_of key.entry) kind bytes.now table.old) }
{
    match table.put(alloc, NET0, &key, kind, bytes) {
        Ok(()) => Ok(()),
        Err(_) => Err(NoMemory),
    }
}

/// Puts an address, unless it is 0.
fn put_address(alloc: Global, table: &mut Table, key: Key<'_>, address: Ip4) -> Result<(), NoMemory>
    ensures { OnOk result (table.new ≡ with_address (key_of key.entry) address.0 table.old) }
{
    if address.0 == 0 {
        return Ok(());
    }
    put_own(alloc, table, key, Kind::Ipv4, &address.0.to_be_bytes())
}

/// Puts the client's MAC and its UUID.
fn put_names(alloc: Global, table: &mut Table, start: &Start<'_>) -> Result<(), NoMemory>
    ensures { OnOk result (table.new ≡ with_names (start_of start.now) table.old) }
{
    put_own(alloc, table, Key::Free(b"mac"), Kind::Hex, &start.mac.0)?;
    put_own(alloc, table, Key::Free(b"uuid"), Kind::Uuid, &start.uuid)
}

/// Puts the addresses that aren't 0. Where the client has none, the others are ignored.
fn put_addresses(alloc: Global, table: &mut Table, start: &Start<'_>) -> Result<(), NoMemory>
    ensures { OnOk result (table.new ≡ with_addresses (start_of start.now) table.old) }
{
    if start.ip.0 == 0 {
        return Ok(());
    }
    put_address(alloc, table, Key::Free(b"ip"), start.ip)?;
    put_address(alloc, table, MASK, start.mask)?;
    put_address(alloc, table, GATEWAY, start.gateway)?;
    put_address(alloc, table, DNS, start.dns)
}

/// The block alone, empty.
fn net0_alone(alloc: Global) -> Result<Table, NoMemory>
    ensures { IfOk result (λ table. table ≡ net0_alone) }
{
    let mut table = Table::new(alloc);
    match table.register(alloc, NET0, 0) {
        Ok(()) => Ok(table),
        Err(_) => Err(NoMemory),
    }
}

/// The settings with which a run begins.
#[tactic(auto, unfolding(nb_machine::specs::StartTable::start_table))]
pub fn start_table(alloc: Global, start: &Start<'_>) -> Result<Table, NoMemory>
    ensures { IfOk result (λ table. table ≡ start_table (start_of start.now)) }
{
    let mut table = net0_alone(alloc)?;
    put_names(alloc, &mut table, start)?;
    put_addresses(alloc, &mut table, start)?;
    Ok(table)
}
