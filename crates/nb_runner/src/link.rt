//! The client's address, mask and gateway: settings of net0.

ghost use Rattle.std.specs.Prelude.{◌≡◌};
ghost use Rattle.nb_settings.specs.Keys.{key_of};
ghost use Rattle.nb_machine.specs.Link.{net0_address, address_in_table};

use nb_command::{nonzero, setting_address};
use nb_settings::{Key, Table};
use nb_stack::Addr;
use nb_wire::Ip4;

/// The block of the one device.
pub(crate) const NET0: &[u8] = b"net0";

/// The options of RFC 2132 that are the net's mask and its gateway.
pub(crate) const MASK: Key<'static> = Key::Tag(1);

pub(crate) const GATEWAY: Key<'static> = Key::Tag(3);

/// The net's mask where none is set.
const CLASS_C: Ip4 = Ip4(0xffff_ff00);

/// The address that a setting of net0 has, if it has one.
#[tactic(auto, unfolding(nb_machine::specs::Link::net0_address))]
fn net0_address(table: &Table, key: &Key<'_>) -> Option<Ip4>
    ensures { result ≡ net0_address (key_of key.now) table.now }
{
    setting_address(table, Some(NET0), key)
}

/// The client's address and its net, by the settings.
#[tactic(auto, unfolding(nb_machine::specs::Link::address_in_table))]
pub(crate) fn address_in(table: &Table) -> Option<Addr>
    ensures { result ≡ address_in_table table.now }
{
    let ip = nonzero(net0_address(table, &Key::Free(b"ip")))?;
    Some(Addr {
        ip,
        mask: net0_address(table, &MASK).unwrap_or(CLASS_C),
        gateway: nonzero(net0_address(table, &GATEWAY)),
    })
}
