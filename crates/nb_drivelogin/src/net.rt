//! The client's net, by the settings.

ghost use Rattle.std.specs.Prelude.{◌≡◌};
ghost use Rattle.std.specs.Option.{option_copied};
ghost use Rattle.nb_settings.specs.Keys.{key_of};
ghost use Rattle.nb_settings.specs.Tables.{look};
ghost use Rattle.nb_drivelogin.specs.OwnNets.{setting_host, own_prefix, prefix_of, second_address, second_name_server};

use nb_command::setting_address;
use nb_settings::{Key, Table};
use nb_wire::Ip4;

/// The block of the client's one device.
pub(crate) const NET0: &[u8] = b"net0";

/// Settings with the address of a host; all but `ip` are options of RFC 2132.
pub(crate) const IP: Key<'static> = Key::Free(b"ip");

pub(crate) const GATEWAY: Key<'static> = Key::Tag(3);

pub(crate) const NAME_SERVERS: Key<'static> = Key::Tag(6);

pub(crate) const DHCP_SERVER: Key<'static> = Key::Tag(54);

/// The setting of the net's mask, and the mask where it isn't set.
const MASK: Key<'static> = Key::Tag(1);

const CLASS_C: Ip4 = Ip4(0xffff_ff00);

/// The address that a setting has; 0 is none.
pub(crate) fn setting_host(table: &Table, block: Option<&[u8]>, key: &Key<'_>) -> Ip4
    ensures { result.0 ≡ setting_host (look (option_copied block.entry) (key_of key.now) table.now) }
{
    setting_address(table, block, key).unwrap_or(Ip4(0))
}

/// The second of the name servers: the second four bytes of the setting.
pub(crate) fn second_name_server(table: &Table) -> Ip4
    ensures { result.0 ≡ second_name_server table.now }
{
    match table.find(None, &NAME_SERVERS) {
        Some(value) => second_address(value.bytes),
        None => Ip4(0),
    }
}

/// The address of the second four bytes; 0 where there are fewer than eight.
fn second_address(bytes: &[u8]) -> Ip4
    ensures { result.0 ≡ second_address bytes.now }
{
    match bytes {
        [_, _, _, _, a, b, c, d, ..] => Ip4(u32::from_be_bytes([*a, *b, *c, *d])),
        _ => Ip4(0),
    }
}

/// How many bits of the client's mask are ones, from the highest on.
pub(crate) fn own_prefix(table: &Table) -> u8
    ensures { result ≡ own_prefix table.now }
{
    prefix_of(setting_address(table, Some(NET0), &MASK).unwrap_or(CLASS_C))
}

/// How many bits of a mask are ones, from the highest on. Those after the first that isn't don't count.
fn prefix_of(mask: Ip4) -> u8
    ensures { result ≡ prefix_of mask }
{
    mask.0.leading_ones() as u8
}
