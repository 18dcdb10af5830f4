//! The addresses that settings have.

ghost use Rattle.std.specs.Prelude.{◌≡◌};
ghost use Rattle.std.specs.Option.{option_copied};
ghost use Rattle.nb_settings.specs.Keys.{key_of};
ghost use Rattle.nb_settings.specs.Tables.{look};
ghost use Rattle.nb_command.specs.SettingAddresses.{address_bytes, value_address, nonzero};

use nb_settings::{Key, Table};
use nb_wire::Ip4;

/// The address of the setting that a block, or the root, has or finds: its value's first four bytes. None where it
/// isn't set, or has fewer.
pub fn setting_address(table: &Table, block: Option<&[u8]>, key: &Key<'_>) -> Option<Ip4>
    ensures { result ≡ value_address (look (option_copied block.entry) (key_of key.now) table.now) }
{
    let value = table.find(block, key)?;
    address_bytes(value.bytes)
}

/// The address that bytes begin with. None where there are fewer than four.
fn address_bytes(bytes: &[u8]) -> Option<Ip4>
    ensures { result ≡ address_bytes bytes.now }
{
    match bytes {
        [a, b, c, d, ..] => Some(Ip4(u32::from_be_bytes([*a, *b, *c, *d]))),
        _ => None,
    }
}

/// An address of 0 is none.
pub fn nonzero(address: Option<Ip4>) -> Option<Ip4>
    ensures { result ≡ nonzero address }
{
    match address {
        Some(address) if address.0 != 0 => Some(address),
        _ => None,
    }
}
