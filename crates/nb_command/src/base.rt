//! What the URIs of a command are joined to (RFC 3986, section 5.1.4).

ghost use Rattle.std.specs.Prelude.{◌≡◌, IfOk};
ghost use Rattle.std.specs.Option.{option_copied};
ghost use Rattle.nb_command.specs.Bases.{next_server, root_uri, base_in, base_by};

use crate::setting_addresses::{nonzero, setting_address};
use nb_expand::print;
use nb_imagecmd::copy_text;
use nb_settings::{Key, Kind, Table};
use nb_terms::NoMemory;
use nb_wire::{Ip4, Text};
use std::alloc::Global;

/// The setting whose server's root a URI of the first script is joined to.
const NEXT_SERVER: Key<'static> = Key::Free(b"next-server");

/// What the URIs of a command are joined to: the URI that its script was fetched from, or else the root of the
/// server `next-server`, where it is set.
pub fn script_base(
    alloc: Global,
    own: Option<&[u8]>,
    table: &Table,
) -> Result<Option<Text>, NoMemory>
    ensures { IfOk result (λ base. base ≡ base_by (option_copied own.entry) table.now) }
{
    match own {
        Some(uri) => Ok(Some(copy_text(alloc, uri)?)),
        None => base_in(alloc, table),
    }
}

/// The root of the server `next-server`, where it is set.
fn base_in(alloc: Global, table: &Table) -> Result<Option<Text>, NoMemory>
    ensures { IfOk result (λ base. base ≡ base_in table.now) }
{
    match next_server(table) {
        Some(server) => Ok(Some(root_uri(alloc, server)?)),
        None => Ok(None),
    }
}

/// The server of the setting `next-server`. None where it isn't set, or 0.
fn next_server(table: &Table) -> Option<Ip4>
    ensures { result ≡ next_server table.now }
{
    nonzero(setting_address(table, None, &NEXT_SERVER))
}

/// The URI of a TFTP server's root.
#[tactic(auto, unfolding(nb_expand::specs::Printing::printed))]
fn root_uri(alloc: Global, server: Ip4) -> Result<Text, NoMemory>
    ensures { IfOk result (λ uri. uri ≡ root_uri server) }
{
    let address = print(alloc, Kind::Ipv4, &server.0.to_be_bytes())?;
    let mut uri = Vec::from_slice(alloc, b"tftp://")?;
    uri.extend_from_slice(address.as_slice())?;
    uri.push(b'/')?;
    Ok(Text::from_vec(uri))
}
