//! IPv4 addresses as text.

ghost use Rattle.std.specs.Prelude.{◌≡◌};
ghost use Rattle.std.specs.Option.{option_map};
ghost use Rattle.nb_uri.specs.Addresses.{four_decimals};

use nb_numerals::read_address;
use nb_wire::Ip4;

/// The address that a text of four decimals writes, joined by dots. None where the text is anything else
/// (RFC 3986, section 3.2.2: IPv4address).
pub fn number(host: &[u8]) -> Option<Ip4>
    ensures { option_map (λ address. address.0) result ≡ four_decimals host.now }
{
    match read_address(host) {
        Some(bytes) => Some(Ip4(u32::from_be_bytes(bytes))),
        None => None,
    }
}
