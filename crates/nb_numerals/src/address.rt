ghost use Rattle.std.specs.Prelude.{◌≡◌, position};
ghost use Rattle.std.specs.Option.{option_map};
ghost use Rattle.nb_numerals.specs.Addresses.{decimal_byte, parsed_address, decimal_and_dot, is_dot};

use crate::decimal;

/// The bytes of an address that a text writes as four decimals from 0 to 255, joined by dots (RFC 3986,
/// section 3.2.2: IPv4address). None where the text is anything else.
pub fn read_address(text: &[u8]) -> Option<[u8; 4]>
    ensures { result ≡ parsed_address text.now }
{
    let (a, behind) = decimal_and_dot(text)?;
    let (b, behind) = decimal_and_dot(behind)?;
    let (c, behind) = decimal_and_dot(behind)?;
    Some([a, b, c, decimal_byte(behind)?])
}

/// The byte of the decimal before the first dot, and what stands after the dot.
fn decimal_and_dot(text: &[u8]) -> Option<(u8, &[u8])>
    ensures { option_map (λ read. (read.0, read.1.now)) result ≡ decimal_and_dot text.now }
{
    let dot = position_of_dot(text)?;
    let byte = decimal_byte(&text[..dot])?;
    Some((byte, &text[dot + 1..]))
}

fn position_of_dot(text: &[u8]) -> Option<usize>
    ensures { result ≡ position is_dot text.now }
{
    text.iter().position(|byte| *byte == b'.')
}

/// The byte that a decimal without leading zeros writes.
fn decimal_byte(text: &[u8]) -> Option<u8>
    ensures { result ≡ decimal_byte text.now }
{
    u8::try_from(decimal(text)?).ok()
}
