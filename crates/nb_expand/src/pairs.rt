ghost use Rattle.std.specs.Prelude.{◌≡◌, ◌<◌, ◌∷◌, [], Some, None, length, IfOk, IfSome, IsErrOf};
ghost use Rattle.std.specs.Option.{option_map};
ghost use Rattle.hex.specs.Hex.{encode_lower};
ghost use Rattle.nb_expand.specs.Pairs.{printed_pairs, byte_of_digits, pair_at, pair_behind, parsed_pairs};

use crate::ParseError;
use nb_terms::NoMemory;
use std::alloc::Global;

/// Each byte as two hexadecimal digits, with a separator between them.
pub(crate) fn print_pairs(alloc: Global, separator: u8, bytes: &[u8]) -> Result<Vec<u8>, NoMemory>
    ensures { IfOk result (λ text. text.items ≡ printed_pairs separator bytes.now) }
{
    let mut text = Vec::new(alloc);
    for byte in bytes {
        if !text.is_empty() {
            text.push(separator)?;
        }
        text.extend_from_slice(&digits_of(*byte))?;
    }
    Ok(text)
}

fn digits_of(byte: u8) -> [u8; 2]
    ensures { result ≡ encode_lower (byte ∷ []) }
{
    let mut digits = [0; 2];
    let _ = hex::encode_to_slice([byte].as_slice(), &mut digits);
    digits
}

/// The bytes of pairs of digits with a separator between them.
pub(crate) fn parse_pairs(alloc: Global, separator: u8, text: &[u8]) -> Result<Vec<u8>, ParseError>
    ensures value { IfOk result (λ bytes. parsed_pairs separator text.now ≡ Some bytes.items) }
    ensures bad_value { IsErrOf result ParseError.BadValue → parsed_pairs separator text.now ≡ None }
{
    let mut bytes = Vec::new(alloc);
    if text.is_empty() {
        return Ok(bytes);
    }
    let Some((first, mut rest)) = pair_at(text) else {
        return Err(ParseError::BadValue);
    };
    bytes.push(first)?;
    while !rest.is_empty() {
        let Some((byte, behind)) = pair_behind(separator, rest) else {
            return Err(ParseError::BadValue);
        };
        bytes.push(byte)?;
        rest = behind;
    }
    Ok(bytes)
}

/// The byte of a separator and two digits, and what stands after them.
fn pair_behind(separator: u8, text: &[u8]) -> Option<(u8, &[u8])>
    ensures value { option_map (λ read. (read.0, read.1.now)) result ≡ pair_behind separator text.now }
    ensures shorter { IfSome result (λ read. length read.1.now < length text.now) }
{
    match text {
        [first, behind @ ..] if *first == separator => pair_at(behind),
        _ => None,
    }
}

/// The byte of two digits of either case, and what stands after them.
fn pair_at(text: &[u8]) -> Option<(u8, &[u8])>
    ensures value { option_map (λ read. (read.0, read.1.now)) result ≡ pair_at text.now }
    ensures shorter { IfSome result (λ read. length read.1.now < length text.now) }
{
    match text {
        [high, low, behind @ ..] => Some((byte_of(*high, *low)?, behind)),
        _ => None,
    }
}

fn byte_of(high: u8, low: u8) -> Option<u8>
    ensures { result ≡ byte_of_digits high low }
{
    let mut byte = [0];
    match hex::decode_to_slice([high, low].as_slice(), &mut byte) {
        Ok(()) => Some(byte[0]),
        Err(_) => None,
    }
}
