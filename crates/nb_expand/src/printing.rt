ghost use Rattle.std.specs.Prelude.{◌≡◌, ◌+◌, ◌*◌, ◌≤◌, Some, IfOk, length};
ghost use Rattle.uuid.specs.Text.{hyphenated_text};
ghost use Rattle.hex.specs.Hex.{encode_lower};
ghost use Rattle.base64.specs.Engines.{standard};
ghost use Rattle.base64.specs.GeneralPurpose.{encode_of};
ghost use Rattle.nb_expand.specs.Printing.{printed, printed_uuid};
ghost use Rattle.nb_expand.specs.Reading.{parsed, IsWhole, shown};
ghost use Rattle.nb_expand.specs.Uris.{printed_uri};

use crate::address::print_address;
use crate::number::{print_signed, print_unsigned};
use crate::pairs::print_pairs;
use base64::engine::general_purpose::STANDARD;
use nb_settings::{Kind, without_nulls};
use nb_terms::NoMemory;
use nb_wire::Text;
use percent_encoding::{AsciiSet, NON_ALPHANUMERIC, ascii_set, percent_encode};
use std::alloc::Global;
use uuid::Uuid;

/// All but the unreserved characters of RFC 3986, section 2.3.
const RESERVED: AsciiSet = ascii_set!(
    NON_ALPHANUMERIC
        .remove(b'-')
        .remove(b'.')
        .remove(b'_')
        .remove(b'~')
);

/// A setting's value as text, by a kind. An integer kind prints the last bytes of a longer value,
/// and extends a shorter one; an empty value prints nothing. A text kind leaves out the zero bytes at the end, which
/// servers add (RFC 2132, section 2).
pub fn print(alloc: Global, kind: Kind, bytes: &[u8]) -> Result<Text, NoMemory>
    ensures value { IfOk result (λ text. text ≡ printed kind bytes.now) }
    // A value of its kind's length, printed and read again, is the same value, zero bytes at a text's end aside.
    ensures read_back { IsWhole kind bytes.now
        → parsed kind (printed kind bytes.now) ≡ Some (shown kind bytes.now) }
    ensures short { IfOk result (λ text. length text ≤ 3 * length bytes.now + 36) }
{
    Ok(Text::from_vec(print_bytes(alloc, kind, bytes)?))
}

#[tactic(auto, unfolding(crate::specs::Printing::printed))]
fn print_bytes(alloc: Global, kind: Kind, bytes: &[u8]) -> Result<Vec<u8>, NoMemory>
    ensures { IfOk result (λ text. text.items ≡ printed kind bytes.now) }
{
    match kind {
        Kind::Str => Ok(Vec::from_slice(alloc, without_nulls(bytes))?),
        Kind::Ipv4 => print_address(alloc, bytes),
        Kind::Int8 => print_signed(alloc, 1, bytes),
        Kind::Int16 => print_signed(alloc, 2, bytes),
        Kind::Int32 => print_signed(alloc, 4, bytes),
        Kind::Uint8 => print_unsigned(alloc, 1, bytes),
        Kind::Uint16 => print_unsigned(alloc, 2, bytes),
        Kind::Uint32 => print_unsigned(alloc, 4, bytes),
        Kind::Hex => print_pairs(alloc, b':', bytes),
        Kind::Hexhyp => print_pairs(alloc, b'-', bytes),
        Kind::Hexraw => Ok(hex::encode(alloc, bytes)?.into_bytes()),
        Kind::Base64 => Ok(STANDARD.encode(alloc, bytes)?.into_bytes()),
        Kind::Uuid => print_uuid(alloc, bytes),
        Kind::Uristring => print_uri(alloc, without_nulls(bytes)),
    }
}

fn print_uuid(alloc: Global, bytes: &[u8]) -> Result<Vec<u8>, NoMemory>
    ensures { IfOk result (λ text. text.items ≡ printed_uuid bytes.now) }
{
    let Ok(uuid) = Uuid::from_slice(bytes) else {
        return Ok(Vec::new(alloc));
    };
    let mut buffer = Uuid::encode_buffer();
    let text = uuid.hyphenated().encode_lower(&mut buffer);
    Ok(Vec::from_slice(alloc, text.as_bytes())?)
}

fn print_uri(alloc: Global, bytes: &[u8]) -> Result<Vec<u8>, NoMemory>
    ensures { IfOk result (λ text. text.items ≡ printed_uri bytes.now) }
{
    let mut text = String::new(alloc);
    percent_encode(bytes, RESERVED).append_to(&mut text)?;
    Ok(text.into_bytes())
}
