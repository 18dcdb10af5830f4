ghost use Rattle.std.specs.Prelude.{◌≡◌, ◌≢◌, ◌≤◌, Some, None, Err, IfOk, IsErrOf};
ghost use Rattle.std.specs.Option.{option_map};
ghost use Rattle.std.specs.Result.{result_ok};
ghost use Rattle.hex.specs.Hex.{decode_of};
ghost use Rattle.base64.specs.Engines.{standard};
ghost use Rattle.base64.specs.GeneralPurpose.{decoded_of};
ghost use Rattle.percent_encoding.specs.Percent.{percent_decode};
ghost use Rattle.uuid.specs.Text.{parsed_hyphenated};
ghost use Rattle.nb_numerals.specs.Addresses.{parsed_address};
ghost use Rattle.nb_expand.specs.Numbers.{number_bytes};
ghost use Rattle.nb_expand.specs.Reading.{parsed};

use crate::ParseError;
use crate::number::{read_signed, read_unsigned};
use crate::pairs::parse_pairs;
use base64::DecodeAllocError;
use base64::engine::general_purpose::STANDARD;
use hex::FromHexError;
use nb_numerals::read_address;
use nb_settings::Kind;
use nb_wire::Text;
use percent_encoding::percent_decode;
use std::alloc::Global;
use uuid::Uuid;

/// The value that a text is of a kind.
pub fn parse(alloc: Global, kind: Kind, text: &[u8]) -> Result<Text, ParseError>
    ensures value { IfOk result (λ bytes. parsed kind text.now ≡ Some bytes) }
    ensures bad_value { IsErrOf result ParseError.BadValue → parsed kind text.now ≡ None }
{
    Ok(Text::from_vec(parse_bytes(alloc, kind, text)?))
}

#[tactic(auto, unfolding(crate::specs::Reading::parsed))]
fn parse_bytes(alloc: Global, kind: Kind, text: &[u8]) -> Result<Vec<u8>, ParseError>
    ensures value { IfOk result (λ bytes. parsed kind text.now ≡ Some bytes.items) }
    ensures bad_value { IsErrOf result ParseError.BadValue → parsed kind text.now ≡ None }
{
    match kind {
        Kind::Str => Ok(Vec::from_slice(alloc, text)?),
        Kind::Ipv4 => parse_address(alloc, text),
        Kind::Int8 => number_bytes(alloc, 1, read_signed(text, 0x7f)),
        Kind::Int16 => number_bytes(alloc, 2, read_signed(text, 0x7fff)),
        Kind::Int32 => number_bytes(alloc, 4, read_signed(text, 0x7fff_ffff)),
        Kind::Uint8 => number_bytes(alloc, 1, read_unsigned(text, 0xff)),
        Kind::Uint16 => number_bytes(alloc, 2, read_unsigned(text, 0xffff)),
        Kind::Uint32 => number_bytes(alloc, 4, read_unsigned(text, 0xffff_ffff)),
        Kind::Hex => parse_pairs(alloc, b':', text),
        Kind::Hexhyp => parse_pairs(alloc, b'-', text),
        Kind::Hexraw => parse_hex(alloc, text),
        Kind::Base64 => parse_base64(alloc, text),
        Kind::Uuid => parse_uuid(alloc, text),
        Kind::Uristring => parse_uri(alloc, text),
    }
}

fn parse_address(alloc: Global, text: &[u8]) -> Result<Vec<u8>, ParseError>
    ensures value { IfOk result (λ bytes. parsed_address text.now ≡ Some bytes.items) }
    ensures bad_value { IsErrOf result ParseError.BadValue → parsed_address text.now ≡ None }
{
    match read_address(text) {
        Some(address) => Ok(Vec::from_slice(alloc, &address)?),
        None => Err(ParseError::BadValue),
    }
}

/// The last `size` bytes of a number, where there is one.
fn number_bytes(alloc: Global, size: usize, number: Option<u32>) -> Result<Vec<u8>, ParseError>
    requires { size ≤ 4 }
    ensures value { IfOk result (λ bytes. option_map (number_bytes size) number ≡ Some bytes.items) }
    ensures bad_value { IsErrOf result ParseError.BadValue → number ≡ None }
{
    match number {
        Some(number) => Ok(Vec::from_slice(alloc, &number.to_be_bytes()[4 - size..])?),
        None => Err(ParseError::BadValue),
    }
}

fn parse_hex(alloc: Global, text: &[u8]) -> Result<Vec<u8>, ParseError>
    ensures value { IfOk result (λ bytes. result_ok (decode_of text.now) ≡ Some bytes.items) }
    ensures bad_value { IsErrOf result ParseError.BadValue → result_ok (decode_of text.now) ≡ None }
{
    match hex::decode(alloc, text) {
        Ok(bytes) => Ok(bytes),
        Err(FromHexError::OutOfMemory) => Err(ParseError::NoMemory),
        Err(_) => Err(ParseError::BadValue),
    }
}

#[tactic(auto, unfolding(base64::specs::GeneralPurpose::decoded_of))]
fn parse_base64(alloc: Global, text: &[u8]) -> Result<Vec<u8>, ParseError>
    ensures value { IfOk result (λ bytes. decoded_of standard text.now ≡ Some bytes.items) }
    ensures bad_value { IsErrOf result ParseError.BadValue → decoded_of standard text.now ≡ None }
{
    match STANDARD.decode(alloc, text) {
        Ok(bytes) => Ok(bytes),
        Err(DecodeAllocError::OutOfMemory) => Err(ParseError::NoMemory),
        Err(DecodeAllocError::DecodeError(_)) => Err(ParseError::BadValue),
    }
}

/// The bytes of a UUID in its hyphenated form, which alone has 36 characters.
fn parse_uuid(alloc: Global, text: &[u8]) -> Result<Vec<u8>, ParseError>
    ensures value { IfOk result (λ bytes. parsed_hyphenated text.now ≡ Some bytes.items) }
    ensures bad_value { IsErrOf result ParseError.BadValue → parsed_hyphenated text.now ≡ None }
{
    if text.len() != 36 {
        return Err(ParseError::BadValue);
    }
    match Uuid::try_parse_ascii(text) {
        Ok(uuid) => Ok(Vec::from_slice(alloc, uuid.as_bytes())?),
        Err(_) => Err(ParseError::BadValue),
    }
}

fn parse_uri(alloc: Global, text: &[u8]) -> Result<Vec<u8>, ParseError>
    ensures value { IfOk result (λ bytes. bytes.items ≡ percent_decode text.now) }
    ensures bad_value { result ≢ Err ParseError.BadValue }
{
    let mut bytes = Vec::new(alloc);
    percent_decode(text).append_to(&mut bytes)?;
    Ok(bytes)
}
