//! Numbers and binary values as the texts of keys (RFC 7143, section 6.1).

ghost use Rattle.std.specs.Prelude.{◌≡◌, ◌^◌, IfOk};
ghost use Rattle.std.specs.Option.{option_copied, option_map};
ghost use Rattle.std.specs.Result.{result_ok};
ghost use Rattle.std.specs.Char.{is_digit};
ghost use Rattle.std.specs.List.{list_all};
ghost use Rattle.hex.specs.Hex.{decode_of};
ghost use Rattle.base64.specs.Engines.{standard};
ghost use Rattle.base64.specs.GeneralPurpose.{decoded_of};
ghost use Rattle.nb_numerals.specs.Numbers.{below, digits_number};
ghost use Rattle.nb_chap.specs.Values.{hexadecimal_in, base64_in, byte_in, encoded_in, has_binary_length, binary_in, binary_text};

use base64::DecodeAllocError;
use base64::engine::general_purpose::STANDARD;
use hex::FromHexError;
use nb_numerals::decimal;
use nb_terms::NoMemory;
use nb_wire::Text;
use std::alloc::Global;
use std::str;

/// The most bytes of a binary value.
pub const MAX_BINARY: usize = 1024;

/// The number from 0 to 255 that a text is: decimal digits, or `0x` and hexadecimal digits.
#[tactic(auto, unfolding(crate::specs::Values::byte_in))]
pub fn byte(text: &[u8]) -> Option<u8>
    ensures { result ≡ byte_in text.now }
{
    let number = match hexadecimal_in(text) {
        Some(digits) => hexadecimal(digits),
        None => decimal(text),
    };
    u8::try_from(number?).ok()
}

/// The binary value that a text is: 1 to 1,024 bytes, as `0x` and hexadecimal digits or as `0b` and base64.
#[tactic(auto, unfolding(crate::specs::Values::binary_in))]
pub fn binary(alloc: Global, text: &[u8]) -> Result<Option<Text>, NoMemory>
    ensures { IfOk result (λ value. value ≡ binary_in text.now) }
{
    match encoded(alloc, text)? {
        Some(bytes) if has_binary_length(bytes.as_slice()) => Ok(Some(Text::from_vec(bytes))),
        _ => Ok(None),
    }
}

/// Bytes as a binary value's text, in lower-case digits.
pub fn binary_text(alloc: Global, bytes: &[u8]) -> Result<Vec<u8>, NoMemory>
    ensures { IfOk result (λ text. text.items ≡ binary_text bytes.now) }
{
    let mut text = Vec::from_slice(alloc, b"0x")?;
    let digits = hex::encode(alloc, bytes)?;
    text.extend_from_slice(digits.as_bytes())?;
    Ok(text)
}

fn has_binary_length(bytes: &[u8]) -> bool
    ensures { result ≡ has_binary_length bytes.now }
{
    !bytes.is_empty() && bytes.len() <= MAX_BINARY
}

/// The bytes of hexadecimal digits or of base64, each after its mark.
#[tactic(auto, unfolding(crate::specs::Values::encoded_in))]
fn encoded(alloc: Global, text: &[u8]) -> Result<Option<Vec<u8>>, NoMemory>
    ensures { IfOk result (λ value. option_map (λ bytes. bytes.items) value ≡ encoded_in text.now) }
{
    if let Some(digits) = hexadecimal_in(text) {
        return bytes_of_digits(alloc, digits);
    }
    match base64_in(text) {
        Some(text) => bytes_of_base64(alloc, text),
        None => Ok(None),
    }
}

fn bytes_of_digits(alloc: Global, digits: &[u8]) -> Result<Option<Vec<u8>>, NoMemory>
    ensures { IfOk result (λ value. option_map (λ bytes. bytes.items) value ≡ result_ok (decode_of digits.now)) }
{
    match hex::decode(alloc, digits) {
        Ok(bytes) => Ok(Some(bytes)),
        Err(FromHexError::OutOfMemory) => Err(NoMemory),
        Err(_) => Ok(None),
    }
}

#[tactic(auto, unfolding(base64::specs::GeneralPurpose::decoded_of))]
fn bytes_of_base64(alloc: Global, text: &[u8]) -> Result<Option<Vec<u8>>, NoMemory>
    ensures { IfOk result (λ value. option_map (λ bytes. bytes.items) value ≡ decoded_of standard text.now) }
{
    match STANDARD.decode(alloc, text) {
        Ok(bytes) => Ok(Some(bytes)),
        Err(DecodeAllocError::OutOfMemory) => Err(NoMemory),
        Err(DecodeAllocError::DecodeError(_)) => Ok(None),
    }
}

/// What stands after `0x` or `0X`.
fn hexadecimal_in(text: &[u8]) -> Option<&[u8]>
    ensures { option_copied result ≡ hexadecimal_in text.now }
{
    match text {
        [b'0', b'x' | b'X', digits @ ..] => Some(digits),
        _ => None,
    }
}

/// What stands after `0b` or `0B`.
fn base64_in(text: &[u8]) -> Option<&[u8]>
    ensures { option_copied result ≡ base64_in text.now }
{
    match text {
        [b'0', b'b' | b'B', text @ ..] => Some(text),
        _ => None,
    }
}

/// The value of hexadecimal digits. None where one is no digit, there is none, or it is over 32 bits.
fn hexadecimal(digits: &[u8]) -> Option<u32>
    ensures { result ≡ below (2 ^ 32) (digits_number 16 digits.now) }
{
    // `from_str_radix` reads a sign too.
    if !are_hexadecimal(digits) {
        return None;
    }
    u32::from_str_radix(str::from_utf8(digits).ok()?, 16).ok()
}

fn are_hexadecimal(text: &[u8]) -> bool
    ensures { result ≡ list_all (λ c. is_digit c 16) text.now }
{
    text.iter().all(|byte| char::from(*byte).is_digit(16))
}
