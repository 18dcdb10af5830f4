ghost use Rattle.std.specs.Prelude.{◌≡◌, ◌+◌, ◌-◌, ◌^◌, ◌<◌, ◌≤◌, length, IfOk, IfSome, pos, negsuc, ◌≤ℤ◌};
ghost use Rattle.std.specs.Int.{cast_unsigned, w32};
ghost use Rattle.std.specs.Option.{option_map};
ghost use Rattle.nb_defs.specs.Commands.{number_of};
ghost use Rattle.nb_expand.specs.Numbers.{last_bytes, filled, sign_fill, signed_of, unsigned_of, printed_signed, printed_unsigned, within, signed_number_of};
ghost use Rattle.nb_expand.specs.Integers.{integer_of};
ghost use Rattle.nb_numerals.specs.Numbers.{below};

use nb_numerals::number;
use nb_settings::Kind;
use nb_terms::NoMemory;
use std::alloc::Global;

/// The number that a value is of an integer kind: its last bytes, as many as the kind has, and a shorter value
/// extended by its sign or by zeros; no bytes are 0. None of another kind.
#[tactic(auto, unfolding(crate::specs::Integers::integer_of))]
pub fn integer(kind: Kind, bytes: &[u8]) -> Option<i64>
    ensures value { result ≡ integer_of kind bytes.now }
    ensures low { IfSome result (λ n. negsuc 2147483647 ≤ℤ n) }
    ensures high { IfSome result (λ n. n ≤ℤ pos 4294967295) }
{
    match kind {
        Kind::Int8 => Some(i64::from(signed(last_bytes(1, bytes)))),
        Kind::Int16 => Some(i64::from(signed(last_bytes(2, bytes)))),
        Kind::Int32 => Some(i64::from(signed(last_bytes(4, bytes)))),
        Kind::Uint8 => Some(i64::from(unsigned(last_bytes(1, bytes)))),
        Kind::Uint16 => Some(i64::from(unsigned(last_bytes(2, bytes)))),
        Kind::Uint32 => Some(i64::from(unsigned(last_bytes(4, bytes)))),
        _ => None,
    }
}

/// A value's last bytes, at most `size`, as a number with a sign. No bytes print nothing.
pub(crate) fn print_signed(alloc: Global, size: usize, bytes: &[u8]) -> Result<Vec<u8>, NoMemory>
    requires { size ≤ 4 }
    ensures { IfOk result (λ text. text.items ≡ printed_signed size bytes.now) }
{
    if bytes.is_empty() {
        return Ok(Vec::new(alloc));
    }
    let number = signed(last_bytes(size, bytes));
    Ok(format!(in alloc; "{number}")?.into_bytes())
}

/// A value's last bytes, at most `size`, as `0x` and hexadecimal digits. No bytes print nothing.
pub(crate) fn print_unsigned(alloc: Global, size: usize, bytes: &[u8]) -> Result<Vec<u8>, NoMemory>
    requires { size ≤ 4 }
    ensures { IfOk result (λ text. text.items ≡ printed_unsigned size bytes.now) }
{
    if bytes.is_empty() {
        return Ok(Vec::new(alloc));
    }
    let number = unsigned(last_bytes(size, bytes));
    Ok(format!(in alloc; "0x{number:x}")?.into_bytes())
}

fn last_bytes(size: usize, bytes: &[u8]) -> &[u8]
    ensures value { result.now ≡ last_bytes size bytes.now }
    ensures few { length result.now ≤ size }
{
    &bytes[bytes.len().saturating_sub(size)..]
}

/// The number of big-endian bytes in two's complement.
fn signed(bytes: &[u8]) -> i32
    requires { length bytes.now ≤ 4 }
    ensures { result ≡ signed_of bytes.now }
{
    i32::from_be_bytes(filled(sign_fill(bytes), bytes))
}

/// The number of big-endian bytes.
fn unsigned(bytes: &[u8]) -> u32
    requires { length bytes.now ≤ 4 }
    ensures { result ≡ unsigned_of bytes.now }
{
    u32::from_be_bytes(filled(0, bytes))
}

/// What extends a number by its sign.
fn sign_fill(bytes: &[u8]) -> u8
    ensures { result ≡ sign_fill bytes.now }
{
    match bytes {
        [0x80..=0xff, ..] => 0xff,
        _ => 0,
    }
}

/// Four bytes, with `fill` before those that are given.
fn filled(fill: u8, bytes: &[u8]) -> [u8; 4]
    requires { length bytes.now ≤ 4 }
    ensures { result ≡ filled fill bytes.now }
{
    let mut word = [fill; 4];
    word[4 - bytes.len()..].copy_from_slice(bytes);
    word
}

/// The number that a text writes, from -`most` - 1 to `most`, in two's complement.
pub(crate) fn read_signed(text: &[u8], most: u32) -> Option<u32>
    requires { most < 2 ^ 31 }
    ensures { result
        ≡ option_map (cast_unsigned w32) (within (most + 1) (signed_number_of text.now)) }
{
    match text.strip_prefix(b"-") {
        Some(behind) => Some(read_unsigned(behind, most + 1)?.wrapping_neg()),
        None => read_unsigned(text, most),
    }
}

/// The number that a text writes, up to `most`.
pub(crate) fn read_unsigned(text: &[u8], most: u32) -> Option<u32>
    ensures { result ≡ below (most + 1) (number_of text.now) }
{
    let value = number(text)?;
    (value <= most).then_some(value)
}
