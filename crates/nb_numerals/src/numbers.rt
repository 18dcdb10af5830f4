ghost use Rattle.std.specs.Prelude.{◌≡◌, ◌^◌, ◌≤◌};
ghost use Rattle.std.specs.Char.{is_digit};
ghost use Rattle.std.specs.List.{list_all};
ghost use Rattle.nb_defs.specs.Commands.{number_of};
ghost use Rattle.nb_numerals.specs.Numbers.{below, digits_number, decimal_number};

use std::str;

/// The number that a text writes: decimal digits without leading zeros, or `0x` and hexadecimal
/// digits. None where it is over 32 bits.
pub fn number(text: &[u8]) -> Option<u32>
    ensures { result ≡ below (2 ^ 32) (number_of text.now) }
{
    match text.strip_prefix(b"0x") {
        Some(behind) => digits(behind, 16),
        None => decimal(text),
    }
}

/// The number of decimal digits without leading zeros. None where it is over 32 bits.
pub fn decimal(text: &[u8]) -> Option<u32>
    ensures { result ≡ below (2 ^ 32) (decimal_number text.now) }
{
    if text.len() > 1 && text[0] == b'0' {
        return None;
    }
    digits(text, 10)
}

/// The value of digits in a base. None where one is no digit, there is none, or it is over 32 bits.
fn digits(text: &[u8], base: u32) -> Option<u32>
    requires low { 2 ≤ base }
    requires high { base ≤ 16 }
    ensures { result ≡ below (2 ^ 32) (digits_number base text.now) }
{
    // `from_str_radix` reads a sign too.
    if !are_digits(text, base) {
        return None;
    }
    u32::from_str_radix(str::from_utf8(text).ok()?, base).ok()
}

fn are_digits(text: &[u8], base: u32) -> bool
    requires low { 2 ≤ base }
    requires high { base ≤ 16 }
    ensures { result ≡ list_all (λ c. is_digit c base) text.now }
{
    text.iter().all(|byte| char::from(*byte).is_digit(base))
}
