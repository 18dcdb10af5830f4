//! Decimals of any length (RFC 9110, section 8.6).

ghost use Rattle.std.specs.Prelude.{◌≡◌, ◌≢◌, ◌-◌, ◌^◌, ◌==◌, true, length, min, slice_index};
ghost use Rattle.std.specs.List.{list_all};
ghost use Rattle.std.specs.Char.{is_ascii_digit};
ghost use Rattle.std.specs.Str.Parse.{digits_value};
ghost use Rattle.nb_responses.specs.Heads.{is_decimal, has_decimal_value};

/// Whether each byte is a digit.
fn are_digits(text: &[u8]) -> bool
    ensures { result ≡ list_all is_ascii_digit text.now }
{
    text.iter().all(|b| b.is_ascii_digit())
}

/// Whether it is at least one digit and nothing else.
pub(crate) fn is_decimal(text: &[u8]) -> bool
    ensures { result ≡ is_decimal text.now }
{
    if text.is_empty() {
        return false;
    }
    are_digits(text)
}

/// The digits from the first on that isn't 0.
fn significant(digits: &[u8]) -> &[u8]
    requires { list_all is_ascii_digit digits.now ≡ true }
    ensures value { digits_value 10 result.now ≡ digits_value 10 digits.now }
    ensures digits { list_all is_ascii_digit result.now ≡ true }
    ensures first { slice_index result.now 0 ≢ 48 }
{
    for (i, b) in digits.iter().enumerate() {
        if *b != b'0' {
            return &digits[i..];
        }
    }
    &digits[digits.len()..]
}

/// Whether a text is a decimal of the same number, however long both are.
pub(crate) fn is_same_number(text: &[u8], number: &[u8]) -> bool
    requires { is_decimal number.now ≡ true }
    ensures { result ≡ has_decimal_value (digits_value 10 number.now) text.now }
{
    if !is_decimal(text) {
        return false;
    }
    significant(text) == significant(number)
}

/// The number, or the largest u64 where it is larger.
pub(crate) fn saturated(digits: &[u8]) -> u64
    requires { list_all is_ascii_digit digits.now ≡ true }
    ensures { result ≡ min (digits_value 10 digits.now) (2 ^ 64 - 1) }
{
    let mut number: u64 = 0;
    for b in digits {
        number = number
            .saturating_mul(10)
            .saturating_add(u64::from(*b - b'0'));
    }
    number
}
