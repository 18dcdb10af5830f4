//! Numbers as decimal text.

ghost use Rattle.std.specs.Prelude.{◌≡◌, ◌+◌, ◌^◌, ◌<◌, ◌≤◌};
ghost use Rattle.arrayvec.specs.ArrayVec.{array_vec_len};
ghost use Rattle.nb_tftpmsg.specs.Texts.{decimal, decimal_text};

use arrayvec::ArrayVec;

/// The number that a text of digits writes, where it is at most `most`. Zeros may stand in front.
pub(crate) fn decimal(text: &[u8], most: u32) -> Option<u32>
    ensures { result ≡ decimal (most + 1) text.now }
{
    if text.is_empty() {
        return None;
    }
    let mut value: u64 = 0;
    for byte in text {
        if !byte.is_ascii_digit() {
            return None;
        }
        value = value * 10 + u64::from(*byte - b'0');
        if value > u64::from(most) {
            return None;
        }
    }
    Some(value as u32)
}

/// The number's digits, with no zero in front.
pub(crate) fn decimal_text(number: u32) -> ArrayVec<u8, 10>
    ensures items { result.items ≡ decimal_text number }
    ensures fits { array_vec_len result ≤ 10 }
{
    let mut digits = ArrayVec::new();
    let mut rest = number;
    while rest >= 10 {
        digits.insert(0, b'0' + (rest % 10) as u8);
        rest /= 10;
    }
    digits.insert(0, b'0' + rest as u8);
    digits
}
