//! Numbers of 16 bits as text.

ghost use Rattle.std.specs.Prelude.{◌≡◌, ◌≤◌};
ghost use Rattle.std.specs.Char.{is_digit};
ghost use Rattle.std.specs.List.{list_all};
ghost use Rattle.nb_uri.specs.IscsiNames.{word_number};

/// The number that digits write. None where one is no digit of the base, there is none, or 16 bits don't
/// hold it. Leading zeros are read.
pub(crate) fn word_number(text: &str, base: u32) -> Option<u16>
    requires low { 2 ≤ base }
    requires high { base ≤ 16 }
    ensures { result ≡ word_number base text.now }
{
    // `from_str_radix` reads a sign too.
    if !are_digits(text.as_bytes(), base) {
        return None;
    }
    u16::from_str_radix(text, base).ok()
}

fn are_digits(text: &[u8], base: u32) -> bool
    requires low { 2 ≤ base }
    requires high { base ≤ 16 }
    ensures { result ≡ list_all (λ d. is_digit d base) text.now }
{
    text.iter().all(|byte| char::from(*byte).is_digit(base))
}
