//! The words after a command's name, and the numbers that they write.

ghost use Rattle.std.specs.Prelude.{◌≡◌, ◌+◌, ◌^◌, Some, pos, neg_ℤ, codes};
ghost use Rattle.std.specs.Option.{option_copied};
ghost use Rattle.std.specs.Str.{bytes_eq};
ghost use Rattle.nb_defs.specs.Commands.{is_option, begins_with_option, number_of};
ghost use Rattle.nb_numerals.specs.Numbers.{below};
ghost use Rattle.nb_expand.specs.Numbers.{within, signed_number_of};
ghost use Rattle.nb_command.specs.Plans.{one_word};

use nb_numerals::number;
use nb_wire::Word;

/// Whether a word in option place is an option.
pub(crate) fn is_option(word: &Word) -> bool
    ensures { result ≡ is_option word.now }
{
    word.as_slice().starts_with(b"--".as_slice())
}

pub(crate) fn is_minus_n(word: &Word) -> bool
    ensures { result ≡ bytes_eq word.now (codes "-n") }
{
    word.as_slice() == b"-n".as_slice()
}

/// Whether the first word is `-n` or an option.
pub(crate) fn begins_with_option(words: &[Word]) -> bool
    ensures { result ≡ begins_with_option words.now }
{
    match words.first() {
        Some(word) => is_minus_n(word) || is_option(word),
        None => false,
    }
}

/// The only word, which is no option. None where there are fewer or more.
pub(crate) fn one_word(words: &[Word]) -> Option<&Word>
    ensures { option_copied result ≡ one_word words.now }
{
    match words {
        [word] if !is_option(word) => Some(word),
        _ => None,
    }
}

/// The number that a word writes, from 0 to `most`.
pub(crate) fn number_to(most: u32, word: &Word) -> Option<u32>
    ensures { result ≡ below (most + 1) (number_of word.now) }
{
    let value = number(word.as_slice())?;
    (value <= most).then_some(value)
}

/// The number that a word writes, `-` before it where it is negative.
pub(crate) fn signed_number(word: &Word) -> Option<i32>
    ensures { result ≡ within (2 ^ 31) (signed_number_of word.now) }
{
    match word.as_slice().strip_prefix(b"-") {
        Some(digits) => negative(number(digits)?),
        None => positive(number(word.as_slice())?),
    }
}

fn positive(n: u32) -> Option<i32>
    ensures { result ≡ within (2 ^ 31) (Some (pos n)) }
{
    i32::try_from(n).ok()
}

fn negative(n: u32) -> Option<i32>
    ensures { result ≡ within (2 ^ 31) (Some (neg_ℤ (pos n))) }
{
    i32::try_from(-i64::from(n)).ok()
}
