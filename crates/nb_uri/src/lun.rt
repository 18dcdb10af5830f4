//! Logical units as text (RFC 4173, section 5).

ghost use Rattle.std.specs.Prelude.{◌≡◌, ℕ, ◌==◌, ◌∷◌, [], suc, length, Some, None, if◌then◌else◌};
ghost use Rattle.std.specs.Int.{to_be_bytes, w16};
ghost use Rattle.std.specs.List.{flat_map};
ghost use Rattle.std.specs.Option.{option_map, option_and_then, option_copied};
ghost use Rattle.nb_uri.specs.IscsiNames.{iscsi_lun, lun_groups, lun_word, lun_words};

use crate::digits::word_number;
use crate::pieces::cut_text;

/// The logical unit that a text writes: nothing is 0, else one to four groups of hexadecimal digits, with
/// hyphens between them, are its words from the left.
pub(crate) fn lun(text: &str) -> Option<[u8; 8]>
    ensures { result ≡ iscsi_lun text.now }
{
    let first = next_word(groups(text))?;
    let second = next_word(first.rest)?;
    let third = next_word(second.rest)?;
    let fourth = next_word(third.rest)?;
    if fourth.rest.is_some() {
        return None;
    }
    Some(bytes(first.value, second.value, third.value, fourth.value))
}

/// The text of the groups, if there is one.
fn groups(text: &str) -> Option<&str>
    ensures { option_copied result ≡ (if length text.now == 0 then None else Some text.now) }
{
    if text.is_empty() { None } else { Some(text) }
}

/// A word of a logical unit, and the text of the groups after it.
#[derive(Clone, Copy, Drop)]
struct LunWord<'a> {
    value: u16,
    rest: Option<&'a str>,
}

/// The word of the first group, 0 where none is left.
fn next_word(rest: Option<&str>) -> Option<LunWord<'_>>
    ensures { (count : ℕ) → lun_words (suc count) (lun_groups (option_copied rest.entry))
        ≡ option_and_then (λ word. option_map (λ words. word.value ∷ words) (lun_words count (lun_groups (option_copied word.rest)))) result }
{
    match rest {
        Some(text) => first_word(text),
        None => Some(LunWord {
            value: 0,
            rest: None,
        }),
    }
}

fn first_word(text: &str) -> Option<LunWord<'_>>
    ensures { (count : ℕ) → lun_words (suc count) (lun_groups (Some text.now))
        ≡ option_and_then (λ word. option_map (λ words. word.value ∷ words) (lun_words count (lun_groups (option_copied word.rest)))) result }
{
    match cut_text(text, '-') {
        Some((group, rest)) => Some(LunWord {
            value: lun_word(group)?,
            rest: Some(rest),
        }),
        None => Some(LunWord {
            value: lun_word(text)?,
            rest: None,
        }),
    }
}

/// One to four hexadecimal digits.
fn lun_word(group: &str) -> Option<u16>
    ensures { result ≡ lun_word group.now }
{
    if group.len() > 4 {
        return None;
    }
    word_number(group, 16)
}

/// The bytes of four words, the highest first.
fn bytes(first: u16, second: u16, third: u16, fourth: u16) -> [u8; 8]
    ensures { result ≡ flat_map (to_be_bytes w16) (first ∷ second ∷ third ∷ fourth ∷ []) }
{
    let [a, b] = first.to_be_bytes();
    let [c, d] = second.to_be_bytes();
    let [e, f] = third.to_be_bytes();
    let [g, h] = fourth.to_be_bytes();
    [a, b, c, d, e, f, g, h]
}
