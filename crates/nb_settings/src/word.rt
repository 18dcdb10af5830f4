ghost use Rattle.std.specs.Prelude.{◌≡◌, ◌<◌, ◌≤◌, ◌↔◌, IsTrue, slice_index, option_map};
ghost use Rattle.std.specs.Char.{is_ascii_digit};
ghost use Rattle.std.specs.List.{list_all};
ghost use Rattle.nb_settings.specs.Keys.{key_of};
ghost use Rattle.nb_settings.specs.Names.{is_word, is_word_byte, is_block_name, number_read, key_read};

use crate::Key;
use crate::cut::cut_at;
use crate::listed::key_named;
use std::str::from_utf8;

/// The most bytes of a word.
const MAX_WORD: usize = 63;

/// The highest number of an option.
const MAX_NUMBER: u8 = 254;

/// The key that a text spells.
#[tactic(auto, unfolding(crate::specs::Names::key_read))]
pub fn key(text: &[u8]) -> Option<Key<'_>>
    ensures { option_map key_of result ≡ key_read text.now }
{
    if let Some((outer, inner)) = cut_at(b'.', text) {
        return Some(Key::Sub(number(outer)?, number(inner)?));
    }
    if let Some(tag) = number(text) {
        return Some(Key::Tag(tag));
    }
    if is_word(text) {
        Some(key_named(text))
    } else {
        None
    }
}

/// Whether a text is a block's name.
#[tactic(auto, unfolding(crate::specs::Names::is_block_name))]
pub fn is_block_name(text: &[u8]) -> bool
    ensures { result ≡ is_block_name text.now }
{
    match cut_at(b'.', text) {
        Some((first, second)) => is_word(first) && is_word(second),
        None => is_word(text),
    }
}

#[tactic(auto, unfolding(crate::specs::Names::is_word))]
fn is_word(text: &[u8]) -> bool
    ensures { result ≡ is_word text.now }
{
    !text.is_empty() && text.len() <= MAX_WORD && has_word_bytes(text) && !has_digits_alone(text)
}

fn has_word_bytes(text: &[u8]) -> bool
    ensures { result ≡ list_all is_word_byte text.now }
{
    text.iter().all(|b| is_word_byte(*b))
}

fn has_digits_alone(text: &[u8]) -> bool
    ensures { result ≡ list_all is_ascii_digit text.now }
{
    text.iter().all(|b| b.is_ascii_digit())
}

fn is_word_byte(byte: u8) -> bool
    ensures { result ≡ is_word_byte byte }
{
    byte.is_ascii_alphanumeric() || byte == b'-' || byte == b'_'
}

/// The number 1 to 254 that a text writes, without leading zeros.
fn number(text: &[u8]) -> Option<u8>
    ensures { result ≡ number_read text.now }
{
    if !begins_with_digit(text) {
        return None;
    }
    let text = from_utf8(text).ok()?;
    let number = text.parse::<u8>().ok()?;
    if number <= MAX_NUMBER {
        Some(number)
    } else {
        None
    }
}

/// Whether a text begins with a digit other than zero.
fn begins_with_digit(text: &[u8]) -> bool
    ensures { IsTrue result ↔ ((48 < slice_index text.now 0) × (slice_index text.now 0 ≤ 57)) }
{
    matches!(text, [b'1'..=b'9', ..])
}
