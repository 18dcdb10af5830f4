ghost use Rattle.std.specs.Prelude.{◌≡◌, ◌≤◌, ◌↔◌, Ok, Err, IfOk, IsErrOf, IsTrue, length, sum_by};
ghost use Rattle.nb_expand.specs.Expansion.{expanded};
ghost use Rattle.nb_expand.specs.Values.{named_text};
ghost use Rattle.nb_expand.specs.WordsExpansion.{expanded_each, expanded_words};

use crate::ExpandError;
use crate::expansion::expand;
use nb_settings::Table;
use nb_wire::{MAX_WORD, Word, Words};
use std::alloc::Global;

/// The words of a command, each expanded as `expand` does. Together they have at most 4,096 bytes.
#[tactic(auto, unfolding(crate::specs::WordsExpansion::expanded_words))]
pub fn expand_words(alloc: Global, words: &[Word], table: &Table) -> Result<Words, ExpandError>
    ensures value { IfOk result
        (λ list. expanded_words (named_text table.now) words.now ≡ Ok list) }
    // The first word that is refused goes before words of over 4,096 bytes.
    ensures bad_name { IsErrOf result ExpandError.BadName
        → expanded_words (named_text table.now) words.now ≡ Err ExpandError.BadName }
    ensures too_long { IsErrOf result ExpandError.TooLong
        → expanded_words (named_text table.now) words.now ≡ Err ExpandError.TooLong }
    ensures count { IfOk result (λ list. length list ≡ length words.now) }
    ensures small { IfOk result (λ list. sum_by length list ≤ 4096) }
{
    let list = expand_each(alloc, words, table)?;
    if !are_short(list.as_slice()) {
        return Err(ExpandError::TooLong);
    }
    Ok(Words::from_vec(list))
}

fn expand_each(alloc: Global, words: &[Word], table: &Table) -> Result<Vec<Word>, ExpandError>
    ensures value { IfOk result
        (λ list. expanded_each (named_text table.now) words.now ≡ Ok list.items) }
    ensures bad_name { IsErrOf result ExpandError.BadName
        → expanded_each (named_text table.now) words.now ≡ Err ExpandError.BadName }
    ensures too_long { IsErrOf result ExpandError.TooLong
        → expanded_each (named_text table.now) words.now ≡ Err ExpandError.TooLong }
    ensures count { IfOk result (λ list. length list.items ≡ length words.now) }
{
    let mut list = Vec::new(alloc);
    for word in words {
        list.push(expand_word(alloc, word, table)?)?;
    }
    Ok(list)
}

/// The word expanded. One without `$` is its own expansion.
fn expand_word(alloc: Global, word: &Word, table: &Table) -> Result<Word, ExpandError>
    ensures value { IfOk result
        (λ new. expanded (named_text table.now) word.now ≡ Ok new) }
    ensures bad_name { IsErrOf result ExpandError.BadName
        → expanded (named_text table.now) word.now ≡ Err ExpandError.BadName }
    ensures too_long { IsErrOf result ExpandError.TooLong
        → expanded (named_text table.now) word.now ≡ Err ExpandError.TooLong }
{
    let text = word.as_slice();
    if text.contains(&b'$') {
        return expand(alloc, text, table);
    }
    Ok(Word::from_vec(Vec::from_slice(alloc, text)?))
}

/// Whether words have at most 4,096 bytes together.
fn are_short(words: &[Word]) -> bool
    ensures { IsTrue result ↔ (sum_by length words.now ≤ 4096) }
{
    let mut room = MAX_WORD;
    for word in words {
        match room.checked_sub(word.len()) {
            Some(rest) => room = rest,
            None => return false,
        }
    }
    true
}
