//! Copies of words and texts.

ghost use Rattle.std.specs.Prelude.{◌≡◌, ◌∷◌, ◌++◌, IfOk, OnOk};
ghost use Rattle.std.specs.List.{flat_map, join_with_byte};
ghost use Rattle.std.specs.Option.{option_copied};

use nb_terms::NoMemory;
use nb_wire::{Text, Word, Words};
use std::alloc::Global;

/// A copy of a text.
pub fn copy_text(alloc: Global, bytes: &[u8]) -> Result<Text, NoMemory>
    ensures { IfOk result (λ text. text ≡ bytes.now) }
{
    Ok(Text::from_vec(Vec::from_slice(alloc, bytes)?))
}

/// A copy of a word.
pub fn copy_word(alloc: Global, word: &Word) -> Result<Word, NoMemory>
    ensures { IfOk result (λ copy. copy ≡ word.now) }
{
    Ok(Word::from_vec(Vec::from_slice(alloc, word.as_slice())?))
}

/// A copy of a word, where there is one.
pub(crate) fn copy_given(alloc: Global, word: Option<&Word>) -> Result<Option<Word>, NoMemory>
    ensures { IfOk result (λ copy. copy ≡ option_copied word.entry) }
{
    match word {
        Some(word) => Ok(Some(copy_word(alloc, word)?)),
        None => Ok(None),
    }
}

/// Copies of words.
pub fn copy_words(alloc: Global, words: &[Word]) -> Result<Words, NoMemory>
    ensures { IfOk result (λ copy. copy ≡ words.now) }
{
    let mut list = Vec::new(alloc);
    for word in words {
        list.push(copy_word(alloc, word)?)?;
    }
    Ok(Words::from_vec(list))
}

/// Appends words, each after a space.
fn push_spaced(text: &mut Vec<u8>, words: &[Word]) -> Result<(), NoMemory>
    ensures { OnOk result
        (text.new.items ≡ text.old.items ++ flat_map (λ word. 32 ∷ word) words.now) }
{
    for word in words {
        text.push(b' ')?;
        text.extend_from_slice(word.as_slice())?;
    }
    Ok(())
}

/// The words, one space between each two.
#[tactic(auto, using(crate::proofs::Joining::join_spaced))]
pub fn joined(alloc: Global, words: &[Word]) -> Result<Vec<u8>, NoMemory>
    ensures { IfOk result (λ text. text.items ≡ join_with_byte 32 words.now) }
{
    let Some((first, others)) = words.split_first() else {
        return Ok(Vec::new(alloc));
    };
    let mut text = Vec::from_slice(alloc, first.as_slice())?;
    push_spaced(&mut text, others)?;
    Ok(text)
}
