ghost use Rattle.std.specs.Prelude.{◌≡◌, ◌≢◌, ◌∷◌, List, Some, Ok, Err, IfOk, IsErrOf};
ghost use Rattle.nb_expand.specs.declared.token.Token.{Token};
ghost use Rattle.nb_expand.specs.Expansion.{expansion_answer, expanded};
ghost use Rattle.nb_expand.specs.Gathering.{answer_from};
ghost use Rattle.nb_expand.specs.Values.{named_text};

use crate::ExpandError;
use crate::gathered::Gathered;
use crate::token::{Token, next_token};
use crate::values::named_text;
use nb_settings::Table;
use nb_wire::{MAX_WORD, Word};
use std::alloc::Global;

/// A word with each `${name}` replaced by its setting's value as text, from the left and from the
/// inside out. A `}` by itself is a character, and so is a `${` that is never closed.
pub fn expand(alloc: Global, text: &[u8], table: &Table) -> Result<Word, ExpandError>
    ensures value { IfOk result (λ word. expanded (named_text table.now) text.now ≡ Ok word) }
    // A name outside the grammar goes before a word of over 4,096 bytes.
    ensures bad_name { IsErrOf result ExpandError.BadName
        → expanded (named_text table.now) text.now ≡ Err ExpandError.BadName }
    ensures too_long { IsErrOf result ExpandError.TooLong
        → expanded (named_text table.now) text.now ≡ Err ExpandError.TooLong }
{
    let mut gathered = Gathered::new(alloc);
    let mut rest = text;
    while let Some((token, behind)) = next_token(rest) {
        gathered = after(alloc, gathered, token, table)?;
        rest = behind;
    }
    word_of(gathered.into_text())
}

/// What is gathered after one token more.
fn after(
    alloc: Global,
    gathered: Gathered,
    token: Token,
    table: &Table,
) -> Result<Gathered, ExpandError>
    ensures same { IfOk result (λ new. (rest : List Token) →
        answer_from (named_text table.now) gathered (token ∷ rest)
        ≡ answer_from (named_text table.now) new rest) }
    ensures bad_name { IsErrOf result ExpandError.BadName → (rest : List Token) →
        answer_from (named_text table.now) gathered (token ∷ rest) ≡ Err ExpandError.BadName }
    ensures any_length { result ≢ Err ExpandError.TooLong }
{
    match token {
        Token::Open => Ok(gathered.opened()?),
        Token::Close if gathered.is_open() => {
            let value = named_text(alloc, gathered.inner(), table)?;
            Ok(gathered.closed().with(value.as_slice())?)
        }
        Token::Close => Ok(gathered.with(b"}")?),
        Token::Byte(byte) => Ok(gathered.with([byte].as_slice())?),
    }
}

fn word_of(text: Vec<u8>) -> Result<Word, ExpandError>
    ensures value { IfOk result (λ word. expansion_answer (Some text.items) ≡ Ok word) }
    ensures bad_name { result ≢ Err ExpandError.BadName }
    ensures too_long { IsErrOf result ExpandError.TooLong
        → expansion_answer (Some text.items) ≡ Err ExpandError.TooLong }
{
    if text.len() > MAX_WORD {
        return Err(ExpandError::TooLong);
    }
    Ok(Word::from_vec(text))
}
