ghost use Rattle.std.specs.Prelude.{◌≡◌, ◌∷◌, [], ◌<◌, length, IfSome, MatchOption};
ghost use Rattle.nb_expand.specs.Expansion.{tokens, token_of};

/// A part of a text that isn't expanded yet.
#[derive(Clone, Copy)]
pub(crate) enum Token {
    /// `${`
    Open,
    /// `}`
    Close,
    /// Any other byte.
    Byte(u8),
}

/// The first token of a text, and what stands after it. None at the text's end.
pub(crate) fn next_token(text: &[u8]) -> Option<(Token, &[u8])>
    ensures value { MatchOption result (tokens text.now ≡ [])
        (λ next. tokens text.now ≡ next.0 ∷ tokens next.1.now) }
    ensures shorter { IfSome result (λ next. length next.1.now < length text.now) }
{
    match text {
        [] => None,
        [b'$', b'{', behind @ ..] => Some((Token::Open, behind)),
        [byte, behind @ ..] => Some((alone(*byte), behind)),
    }
}

/// A byte by itself.
fn alone(byte: u8) -> Token
    ensures { result ≡ token_of byte }
{
    match byte {
        b'}' => Token::Close,
        _ => Token::Byte(byte),
    }
}
