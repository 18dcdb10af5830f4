ghost use Rattle.std.specs.Prelude.{◌≡◌, ◌+◌, ◌≤◌, ◌<◌, ◌∷◌, [], length, IfSome, position, not};
ghost use Rattle.std.specs.List.{position_or_len};
ghost use Rattle.nb_defs.specs.ScriptText.{all_words, line_words, is_blank};

/// The most words that a line may have, and the most joins.
pub const MAX_WORDS: usize = 64;

/// Whether a byte is a blank: a space or a tab.
pub fn is_blank(byte: u8) -> bool
    ensures { result ≡ is_blank byte }
{
    byte == b' ' || byte == b'\t'
}

/// The first word of a line and what stands after it. None where there are only blanks.
pub fn cut_word(line: &[u8]) -> Option<(&[u8], &[u8])>
    ensures none { result ≡ None → all_words line.now ≡ [] }
    ensures some { IfSome result (λ cut. all_words line.now ≡ cut.0.now ∷ all_words cut.1.now) }
    ensures sizes { IfSome result
        (λ cut. length cut.0.now + length cut.1.now ≤ length line.now) }
    ensures some_byte { IfSome result (λ cut. 0 < length cut.0.now) }
{
    let start = first_byte(line)?;
    let line = &line[start..];
    let (word, rest) = line.split_at(word_len(line));
    Some((word, rest))
}

/// Where the first byte stands that is no blank.
pub fn first_byte(line: &[u8]) -> Option<usize>
    ensures { result ≡ position (λ b. not (is_blank b)) line.now }
{
    line.iter().position(|b| !is_blank(*b))
}

/// Where the first blank stands.
fn first_blank(line: &[u8]) -> Option<usize>
    ensures { result ≡ position is_blank line.now }
{
    line.iter().position(|b| is_blank(*b))
}

/// How many bytes stand before the first blank.
fn word_len(line: &[u8]) -> usize
    ensures value { result ≡ position_or_len is_blank line.now }
    ensures bound { result ≤ length line.now }
{
    first_blank(line).unwrap_or(line.len())
}

/// The next word that isn't in a comment, and what stands after it.
pub fn next_word(line: &[u8]) -> Option<(&[u8], &[u8])>
    ensures none { result ≡ None → line_words line.now ≡ [] }
    ensures some { IfSome result (λ cut. line_words line.now ≡ cut.0.now ∷ line_words cut.1.now) }
    ensures sizes { IfSome result
        (λ cut. length cut.0.now + length cut.1.now ≤ length line.now) }
    ensures some_byte { IfSome result (λ cut. 0 < length cut.0.now) }
{
    let (word, rest) = cut_word(line)?;
    if word.starts_with(b"#") {
        return None;
    }
    Some((word, rest))
}
