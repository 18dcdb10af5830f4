ghost use Rattle.std.specs.Prelude.{◌≡◌, None, true, false, IfSome};
ghost use Rattle.nb_defs.specs.ScriptText.{is_join};
ghost use Rattle.nb_defs.specs.ScriptLines.{join_of};
ghost use Rattle.nb_script.specs.ShownJoin.{shown_join};

/// How a command is joined to the one before it.
#[derive(Clone, Copy, Debug, PartialEq, Eq)]
pub enum Join {
    /// It is the first.
    First,
    /// `&&`: it runs where the last result is Ok.
    And,
    /// `||`: it runs where the last result isn't Ok.
    Or,
    /// `;`: it runs always.
    Then,
}

/// The join that a word is.
pub fn join_of(word: &[u8]) -> Option<Join>
    ensures none { result ≡ None → is_join word.now ≡ false }
    ensures some { IfSome result (λ j. (is_join word.now ≡ true) × (shown_join j ≡ join_of word.now)) }
{
    if word == b"&&".as_slice() {
        Some(Join::And)
    } else if word == b"||".as_slice() {
        Some(Join::Or)
    } else if word == b";".as_slice() {
        Some(Join::Then)
    } else {
        None
    }
}

/// Whether a word joins two commands.
pub fn is_join(word: &[u8]) -> bool
    ensures { result ≡ is_join word.now }
{
    join_of(word).is_some()
}
