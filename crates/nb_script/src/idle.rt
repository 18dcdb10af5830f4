ghost use Rattle.std.specs.Prelude.{◌≡◌, ℕ, List, ◌∷◌, IfSome, None, true, false};
ghost use Rattle.nb_defs.specs.ScriptText.{line_words};
ghost use Rattle.nb_defs.specs.ScriptLines.{first_join, items, is_idle_cut, is_idle_line, is_or_join};
ghost use Rattle.nb_script.specs.Idle.{are_idle_words};
ghost use Rattle.nb_script.specs.ShownJoin.{shown_join};
ghost use Rattle.nb_script.specs.ShownLine.{shown_line};

use crate::item::has_few_words;
use crate::join::{Join, join_of};
use crate::kind::ScriptLine;
use crate::word::next_word;

/// Whether nothing is to be done on a line: it is a label, nothing, or a list that comes to nothing.
pub fn is_idle_line(line: ScriptLine<'_>) -> bool
    ensures { result ≡ is_idle_line (shown_line line.entry) }
{
    match line {
        ScriptLine::List(list) => is_idle_list(list),
        _ => true,
    }
}

/// Whether all commands of a list come to nothing. One with too many words or joins doesn't.
fn is_idle_list(line: &[u8]) -> bool
    ensures { result ≡ is_idle_cut (items line.now) }
{
    // Most lists begin with a command, and so their words needn't be counted.
    has_idle_words(line) && has_few_words(line)
}

/// Whether no word of a line is of a command that would run.
fn has_idle_words(line: &[u8]) -> bool
    ensures { result ≡ are_idle_words first_join (line_words line.now) }
{
    let mut join = Join::First;
    let mut rest = line;
    while let Some((word, behind)) = next_word(rest) {
        match join_after(join, word) {
            Some(next) => join = next,
            None => return false,
        }
        rest = behind;
    }
    true
}

/// How the command is joined that the words after this one belong to. None where this word is of a
/// command that would run.
fn join_after(join: Join, word: &[u8]) -> Option<Join>
    ensures some { IfSome result (λ next. (ws : List (List ℕ)) →
        are_idle_words (shown_join join) (word.now ∷ ws) ≡ are_idle_words (shown_join next) ws) }
    ensures none { result ≡ None → (ws : List (List ℕ)) →
        are_idle_words (shown_join join) (word.now ∷ ws) ≡ false }
{
    match join_of(word) {
        Some(next) => Some(next),
        None => same_if_or(join),
    }
}

/// This join, where it is `||`.
fn same_if_or(join: Join) -> Option<Join>
    ensures some { IfSome result (λ next. (next ≡ join) × (is_or_join (shown_join join) ≡ true)) }
    ensures none { result ≡ None → is_or_join (shown_join join) ≡ false }
{
    match join {
        Join::Or => Some(join),
        _ => None,
    }
}
