ghost use Rattle.std.specs.Prelude.{◌≡◌, ◌≤◌, length};
ghost use Rattle.nb_defs.specs.ScriptLines.{without_blanks_before, without_blanks_behind, is_nothing, trimmed, line_kind, script_line};
ghost use Rattle.nb_script.specs.ShownLine.{shown_line, HasAtMost};

use crate::line::is_label;
use crate::word::{first_byte, is_blank};

/// What stands on a line of a script, the blanks at its ends dropped.
#[derive(Clone, Copy, Debug, PartialEq, Eq)]
pub enum ScriptLine<'a> {
    /// A label, and its name: `:name` alone.
    Label(&'a [u8]),
    /// A list of commands, as it is written.
    List(&'a [u8]),
    /// An empty line, a comment, or a line that was joined to the one before it.
    Nothing,
}

/// What stands on a line.
pub fn line_of(line: &[u8]) -> ScriptLine<'_>
    ensures value { shown_line result ≡ script_line line.now }
    ensures fits { HasAtMost (length line.now) result }
{
    kind_of(without_blanks_behind(without_blanks_before(line)))
}

/// What a line is that has no blanks at its ends.
fn kind_of(line: &[u8]) -> ScriptLine<'_>
    ensures value { shown_line result ≡ line_kind line.now }
    ensures fits { HasAtMost (length line.now) result }
{
    if is_nothing(line) {
        ScriptLine::Nothing
    } else if is_label(line) {
        ScriptLine::Label(&line[1..])
    } else {
        ScriptLine::List(line)
    }
}

/// Whether a line is empty or a comment.
fn is_nothing(line: &[u8]) -> bool
    ensures { result ≡ is_nothing line.now }
{
    line.is_empty() || line[0] == b'#'
}

fn without_blanks_before(line: &[u8]) -> &[u8]
    ensures value { result.now ≡ without_blanks_before line.now }
    ensures fits { length result.now ≤ length line.now }
{
    let start = first_byte(line).unwrap_or(line.len());
    &line[start..]
}

fn without_blanks_behind(line: &[u8]) -> &[u8]
    ensures value { result.now ≡ without_blanks_behind line.now }
    ensures fits { length result.now ≤ length line.now }
{
    let mut len = line.len();
    while len > 0 && is_blank(line[len - 1]) {
        len -= 1;
    }
    &line[..len]
}
