ghost use Rattle.std.specs.Prelude.{◌≡◌, ◌&&◌, length, nat_eq, nat_lt, codes, position};
ghost use Rattle.std.specs.List.{list_all, starts_with};
ghost use Rattle.nb_defs.specs.ScriptText.{is_line_feed, is_blank, without_cr, ends_in_backslash, is_first_line, begins_script, pieces, is_label};

use crate::word::{cut_word, is_blank};

/// Where the first line feed stands.
pub fn line_feed(text: &[u8]) -> Option<usize>
    ensures { result ≡ position is_line_feed text.now }
{
    text.iter().position(|b| *b == b'\n')
}

/// A line less one carriage return at its end, where one stands there.
pub fn without_cr(line: &[u8]) -> &[u8]
    ensures { result.now ≡ without_cr line.now }
{
    line.strip_suffix(b"\r").unwrap_or(line)
}

/// Whether a backslash stands at a line's end.
pub fn ends_in_backslash(line: &[u8]) -> bool
    ensures { result ≡ ends_in_backslash line.now }
{
    line.ends_with(b"\\")
}

/// Whether a text's first line is `#!ipxe`, with blanks and then at most one carriage return after it.
pub fn begins_script(text: &[u8]) -> bool
    ensures { result ≡ begins_script (pieces is_line_feed text.now) }
{
    // A kernel may have no line feed in many megabytes: only what begins as a script is searched for one.
    if !text.starts_with(b"#!ipxe") {
        return false;
    }
    match line_feed(text) {
        Some(end) => is_first_line(&text[..end]),
        None => is_first_line(text),
    }
}

fn is_first_line(line: &[u8]) -> bool
    ensures { result ≡ is_first_line line.now }
{
    match line.strip_prefix(b"#!ipxe") {
        Some(behind) => are_blank(without_cr(behind)),
        None => false,
    }
}

fn are_blank(line: &[u8]) -> bool
    ensures { result ≡ list_all is_blank line.now }
{
    line.iter().all(|b| is_blank(*b))
}

/// Whether a word is a colon and a name.
fn is_label_name(word: &[u8]) -> bool
    ensures { result ≡ (starts_with nat_eq word.now (codes ":") && nat_lt 1 (length word.now)) }
{
    word.starts_with(b":") && word.len() > 1
}

/// Whether a line is a label: a colon and a name, alone.
pub fn is_label(line: &[u8]) -> bool
    ensures { result ≡ is_label line.now }
{
    match cut_word(line) {
        Some((word, rest)) => is_label_name(word) && cut_word(rest).is_none(),
        None => false,
    }
}
