//! Blocks of lines up to an empty one (RFC 9112, section 2).

ghost use Rattle.std.specs.Prelude.{◌≡◌, ◌≤◌, ◌<◌, length, take, drop, IfSome};
ghost use Rattle.std.specs.Option.{option_map};
ghost use Rattle.nb_responses.specs.Lines.{first_line, is_empty, first_block};
ghost use Rattle.nb_httpmsg.specs.Blocks.{block_to, EndsWithin};

/// Where the first block of a text ends.
#[derive(Clone, Copy)]
pub(crate) enum BlockEnd {
    /// After so many bytes.
    Whole(usize),
    /// No empty line has come.
    Unfinished,
    /// There are too many lines without an empty one.
    Crowded,
}

/// Where the first block ends, among so many lines.
pub(crate) fn find_block(most: usize, text: &[u8]) -> BlockEnd
    ensures block { first_block most text.now ≡ block_to text.now result }
    ensures within { EndsWithin (length text.now) result }
{
    let mut at = 0;
    for _line in 0..most {
        let rest = &text[at..];
        let len = match line_len(rest) {
            Some(len) => len,
            None => return BlockEnd::Unfinished,
        };
        at += len;
        if is_empty_line(&rest[..len]) {
            return BlockEnd::Whole(at);
        }
    }
    BlockEnd::Crowded
}

/// The length of the first line, with its LF.
pub(crate) fn line_len(text: &[u8]) -> Option<usize>
    ensures line { first_line text.now
        ≡ option_map (λ n. record { line = take n text.now; rest = drop n text.now }) result }
    ensures within { IfSome result (λ n. n ≤ length text.now) }
    ensures some { IfSome result (λ n. 0 < n) }
{
    for (i, b) in text.iter().enumerate() {
        if *b == b'\n' {
            return Some(i + 1);
        }
    }
    None
}

/// LF, or CR LF.
fn is_empty_line(line: &[u8]) -> bool
    ensures { result ≡ is_empty line.now }
{
    match line {
        [end] => *end == b'\n',
        [first, end] => *first == b'\r' && *end == b'\n',
        _ => false,
    }
}
