//! The pieces of a URI.

ghost use Rattle.std.specs.Prelude.{◌≡◌, ◌+◌, ◌<◌, ◌==◌, true, position, length, slice_index, IfSome, IfNone};
ghost use Rattle.std.specs.List.{after_last};
ghost use Rattle.std.specs.Option.{option_map};
ghost use Rattle.nb_uri.specs.Pieces.{cut_at_first, is_slash, HasNoSlashFrom};

/// The bytes before the first separator, and those after it. None where there is no separator.
pub(crate) fn cut(text: &[u8], separator: u8) -> Option<(&[u8], &[u8])>
    ensures { option_map (λ pieces. (pieces.0.now, pieces.1.now)) result ≡ cut_at_first separator text.now }
{
    match first_of(text, separator) {
        Some(place) => Some((&text[..place], &text[place + 1..])),
        None => None,
    }
}

/// The same of a text.
pub(crate) fn cut_text(text: &str, separator: char) -> Option<(&str, &str)>
    requires { separator < 128 }
    ensures { option_map (λ pieces. (pieces.0.now, pieces.1.now)) result ≡ cut_at_first separator text.now }
{
    text.split_once(separator)
}

/// The place of the first separator.
fn first_of(text: &[u8], separator: u8) -> Option<usize>
    ensures place { result ≡ position (λ byte. byte == separator) text.now }
    ensures within { IfSome result (λ place. place < length text.now) }
{
    text.iter().position(|byte| *byte == separator)
}

/// What stands after a path's last `/`; all of it where there is none (RFC 3986, section 3.3: segment).
pub(crate) fn last_segment(path: &[u8]) -> &[u8]
    ensures { result.now ≡ after_last is_slash path.now }
{
    match last_slash(path) {
        Some(slash) => &path[slash + 1..],
        None => path,
    }
}

/// The place of the last `/`.
fn last_slash(path: &[u8]) -> Option<usize>
    ensures none { IfNone result (HasNoSlashFrom 0 path.now) }
    ensures within { IfSome result (λ slash. slash < length path.now) }
    ensures there { IfSome result (λ slash. is_slash (slice_index path.now slash) ≡ true) }
    ensures last { IfSome result (λ slash. HasNoSlashFrom (slash + 1) path.now) }
{
    path.iter().rposition(|byte| *byte == b'/')
}
