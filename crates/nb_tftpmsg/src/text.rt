//! Texts that end in a zero byte.

ghost use Rattle.std.specs.Prelude.{◌≡◌, ◌<◌, ◌==◌, position, length, IfSome};
ghost use Rattle.std.specs.Option.{option_map};
ghost use Rattle.nb_tftpmsg.specs.Texts.{text_at, text_before};

/// The bytes before the first zero byte, and those after it.
pub(crate) fn text_at(bytes: &[u8]) -> Option<(&[u8], &[u8])>
    ensures { option_map (λ found. (found.0.now, found.1.now)) result ≡ text_at bytes.now }
{
    match zero_at(bytes) {
        Some(end) => Some((&bytes[..end], &bytes[end + 1..])),
        None => None,
    }
}

/// The bytes before the first zero byte, or all of them where there is none.
pub(crate) fn text_before(bytes: &[u8]) -> &[u8]
    ensures { result.now ≡ text_before bytes.now }
{
    match text_at(bytes) {
        Some((text, _)) => text,
        None => bytes,
    }
}

/// The place of the first zero byte.
fn zero_at(bytes: &[u8]) -> Option<usize>
    ensures place { result ≡ position (λ byte. byte == 0) bytes.now }
    ensures within { IfSome result (λ end. end < length bytes.now) }
{
    bytes.iter().position(|byte| *byte == 0)
}
