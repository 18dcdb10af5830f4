//! The key texts of a login (RFC 7143, section 6.1).

ghost use Rattle.std.specs.Prelude.{◌≡◌, ◌<◌, ◌≤◌, ◌+◌, ◌==◌, length, drop, position, IfSome, option_map};
ghost use Rattle.nb_iscsipdu.specs.KeyTexts.{key_value, value_in};

/// Texts `name=value`, with zero bytes between them.
#[derive(Clone, Copy, Drop)]
pub struct Keys<'a> {
    pub bytes: &'a [u8],
}

impl<'a> Keys<'a> {
    /// The value of the first text `name=value`. Names and values are compared with case.
    pub fn get(&self, name: &[u8]) -> Option<&'a [u8]>
        ensures { option_map (λ value. value.now) result ≡ key_value name.now self.now.bytes.now }
    {
        let mut rest = self.bytes;
        'texts: while let Some(end) = zero_at(rest) {
            if let Some(value) = value_in(&rest[..end], name) {
                return Some(value);
            }
            rest = after(rest, end);
        }
        value_in(rest, name)
    }
}

/// The place of the first zero byte.
fn zero_at(bytes: &[u8]) -> Option<usize>
    ensures place { result ≡ position (λ byte. byte == 0) bytes.now }
    ensures within { IfSome result (λ end. end < length bytes.now) }
{
    bytes.iter().position(|byte| *byte == 0)
}

/// The bytes after this place.
fn after(bytes: &[u8], place: usize) -> &[u8]
    requires { place < length bytes.now }
    ensures { result.now ≡ drop (place + 1) bytes.now }
{
    &bytes[place + 1..]
}

/// What stands after the name and `=`, where the text begins with them.
fn value_in<'a>(text: &'a [u8], name: &[u8]) -> Option<&'a [u8]>
    ensures { option_map (λ value. value.now) result ≡ value_in name.now text.now }
{
    let rest = text.strip_prefix(name)?;
    rest.strip_prefix(b"=")
}
