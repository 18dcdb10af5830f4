//! A name as it is written.

ghost use Rattle.std.specs.Prelude.{◌≡◌, ◌<◌, ◌≤◌, ◌+◌, ◌==◌, ◌∷◌, ◌++◌, length, MatchBool, position, IfSome};
ghost use Rattle.nb_dnsmsg.specs.Names.{IsLabel};
ghost use Rattle.nb_dns.specs.WrittenNames.{without_final_dot, is_lookup_name};
ghost use Rattle.nb_dns.specs.Steps.{IsCutAt, IsWireName};

use arrayvec::ArrayVec;

/// The most bytes of a name as it is written, without a dot at its end: on the wire it has two more, and at
/// most 255 (RFC 1035, section 2.3.4).
const MAX_NAME: usize = 253;

/// The most bytes of a label.
const MAX_LABEL: usize = 63;

/// What a written name begins with.
#[derive(Drop)]
pub(crate) enum Cut<'a> {
    /// A label, a dot, and the rest.
    Label(&'a [u8], &'a [u8]),
    /// The last label.
    Last(&'a [u8]),
}

/// The text is a name that can be looked up: its labels have 1 to 63 bytes, and without a dot at its end it
/// has at most 253 (RFC 1035, section 2.3.4).
pub fn is_name(text: &[u8]) -> bool
    ensures { result ≡ is_lookup_name text.now }
{
    match wire_name(text) {
        Some(_) => true,
        None => false,
    }
}

/// The text on the wire of a name as it is written. None where a label is empty, one dot at the end aside,
/// or has over 63 bytes, or the name over 253.
pub(crate) fn wire_name(text: &[u8]) -> Option<ArrayVec<u8, 255>>
    ensures { IsWireName result text.now }
{
    let mut rest = without_final_dot(text);
    if rest.len() > MAX_NAME {
        return None;
    }
    let mut name = ArrayVec::new();
    'labels: loop {
        match first_label(rest) {
            Cut::Label(label, more) => {
                if !put_label(&mut name, label) {
                    return None;
                }
                rest = more;
            }
            Cut::Last(label) => {
                if !put_label(&mut name, label) {
                    return None;
                }
                name.push(0);
                return Some(name);
            }
        }
    }
}

/// Puts a label after its length. False where it has no byte or too many.
fn put_label(name: &mut ArrayVec<u8, 255>, label: &[u8]) -> bool
    requires { length name.old.items + (1 + length label.now) ≤ 254 }
    ensures { MatchBool result (IsLabel label.now × (name.new.items ≡ name.old.items ++ (length label.now ∷ label.now))) (IsLabel label.now → ⊥) }
{
    if label.is_empty() || label.len() > MAX_LABEL {
        return false;
    }
    name.push(label.len() as u8);
    let _ = name.try_extend_from_slice(label);
    true
}

/// What stands before the first dot, and after it.
fn first_label(text: &[u8]) -> Cut<'_>
    ensures { IsCutAt result text.now }
{
    match first_dot(text) {
        Some(dot) => Cut::Label(&text[..dot], &text[dot + 1..]),
        None => Cut::Last(text),
    }
}

fn first_dot(text: &[u8]) -> Option<usize>
    ensures place { result ≡ position (λ byte. byte == 46) text.now }
    ensures within { IfSome result (λ dot. dot < length text.now) }
{
    text.iter().position(|byte| *byte == b'.')
}

/// The text without a dot at its end.
fn without_final_dot(text: &[u8]) -> &[u8]
    ensures { result.now ≡ without_final_dot text.now }
{
    if !text.is_empty() && text[text.len() - 1] == b'.' {
        return &text[..text.len() - 1];
    }
    text
}
