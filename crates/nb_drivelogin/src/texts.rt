//! The texts that settings are.

ghost use Rattle.std.specs.Prelude.{◌≡◌, ◌≤◌, ◌<◌, ◌==◌, [], length, position, IfOk, IfSome};
ghost use Rattle.nb_dhcpmsg.specs.Fields.{up_to_zero};
ghost use Rattle.nb_settings.specs.Keys.{key_of};
ghost use Rattle.nb_drivelogin.specs.DriveLogins.{setting_text};

use nb_imagecmd::copy_text;
use nb_settings::{Key, Table};
use nb_terms::NoMemory;
use nb_wire::Text;
use std::alloc::Global;

/// The setting of the client's host name, an option of RFC 2132.
pub(crate) const HOST_NAME: Key<'static> = Key::Tag(12);

/// The bytes of a setting, whichever block has it. Of one that isn't set there are none.
pub(crate) fn setting_text(alloc: Global, key: &Key<'_>, table: &Table) -> Result<Text, NoMemory>
    ensures value { IfOk result (λ text. text ≡ setting_text (key_of key.now) table.now) }
    ensures short { IfOk result (λ text. length text ≤ 1024) }
{
    match table.find(None, key) {
        Some(value) => copy_text(alloc, value.bytes),
        None => no_text(alloc),
    }
}

/// A text without bytes.
pub(crate) fn no_text(alloc: Global) -> Result<Text, NoMemory>
    ensures { IfOk result (λ text. text ≡ []) }
{
    Ok(Text::from_vec(Vec::new(alloc)))
}

/// A name as it is sent: what stands before its first zero byte, which ends a key's text (RFC 7143, section 6.1).
pub(crate) fn sent_name(alloc: Global, name: &Text) -> Result<Text, NoMemory>
    ensures value { IfOk result (λ text. text ≡ up_to_zero name.now) }
    ensures short { IfOk result (λ text. length text ≤ length name.now) }
{
    copy_text(alloc, up_to_zero(name.as_slice()))
}

/// The bytes before the first zero byte. All of them where there is none.
fn up_to_zero(bytes: &[u8]) -> &[u8]
    ensures value { result.now ≡ up_to_zero bytes.now }
    ensures short { length result.now ≤ length bytes.now }
{
    match zero_at(bytes) {
        Some(end) => &bytes[..end],
        None => bytes,
    }
}

/// The place of the first zero byte.
fn zero_at(bytes: &[u8]) -> Option<usize>
    ensures place { result ≡ position (λ byte. byte == 0) bytes.now }
    ensures within { IfSome result (λ end. end < length bytes.now) }
{
    bytes.iter().position(|byte| *byte == 0)
}
