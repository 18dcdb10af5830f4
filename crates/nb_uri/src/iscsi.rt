//! Names of iSCSI disks (RFC 4173, section 5).

ghost use Rattle.std.specs.Prelude.{◌≡◌, ◌==◌, ◌<◌, length, drop, Some, None, if◌then◌else◌};
ghost use Rattle.std.specs.Option.{option_map, option_copied};
ghost use Rattle.nb_uri.specs.IscsiNames.{IscsiTarget, is_iscsi, is_iscsi_protocol, is_target_name, iscsi_port, iscsi_target, fields_target};
ghost use Rattle.nb_uri.specs.IscsiViews.{disk_of};

use crate::digits::word_number;
use crate::lun::lun;
use crate::pieces::cut_text;

/// The port that an iSCSI target listens at (RFC 7143, section 4.2.7.1).
pub const ISCSI_PORT: u16 = 3260;

/// The most bytes of a target's name (RFC 7143, section 4.2.7.1).
pub const MAX_TARGET_NAME: usize = 223;

/// A logical unit of a server's target.
#[derive(Clone, Copy, Drop)]
pub(crate) struct IscsiUri<'a> {
    /// The server's address or name.
    pub(crate) server: &'a str,
    pub(crate) port: u16,
    pub(crate) lun: [u8; 8],
    /// The target's name.
    pub(crate) target: &'a str,
}

impl<'a> IscsiUri<'a> {
    /// What the text after `iscsi:` names: server, protocol, port, logical unit and target, with colons between
    /// them.
    pub(crate) fn read(text: &'a str) -> Option<IscsiUri<'a>>
        ensures { option_map disk_of result ≡ iscsi_target text.now }
    {
        let (server, rest) = cut_text(text, ':')?;
        let (protocol, rest) = cut_text(rest, ':')?;
        let (port, rest) = cut_text(rest, ':')?;
        let (lun, target) = cut_text(rest, ':')?;
        disk(server, protocol, port, lun, target)
    }
}

/// What five fields name.
fn disk<'a>(
    server: &'a str,
    protocol: &str,
    port: &str,
    unit: &str,
    target: &'a str,
) -> Option<IscsiUri<'a>>
    ensures { option_map disk_of result ≡ fields_target server.now protocol.now port.now unit.now target.now }
{
    if server.is_empty() || !is_protocol(protocol) || !is_target_name(target) {
        return None;
    }
    Some(IscsiUri {
        server,
        port: port_number(port)?,
        lun: lun(unit)?,
        target,
    })
}

/// Nothing, or the number of TCP.
fn is_protocol(text: &str) -> bool
    ensures { result ≡ is_iscsi_protocol text.now }
{
    text.is_empty() || text == "6"
}

fn is_target_name(text: &str) -> bool
    ensures { result ≡ is_target_name text.now }
{
    !text.is_empty() && text.len() <= MAX_TARGET_NAME
}

/// Nothing is 3260, else a decimal from 1 to 65,535 without leading zeros.
fn port_number(text: &str) -> Option<u16>
    ensures { result ≡ iscsi_port text.now }
{
    match text.as_bytes() {
        [] => Some(ISCSI_PORT),
        [b'0', ..] => None,
        _ => word_number(text, 10),
    }
}

/// What follows `iscsi:`, in any case, in a text that begins with it.
pub(crate) fn after_iscsi(text: &str) -> Option<&str>
    ensures { option_copied result ≡ (if is_iscsi text.now then Some (drop 6 text.now) else None) }
{
    let (scheme, rest) = cut_text(text, ':')?;
    scheme.eq_ignore_ascii_case("iscsi").then_some(rest)
}
