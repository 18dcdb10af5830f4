//! The names and secrets of a login, by the settings.

ghost use Rattle.std.specs.Prelude.{◌≡◌, ◌≤◌, length, IfOk};
ghost use Rattle.nb_drivelogin.specs.DriveLogins.{FitsTable, host_part, initiator_name, login_by, name_by_host};

use crate::texts::{HOST_NAME, sent_name, setting_text};
use nb_drivecmd::NamedDisk;
use nb_expand::text_of_name;
use nb_imagecmd::copy_text;
use nb_login::LoginInfo;
use nb_settings::{Key, Kind, Name, Table};
use nb_terms::NoMemory;
use nb_wire::Text;
use std::alloc::Global;

/// The setting `initiator-iqn`.
const INITIATOR: Key<'static> = Key::Tag(203);

/// The settings of our name and secret for CHAP, and of the target's: inner options of 175.
const USER: Key<'static> = Key::Sub(175, 190);

const SECRET: Key<'static> = Key::Sub(175, 191);

const REVERSE_USER: Key<'static> = Key::Sub(175, 192);

const REVERSE_SECRET: Key<'static> = Key::Sub(175, 193);

/// The machine's UUID, printed as one whatever kind it was set by.
const UUID: Name<'static> = Name {
    block: None,
    key: Key::Free(b"uuid"),
    kind: Some(Kind::Uuid),
};

/// What comes before the host's name, or the UUID, in an initiator's name that isn't set.
const PREFIX: &[u8] = b"iqn.2010-04.org.ipxe:";

/// What a login at a disk is begun with, by the settings, and by the random words of its open.
#[tactic(auto, unfolding(crate::specs::DriveLogins::login_by))]
pub fn login_info(
    alloc: Global,
    disk: &NamedDisk,
    words: [u32; 8],
    table: &Table,
) -> Result<LoginInfo, NoMemory>
    ensures value { IfOk result (λ login. login ≡ login_by disk.now words table.now) }
    // A boot table may have its texts. A disk that a URI names has such a name.
    ensures short { length disk.now.name ≤ 1088 → IfOk result FitsTable }
{
    Ok(LoginInfo {
        initiator: sent_name(alloc, &initiator_name(alloc, table)?)?,
        target: copy_text(alloc, disk.name.as_slice())?,
        lun: disk.lun,
        user: sent_name(alloc, &setting_text(alloc, &USER, table)?)?,
        secret: setting_text(alloc, &SECRET, table)?,
        reverse_user: setting_text(alloc, &REVERSE_USER, table)?,
        reverse_secret: setting_text(alloc, &REVERSE_SECRET, table)?,
        words,
    })
}

/// The initiator's name: the one that is set, or else one by the host.
fn initiator_name(alloc: Global, table: &Table) -> Result<Text, NoMemory>
    ensures value { IfOk result (λ text. text ≡ initiator_name table.now) }
    ensures short { IfOk result (λ text. length text ≤ 1088) }
{
    match table.find(None, &INITIATOR) {
        Some(value) => copy_text(alloc, value.bytes),
        None => name_by_host(alloc, table),
    }
}

/// The initiator's name where none is set.
fn name_by_host(alloc: Global, table: &Table) -> Result<Text, NoMemory>
    ensures value { IfOk result (λ text. text ≡ name_by_host table.now) }
    ensures short { IfOk result (λ text. length text ≤ 1088) }
{
    let host = host_part(alloc, table)?;
    let mut name = Vec::from_slice(alloc, PREFIX)?;
    name.extend_from_slice(host.as_slice())?;
    Ok(Text::from_vec(name))
}

/// The host's name where it is set, or else the machine's UUID.
#[tactic(auto, using(crate::proofs::ShortTexts::uuid_short))]
fn host_part(alloc: Global, table: &Table) -> Result<Text, NoMemory>
    ensures value { IfOk result (λ text. text ≡ host_part table.now) }
    ensures short { IfOk result (λ text. length text ≤ 1024) }
{
    match table.find(None, &HOST_NAME) {
        Some(value) => copy_text(alloc, value.bytes),
        None => text_of_name(alloc, &UUID, table),
    }
}
