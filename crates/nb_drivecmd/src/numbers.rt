//! The numbers of drives.

ghost use Rattle.std.specs.Prelude.{◌≡◌, None, IfOk, IfSome};
ghost use Rattle.nb_drivecmd.specs.DriveNumbers.{drive_in, chosen_drive, IsDriveNumber};

use nb_expand::text_of_name;
use nb_numerals::number;
use nb_settings::{Key, Name, Table};
use nb_terms::NoMemory;
use std::alloc::Global;

/// The lowest number of a drive; the highest is 255. Without one it is this.
pub const FIRST_DRIVE: u8 = 128;

/// The setting that says which drive is meant where a command doesn't, an inner option of 175.
const SAN_DRIVE: Name<'static> = Name {
    block: None,
    key: Key::Sub(175, 189),
    kind: None,
};

/// The number of a drive that a text writes. None where it writes none from 128 to 255.
pub(crate) fn drive_in(text: &[u8]) -> Option<u8>
    ensures value { result ≡ drive_in text.now }
    ensures in_range { IfSome result IsDriveNumber }
{
    let number = u8::try_from(number(text)?).ok()?;
    (number >= FIRST_DRIVE).then_some(number)
}

/// The number of the drive that a command means: the one that it gives, or else that of the setting `san-drive` as it
/// is printed, or else 128.
pub fn chosen_drive(alloc: Global, given: Option<u8>, table: &Table) -> Result<u8, NoMemory>
    ensures value { IfOk result (λ number. number ≡ chosen_drive given table.now) }
    ensures in_range { IfSome given IsDriveNumber → IfOk result IsDriveNumber }
{
    match given {
        Some(number) => Ok(number),
        None => set_drive(alloc, table),
    }
}

/// The number of the drive that is meant where none is given.
fn set_drive(alloc: Global, table: &Table) -> Result<u8, NoMemory>
    ensures value { IfOk result (λ number. number ≡ chosen_drive None table.now) }
    ensures in_range { IfOk result IsDriveNumber }
{
    let text = text_of_name(alloc, &SAN_DRIVE, table)?;
    Ok(drive_in(text.as_slice()).unwrap_or(FIRST_DRIVE))
}
