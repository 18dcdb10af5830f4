//! The opens of the drives that a boot table has.

ghost use Rattle.std.specs.Prelude.{◌≡◌, map, option_map, option_and_then, slice_get};
ghost use Rattle.nb_drivelogin.specs.DriveOpens.{described_opens, drive_open, open_numbered};
ghost use Rattle.nb_drivelogin.specs.Described.{described_by, described_list, described_open};

use crate::HookedOpen;
use nb_drivecmd::Drives;

/// The opens of the described drives, by rising number of the drives.
#[derive(Clone, Copy, Drop)]
pub(crate) enum Described<'a> {
    Neither,
    One(HookedOpen<'a>),
    Two(HookedOpen<'a>, HookedOpen<'a>),
}

/// Those of these drives, among these opens.
#[tactic(auto, unfolding(crate::specs::DriveOpens::described_opens))]
pub(crate) fn described_opens<'a>(drives: &Drives, opens: &[HookedOpen<'a>]) -> Described<'a>
    ensures { described_list result ≡ described_opens drives.now (map drive_open opens.now) }
{
    if drives.len() == 0 {
        return Described::Neither;
    }
    described_by(
        described_open(drives, 0, opens),
        described_open(drives, 1, opens),
    )
}

/// The open of the first drive, if it has one, and that of the second.
fn described_by<'a>(first: Option<HookedOpen<'a>>, second: Option<HookedOpen<'a>>) -> Described<'a>
    ensures { described_list result
        ≡ described_by (option_map drive_open first.entry) (option_map drive_open second.entry) }
{
    match (first, second) {
        (None, None) => Described::Neither,
        (Some(hooked), None) => Described::One(hooked),
        (None, Some(hooked)) => Described::One(hooked),
        (Some(hooked), Some(other)) => Described::Two(hooked, other),
    }
}

/// The open of the drive at a place, where the boot table has that drive.
fn described_open<'a>(
    drives: &Drives,
    place: usize,
    opens: &[HookedOpen<'a>],
) -> Option<HookedOpen<'a>>
    ensures { option_map drive_open result
        ≡ option_and_then (described_open (map drive_open opens.now)) (slice_get drives.now place) }
{
    let drive = drives.get(place)?;
    if drive.described {
        open_numbered(drive.open_number, opens)
    } else {
        None
    }
}

/// The open of a number.
fn open_numbered<'a>(number: u16, opens: &[HookedOpen<'a>]) -> Option<HookedOpen<'a>>
    ensures { option_map drive_open result ≡ open_numbered number (map drive_open opens.now) }
{
    opens.iter().find(|hooked| hooked.number == number).copied()
}
