//! Why a drive command fails, but for what its session meets.

ghost use Rattle.std.specs.Prelude.{◌≡◌};
ghost use Rattle.nb_drivecmd.specs.DiskNames.{no_disk};
ghost use Rattle.nb_drivecmd.specs.DriveFailures.{drive_cause};
ghost use Rattle.nb_drivecmd.specs.declared.error.DriveFailure.TheVariants as failure;

use nb_terms::{Cause, Fullness, NoMemory, Plain, Reason};
use nb_uri::UriError;

/// Why a drive command fails.
#[derive(Clone, Copy, Debug, PartialEq, Eq)]
pub enum DriveFailure {
    /// No drive of that number is hooked.
    NoDrive,
    /// The URI is none, or has no host.
    BadUri,
    /// It isn't one of an iSCSI target's disk.
    NoScheme,
    /// Two other drives are hooked.
    ManyDrives,
    /// Memory ran out.
    NoMemory,
}

impl DriveFailure {
    /// The cause of the command's result.
    pub fn cause(self) -> Cause
        ensures { result ≡ drive_cause self }
    {
        match self {
            DriveFailure::NoDrive => Plain::NoDrive.cause(),
            DriveFailure::BadUri => Plain::BadUri.cause(),
            DriveFailure::NoScheme => Plain::NoScheme.cause(),
            DriveFailure::ManyDrives => Cause::from(Reason::Full(Fullness::Drives)),
            DriveFailure::NoMemory => Plain::NoMemory.cause(),
        }
    }
}

impl From<NoMemory> for DriveFailure {
    ghost from_gives = { λ _ e. e ≡ failure.NoMemory };

    fn from(_: NoMemory) -> DriveFailure {
        DriveFailure::NoMemory
    }
}

impl From<UriError> for DriveFailure {
    ghost from_gives = { λ why e. e ≡ no_disk why };

    fn from(why: UriError) -> DriveFailure {
        match why {
            UriError::BadUri => DriveFailure::BadUri,
            UriError::NoScheme => DriveFailure::NoScheme,
            UriError::TooLong => DriveFailure::NoScheme,
            UriError::NoMemory => DriveFailure::NoMemory,
        }
    }
}

/// A drive command that fails before anything is asked of a target.
#[derive(Clone, Copy, Debug, PartialEq, Eq)]
pub struct DriveRefusal {
    pub why: DriveFailure,
    /// The drive of this number is to be closed, where it is hooked: a failed `sanboot` lets it go.
    pub unhooks: Option<u8>,
}
