ghost use Rattle.std.specs.Prelude.{◌≡◌};
ghost use Rattle.nb_command.specs.Failures.{apply_cause, set_failure, parse_failure, image_failure, drive_failure};
ghost use Rattle.nb_command.specs.declared.error.ApplyError.TheVariants as failure;

use nb_drivecmd::DriveFailure;
use nb_expand::ParseError;
use nb_imagecmd::ImageFailure;
use nb_settings::SetError;
use nb_terms::{Cause, Long, Many, NoMemory, Plain, Reason};
use std::alloc::{AllocError, AllocFailed};

/// Why a plan isn't carried out. `apply` answers its cause.
#[derive(Clone, Copy, Debug, PartialEq, Eq)]
pub enum ApplyError {
    /// It is no name of a setting, or its block isn't there.
    BadName,
    /// The value isn't one of the setting's kind.
    BadValue,
    /// What was asked isn't so.
    False,
    /// The value has more than 1,024 bytes.
    LongValue,
    /// The block has 128 settings.
    ManySettings,
    /// It is a command on images, and fails for this.
    Images(ImageFailure),
    /// It is a drive command, and fails for this.
    Drives(DriveFailure),
    /// Memory ran out.
    NoMemory,
}

impl ApplyError {
    /// The cause with which a command fails that is refused so.
    pub fn cause(self) -> Cause
        ensures { result ≡ apply_cause self }
    {
        match self {
            ApplyError::BadName => Plain::BadName.cause(),
            ApplyError::BadValue => Plain::BadValue.cause(),
            ApplyError::False => Plain::False.cause(),
            ApplyError::LongValue => Cause::from(Reason::TooLong(Long::Value)),
            ApplyError::ManySettings => Cause::from(Reason::TooMany(Many::Settings)),
            ApplyError::Images(why) => why.cause(),
            ApplyError::Drives(why) => why.cause(),
            ApplyError::NoMemory => Plain::NoMemory.cause(),
        }
    }
}

impl From<NoMemory> for ApplyError {
    ghost from_gives = { λ _ e. e ≡ failure.NoMemory };

    fn from(_: NoMemory) -> ApplyError {
        ApplyError::NoMemory
    }
}

impl From<AllocError> for ApplyError {
    ghost from_gives = { λ _ e. e ≡ failure.NoMemory };

    fn from(_: AllocError) -> ApplyError {
        ApplyError::NoMemory
    }
}

impl From<SetError> for ApplyError {
    ghost from_gives = { λ why e. e ≡ set_failure why };

    fn from(why: SetError) -> ApplyError {
        match why {
            SetError::BadName => ApplyError::BadName,
            SetError::TooMany => ApplyError::ManySettings,
            SetError::TooLong => ApplyError::LongValue,
            SetError::NoMemory => ApplyError::NoMemory,
        }
    }
}

impl From<ParseError> for ApplyError {
    ghost from_gives = { λ why e. e ≡ parse_failure why };

    fn from(why: ParseError) -> ApplyError {
        match why {
            ParseError::BadValue => ApplyError::BadValue,
            ParseError::NoMemory => ApplyError::NoMemory,
        }
    }
}

impl From<ImageFailure> for ApplyError {
    ghost from_gives = { λ why e. e ≡ image_failure why };

    fn from(why: ImageFailure) -> ApplyError {
        match why {
            ImageFailure::NoMemory => ApplyError::NoMemory,
            why => ApplyError::Images(why),
        }
    }
}

impl From<DriveFailure> for ApplyError {
    ghost from_gives = { λ why e. e ≡ drive_failure why };

    fn from(why: DriveFailure) -> ApplyError {
        match why {
            DriveFailure::NoMemory => ApplyError::NoMemory,
            why => ApplyError::Drives(why),
        }
    }
}
