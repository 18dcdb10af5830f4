ghost use Rattle.std.specs.Prelude.{◌≡◌};
ghost use Rattle.nb_settings.specs.declared.error.SetError.TheVariants as error;

use nb_terms::NoMemory;
use std::alloc::{AllocError, AllocFailed};

/// Why a table isn't changed.
#[derive(Clone, Copy, Debug, PartialEq, Eq)]
pub enum SetError {
    /// No block of that name is there.
    BadName,
    /// It would be the 17th block, the root counted, or the 129th setting of its block.
    TooMany,
    /// The value has more than 1,024 bytes.
    TooLong,
    /// Memory ran out.
    NoMemory,
}

impl From<NoMemory> for SetError {
    ghost from_gives = { λ _ e. e ≡ error.NoMemory };

    fn from(_: NoMemory) -> SetError {
        SetError::NoMemory
    }
}

impl From<AllocError> for SetError {
    ghost from_gives = { λ _ e. e ≡ error.NoMemory };

    fn from(_: AllocError) -> SetError {
        SetError::NoMemory
    }
}

impl<T: Drop> From<AllocFailed<T>> for SetError {
    ghost from_gives = { λ _ e. e ≡ error.NoMemory };

    fn from(_: AllocFailed<T>) -> SetError {
        SetError::NoMemory
    }
}
