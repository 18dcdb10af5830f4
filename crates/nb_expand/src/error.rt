ghost use Rattle.std.specs.Prelude.{◌≡◌};
ghost use Rattle.nb_expand.specs.declared.error.ExpandError.TheVariants as expand;
ghost use Rattle.nb_expand.specs.declared.error.ParseError.TheVariants as parse;

use nb_terms::NoMemory;
use std::alloc::{AllocError, AllocFailed};

/// Why a word isn't expanded.
#[derive(Clone, Copy, Debug, PartialEq, Eq)]
pub enum ExpandError {
    /// What stands between `${` and `}` is no name of a setting.
    BadName,
    /// The expanded word has more than 4,096 bytes.
    TooLong,
    /// Memory ran out.
    NoMemory,
}

/// Why a text isn't read as a value.
#[derive(Clone, Copy, Debug, PartialEq, Eq)]
pub enum ParseError {
    /// It is no value of the kind, or out of its range.
    BadValue,
    /// Memory ran out.
    NoMemory,
}

impl From<NoMemory> for ExpandError {
    ghost from_gives = { λ _ e. e ≡ expand.NoMemory };

    fn from(_: NoMemory) -> ExpandError {
        ExpandError::NoMemory
    }
}

impl<T: Drop> From<AllocFailed<T>> for ExpandError {
    ghost from_gives = { λ _ e. e ≡ expand.NoMemory };

    fn from(_: AllocFailed<T>) -> ExpandError {
        ExpandError::NoMemory
    }
}

impl From<AllocError> for ExpandError {
    ghost from_gives = { λ _ e. e ≡ expand.NoMemory };

    fn from(_: AllocError) -> ExpandError {
        ExpandError::NoMemory
    }
}

impl<T: Drop> From<AllocFailed<T>> for ParseError {
    ghost from_gives = { λ _ e. e ≡ parse.NoMemory };

    fn from(_: AllocFailed<T>) -> ParseError {
        ParseError::NoMemory
    }
}

impl From<AllocError> for ParseError {
    ghost from_gives = { λ _ e. e ≡ parse.NoMemory };

    fn from(_: AllocError) -> ParseError {
        ParseError::NoMemory
    }
}
