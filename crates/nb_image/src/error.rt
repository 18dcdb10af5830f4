ghost use Rattle.std.specs.Prelude.{◌≡◌};
ghost use Rattle.nb_image.specs.declared.error.PushError.TheVariants as push;
ghost use Rattle.nb_image.specs.declared.error.ImageError.TheVariants as image;

use nb_terms::NoMemory;
use std::alloc::{AllocError, AllocFailed};

/// Why a body takes no more bytes.
#[derive(Clone, Copy, Debug, PartialEq, Eq)]
pub enum PushError {
    /// It would have more than 268,435,456 bytes.
    TooLarge,
    /// Memory ran out.
    NoMemory,
}

impl From<AllocError> for PushError {
    ghost from_gives = { λ _ e. e ≡ push.NoMemory };

    fn from(_: AllocError) -> PushError {
        PushError::NoMemory
    }
}

/// Why an image isn't taken into the list.
#[derive(Clone, Copy, Debug, PartialEq, Eq)]
pub enum ImageError {
    /// It would be the 33rd.
    TooMany,
    /// All images together would have more than 536,870,912 bytes.
    TooLarge,
    /// Memory ran out.
    NoMemory,
}

impl From<NoMemory> for ImageError {
    ghost from_gives = { λ _ e. e ≡ image.NoMemory };

    fn from(_: NoMemory) -> ImageError {
        ImageError::NoMemory
    }
}

impl<T: Drop> From<AllocFailed<T>> for ImageError {
    ghost from_gives = { λ _ e. e ≡ image.NoMemory };

    fn from(_: AllocFailed<T>) -> ImageError {
        ImageError::NoMemory
    }
}
