//! Why words are no image command, and why one fails.

ghost use Rattle.std.specs.Prelude.{◌≡◌};
ghost use Rattle.nb_imagecmd.specs.Failures.{image_cause, unresolved, unlisted};
ghost use Rattle.nb_imagecmd.specs.declared.error.PlanError.TheVariants as plan_error;
ghost use Rattle.nb_imagecmd.specs.declared.error.ImageFailure.TheVariants as failure;

use nb_image::ImageError;
use nb_terms::{Cause, Large, Long, Many, NoMemory, Plain, Reason};
use nb_uri::UriError;

/// Why words are no command.
#[derive(Clone, Copy, Debug, PartialEq, Eq)]
pub enum PlanError {
    /// There is no command of that name.
    Unknown,
    /// The words don't fit the command.
    Usage,
    /// Memory ran out.
    NoMemory,
}

impl From<NoMemory> for PlanError {
    ghost from_gives = { λ _ e. e ≡ plan_error.NoMemory };

    fn from(_: NoMemory) -> PlanError {
        PlanError::NoMemory
    }
}

/// Why an image command fails, but for what its transfer meets. The list of images is then as it was.
#[derive(Clone, Copy, Debug, PartialEq, Eq)]
pub enum ImageFailure {
    /// There is no image of that name, or none is selected.
    NoImage,
    /// The URI is none, or has no host.
    BadUri,
    /// Files of its scheme aren't fetched.
    NoScheme,
    /// The path, the image's name or the URI is too long.
    LongPath,
    /// It would be the 33rd image.
    ManyImages,
    /// All images together would have more than 536,870,912 bytes.
    LargeImages,
    /// The image is of a kind that can't be booted.
    NotBootable,
    /// Eight scripts are within one another.
    ManyScripts,
    /// The file was moved a sixth time.
    ManyMoves,
    /// Memory ran out.
    NoMemory,
}

impl ImageFailure {
    /// The cause of the command's result.
    pub fn cause(self) -> Cause
        ensures { result ≡ image_cause self }
    {
        match self {
            ImageFailure::NoImage => Plain::NoImage.cause(),
            ImageFailure::BadUri => Plain::BadUri.cause(),
            ImageFailure::NoScheme => Plain::NoScheme.cause(),
            ImageFailure::LongPath => Cause::from(Reason::TooLong(Long::Path)),
            ImageFailure::ManyImages => Cause::from(Reason::TooMany(Many::Images)),
            ImageFailure::LargeImages => Cause::from(Reason::TooLarge(Large::Images)),
            ImageFailure::NotBootable => Plain::NotBootable.cause(),
            ImageFailure::ManyScripts => Cause::from(Reason::TooMany(Many::Scripts)),
            ImageFailure::ManyMoves => Cause::from(Reason::TooMany(Many::Moves)),
            ImageFailure::NoMemory => Plain::NoMemory.cause(),
        }
    }
}

impl From<NoMemory> for ImageFailure {
    ghost from_gives = { λ _ e. e ≡ failure.NoMemory };

    fn from(_: NoMemory) -> ImageFailure {
        ImageFailure::NoMemory
    }
}

impl From<UriError> for ImageFailure {
    ghost from_gives = { λ why e. e ≡ unresolved why };

    fn from(why: UriError) -> ImageFailure {
        match why {
            UriError::BadUri => ImageFailure::BadUri,
            UriError::NoScheme => ImageFailure::NoScheme,
            UriError::TooLong => ImageFailure::LongPath,
            UriError::NoMemory => ImageFailure::NoMemory,
        }
    }
}

impl From<ImageError> for ImageFailure {
    ghost from_gives = { λ why e. e ≡ unlisted why };

    fn from(why: ImageError) -> ImageFailure {
        match why {
            ImageError::TooMany => ImageFailure::ManyImages,
            ImageError::TooLarge => ImageFailure::LargeImages,
            ImageError::NoMemory => ImageFailure::NoMemory,
        }
    }
}
