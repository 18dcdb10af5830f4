//! What a URI names, and why a text names nothing.

ghost use Rattle.std.specs.Prelude.{◌≡◌};
ghost use Rattle.nb_uri.specs.Resolutions.{fitted, whole_text};
ghost use Rattle.nb_uri.specs.declared.target.UriError.TheVariants as error;

use nb_wire::Text;
use std::alloc::AllocError;

/// The most bytes of a URI, its fragment aside.
pub const MAX_URI: usize = 16384;

/// What a URI names: a file of a server, or a disk. `whole` is the URI itself without its fragment; a base
/// for later ones.
#[derive(Drop)]
pub enum UriTarget {
    /// A file of a TFTP server (RFC 1350).
    Tftp {
        /// The server's address or name.
        host: Text,
        port: u16,
        /// What the server is asked for: percent-decoded, without the first slash, a query or a fragment.
        path: Text,
        whole: Text,
    },
    /// A resource of an HTTP server (RFC 9110, section 4.2.1).
    Http {
        /// The server's address or name, an IPv6 address in brackets.
        host: Text,
        port: u16,
        /// The path with its query, as it is sent.
        path: Text,
        whole: Text,
    },
    /// A logical unit of an iSCSI target (RFC 4173, section 5).
    Iscsi {
        /// The server's address or name.
        host: Text,
        port: u16,
        lun: [u8; 8],
        /// The target's name.
        name: Text,
        whole: Text,
    },
}

impl UriTarget {
    /// The URI, without its fragment.
    pub fn whole(&self) -> &[u8]
        ensures { result.now ≡ whole_text self.now }
    {
        match self {
            UriTarget::Tftp { whole, .. } => whole.as_slice(),
            UriTarget::Http { whole, .. } => whole.as_slice(),
            UriTarget::Iscsi { whole, .. } => whole.as_slice(),
        }
    }
}

/// Why a text names nothing.
#[derive(Clone, Copy, Debug, PartialEq, Eq, Drop)]
pub enum UriError {
    /// It is no URI, or one without a host, or the path of its file holds a zero byte.
    BadUri,
    /// Its scheme is none of `tftp`, `http` and `iscsi`.
    NoScheme,
    /// Without its fragment it has more than 16,384 bytes.
    TooLong,
    /// Memory ran out.
    NoMemory,
}

impl From<AllocError> for UriError {
    ghost from_gives = { λ _ why. why ≡ error.NoMemory };

    fn from(_: AllocError) -> UriError {
        UriError::NoMemory
    }
}

/// A target whose URI isn't too long.
pub(crate) fn fitted(target: UriTarget) -> Result<UriTarget, UriError>
    ensures { result ≡ fitted target }
{
    if target.whole().len() > MAX_URI {
        Err(UriError::TooLong)
    } else {
        Ok(target)
    }
}
