//! How a drive's session ends.

ghost use Rattle.std.specs.Prelude.{◌≡◌};
ghost use Rattle.nb_disk.specs.DiskAnswers.{broken, refused_cause};

use nb_terms::{Cause, Reason};

/// A PDU that isn't allowed in its place.
pub(crate) fn broken(rec: u32) -> Cause
    ensures { result ≡ broken rec }
{
    Cause::from(Reason::Broken { rec })
}

/// A SCSI status that isn't good.
pub(crate) fn refused(rec: u32, status: u8) -> Cause
    ensures { result ≡ refused_cause rec status }
{
    Cause::from(Reason::Refused {
        rec,
        code: u16::from(status),
    })
}
