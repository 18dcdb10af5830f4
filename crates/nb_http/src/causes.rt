//! How a response ends.

ghost use Rattle.std.specs.Prelude.{◌≡◌, Some};
ghost use Rattle.nb_responses.specs.Chunks.{body, status, broken, large, long, many};
ghost use Rattle.nb_readings.specs.Ends.{verdict_end};

use nb_terms::Cause;

fn cause(code: u8, a: u32, b: u32) -> Cause
    ensures { result ≡ record { code = code; a = a; b = b } }
{
    Cause { code, a, b }
}

/// The whole body, or a move.
pub(crate) fn ok() -> Cause
    ensures { Some result ≡ verdict_end 0 body }
{
    cause(0, 0, 0)
}

/// A status that gives no body.
pub(crate) fn refused(rec: u32, code: u16) -> Cause
    ensures { Some result ≡ verdict_end rec (status code) }
{
    cause(1, rec, u32::from(code))
}

/// No response of the grammar, or one that the stream's end cuts.
pub(crate) fn not_a_response(rec: u32) -> Cause
    ensures { Some result ≡ verdict_end rec broken }
{
    cause(3, rec, 0)
}

/// A body of more than 268,435,456 bytes.
pub(crate) fn too_large() -> Cause
    ensures { Some result ≡ verdict_end 0 large }
{
    cause(6, 1, 0)
}

/// A head, or a size line and a trailer, of more than 16,384 bytes.
pub(crate) fn too_long() -> Cause
    ensures { Some result ≡ verdict_end 0 long }
{
    cause(5, 6, 0)
}

/// More than 64 fields.
pub(crate) fn too_many() -> Cause
    ensures { Some result ≡ verdict_end 0 many }
{
    cause(7, 7, 0)
}
