//! Sequence numbers, which go round at 2^32, and flags.

ghost use Rattle.std.specs.Prelude.{◌≡◌, ◌+◌};
ghost use Rattle.nb_streams.specs.Segments.{ahead, is_forward};
ghost use Rattle.nb_streams.specs.Sending.{wrapped};
ghost use Rattle.nb_tcp.specs.Arriving.{sets_flag};

use nb_tcpseg::Segment;

/// A number of 32 bits doesn't go round.
pub(crate) fn as_it_is(number: u32) -> u32
    ensures { result ≡ wrapped number }
{
    number
}

/// The number of the byte at a place of a stream whose SYN has the number `first`.
pub(crate) fn number_of(first: u32, place: u32) -> u32
    ensures { result ≡ wrapped (first + 1 + place) }
{
    first.wrapping_add(1).wrapping_add(place)
}

/// How far a number is ahead of that byte, going round.
pub(crate) fn distance(first: u32, place: u32, to: u32) -> u32
    ensures { result ≡ ahead (first + 1 + place) to }
{
    to.wrapping_sub(number_of(first, place))
}

/// Nearer ahead than back.
pub(crate) fn is_forward(distance: u32) -> bool
    ensures { result ≡ is_forward distance }
{
    distance < 1 << 31
}

/// The segment has this flag.
pub(crate) fn has(segment: &Segment<'_>, flag: u8) -> bool
    ensures { result ≡ sets_flag segment.now.flags flag }
{
    segment.flags & flag != 0
}
