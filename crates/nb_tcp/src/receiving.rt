//! What of a segment is held, and what of the text is forgotten.

ghost use Rattle.std.specs.Prelude.{◌≡◌, ℕ, ◌<◌, ◌^◌, ◌+◌, ◌-◌, ◌≤◌, length, drop, take, min, true};
ghost use Rattle.nb_reasm.specs.HeldWindows.{window};
ghost use Rattle.nb_tcp.specs.Arriving.{incoming};
ghost use Rattle.nb_tcp.specs.InOrder.{ComesInOrder};
ghost use Rattle.nb_tcp.specs.Receiving.{Receives, PutInto, PassesOver, IsBareAt};

use crate::variables::{MAX_SIZE, Variables};
use nb_reasm::Held;
use nb_tcpseg::Segment;

/// The variables after the segment's bytes and end; the bytes that count are held. Its acknowledgement
/// isn't looked at.
pub(crate) fn receive(
    held: &mut Option<Held>,
    variables: Variables,
    segment: &Segment<'_>,
) -> Variables
    requires { length segment.now.body.now < 2 ^ 16 }
    ensures { Receives variables (incoming segment.now) held.old held.new result }
{
    let stopped = variables.with_stop(segment);
    let place = variables.piece_place(segment);
    let bytes = stopped.kept_bytes(place, variables.piece_bytes(segment));
    match held {
        None => variables,
        Some(held) => stopped.with_next(hold(held, place, bytes)),
    }
}

/// The same in place, where the segment's bytes come next, and it has nothing else that is new.
#[inline(always)]
pub(crate) fn receive_next(
    held: &mut Option<Held>,
    variables: &mut Variables,
    segment: &Segment<'_>,
)
    requires { ComesInOrder variables.old (incoming segment.now) }
    ensures { Receives variables.old (incoming segment.now) held.old held.new variables.new }
{
    match held {
        None => {}
        Some(held) => variables.next = hold(held, variables.next, segment.body),
    }
}

/// Holds these bytes from a place on. Returns the least place that isn't held.
#[inline(always)]
fn hold(held: &mut Held, place: u32, bytes: &[u8]) -> u32
    requires { 0 < length bytes.now → place + length bytes.now < 2 ^ 31 }
    ensures put { PutInto (window held.old) place bytes.now (window held.new) }
    ensures next { result ≡ (window held.new).next }
{
    if !bytes.is_empty() {
        let _ = held.put(place, bytes);
    }
    held.next()
}

/// Drops the first bytes, which are acknowledged.
pub(crate) fn forget(unacked: &mut Vec<u8>, count: u32)
    ensures { unacked.new.items ≡ drop count unacked.old.items }
{
    let count = (count as usize).min(unacked.len());
    let rest = unacked.len() - count;
    unacked.rotate_left(count);
    unacked.truncate(rest);
}

/// The bytes of the segment that waits to be acknowledged.
pub(crate) fn unacked_text(unacked: &[u8], variables: Variables) -> &[u8]
    ensures value { result.now ≡ take (min (variables.upto - variables.acked) 1460) unacked.now }
    ensures few { length result.now ≤ 1460 }
{
    let count = variables
        .upto
        .saturating_sub(variables.acked)
        .min(u32::from(MAX_SIZE)) as usize;
    &unacked[..count.min(unacked.len())]
}

/// The window once all of its front was passed over.
#[inline(always)]
pub(crate) fn passed_over(held: Held) -> Held
    ensures { PassesOver (window held) (window result) }
{
    let mut held = held;
    let waiting = held.next() - held.base();
    held.advance(waiting);
    held
}

/// The window goes on at this place, and holds none from it on.
#[inline(always)]
pub(crate) fn is_bare_at(held: &Held, place: u32) -> bool
    ensures { result ≡ true → IsBareAt (window held.now) place }
{
    held.next() == place && held.holds_none_later()
}
