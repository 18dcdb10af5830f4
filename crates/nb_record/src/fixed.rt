//! The spelling of GRAPH.

ghost use Rattle.std.specs.Prelude.{◌≡◌, ◌+◌, ◌≤◌, ◌++◌, ◌∷◌, [], length};
ghost use Rattle.std.specs.Int.{w64, to_be_bytes};
ghost use Rattle.nb_defs.specs.Records.{cause_text, out_text};
ghost use Rattle.nb_defs.specs.Records as defs;

use nb_terms::{Cause, Event};
use nb_wire::Out;

/// The type of the record.
const GRAPH: u8 = 0x8b;

/// How many bytes it has.
pub(crate) const ROOM: usize = 33;

/// Appends a cause.
#[tactic(auto, unfolding(nb_defs::specs::Records::cause_text))]
#[inline(always)]
fn append_cause(cause: &Cause, out: &mut Out<'_>)
    requires room { 9 ≤ out.old.left }
    ensures appended { out.new.written ≡ out.old.written ++ cause_text cause.now }
{
    out.push(&[cause.code]);
    out.push(&cause.a.to_be_bytes());
    out.push(&cause.b.to_be_bytes());
}

/// Appends one end of what an event tells: an object and its slot.
#[inline(always)]
fn append_end(object: u64, slot: u8, out: &mut Out<'_>)
    requires room { 9 ≤ out.old.left }
    ensures appended { out.new.written ≡ out.old.written ++ (to_be_bytes w64 object ++ (slot ∷ [])) }
    ensures room { out.new.left + 9 ≡ out.old.left }
{
    out.push(&object.to_be_bytes());
    out.push(&[slot]);
}

/// Appends a GRAPH.
#[tactic(auto, using(crate::proofs::FixedLemmas::graph_appends))]
#[inline(always)]
pub(crate) fn append_graph(happens: &Event, out: &mut Out<'_>)
    requires room { 33 ≤ out.old.left }
    ensures { out.new.written ≡ out.old.written ++ out_text (defs.graph happens.now) }
{
    out.push(&[0, 0, 0, 29, GRAPH, happens.event]);
    append_end(happens.object, happens.slot, out);
    append_end(happens.other, happens.other_slot, out);
    append_cause(&happens.cause, out);
}
