// The messages that entries ask for, and those that they leave.
ghost use Rattle.std.specs.Prelude.{◌≡◌, ◌+◌, ◌<◌, ◌≤◌, ◌++◌, length, [], ◌-◌};
ghost use Rattle.nb_effects.specs.Effects.{IsPartOf};
ghost use Rattle.nb_effects.specs.Trace.{carries, nature, bytes_between, left, said, said_behind};
ghost use Rattle.std.specs.Prelude.{IfSome, ◌∷◌};
ghost use Rattle.nb_ledger.specs.Flat.{Given, Told, Tells, flat};
ghost use Rattle.nb_ledger.specs.declared.event.GraphEvent.TheVariants.{Dropped};
ghost use Rattle.nb_ledger.specs.Flat as notice;
ghost use Rattle.std.specs.Option.{option_map};

use crate::{Emit, Node, Parts};
use nb_ledger::{GraphEvent, Msg, Outside, Port};

/// The message of an entry that has none.
pub const NOTHING: Msg<'static> = Msg {
    tag: 0,
    rec: 0,
    a: 0,
    b: 0,
    first: &[],
    second: &[],
};

/// The bytes of the message that an entry asks for, of a message with these bytes.
#[inline(always)]
pub fn bytes_of<'m, N: Node>(
    emit: &'m Emit<N::Load>,
    first: &'m [u8],
    second: &'m [u8],
) -> (&'m [u8], &'m [u8])
    requires { IsPartOf (length first.now + length second.now) emit.now }
    ensures { result.0.now ++ result.1.now ≡ carries (nature N.kind_of N.mark_of N.Load.first N.Load.second)
        (first.now ++ second.now) emit.now.from emit.now.to emit.now.load }
{
    match &emit.load {
        Some(load) => load.parts(),
        None => cut(first, second, emit.from, emit.to),
    }
}

/// Gives the outside the message that is asked for, with this record and these bytes.
#[tactic(auto, using(nb_ledger::proofs::RunLemmas::told_message))]
#[inline(always)]
pub fn send_part<N: Node, O: Outside>(
    at: Port,
    emit: &Emit<N::Load>,
    rec: u32,
    first: &[u8],
    second: &[u8],
    out: &mut O,
)
    ensures told { Told (O.events out.old) (O.events out.new) [] }
    ensures given { Given (O.events out.old) (O.events out.new) (notice.message at emit.now.tag rec
        emit.now.a emit.now.b (first.now ++ second.now) ∷ []) }
{
    let part = Msg {
        tag: emit.tag,
        rec,
        a: emit.a,
        b: emit.b,
        first,
        second,
    };
    out.send(at, &part);
}

/// Tells the outside that a message is dropped at this port.
#[tactic(auto, using(nb_ledger::proofs::RunLemmas::told_event))]
#[cold]
#[inline(never)]
pub fn drop_message<O: Outside>(at: Port, out: &mut O)
    ensures told { Tells (O.events out.old) (O.events out.new) (Dropped at ∷ []) }
    ensures given { Given (O.events out.old) (O.events out.new) (notice.event (flat (Dropped at)) ∷ []) }
{
    out.event(&GraphEvent::Dropped(at).spelled());
}

/// Bytes `from` to `to` of a message's two parts, in two parts.
#[inline(always)]
fn cut<'m>(first: &'m [u8], second: &'m [u8], from: u32, to: u32) -> (&'m [u8], &'m [u8])
    requires order { from ≤ to }
    requires within { to ≤ length first.now + length second.now }
    ensures length { length result.0.now + length result.1.now ≡ to - from }
    ensures bytes { result.0.now ++ result.1.now ≡ bytes_between (first.now ++ second.now) from to }
{
    let seam = first.len();
    let from = from as usize;
    let to = to as usize;
    if to <= seam {
        return (&first[from..to], &[]);
    }
    let front = &first[from.min(seam)..to.min(seam)];
    let back = &second[from.saturating_sub(seam)..to.saturating_sub(seam)];
    (front, back)
}

/// How many bytes a message has.
#[inline(always)]
pub fn length_of(msg: &Msg<'_>) -> usize
    ensures { result ≡ length msg.now.first.now + length msg.now.second.now }
{
    msg.first.len() + msg.second.len()
}

/// What is left of a message of which so many bytes were taken.
pub fn rest_of<'m>(msg: &Msg<'m>, took: usize) -> Option<Msg<'m>>
    ensures said { option_map said result ≡ left took (said msg.now) }
    ensures some { IfSome result (λ r. (length r.first.now + length r.second.now + took ≡ length
        msg.now.first.now + length msg.now.second.now) × (took < length msg.now.first.now + length
        msg.now.second.now)) }
{
    if took < length_of(msg) {
        Some(behind(msg, took))
    } else {
        None
    }
}

/// A message without its first `took` bytes.
pub fn behind<'m>(msg: &Msg<'m>, took: usize) -> Msg<'m>
    requires { took ≤ length msg.now.first.now + length msg.now.second.now }
    ensures length { length result.first.now + length result.second.now + took ≡ length
        msg.now.first.now + length msg.now.second.now }
    ensures bytes { said result ≡ said_behind took (said msg.now) }
{
    let seam = msg.first.len();
    Msg {
        tag: msg.tag,
        rec: msg.rec,
        a: msg.a,
        b: msg.b,
        first: &msg.first[took.min(seam)..],
        second: &msg.second[took.saturating_sub(seam)..],
    }
}
