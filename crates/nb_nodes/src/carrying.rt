// What a transfer's call asks for, as the effects of an entry.
ghost use Rattle.std.specs.Prelude.{◌≡◌, ◌+◌, ◌≤◌, ℕ, [], ◌∷◌, length, min, None, Some, is_some, false};
ghost use Rattle.nb_tftp.specs.Sound.{IsRange};
ghost use Rattle.std.specs.Prelude.{◌++◌, ◌&&◌, ◌==◌, IfOk, IfSome, IfNone, true};
ghost use Rattle.nb_graph.specs.Trace.{Said, said};
ghost use Rattle.nb_graph.specs.Effects.{IsUp};
ghost use Rattle.nb_nodes.specs.Conversations.{is_datagram};
ghost use Rattle.nb_nodes.specs.Exchanges.{AsksAndGives, LeavesByZero, said_up};
ghost use Rattle.nb_nodes.specs.Carried.{up_emit, both_closes, end_closes, first_port};
ghost use Rattle.nb_nodes.specs.Carried.{advance_emit, datagram_emit, EffectsOf, AsksNone, AsksDown};
ghost use Rattle.nb_nodes.specs.Carried.{AsksWithin};

use crate::tag::{Tag, is_tag};
use crate::{Load, Obj};
use nb_graph::{Emit, Fx, Msg};
use nb_terms::{Acts, Cause, NoMemory, SendTo};
use std::alloc::Global;

/// The slot that faces the user above.
pub const ABOVE: u8 = 0;

/// The slot that faces what is below.
pub const BELOW: u8 = 1;

/// What an entry of an open's object asks for.
pub(crate) type Effects = Fx<Obj, Load>;

/// How many bytes of a message are taken where all are: at most 4,294,967,295 at once.
#[inline(always)]
pub(crate) fn length_of(msg: &Msg<'_>) -> u32
    ensures { result ≡ min (length msg.now.first.now + length msg.now.second.now) 4294967295 }
{
    (msg.first.len() + msg.second.len()).min(u32::MAX as usize) as u32
}

/// Closes both ports, the one above first: its user is told before the port below is given back.
#[inline(always)]
pub(crate) fn close_both(cause: Cause, fx: &mut Effects)
    requires { fx.old.closes.items ≡ [] }
    ensures { fx.new ≡ record fx.old { closes = record { items = both_closes cause } } }
{
    fx.closes.push((ABOVE, cause));
    fx.closes.push((BELOW, cause));
}

/// Closes both ports at an end.
#[inline(always)]
fn close_at(over: Option<Cause>, fx: &mut Effects)
    requires { fx.old.closes.items ≡ [] }
    ensures { fx.new ≡ record fx.old { closes = record { items = end_closes over } } }
{
    if let Some(cause) = over {
        close_both(cause, fx);
    }
}

/// The bytes of the entry's message that go up.
#[inline(always)]
fn ask_up(give: Option<(u32, u32)>, fx: &mut Effects)
    requires { fx.old.ups.first ≡ None }
    ensures { fx.new ≡ record fx.old { ups = record fx.old.ups { first = up_emit give } } }
{
    if let Some((from, to)) = give {
        fx.ups.first.put(Emit {
            slot: ABOVE,
            tag: u8::from(Tag::Bytes),
            a: 0,
            b: 0,
            from,
            to,
            load: None,
        });
    }
}

/// Tells that the place has grown.
#[inline(always)]
fn advance_down(place: u32) -> Emit<Load>
    ensures { result ≡ advance_emit place }
{
    Emit {
        slot: BELOW,
        tag: u8::from(Tag::Advance),
        a: place,
        b: 0,
        from: 0,
        to: 0,
        load: None,
    }
}

/// Sends the datagram that `acts` holds to this port of the server, as a try where a timer covers it.
/// Its bytes stay where they are: they are lent.
#[inline(always)]
fn datagram_down(to_port: u16, acts: Box<Acts>) -> Emit<Load>
    ensures { result ≡ datagram_emit to_port acts }
{
    let (tag, number) = match acts.tried {
        Some(number) => (Tag::Try, number),
        None => (Tag::Datagram, 0),
    };
    Emit {
        slot: BELOW,
        tag: u8::from(tag),
        a: u32::from(number),
        b: u32::from(to_port),
        from: 0,
        to: 0,
        load: Some(Load::Datagram(acts)),
    }
}

/// The port that the first message goes to.
#[inline(always)]
fn port_of(sends: &[SendTo]) -> Option<u16>
    ensures { result ≡ first_port sends.now }
{
    match sends.first() {
        Some(send) => Some(send.to_port),
        None => None,
    }
}

/// Sends the datagram, after telling the place where that has grown.
#[inline(always)]
fn send(to_port: u16, acts: Box<Acts>, fx: &mut Effects)
    requires blank { AsksNone fx.old }
    requires few { length acts.value.sends.items ≤ 1 }
    requires port { first_port acts.value.sends.items ≡ Some to_port }
    ensures asks { AsksDown acts.value fx.new.downs }
    ensures same { fx.new ≡ record fx.old { downs = fx.new.downs } }
{
    let advance = acts.advance;
    let datagram = datagram_down(to_port, acts);
    match advance {
        Some(place) => {
            fx.downs.first.put(advance_down(place));
            fx.downs.second.put(datagram);
        }
        None => fx.downs.first.put(datagram),
    }
}

/// Asks for what goes down. What `acts` holds is lent where a datagram is sent, and else comes back at
/// once.
#[inline(always)]
fn ask_down(acts: Box<Acts>, fx: &mut Effects) -> Option<Box<Acts>>
    requires blank { AsksNone fx.old }
    requires few { length acts.value.sends.items ≤ 1 }
    ensures asks { AsksDown acts.value fx.new.downs }
    ensures same { fx.new ≡ record fx.old { downs = fx.new.downs } }
{
    match port_of(acts.sends.as_slice()) {
        Some(to_port) => {
            send(to_port, acts, fx);
            None
        }
        None => {
            if let Some(grown) = acts.advance {
                fx.downs.first.put(advance_down(grown));
            }
            Some(acts)
        }
    }
}

/// Asks for all that a call asks for of a transfer that goes on.
#[inline(always)]
pub(crate) fn ask_on(acts: Box<Acts>, fx: &mut Effects) -> Option<Box<Acts>>
    requires blank { AsksNone fx.old }
    requires few { length acts.value.sends.items ≤ 1 }
    requires goes { is_some acts.value.over ≡ false }
    ensures effects { (m : Said) → EffectsOf m acts.value fx.new }
    ensures within { (len : ℕ) → IsRange acts.value.give len → AsksWithin len fx.new }
    ensures took { fx.new.took ≡ fx.old.took }
{
    let give = acts.give;
    let kept = ask_down(acts, fx);
    ask_up(give, fx);
    kept
}

/// Asks for all that a transfer's call asks for.
pub(crate) fn ask(acts: Box<Acts>, fx: &mut Effects) -> Option<Box<Acts>>
    requires blank { AsksNone fx.old }
    requires few { length acts.value.sends.items ≤ 1 }
    ensures effects { (m : Said) → EffectsOf m acts.value fx.new }
    ensures within { (len : ℕ) → IsRange acts.value.give len → AsksWithin len fx.new }
    ensures took { fx.new.took ≡ fx.old.took }
{
    let give = acts.give;
    let over = acts.over;
    let kept = ask_down(acts, fx);
    ask_up(give, fx);
    close_at(over, fx);
    kept
}

/// Asks for what a core's call asks for, and gives this up.
pub(crate) fn ask_giving(
    acts: Box<Acts>,
    given: Option<Emit<Load>>,
    fx: &mut Effects,
) -> Option<Box<Acts>>
    requires blank { AsksNone fx.old }
    requires few { length acts.value.sends.items ≤ 1 }
    requires none { acts.value.give ≡ None }
    requires above { IfSome given LeavesByZero }
    ensures effects { (m : Said) → AsksAndGives m acts.value (said_up m given) fx.new }
    ensures within { (len : ℕ) → IfSome given (IsUp len) → AsksWithin len fx.new }
    ensures ups { fx.new.ups ≡ record { first = given; second = None } }
    ensures took { fx.new.took ≡ fx.old.took }
{
    let kept = ask(acts, fx);
    give(given, fx);
    kept
}

/// Gives this up.
fn give(given: Option<Emit<Load>>, fx: &mut Effects)
    requires { fx.old.ups.first ≡ None }
    ensures { fx.new ≡ record fx.old { ups = record fx.old.ups { first = given } } }
{
    if let Some(emit) = given {
        fx.ups.first.put(emit);
    }
}

/// The bytes of a message in one piece.
pub(crate) fn joined(alloc: Global, msg: &Msg<'_>) -> Result<Vec<u8>, NoMemory>
    ensures { IfOk result (λ v. v.items ≡ msg.now.first.now ++ msg.now.second.now) }
{
    let mut bytes = Vec::from_slice(alloc, msg.first)?;
    bytes.extend_from_slice(msg.second)?;
    Ok(bytes)
}

/// The port that a message from below comes from, where it is a datagram.
#[inline(always)]
pub(crate) fn source_port(slot: u8, msg: &Msg<'_>) -> Option<u16>
    ensures some { IfSome result (λ port. (is_datagram slot (said msg.now) ≡ true) × (port ≡ msg.now.a)) }
    ensures none { IfNone result (is_datagram slot (said msg.now) ≡ false) }
{
    if slot == BELOW && is_tag(msg.tag, Tag::Datagram) {
        u16::try_from(msg.a).ok()
    } else {
        None
    }
}

/// Whether a message from below is a datagram from this port.
pub(crate) fn comes_from(port: u16, slot: u8, msg: &Msg<'_>) -> bool
    ensures { result ≡ (is_datagram slot (said msg.now) && (msg.now.a == port)) }
{
    match source_port(slot, msg) {
        Some(source) => source == port,
        None => false,
    }
}
