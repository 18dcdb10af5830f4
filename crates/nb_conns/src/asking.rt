//! What a call of a connection asks for, as the effects of an entry.

ghost use Rattle.std.specs.Prelude.{◌≡◌, ◌+◌, ◌++◌, ◌<◌, ℕ, [], length, min, map, None, Some, Option};
ghost use Rattle.std.specs.Option.{option_map};
ghost use Rattle.nb_graph.specs.Trace.{Said};
ghost use Rattle.nb_conns.specs.StreamTags.{stream_tag_number};
ghost use Rattle.nb_conns.specs.ConnEffects.{SendsDown, GivesBack, ConnEffects, ConnWithin, SaysNothing, closes_for};
ghost use Rattle.nb_conns.specs.ConnEffects.{place_emit, segments_emit, received_emit, range_emit, end_emit, heading_of, segments_tag, boxed};

use crate::conn_load::{CarriesConn, ConnLoad, Lent};
use crate::stream_tag::StreamTag;
use nb_graph::{Emit, Few, Fx, Msg};
use nb_terms::{Acts, Cause, SendTo};

/// The slot that faces the user above.
pub(crate) const ABOVE: u8 = 0;

/// The slot that faces the network below.
pub(crate) const BELOW: u8 = 1;

/// How many bytes of a message are taken where all are: at most 4,294,967,295 at once.
#[inline(always)]
pub(crate) fn all_of(msg: &Msg<'_>) -> u32
    ensures { result ≡ min (length msg.now.first.now + length msg.now.second.now) 4294967295 }
{
    (msg.first.len() + msg.second.len()).min(u32::MAX as usize) as u32
}

/// What the message with the segments is: its tag and its two numbers.
#[derive(Clone, Copy, Drop)]
pub(crate) struct Heading {
    tag: StreamTag,
    a: u32,
    b: u32,
}

/// What the message with these segments is. None where there are none.
fn heads(sends: &[SendTo], tried: Option<u8>) -> Option<Heading>
    ensures { result ≡ heading_of sends.now tried }
{
    let number = u32::from(tried.unwrap_or(0));
    match sends {
        [] => None,
        [one] => Some(Heading {
            tag: one_segment(tried),
            a: number,
            b: u32::from(one.to_port),
        }),
        [one, _, ..] => Some(Heading {
            tag: StreamTag::TwoSegments,
            a: number,
            b: one.body.len() as u32,
        }),
    }
}

/// A segment is a try where a timer covers it.
fn one_segment(tried: Option<u8>) -> StreamTag
    ensures { result ≡ segments_tag tried [] }
{
    match tried {
        Some(_) => StreamTag::TriedSegment,
        None => StreamTag::Segment,
    }
}

/// Says that the place has grown.
fn place_down<L>(place: u32) -> Emit<L>
    ensures { result ≡ place_emit place }
{
    Emit {
        slot: BELOW,
        tag: u8::from(StreamTag::Place),
        a: place,
        b: 0,
        from: 0,
        to: 0,
        load: None,
    }
}

/// Sends the segments that `acts` holds. They stay where they are: they are lent.
fn segments_down<L: CarriesConn>(heading: Heading, acts: Box<Acts>) -> Emit<L>
    ensures { result ≡ segments_emit L.carrier heading acts }
{
    Emit {
        slot: BELOW,
        tag: u8::from(heading.tag),
        a: heading.a,
        b: heading.b,
        from: 0,
        to: 0,
        load: Some(L::carry(ConnLoad::Segments(acts))),
    }
}

/// Asks for the segments, after the place where that has grown.
#[inline(always)]
fn send<L: CarriesConn>(heading: Heading, acts: Box<Acts>, downs: &mut Few<Emit<L>>)
    requires blank { (downs.old.first ≡ None) × (downs.old.second ≡ None) }
    requires heading { heading_of acts.value.sends.items acts.value.tried ≡ Some heading }
    ensures { SendsDown L.carrier acts.value downs.new }
{
    let advance = acts.advance;
    let segments = segments_down(heading, acts);
    match advance {
        Some(place) => {
            downs.first.put(place_down(place));
            downs.second.put(segments);
        }
        None => downs.first.put(segments),
    }
}

/// Asks for what goes down. What `acts` holds is lent where segments are sent, and else comes back at once.
#[inline(always)]
pub(crate) fn ask_down<L: CarriesConn>(
    acts: Box<Acts>,
    downs: &mut Few<Emit<L>>,
) -> Option<Box<Acts>>
    requires blank { (downs.old.first ≡ None) × (downs.old.second ≡ None) }
    ensures { SendsDown L.carrier acts.value downs.new }
{
    match heads(acts.sends.as_slice(), acts.tried) {
        Some(heading) => {
            send(heading, acts, downs);
            None
        }
        None => {
            if let Some(place) = acts.advance {
                downs.first.put(place_down(place));
            }
            Some(acts)
        }
    }
}

/// The bytes that a window lends, as the next ones of the stream.
fn received_up<L: CarriesConn>(window: Box<Lent>) -> Emit<L>
    ensures { result ≡ received_emit L.carrier window }
{
    Emit {
        slot: ABOVE,
        tag: u8::from(StreamTag::Received),
        a: 0,
        b: 0,
        from: 0,
        to: 0,
        load: Some(L::carry(ConnLoad::Window(window))),
    }
}

/// Bytes `from` to `to` of the message, as the next ones of the stream.
#[inline(always)]
pub(crate) fn range_up<L>(from: u32, to: u32) -> Emit<L>
    ensures { result ≡ range_emit from to }
{
    Emit {
        slot: ABOVE,
        tag: u8::from(StreamTag::Received),
        a: 0,
        b: 0,
        from,
        to,
        load: None,
    }
}

/// Says that all of the stream has come.
fn end_up<L>() -> Emit<L>
    ensures { result ≡ end_emit }
{
    Emit {
        slot: ABOVE,
        tag: u8::from(StreamTag::End),
        a: 0,
        b: 0,
        from: 0,
        to: 0,
        load: None,
    }
}

/// Asks for what goes up: what is lent, and then the end.
#[inline(always)]
pub(crate) fn ask_up<L: CarriesConn>(window: Option<Box<Lent>>, ends: bool, ups: &mut Few<Emit<L>>)
    requires blank { (ups.old.first ≡ None) × (ups.old.second ≡ None) }
    ensures { GivesBack L.carrier (boxed window) ends ups.new }
{
    match window {
        Some(lent) => {
            ups.first.put(received_up(lent));
            if ends {
                ups.second.put(end_up());
            }
        }
        None => {
            if ends {
                ups.first.put(end_up());
            }
        }
    }
}

/// Closes both ports at an end, the one above first: its user hears of it before the port below is given back.
#[inline(always)]
pub(crate) fn ask_close<N, L>(over: Option<Cause>, fx: &mut Fx<N, L>)
    requires { fx.old.closes.items ≡ [] }
    ensures { fx.new ≡ record fx.old { closes = record { items = closes_for over } } }
{
    if let Some(cause) = over {
        fx.closes.push((ABOVE, cause));
        fx.closes.push((BELOW, cause));
    }
}
