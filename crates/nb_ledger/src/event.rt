ghost use Rattle.std.specs.Prelude.{◌≡◌};
ghost use Rattle.nb_ledger.specs.Flat.{flat, way_number};

use crate::{ObjId, Port};
use nb_terms::{Cause, Event};

/// How an object is entered: by a message from below, by one from above, by the closing of a port,
/// or
/// by time.
#[derive(Clone, Copy, Debug, PartialEq, Eq)]
pub enum Way {
    Up,
    Down,
    Close,
    Time,
}

impl Way {
    /// The number of a way in an event's second slot.
    #[inline(always)]
    fn number(self) -> u8
        ensures { result ≡ way_number self }
    {
        match self {
            Way::Up => 0,
            Way::Down => 1,
            Way::Close => 2,
            Way::Time => 3,
        }
    }
}

/// What happens to an object. `Made` has the object's kind, `Plugged` the upper port and then the
/// lower one, `Unplugged` the port that was closed first and then its peer. An entry by time has
/// the
/// slot 4.
#[derive(Clone, Copy, Debug, PartialEq, Eq)]
pub enum GraphEvent {
    Made(ObjId, u8),
    Held(ObjId),
    LetGo(ObjId),
    Plugged(Port, Port),
    Entered(Port, Way),
    Left(Port),
    Dropped(Port),
    Closed(Port, Cause),
    Unplugged(Port, Port),
    Freed(ObjId),
}

impl GraphEvent {
    /// The event as it is traced.
    pub fn spelled(&self) -> Event
        ensures { result ≡ flat self.now }
    {
        match *self {
            GraphEvent::Made(object, kind) => Event {
                other: u64::from(kind),
                ..of_object(1, object)
            },
            GraphEvent::Held(object) => of_object(2, object),
            GraphEvent::LetGo(object) => of_object(3, object),
            GraphEvent::Plugged(upper, lower) => of_link(4, upper, lower),
            GraphEvent::Entered(port, way) => entry_event(port, way),
            GraphEvent::Left(port) => left_event(port),
            GraphEvent::Dropped(port) => of_port(7, port),
            GraphEvent::Closed(port, cause) => Event {
                cause,
                ..of_port(8, port)
            },
            GraphEvent::Unplugged(first, other) => of_link(9, first, other),
            GraphEvent::Freed(object) => of_object(10, object),
        }
    }
}

ghost use Rattle.nb_ledger.specs.Flat.{object_event, port_event, link_event};
ghost use Rattle.nb_ledger.specs.declared.event.GraphEvent.TheVariants.{Entered, Left};

/// An entry as it is traced. It has a function of its own, as it is frequent.
#[inline(always)]
pub(crate) fn entry_event(port: Port, way: Way) -> Event
    ensures { result ≡ flat (Entered port way) }
{
    Event {
        other_slot: way.number(),
        ..of_port(5, port)
    }
}

/// The end of an entry as it is traced.
#[inline(always)]
pub(crate) fn left_event(port: Port) -> Event
    ensures { result ≡ flat (Left port) }
{
    of_port(6, port)
}

fn of_object(event: u8, object: ObjId) -> Event
    ensures { result ≡ object_event event object.0 }
{
    of_port(
        event,
        Port {
            obj: object,
            slot: 0,
        },
    )
}

#[inline(always)]
fn of_port(event: u8, port: Port) -> Event
    ensures { result ≡ port_event event port }
{
    of_link(
        event,
        port,
        Port {
            obj: ObjId(0),
            slot: 0,
        },
    )
}

#[inline(always)]
fn of_link(event: u8, port: Port, other: Port) -> Event
    ensures { result ≡ link_event event port other }
{
    Event {
        event,
        object: port.obj.0,
        slot: port.slot,
        other: other.obj.0,
        other_slot: other.slot,
        cause: Cause {
            code: 0,
            a: 0,
            b: 0,
        },
    }
}
