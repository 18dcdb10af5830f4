// The book of a graph of counted objects: which objects live, their holds and the state of their
// ports, one method for each event, and the relation that says in which order events may stand
// (specs/GraphRun.antt). It knows nothing of what the objects do; the graph above puts nodes beside
// it.
// Begin with `GraphEvent`, then `Book`.
#![tactic(auto)]

mod book;
mod changes;
mod event;
mod happens;
mod keys;
mod message;
mod object;
mod outside;
mod port;

pub use book::Book;
pub use event::{GraphEvent, Way};
pub use message::Msg;
pub use object::Object;
pub use outside::Outside;
pub use port::{ObjId, Port, PortState};
