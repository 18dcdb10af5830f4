// The terms that protocol cores, the object graph and the records share: causes, graph events, what
// a core asks for, and out of memory. They stand in a crate of their own, so that cores and graph
// don't hang on the records' spelling. Begin with `Cause`, then `Acts`.
#![tactic(auto)]

mod acts;
mod cause;
mod event;
mod no_memory;
mod reason;

pub use acts::{Acts, MAX_BODY, SendTo, Sends};
pub use cause::Cause;
pub use event::Event;
pub use no_memory::NoMemory;
pub use reason::{Fullness, Large, Long, Many, Plain, Reason};
