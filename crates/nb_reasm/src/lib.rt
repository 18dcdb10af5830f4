// The bytes of a stream that are held between the first one not yet delivered and the end of a
// window (RFC 9293, section 3.10.7.4): what comes out of order waits, what comes twice is dropped,
// and of two bytes for one place the first stays. A ring, which takes its memory once. Begin with
// `Held`.
#![tactic(auto)]

mod held;
mod marks;
mod memory;
mod ring;
mod room;

pub use held::{Held, MAX_CAPACITY, Put};
