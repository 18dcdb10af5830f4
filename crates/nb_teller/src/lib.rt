// What lies outside the graph of an open: what its objects tell in a call is spelled at once, as records, and what they
// deliver is kept, with whether a message found no route. A frame is put together in a room that is lent (RFC 768, RFC 792).
// It knows nothing of scripts and commands. Begin with `Teller`, then `Spelled`.
#![tactic(auto)]

mod desk;
mod put;
mod speaker;
mod spelled;
mod teller;

pub use desk::{Desk, Room, lent};
pub use put::{put_over, put_reply, put_result, put_step, put_told};
pub use speaker::{Carrier, Speaker, UDP};
pub use spelled::Spelled;
pub use teller::Teller;
