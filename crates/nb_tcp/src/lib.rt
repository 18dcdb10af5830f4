// The client's end of one TCP connection (RFC 9293): a core without IO or clock. `Conn::start` asks for
// the connection; from then on it is handed each segment of its port, each time, and what is to be sent,
// and returns by `Acts` what to send, how far the peer's stream has come, and how it ended. What has come
// waits in a `Held`, which is lent to be delivered and given back. One segment of ours is unacknowledged at
// a time. It never asks to close but by `shut`, and doesn't wait for an answer to that. Begin with `Conn`;
// what it promises of all its calls is `ConnKeeps` of specs/.
#![tactic(auto)]

mod conn;
mod laws;
mod link;
mod place;
mod receiving;
mod steps;
mod syn_answer;
mod variables;

pub use conn::{Conn, SendError};
pub use laws::{
    delivers_a_prefix, ends_with_its_cause, nothing_is_kept_back, only_segments_bring_bytes,
    sends_what_may_be_sent,
};
