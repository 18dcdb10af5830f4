// A TCP connection as an object of nb_graph, over the core `Conn` of nb_tcp (RFC 9293): its user is plugged to slot
// 0, the network lies below slot 1. It isn't a node by itself: a kind of node that has connections calls it, and its
// loads carry a `ConnLoad` (`CarriesConn`). What it has done is said over its trace, in terms of the calls of its
// core (specs/Dialogues.antt). What listens, and what asks to close before it is closed from above, is left out.
// Begin with `Tcp`, then `StreamTag` and `ConnLoad`.
#![tactic(auto)]

mod asking;
mod conn_ask;
mod conn_load;
mod stage;
mod stream_tag;
mod tcp;

pub use conn_ask::ConnAsk;
pub use conn_load::{CarriesConn, ConnLoad, Lent};
pub use stream_tag::StreamTag;
pub use tcp::Tcp;
