// The link and network layer of the client: which frames are for it and what they bring, its
// neighbours' hardware addresses (RFC 826), the ports that its sockets are bound to, and the route
// of what it sends (RFC 791, RFC 1122). UDP datagrams (RFC 768), echoes (RFC 792) and TCP segments
// (RFC 9293) are carried; a packet of another protocol is dropped. No call takes memory. Begin with
// `Stack`.
#![tactic(auto)]

mod acks;
mod address;
mod envelope;
mod message;
mod neighbours;
mod ports;
mod put;
mod reading;
mod reset;
mod route;
mod stack;
mod taken;

pub use address::Addr;
pub use envelope::Envelope;
pub use neighbours::{MAX_NEIGHBOURS, Neighbour};
pub use ports::{MAX_PORTS, Port};
pub use stack::Stack;
pub use taken::{Fate, Taken};
