// A lab: servers of ARP (RFC 826), TFTP (RFC 1350, 2347 to 2349) and HTTP over TCP (RFC 9112, 9293) for
// one client, whose frames are lost, doubled or late by their numbers; the script that fetches all their
// images; and the summary of a run of it. All of it is a function of how many images there are and of the
// frames that are given: it has no clock and no IO. The servers hold one transfer and one connection at a
// time, and send without end to a client that went away. Begin with `Lab`, then `Summary`.
#![tactic(auto)]

mod answer;
mod connection;
mod delivery;
mod fate;
mod hosts;
mod image;
mod lab;
mod laws;
mod page;
mod piece;
mod received;
mod request;
mod script;
mod server;
mod shown;
mod silence;
mod summary;
mod transfer;

pub use image::Image;
pub use lab::{Coming, Lab};
pub use laws::{
    blocks_join_to_the_image, frames_come_by_their_numbers, responses_are_sent_in_order,
};
pub use shown::Shown;
pub use summary::Summary;
