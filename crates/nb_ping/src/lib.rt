//! A ping of a host (RFC 792): a core without IO, clock or memory of its own.
//!
//! `Ping::start` sends an echo request to the host, with an identifier. From then on the ping is handed each
//! echo reply and each time, and says by `Acts` what to send, and how it ended. What isn't the host's reply
//! with that identifier is ignored; neither its sequence number nor its data are looked at, and no round trip
//! is measured. Start with `Ping`; what it promises is `PingStands` of specs/. What follows from that for a
//! caller that keeps the calls is said by the functions of `laws`.
#![tactic(auto)]

mod laws;
mod ping;
mod state;

pub use laws::{ends_for_a_cause, replies_end_it, sends_the_request_alone, tries_in_silence};
pub use ping::Ping;
