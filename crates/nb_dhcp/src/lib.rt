//! A lease by DHCP (RFC 2131): a core without IO, clock or memory of its own.
//!
//! `Dhcp::start` asks all servers for an offer, requests the first valid one, and ends with that server's
//! acknowledgement or refusal. From then on the core is handed each message of its port and each time, and
//! says by `Acts` what to send and how it ended. Left out: renewal, the choice between offers, and what the
//! acknowledgement means, whose bytes `ack` gives. Start with `Dhcp`; what it promises is `LeaseStands` of
//! specs/. What follows from that for a caller that keeps the calls is said by the functions of `laws`.
#![tactic(auto)]

mod asker;
mod dhcp;
mod laws;
mod offer;
mod request;
mod state;

pub use asker::Asker;
pub use dhcp::Dhcp;
pub use laws::{ends_for_a_cause, keeps_the_first_offers_lease, requests_the_first_offer};
pub use offer::Offer;
