//! The look-up of a name's address by DNS (RFC 1035): a core without IO, clock or memory of its own.
//!
//! `Dns::start` asks the server for the addresses of a name. From then on the look-up is handed each message
//! of its port and each time, and says by `Acts` what to send, and how it ended. What isn't the server's
//! answer to the question is ignored. Start with `Dns`; what it promises is `LookupStands` of specs/. What
//! follows from that for a caller that keeps the calls is said by the functions of `laws`.
#![tactic(auto)]

mod dns;
mod laws;
mod state;
mod written;

pub use dns::{BadName, Dns};
pub use laws::{
    ends_for_a_cause, names_are_tested, one_lookup_answer, replies_are_read_by_the_grammar,
    replies_end_it, sends_the_query_alone, tries_in_silence,
};
pub use written::is_name;
