//! The login of one iSCSI session (RFC 7143, sections 6.3 and 13), with CHAP one way or both ways (RFC 1994)
//! where a name and a secret are set. It is given the target's PDUs, and returns the text of each request; it
//! ends with a session, or with the cause for which there is none. It isn't begun with a name that would add a
//! key of its own. It knows no time, no digests and one
//! connection alone, and follows no redirection. Begin with `Login`, then `Decision` in step.rt.
#![tactic(auto)]

mod answers;
mod challenge;
mod decision;
mod info;
mod keys;
mod laws;
mod login;
mod refusal;
mod request;
mod session;
mod state;
mod step;

pub use info::LoginInfo;
pub use laws::{
    ends_by_the_eighth_answer, ends_for_a_cause, opens_after_proof, records_show_in_ends_alone,
    requests_are_pdus, secrets_are_not_sent, settings_add_no_keys, what_came_determines_it,
};
pub use login::Login;
pub use refusal::{LoginRefusal, SentName};
pub use session::Session;
