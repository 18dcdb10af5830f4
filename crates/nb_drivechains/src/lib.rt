// Drives on a graph: a logical unit, a session with an iSCSI target (RFC 7143) plugged below it, and a connection
// (RFC 9293) below that, whatever else lives there. Each call is one of the three objects of nb_webchains, and says what
// these do as a graph of their own. A unit that waits for its server's address stands alone. Begin with `DriveChain`.
#![tactic(auto)]

mod drive_answer;
mod drive_chain;
mod laws;
mod making;

pub use drive_answer::DriveAnswer;
pub use drive_chain::DriveChain;
pub use laws::{ready_drives_are_open, waiting_units_are_apart};
