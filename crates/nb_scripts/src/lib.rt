// A text that is to run: the script that it is, or why it is none, and what a script keeps of a result. Begin with
// `read_text`. How scripts run within one another is said in nb_machine.
#![tactic(auto)]

mod entry;
mod kept;

pub use entry::{TextRead, read_text};
pub use kept::kept_result;

/// How many scripts may be within one another, the first included.
pub const MOST_SCRIPTS: usize = 8;
