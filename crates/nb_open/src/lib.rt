// One open: its objects on the graph, how it begins, what comes to it, and how it ends (RFC 1350, 9110, 7143, 1035, 2131, 792), for
// opens of any kind beside others that live. Each call says what it does to the open as the machine has it (nb_machine's
// Live), and what the records of the graph among its output are (nb_traced). It knows of no script and no list of opens.
// Begin with `Open`, then `Opening`.
#![tactic(auto)]

mod beginning;
mod drive_bytes;
mod ended;
mod ending;
mod laws;
mod making;
mod objects;
mod open;
mod opening;

pub use beginning::Begun;
pub use ended::{Ended, KeptEnded};
pub use ending::give_up;
pub use laws::opens_stay;
pub use objects::OpenObjects;
pub use open::Open;
pub use opening::{DriveOpening, Opening, WebOpening};
