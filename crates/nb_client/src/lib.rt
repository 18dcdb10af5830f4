// A client: a run of scripts over records. It joins the scripts (nb_runner) and the opens that live (nb_network): a command
// that waits has asked for an open, or sleeps. Its contract is the machine's course (nb_machine, specs/Courses.antt): each
// call's records are steps of it. Begin with `Client`; what it works on is a `Site`, whose methods each lead from one
// `Stage` to the next.
#![tactic(auto)]

mod answering;
mod asked;
mod asking;
mod booting;
mod client;
mod closing;
mod concluding;
mod drives;
mod handing;
mod images;
mod nesting;
mod next_open;
mod opening;
mod pending;
mod scripts;
mod serving;
mod settling;
mod site;
mod stage;
mod starting;

pub use asked::{Asked, AskedDisk};
pub use booting::FirstBlock;
pub use client::{Client, Turn};
pub use pending::{Answer, Expected, KeptNext, KeptPending, Next, Pending};
pub use stage::Stage;
