// The top call: `netboot` reads records from a line, runs the script of START over them, and writes records.
// Its contract is the program's theorem: what was read spells the records used, what was written spells the
// machine's course and the object graph's run, and every status has its cause. What scripts and commands
// it runs, nb_client says; it leaves out `lab`. Begin with `netboot` in top.rt, then `serve`.
#![tactic(auto)]

mod begin;
mod feeding;
mod output;
mod play;
mod top;
mod turn;
mod words;

pub use nb_runner::Status;
pub use output::write_all;
pub use top::netboot;
