// The program's words in one call, and what it runs for the words `lab N`: a whole run of the client against the servers of
// a lab, and its summary as text. That client is the one that a replay runs; its input are the records that come from the
// lab, and its output goes to the lab's servers and into the summary. It leaves out the servers and the count, which are
// nb_lab's, and the other words' run, which is nb_boot's. Begin with `call` and `lab` in top.rt, then `play` in run.rt;
// specs/Runs.antt has what a run in a lab is, specs/Shows.antt what is promised, and specs/Keeping.antt why it hands nothing
// off.
#![tactic(auto)]

mod delivering;
mod run;
mod start;
mod top;
mod words;

pub use nb_boot::Status;
pub use top::{call, lab};
