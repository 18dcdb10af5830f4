// How the objects of an open end: each closes the port to its user and the one below it together, so that of a chain of
// objects, each plugged to the next, all these ports are closed or none is (specs/Chained.antt). Definitions and laws, no
// code that runs. Begin with specs/Passing.antt.
#![tactic(auto)]

mod laws;

pub use laws::{chains_are_shut, chains_end_whole, objects_pass_on};
