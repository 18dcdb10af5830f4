// Frames: what a call on some objects of a graph leaves of all others, and that these objects are a graph of their own,
// on which the call does what it does on the whole. Laws over the relation of nb_graph between the state before a call
// and the state after it, for any kind of node; there is no code that runs. Objects that are made within a call are
// left out. Begin with specs/Frames.antt.
#![tactic(auto)]

mod laws;

pub use laws::{goes_as_alone, makes_change_no_other, others_stay, others_stay_a_graph};
