// Tests of a drive's objects on a graph, below a fake user that keeps what goes up, with the stream of a recorded target
// given from outside. The kinds of nodes are proved to keep the graph's laws, as kinds that have drives have to. Begin
// with `Rack`, then drives.rt.
#![tactic(auto)]

#[cfg(test)]
mod drives;
mod rack;
#[cfg(test)]
mod recorded;

pub use rack::{Cargo, Rack, Taker};
