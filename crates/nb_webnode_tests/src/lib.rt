// Tests of a fetch's object on a graph, below a fake user that keeps what goes up, with the stream given in pieces from
// outside. The kinds of nodes are proved to keep the graph's laws, as kinds that fetch have to. Begin with `Bench`,
// then fetching.rt.
#![tactic(auto)]

mod bench;
#[cfg(test)]
mod fetching;

pub use bench::{Bench, Keeper, Words};
