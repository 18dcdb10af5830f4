// Tests of a connection's object on a graph, below a fake user that takes a few bytes at a time. The fake kinds of
// nodes are proved to keep the graph's laws, as kinds that have connections have to. Begin with `Knot`, then conn.rt.
#![tactic(auto)]

#[cfg(test)]
mod conn;
mod knot;

pub use knot::{Carried, Knot, Taker};
