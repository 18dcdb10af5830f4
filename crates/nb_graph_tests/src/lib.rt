// Tests of the graph by its public calls, over a kind of node that does one deed. A crate with tests is proved twice,
// so they stand in a crate that has nothing else. Begin with `Fake`.
#![tactic(auto)]

#[cfg(test)]
mod fake;
#[cfg(test)]
mod graph;
