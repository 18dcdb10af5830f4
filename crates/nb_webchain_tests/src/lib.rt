// Tests of opens by HTTP on a graph, a chain of three: segments from a server as it answers, worked by hand, go in, and what
// is told, sent and brought is compared. Begin with `fetching`.
#![tactic(auto)]

#[cfg(test)]
mod fetching;
#[cfg(test)]
mod steps;
