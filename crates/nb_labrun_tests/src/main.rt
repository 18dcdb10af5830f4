// Tests of a run in a lab by a line over memory. A crate with tests is proved twice, so they stand in a crate that has
// nothing else. Begin with `prints_the_summary`.
#![tactic(auto)]

#[cfg(test)]
mod runs;

fn main() {}
