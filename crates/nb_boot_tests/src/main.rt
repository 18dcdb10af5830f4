// Tests of the top call by a line over memory. A crate with tests is proved twice, so they stand in a crate that has
// nothing else. Begin with `hello`.
#![tactic(auto)]

#[cfg(test)]
mod runs;

fn main() {}
