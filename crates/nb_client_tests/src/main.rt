// Tests of the opens that a client holds: several live at once, made by the tests' own calls, since each command waits for
// the one that it has made. A crate with tests is proved twice, so they stand in a crate that has nothing else. Begin with
// `Bench`, then opens.rt.
#![tactic(auto)]

#[cfg(test)]
mod bench;
#[cfg(test)]
mod frames;
#[cfg(test)]
mod opens;
#[cfg(test)]
mod rows;

fn main() {}
