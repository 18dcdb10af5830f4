// Tests of a drive's objects on a graph: recorded sessions with two targets, whose streams come as segments of a
// connection. A crate with tests is proved twice, so they stand in a crate that has nothing else.
#![tactic(auto)]

#[cfg(test)]
mod playing;
#[cfg(test)]
mod recorded;
