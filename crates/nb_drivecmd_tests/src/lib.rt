// Tests of the drive commands, by public calls: rows of commands one after another on one list of drives, words that
// are refused, the number of a drive by its setting, and the list of drives. A crate with tests is proved twice, so they
// stand in a crate that has nothing else.
#![tactic(auto)]

#[cfg(test)]
mod rows;
#[cfg(test)]
mod tables;
