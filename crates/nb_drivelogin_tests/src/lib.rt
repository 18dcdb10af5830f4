// Tests of what a drive's login is begun with, by the settings, and of what a boot table is to say. A crate with tests is
// proved twice, so they stand in a crate that has nothing else.
#![tactic(auto)]

#[cfg(test)]
mod logins;
#[cfg(test)]
mod tables;
