// Tests of what a drive stands on, by public calls: CHAP, the PDUs, the login, the disk's commands and the boot table. A
// crate with tests is proved twice, so they stand in a crate that has nothing else: what is proved here is that each test
// keeps to the contracts of what it calls. Each module is named for the crate that it tests.
#![tactic(auto)]

#[cfg(test)]
mod chap;
#[cfg(test)]
mod disk;
#[cfg(test)]
mod ibft;
#[cfg(test)]
mod iscsipdu;
#[cfg(test)]
mod login;
