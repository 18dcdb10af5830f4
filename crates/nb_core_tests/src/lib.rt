// Tests of the timer and of the protocol cores by their public calls, against servers as they answer on a wire.
// A crate with tests is proved twice, so they stand in a crate that has nothing else: what is proved here is that
// each test keeps to the contracts of what it calls. Each module is named for the crate that it tests.
#![tactic(auto)]

#[cfg(test)]
mod dhcp;
#[cfg(test)]
mod dns;
#[cfg(test)]
mod http;
#[cfg(test)]
mod ping;
#[cfg(test)]
mod reasm;
#[cfg(test)]
mod retry;
#[cfg(test)]
mod tcp;
#[cfg(test)]
mod tftp;
