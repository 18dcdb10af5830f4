// Tests of the codecs and of the stack by their public calls, with packets that were captured or stand in an RFC.
// A crate with tests is proved twice, so they stand in a crate that has nothing else: what is proved here is that
// each test keeps to the contracts of what it calls. Each module is named for the crate that it tests.
#![tactic(auto)]

#[cfg(test)]
mod dhcpmsg;
#[cfg(test)]
mod dnsmsg;
#[cfg(test)]
mod ether;
#[cfg(test)]
mod httpmsg;
#[cfg(test)]
mod ipv4;
#[cfg(test)]
mod stack;
#[cfg(test)]
mod tcpseg;
#[cfg(test)]
mod tftpmsg;
#[cfg(test)]
mod wire;
