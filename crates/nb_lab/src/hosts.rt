//! The two hosts of a lab.

use nb_wire::{Ip4, Mac};

/// The client's interface.
pub const CLIENT_MAC: Mac = Mac([0x52, 0x54, 0, 0, 0, 1]);

/// The client's address.
pub const CLIENT: Ip4 = Ip4(0x0a00_0002);

/// The mask of the net that both are in.
pub const MASK: Ip4 = Ip4(0xffff_ff00);

/// The servers' interface.
pub const SERVER_MAC: Mac = Mac([0x52, 0x54, 0, 0, 0, 2]);

/// The servers' address.
pub const SERVER: Ip4 = Ip4(0x0a00_0001);

/// The interface that frames for all are addressed to (RFC 894).
pub const EVERYONE: Mac = Mac([0xff, 0xff, 0xff, 0xff, 0xff, 0xff]);

/// Whom a server talks to: the interface that its frames came from, its address and its port.
#[derive(Clone, Copy, Debug, PartialEq, Eq)]
pub struct Peer {
    pub mac: Mac,
    pub ip: Ip4,
    pub port: u16,
}
