//! What a table says.

use arrayvec::ArrayVec;
use nb_wire::{Ip4, Mac, Text};
use std::alloc::Global;
use std::default::MadeWith;

/// The most bytes of a text in a table.
pub const MAX_TEXT: usize = 1088;

/// A disk of an iSCSI target (RFC 7143), and how the client has logged in there. It has secrets, so it can't be
/// printed.
#[derive(Drop)]
pub struct BootTarget {
    /// The target's address; 0 is none.
    pub address: Ip4,
    pub port: u16,
    /// The logical unit's number, as it stands in a SCSI command.
    pub lun: [u8; 8],
    /// 0 without CHAP, 1 one way, 2 both ways (RFC 1994).
    pub chap: u8,
    /// The target's name.
    pub name: Text,
    /// The name and the secret by which the client is known to the target.
    pub user: Text,
    pub secret: Text,
    /// The name and the secret by which the target is known to the client.
    pub reverse_user: Text,
    pub reverse_secret: Text,
}

/// What an operating system is to know of the client's network and its disks. An address of 0 is none.
#[derive(Drop)]
pub struct BootInfo {
    /// The initiator's name (RFC 7143, section 4.2.7).
    pub initiator: Text,
    /// The client's host name.
    pub host: Text,
    pub mac: Mac,
    pub address: Ip4,
    /// How many leading bits of the mask are set.
    pub prefix: u8,
    pub gateway: Ip4,
    /// The name servers.
    pub dns: [Ip4; 2],
    pub dhcp_server: Ip4,
    /// The disks, by rising number.
    pub targets: ArrayVec<BootTarget, 2, Global>,
}

/// A disk of no target, which stands in the unused places of a list.
impl MadeWith<Global> for BootTarget {
    fn made_with(alloc: Global) -> BootTarget {
        BootTarget {
            address: Ip4(0),
            port: 0,
            lun: [0; 8],
            chap: 0,
            name: Text::from_vec(Vec::new(alloc)),
            user: Text::from_vec(Vec::new(alloc)),
            secret: Text::from_vec(Vec::new(alloc)),
            reverse_user: Text::from_vec(Vec::new(alloc)),
            reverse_secret: Text::from_vec(Vec::new(alloc)),
        }
    }
}
