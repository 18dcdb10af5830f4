use nb_drivecmd::{Drive, Hooking};
use nb_login::LoginInfo;
use nb_runner::{Query, Wanted};
use nb_wire::{Ip4, Text};

/// What a command asks for, by an open of its own.
#[derive(Drop)]
pub enum Asked {
    /// A file, which becomes an image or is booted.
    File(Wanted),
    /// A lease, an echo or an address.
    Query(Query),
    /// A disk, which is hooked.
    Disk(AskedDisk),
    /// The first block of a disk, by its open, which lives. Once it has come, the disk is hooked as this drive, if it isn't yet.
    Block(Option<Drive>),
}

/// A disk that is asked for of a server whose address is known (RFC 7143).
#[derive(Drop)]
pub struct AskedDisk {
    pub(crate) hooking: Hooking,
    pub(crate) server: Ip4,
    /// What its login is begun with.
    pub(crate) login: LoginInfo,
    /// Its target's name, a zero byte, and its logical unit.
    pub(crate) target: Text,
}
