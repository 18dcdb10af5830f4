//! What a command asks by one exchange.

use crate::errand::Errand;
use nb_wire::{Ip4, Text};

/// What a command asks by one exchange.
#[derive(Drop)]
pub enum Query {
    /// A lease (RFC 2131).
    Lease,
    /// An echo of this host (RFC 792).
    Echo(Ip4),
    /// The address of a name, of this name server (RFC 1035), for this setting.
    Address { setting: Text, name: Text, by: Ip4 },
    /// The address of a server's name, of this name server; this is asked of that server then.
    Host { errand: Errand, name: Text, by: Ip4 },
}
