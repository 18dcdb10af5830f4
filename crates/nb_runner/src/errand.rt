//! What a command fetches or asks, before its server's address is known and after that.

ghost use Rattle.std.specs.Prelude.{◌≡◌};
ghost use Rattle.nb_imagecmd.specs.Asking.{target_host, target_text, target_port};
ghost use Rattle.nb_runner.specs.CommandWords.{errand_of, errand_hooks, onward_of, onward_hooks, FitsErrand, FitsOnward};
ghost use Rattle.nb_machine.specs.Errands.{onward};

use nb_drivecmd::Hooking;
use nb_imagecmd::Asking;
use nb_uri::UriTarget;
use nb_wire::{Ip4, Text};

/// A file that a command asks for, of a server whose address is known.
#[derive(Drop)]
pub struct Wanted {
    /// The address of the server.
    pub server: Ip4,
    /// The file.
    pub asking: Asking,
}

/// What is asked of a server whose name is looked up first.
#[derive(Drop)]
pub enum Errand {
    /// This file of it is fetched.
    File(Asking),
    /// It is asked for an echo (RFC 792).
    Echo,
    /// This disk of it is hooked.
    Disk(Hooking),
}

/// What is asked of a server whose address was found.
#[derive(Drop)]
pub enum Onward {
    /// This file is fetched.
    File(Wanted),
    /// It is asked for an echo.
    Echo(Ip4),
    /// This disk is hooked.
    Disk { hooking: Hooking, server: Ip4 },
    /// A name server is asked for the address of another server's name, of which this is asked then.
    Name { errand: Errand, name: Text, by: Ip4 },
}

impl Errand {
    /// The same of the server that has this address.
    pub fn at(self, server: Ip4) -> Onward
        ensures value { onward_of result ≡ onward (errand_of self) server.0 }
        ensures fits { FitsErrand self → FitsOnward result }
        ensures hooks { onward_hooks result ≡ errand_hooks self }
    {
        match self {
            Errand::File(asking) => Onward::File(Wanted { server, asking }),
            Errand::Echo => Onward::Echo(server),
            Errand::Disk(hooking) => Onward::Disk { hooking, server },
        }
    }
}

impl Wanted {
    /// The port at which the server is asked.
    pub fn port(&self) -> u16
        ensures { result ≡ target_port self.now.asking.target }
    {
        match &self.asking.target {
            UriTarget::Tftp { port, .. } => *port,
            UriTarget::Http { port, .. } => *port,
            UriTarget::Iscsi { port, .. } => *port,
        }
    }

    /// What the server is asked for.
    pub fn path(&self) -> &[u8]
        ensures { result.now ≡ target_text self.now.asking.target }
    {
        match &self.asking.target {
            UriTarget::Tftp { path, .. } => path.as_slice(),
            UriTarget::Http { whole, .. } => whole.as_slice(),
            UriTarget::Iscsi { name, .. } => name.as_slice(),
        }
    }

    /// The server, by its address or its name, as the URI has it.
    pub fn host(&self) -> &[u8]
        ensures { result.now ≡ target_host self.now.asking.target }
    {
        host_of(&self.asking.target)
    }
}

/// The server that a URI names, by its address or its name.
pub(crate) fn host_of(target: &UriTarget) -> &[u8]
    ensures { result.now ≡ target_host target.now }
{
    match target {
        UriTarget::Tftp { host, .. } => host.as_slice(),
        UriTarget::Http { host, .. } => host.as_slice(),
        UriTarget::Iscsi { host, .. } => host.as_slice(),
    }
}
