ghost use Rattle.std.specs.Prelude.{◌≡◌};
ghost use Rattle.nb_stack.specs.Owns.{owns};

use nb_wire::{Ip4, Mac};

/// The hardware address of every interface on the link.
pub(crate) const EVERYONE: Mac = Mac([0xff; 6]);

/// The address of every host on the link, 255.255.255.255 (RFC 919).
pub(crate) const ALL_HOSTS: Ip4 = Ip4(0xffff_ffff);

/// The UDP port of a DHCP client (RFC 2131), which is reached and sends before it has an address.
pub(crate) const DHCP_CLIENT: u16 = 68;

/// The address that a client has, and its net.
#[derive(Clone, Copy, Debug, PartialEq, Eq)]
pub struct Addr {
    /// The client's own address.
    pub ip: Ip4,
    /// The bits of an address that name the net (RFC 950).
    pub mask: Ip4,
    /// The host that takes what is for other nets.
    pub gateway: Option<Ip4>,
}

// Whether `ip` is the client's own address.
pub(crate) fn is_own(address: Option<Addr>, ip: Ip4) -> bool
    ensures { result ≡ owns address ip }
{
    match address {
        Some(address) => address.ip.0 == ip.0,
        None => false,
    }
}
