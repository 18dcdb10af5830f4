//! The next hop of what is sent.

ghost use Rattle.std.specs.Prelude.{◌≡◌};
ghost use Rattle.nb_stack.specs.Route.{is_in_net, hop_from, packet_route, route_of};

use crate::address::{ALL_HOSTS, Addr, DHCP_CLIENT};
use nb_wire::Ip4;

/// The way that a packet takes.
#[derive(Clone, Copy)]
pub(crate) enum Way {
    /// There is none.
    Nowhere,
    /// To all on the link, from 0.0.0.0.
    Everyone,
    /// From this address to the host `hop` on the link.
    Hop { from: Ip4, hop: Ip4 },
}

// The way of a datagram.
pub(crate) fn datagram_way(up: bool, address: Option<Addr>, to: Ip4, own_port: u16) -> Way
    ensures { result ≡ route_of up address to own_port }
{
    if up && own_port == DHCP_CLIENT && to.0 == ALL_HOSTS.0 {
        return Way::Everyone;
    }
    packet_way(up, address, to)
}

// The way of another packet.
pub(crate) fn packet_way(up: bool, address: Option<Addr>, to: Ip4) -> Way
    ensures { result ≡ packet_route up address to }
{
    match address {
        Some(address) if up => hop(address, to),
        _ => Way::Nowhere,
    }
}

fn hop(address: Addr, to: Ip4) -> Way
    ensures { result ≡ hop_from address to }
{
    if in_net(address, to) {
        Way::Hop {
            from: address.ip,
            hop: to,
        }
    } else {
        match address.gateway {
            Some(gateway) => Way::Hop {
                from: address.ip,
                hop: gateway,
            },
            None => Way::Nowhere,
        }
    }
}

fn in_net(address: Addr, to: Ip4) -> bool
    ensures { result ≡ is_in_net address to }
{
    to.0 & address.mask.0 == address.ip.0 & address.mask.0
}
