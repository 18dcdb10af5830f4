//! What a server offers.

use nb_wire::Ip4;

/// An offer of a server (RFC 2131, section 4.3.1).
#[derive(Clone, Copy, Debug, PartialEq, Eq, Drop)]
pub struct Offer {
    /// The server's identifier (RFC 2132, section 9.7).
    pub server: Ip4,
    /// The address that is offered.
    pub address: Ip4,
}
