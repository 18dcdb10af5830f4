use nb_wire::Ip4;

/// A datagram, or an echo reply.
#[derive(Clone, Copy, Debug, PartialEq, Eq)]
pub struct Arrival<'a> {
    /// The port that it comes from, of an echo reply its identifier.
    pub port: u16,
    /// The address that it comes from.
    pub source: Ip4,
    pub body: &'a [u8],
}
