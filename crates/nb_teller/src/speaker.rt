ghost use Rattle.std.specs.Prelude.{◌≡◌};
ghost use Rattle.nb_teller.specs.Speakers.{speaker_by, carrier_number};

use nb_wire::Ip4;

/// UDP's number as a protocol (RFC 768).
pub const UDP: u8 = 17;

/// What carries an open's messages.
#[derive(Clone, Copy, Debug, PartialEq, Eq)]
pub enum Carrier {
    /// UDP (RFC 768).
    Udp,
    /// ICMP (RFC 792).
    Icmp,
    /// TCP (RFC 9293).
    Tcp,
}

/// Whose messages leave.
#[derive(Clone, Copy, Debug)]
pub struct Speaker {
    /// The open's number.
    pub number: u16,
    /// What carries its messages.
    pub carrier: Carrier,
    /// To whom they go.
    pub server: Ip4,
    /// The client's port, of an echo its identifier.
    pub own_port: u16,
}

impl Speaker {
    /// Who speaks for an open of this number that sends by UDP, to this server from this port.
    #[inline(always)]
    pub fn by_udp(number: u16, server: Ip4, own_port: u16) -> Speaker
        ensures { result ≡ speaker_by number server own_port }
    {
        Speaker {
            number,
            carrier: Carrier::Udp,
            server,
            own_port,
        }
    }

    /// Nobody: what is put of the graph's events alone has no speaker.
    pub fn nobody() -> Speaker {
        Speaker::by_udp(0, Ip4(0), 0)
    }
}

impl Carrier {
    /// The protocol's number.
    #[inline(always)]
    pub fn number(self) -> u8
        ensures { result ≡ carrier_number self }
    {
        match self {
            Carrier::Udp => UDP,
            Carrier::Icmp => 1,
            Carrier::Tcp => 6,
        }
    }
}
