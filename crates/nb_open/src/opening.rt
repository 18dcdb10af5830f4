ghost use Rattle.std.specs.Prelude.{◌≡◌};
ghost use Rattle.nb_open.specs.Opening.{chain_kind, speaker_for};

use nb_chains::ChainKind;
use nb_drivenodes::DriveAsk;
use nb_nodes::{Ask, LeaseAsk, LookupAsk, PingAsk};
use nb_teller::{Carrier, Speaker};
use nb_webnodes::WebAsk;
use nb_wire::Ip4;

/// All hosts of the link (RFC 919).
const ALL_HOSTS: Ip4 = Ip4(0xffff_ffff);

/// The UDP port of a client that asks for a lease (RFC 2131, section 4.1).
const DHCP_CLIENT: u16 = 68;

/// A file of an HTTP server.
#[derive(Clone, Copy)]
pub struct WebOpening<'a> {
    /// What is asked for, and by which connection.
    pub ask: WebAsk<'a>,
    /// The whole URL, without its fragment.
    pub url: &'a [u8],
}

/// A drive of an iSCSI target.
#[derive(Clone, Copy)]
pub struct DriveOpening<'a> {
    /// Which unit of which target is asked for, by which connection, and what the login is begun with.
    pub ask: DriveAsk<'a>,
    /// The target's name, a zero byte and the unit, as its OPEN says them.
    pub target: &'a [u8],
}

/// What an open asks for.
#[derive(Clone, Copy)]
pub enum Opening<'a> {
    /// A file of a TFTP server (RFC 1350).
    File(Ask<'a>),
    /// A file of an HTTP server (RFC 9110).
    Web(WebOpening<'a>),
    /// A drive of an iSCSI target (RFC 7143).
    Drive(DriveOpening<'a>),
    /// The address of a name (RFC 1035).
    Name(LookupAsk<'a>),
    /// A lease (RFC 2131).
    Lease(LeaseAsk),
    /// An echo (RFC 792).
    Echo(PingAsk),
}

impl Opening<'_> {
    /// The kind of its objects; of an open by HTTP or of a drive that of what may wait for it, a Fetch or a unit.
    pub fn kind(&self) -> ChainKind
        ensures { result ≡ chain_kind self.now }
    {
        match self {
            Opening::File(_) | Opening::Web(_) => ChainKind::File,
            Opening::Drive(_) => ChainKind::Drive,
            Opening::Name(_) => ChainKind::Name,
            Opening::Lease(_) => ChainKind::Lease,
            Opening::Echo(_) => ChainKind::Echo,
        }
    }

    /// Who speaks for the open of this number.
    pub fn speaker(&self, number: u16) -> Speaker
        ensures { result ≡ speaker_for self.now number }
    {
        let (carrier, server, own_port) = match self {
            Opening::File(ask) => (Carrier::Udp, ask.server, ask.own_port),
            Opening::Web(web) => (Carrier::Tcp, web.ask.conn.peer, web.ask.conn.own_port),
            Opening::Drive(drive) => (Carrier::Tcp, drive.ask.conn.peer, drive.ask.conn.own_port),
            Opening::Name(ask) => (Carrier::Udp, ask.server, ask.own_port),
            Opening::Lease(_) => (Carrier::Udp, ALL_HOSTS, DHCP_CLIENT),
            Opening::Echo(ask) => (Carrier::Icmp, ask.host, ask.ident),
        };
        Speaker {
            number,
            carrier,
            server,
            own_port,
        }
    }
}
