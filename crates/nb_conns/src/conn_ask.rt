ghost use Rattle.std.specs.Prelude.{◌≡◌, Some};
ghost use Rattle.nb_conns.specs.ConnAsks.{conn_ask_in, conn_ask_bytes};

use nb_wire::Ip4;

/// Which connection is asked for. As the bytes of the message that begins it: the peer's address and port, the
/// client's own, and the number of its SYN, each with its high byte first.
#[derive(Clone, Copy, Debug, PartialEq, Eq, Drop)]
pub struct ConnAsk {
    pub peer: Ip4,
    pub peer_port: u16,
    /// The client's own address.
    pub own: Ip4,
    pub own_port: u16,
    /// The initial sequence number (RFC 9293, section 3.4.1).
    pub isn: u32,
}

impl ConnAsk {
    /// What these bytes ask for. None where they aren't 16.
    pub fn read(bytes: &[u8]) -> Option<ConnAsk>
        ensures { result ≡ conn_ask_in bytes.now }
    {
        match bytes {
            [
                p0,
                p1,
                p2,
                p3,
                q0,
                q1,
                o0,
                o1,
                o2,
                o3,
                r0,
                r1,
                i0,
                i1,
                i2,
                i3,
            ] => Some(ConnAsk {
                peer: Ip4(u32::from_be_bytes([*p0, *p1, *p2, *p3])),
                peer_port: u16::from_be_bytes([*q0, *q1]),
                own: Ip4(u32::from_be_bytes([*o0, *o1, *o2, *o3])),
                own_port: u16::from_be_bytes([*r0, *r1]),
                isn: u32::from_be_bytes([*i0, *i1, *i2, *i3]),
            }),
            _ => None,
        }
    }

    /// The bytes that ask for this.
    pub fn bytes(&self) -> [u8; 16]
        ensures value { result ≡ conn_ask_bytes self.now }
    {
        let [p0, p1, p2, p3] = self.peer.0.to_be_bytes();
        let [q0, q1] = self.peer_port.to_be_bytes();
        let [o0, o1, o2, o3] = self.own.0.to_be_bytes();
        let [r0, r1] = self.own_port.to_be_bytes();
        let [i0, i1, i2, i3] = self.isn.to_be_bytes();
        [
            p0, p1, p2, p3, q0, q1, o0, o1, o2, o3, r0, r1, i0, i1, i2, i3,
        ]
    }
}
