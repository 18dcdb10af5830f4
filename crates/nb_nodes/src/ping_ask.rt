ghost use Rattle.std.specs.Prelude.{◌≡◌, Some};
ghost use Rattle.std.specs.Option.{option_map};
ghost use Rattle.nb_nodes.specs.EchoExchanges.{pinged_by, ping_asked, ping_bytes};

use nb_wire::Ip4;

/// What a ping asks for. As the bytes of the message that begins an open it is the host's address and the
/// identifier, each with its high byte first.
#[derive(Clone, Copy, Debug, PartialEq, Eq)]
pub struct PingAsk {
    /// Whose echo is asked for.
    pub host: Ip4,
    /// The identifier of the requests (RFC 792, page 14).
    pub ident: u16,
}

impl PingAsk {
    /// What these bytes ask for. None where they are no `PingAsk`.
    pub fn read(bytes: &[u8]) -> Option<PingAsk>
        ensures { option_map pinged_by result ≡ ping_asked bytes.now }
    {
        match bytes {
            [h0, h1, h2, h3, i0, i1] => Some(PingAsk {
                host: Ip4(u32::from_be_bytes([*h0, *h1, *h2, *h3])),
                ident: u16::from_be_bytes([*i0, *i1]),
            }),
            _ => None,
        }
    }

    /// The bytes that ask for this.
    pub fn bytes(self) -> [u8; 6]
        ensures value { result ≡ ping_bytes (pinged_by self) }
        // They are read back.
        ensures readable { ping_asked result ≡ Some (pinged_by self) }
    {
        let [h0, h1, h2, h3] = self.host.0.to_be_bytes();
        let [i0, i1] = self.ident.to_be_bytes();
        [h0, h1, h2, h3, i0, i1]
    }
}
