ghost use Rattle.std.specs.Prelude.{◌≡◌, ◌++◌, Some};
ghost use Rattle.std.specs.Option.{option_map};
ghost use Rattle.nb_nodes.specs.LookupExchanges.{lookup_ask_value, lookup_ask_head, lookup_ask_in};

use nb_wire::Ip4;

/// What a look-up asks for. As the bytes of the message that begins an open it is the address of the server of
/// names, the client's port and the query's number, each with its high byte first, and the name as it is written.
#[derive(Clone, Copy, Debug, PartialEq, Eq)]
pub struct LookupAsk<'a> {
    pub server: Ip4,
    /// The client's port.
    pub own_port: u16,
    /// The query's number (RFC 1035, section 4.1.1).
    pub id: u16,
    pub name: &'a [u8],
}

impl<'a> LookupAsk<'a> {
    /// What these bytes ask for. None where they are fewer than eight.
    pub fn read(bytes: &'a [u8]) -> Option<LookupAsk<'a>>
        ensures { option_map lookup_ask_value result ≡ lookup_ask_in bytes.now }
    {
        match bytes {
            [s0, s1, s2, s3, o0, o1, i0, i1, name @ ..] => Some(LookupAsk {
                server: Ip4(u32::from_be_bytes([*s0, *s1, *s2, *s3])),
                own_port: u16::from_be_bytes([*o0, *o1]),
                id: u16::from_be_bytes([*i0, *i1]),
                name,
            }),
            _ => None,
        }
    }

    /// The bytes before the name.
    pub fn head(&self) -> [u8; 8]
        ensures value { result ≡ lookup_ask_head (lookup_ask_value self.now) }
        // With the name after them they are read back.
        ensures readable { lookup_ask_in (result ++ self.now.name.now) ≡ Some (lookup_ask_value self.now) }
    {
        let [s0, s1, s2, s3] = self.server.0.to_be_bytes();
        let [o0, o1] = self.own_port.to_be_bytes();
        let [i0, i1] = self.id.to_be_bytes();
        [s0, s1, s2, s3, o0, o1, i0, i1]
    }
}
