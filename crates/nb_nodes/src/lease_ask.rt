ghost use Rattle.std.specs.Prelude.{◌≡◌};
ghost use Rattle.std.specs.Option.{option_map};
ghost use Rattle.nb_nodes.specs.LeaseExchanges.{asker_of, lease_asked, lease_bytes};

use arrayvec::ArrayVec;
use nb_wire::Mac;

/// What a client asks for a lease with. As the bytes of the message that begins an open it is the hardware
/// address, the machine's identifier, the architecture and the transaction's number, these two with their high
/// byte first.
#[derive(Clone, Copy, Debug, PartialEq, Eq)]
pub struct LeaseAsk {
    /// The client's hardware address.
    pub mac: Mac,
    /// Its machine's identifier (RFC 4578, section 2.3).
    pub uuid: [u8; 16],
    /// Its architecture (RFC 4578, section 2.1).
    pub arch: u16,
    /// The transaction's number (RFC 2131, section 2).
    pub xid: u32,
}

impl LeaseAsk {
    /// What these bytes ask with. None where they aren't 28.
    pub fn read(bytes: &[u8]) -> Option<LeaseAsk>
        ensures { option_map asker_of result ≡ lease_asked bytes.now }
    {
        let (mac, rest) = bytes.split_first_chunk::<6>()?;
        let (uuid, rest) = rest.split_first_chunk::<16>()?;
        match rest {
            [a0, a1, x0, x1, x2, x3] => Some(LeaseAsk {
                mac: Mac(*mac),
                uuid: *uuid,
                arch: u16::from_be_bytes([*a0, *a1]),
                xid: u32::from_be_bytes([*x0, *x1, *x2, *x3]),
            }),
            _ => None,
        }
    }

    /// The bytes that ask with this.
    pub fn bytes(&self) -> ArrayVec<u8, 28>
        ensures value { result.items ≡ lease_bytes (asker_of self.now) }
        // They are read back.
        ensures readable { lease_asked result.items ≡ Some (asker_of self.now) }
    {
        let mut bytes = ArrayVec::new();
        let _ = bytes.try_extend_from_slice(&self.mac.0);
        let _ = bytes.try_extend_from_slice(&self.uuid);
        let _ = bytes.try_extend_from_slice(&self.arch.to_be_bytes());
        let _ = bytes.try_extend_from_slice(&self.xid.to_be_bytes());
        bytes
    }
}
