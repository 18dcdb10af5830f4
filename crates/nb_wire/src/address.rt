/// The hardware address of an Ethernet interface (RFC 826), in the order of the wire.
#[derive(Clone, Copy, Debug, PartialEq, Eq)]
pub struct Mac(pub [u8; 6]);

/// An IPv4 address (RFC 791) as a number: 10.0.0.1 is 0x0a000001. 0 stands for none.
#[derive(Clone, Copy, Debug, PartialEq, Eq)]
pub struct Ip4(pub u32);
