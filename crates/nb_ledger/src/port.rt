/// The serial of an object, from 1; it is never used again.
#[derive(Clone, Copy, Debug, Default, PartialEq, Eq)]
pub struct ObjId(pub u64);

/// One of an object's four ports. Slot 0 faces the user above; slots 1 to 3 face below.
#[derive(Clone, Copy, Debug, Default, PartialEq, Eq)]
pub struct Port {
    pub obj: ObjId,
    pub slot: u8,
}

/// What a port is: free, joined to its peer, closed with its link not yet unplugged, or closed.
#[derive(Clone, Copy, Debug, PartialEq, Eq)]
pub enum PortState {
    Open,
    Linked(Port),
    Leaving(Port),
    Closed,
}
