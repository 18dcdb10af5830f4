use crate::Cause;

/// What happened to an object of the graph, as it is traced: the event's number, the object's serial
/// and slot, the other end's, and the cause of a closing. docs/RECORDS.md has the numbers.
#[derive(Clone, Copy, Debug, Default, PartialEq, Eq)]
pub struct Event {
    pub event: u8,
    pub object: u64,
    pub slot: u8,
    pub other: u64,
    pub other_slot: u8,
    pub cause: Cause,
}
