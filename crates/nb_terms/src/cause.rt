/// Why something ended: a code and two numbers that say which and where. Code 0 is Ok. The codes
/// and the meaning of the numbers stand in docs/RECORDS.md.
#[derive(Clone, Copy, Debug, Default, PartialEq, Eq)]
pub struct Cause {
    pub code: u8,
    pub a: u32,
    pub b: u32,
}
