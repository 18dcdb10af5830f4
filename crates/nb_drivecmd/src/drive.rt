/// A hooked drive.
#[derive(Clone, Copy, Debug, PartialEq, Eq, Drop)]
pub struct Drive {
    /// From 128 to 255.
    pub number: u8,
    /// Whether the boot table has it.
    pub described: bool,
    /// The number of its open.
    pub open_number: u16,
}
