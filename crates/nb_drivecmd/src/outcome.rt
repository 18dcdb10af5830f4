use crate::NamedDisk;

/// What is done with a drive once it is hooked.
#[derive(Clone, Copy, Debug, PartialEq, Eq)]
pub enum AfterHook {
    /// The command is done.
    Keep,
    /// It is booted.
    Boot {
        /// It stays hooked where the command fails.
        keep: bool,
    },
}

/// A disk that is to be hooked. The drive of its number is closed first, where there is one.
#[derive(Drop)]
pub struct Hooking {
    pub number: u8,
    /// Whether the boot table is to have it.
    pub described: bool,
    pub disk: NamedDisk,
    pub after: AfterHook,
}

/// What a drive command that didn't fail comes to.
#[derive(Drop)]
pub enum DriveOutcome {
    /// It waits for a disk.
    Hook(Hooking),
    /// It waits for the first block of the hooked drive of this number.
    Boot {
        number: u8,
        /// The drive stays hooked where the command fails.
        keep: bool,
    },
    /// The hooked drive of this number is to be closed, and the result is Ok.
    Unhook(u8),
}
