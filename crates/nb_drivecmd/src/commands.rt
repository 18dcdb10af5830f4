use nb_wire::Word;

/// A drive command whose words fit it. A drive is named by its number, from 128 to 255; where it isn't, the settings
/// say which one is meant.
#[derive(Drop)]
pub enum DriveCommand {
    /// `sanhook`: hooks a disk as a drive.
    Hook {
        drive: Option<u8>,
        /// Whether the boot table is to have it.
        describe: bool,
        uri: Word,
    },
    /// `sanboot`: the same, and boots it; without a URI, the drive that is hooked.
    Boot {
        drive: Option<u8>,
        /// Whether the boot table is to have what is hooked.
        describe: bool,
        /// The drive stays hooked where the command fails.
        keep: bool,
        uri: Option<Word>,
    },
    /// `sanunhook`: closes a drive.
    Unhook {
        drive: Option<u8>,
    },
}
