use nb_drivecmd::DriveCommand;
use nb_imagecmd::ImageCommand;
use nb_wire::{Word, Words};

/// A command whose words fit it.
#[derive(Drop)]
pub enum CommandPlan {
    /// Prints words, joined by one space, and a line feed where `newline` is set.
    Echo { newline: bool, text: Words },
    /// Goes on after a label.
    Goto(Word),
    /// Leaves the script; a number that isn't 0 is a failure.
    Exit(u8),
    /// Asks whether a word is there and isn't empty.
    Isset(Option<Word>),
    /// Asks whether two words are equal.
    Iseq(Word, Word),
    /// Sets a setting to words, joined by one space, and clears it where that is empty.
    Set { name: Word, value: Words },
    /// Clears a setting.
    Clear(Word),
    /// Prints a setting.
    Show(Word),
    /// Adds to a setting that is an integer.
    Inc { name: Word, by: i32 },
    /// Fetches, finds, frees or executes images.
    Images(ImageCommand),
    /// Hooks or unhooks drives.
    Drives(DriveCommand),
    /// Sets a device up; net0 where none is named.
    Ifopen(Option<Word>),
    /// Sets a device down, and closes what is open there; net0 where none is named.
    Ifclose(Option<Word>),
    /// Sets a device up and gets a lease for it; net0 where none is named.
    Dhcp(Option<Word>),
    /// Waits for an echo from a host.
    Ping { host: Word },
    /// Looks a host up, and sets a setting to its address.
    Nslookup { name: Word, host: Word },
    /// Waits, in seconds.
    Sleep(u32),
}
