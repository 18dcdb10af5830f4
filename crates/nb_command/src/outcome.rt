use nb_drivecmd::DriveOutcome;
use nb_imagecmd::ImageOutcome;
use nb_wire::{Text, Word};

/// What a command that didn't fail comes to.
#[derive(Drop)]
pub enum Outcome {
    /// It is done, and its result is Ok.
    Done,
    /// The same, and it prints this.
    Text(Text),
    /// The script goes on after the first line that is this label. Where there is none, it failed.
    Goto(Word),
    /// The script is left: with Ok where the number is 0, else with Exit and the number.
    Leave(u8),
    /// It waits for this.
    Wait(Job),
    /// The device went down, and its result is Ok. What is open there is to be closed.
    Down,
    /// It is a command on images, and comes to this.
    Images(ImageOutcome),
    /// It is a drive command, and comes to this.
    Drives(DriveOutcome),
}

/// What a command waits for.
#[derive(Drop)]
pub enum Job {
    /// A lease for the device net0, which is up.
    Lease,
    /// An echo from a host, a name or an address.
    Ping { host: Text },
    /// The address of a host, and which setting it becomes the value of.
    Lookup { name: Text, host: Text },
    /// Time, in seconds.
    Sleep(u32),
}
