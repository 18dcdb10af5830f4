// The drive commands of a script, after ipxe.org's references: `read_command` reads the words of one, which are
// expanded already, and `carry_out` says what it comes to: a disk of an iSCSI target that is to be hooked as a drive
// (`Hooking`), a hooked drive that is to be booted, or one that is to be closed. `Drives` are those that are hooked.
// Here are sanhook, sanboot and sanunhook. Left out are the sessions with the targets, what a boot table says of a
// drive, and who closes one. Begin with `DriveCommand`, `DriveOutcome` and `Drives`.
#![tactic(auto)]

mod carrying_out;
mod command_names;
mod commands;
mod disk_names;
mod drive;
mod drives;
mod error;
mod laws;
mod numbers;
mod options;
mod outcome;
mod reading;

pub use carrying_out::carry_out;
pub use commands::DriveCommand;
pub use disk_names::NamedDisk;
pub use drive::Drive;
pub use drives::{Drives, MAX_DRIVES};
pub use error::{DriveFailure, DriveRefusal};
pub use laws::{
    drives_are_numbered, hooked_drives_are_found, long_uris_name_no_disks,
    spelled_drive_options_are_read,
};
pub use numbers::{FIRST_DRIVE, chosen_drive};
pub use outcome::{AfterHook, DriveOutcome, Hooking};
pub use reading::read_command;
