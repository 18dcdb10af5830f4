//! The names of the drive commands.

ghost use Rattle.std.specs.Prelude.{◌≡◌, Some, IfSome};
ghost use Rattle.std.specs.Str.{bytes_eq};
ghost use Rattle.nb_drivecmd.specs.DriveCommandNames.{drive_command_text, drive_command_named};
ghost use Rattle.nb_drivecmd.specs.declared.command_names.DriveCommandName.{DriveCommandName};

/// Which drive command a name names.
#[derive(Clone, Copy)]
pub(crate) enum DriveCommandName {
    Sanhook,
    Sanboot,
    Sanunhook,
}

const DRIVE_COMMANDS: [DriveCommandName; 3] = [
    DriveCommandName::Sanhook,
    DriveCommandName::Sanboot,
    DriveCommandName::Sanunhook,
];

impl DriveCommandName {
    /// The name by which a script calls the command.
    fn text(self) -> &'static [u8]
        ensures { result.now ≡ drive_command_text self }
    {
        match self {
            DriveCommandName::Sanhook => b"sanhook",
            DriveCommandName::Sanboot => b"sanboot",
            DriveCommandName::Sanunhook => b"sanunhook",
        }
    }

    /// The drive command of a name.
    pub(crate) fn named(name: &[u8]) -> Option<DriveCommandName>
        ensures value { result ≡ drive_command_named name.now }
        ensures sound { IfSome result (λ command. name.now ≡ drive_command_text command) }
        ensures complete { (command : DriveCommandName) → name.now ≡ drive_command_text command
            → result ≡ Some command }
    {
        DRIVE_COMMANDS
            .iter()
            .find(|command| command.is_named(name))
            .copied()
    }

    fn is_named(self, name: &[u8]) -> bool
        ensures { result ≡ bytes_eq name.now (drive_command_text self) }
    {
        name == self.text()
    }
}
