//! The names of the image commands.

ghost use Rattle.std.specs.Prelude.{◌≡◌, Some, IfSome};
ghost use Rattle.std.specs.Str.{bytes_eq};
ghost use Rattle.nb_imagecmd.specs.CommandNames.{image_command_text, image_command_named};
ghost use Rattle.nb_imagecmd.specs.declared.command_names.ImageCommandName.{ImageCommandName};

/// Which image command a name names. Each of the first three lines is one command with three names.
#[derive(Clone, Copy)]
pub(crate) enum ImageCommandName {
    Imgfetch,
    Initrd,
    Module,
    Imgselect,
    Kernel,
    Imgload,
    Imgexec,
    Chain,
    Boot,
    Imgargs,
    Imgfree,
    Imgstat,
}

const IMAGE_COMMANDS: [ImageCommandName; 12] = [
    ImageCommandName::Imgfetch,
    ImageCommandName::Initrd,
    ImageCommandName::Module,
    ImageCommandName::Imgselect,
    ImageCommandName::Kernel,
    ImageCommandName::Imgload,
    ImageCommandName::Imgexec,
    ImageCommandName::Chain,
    ImageCommandName::Boot,
    ImageCommandName::Imgargs,
    ImageCommandName::Imgfree,
    ImageCommandName::Imgstat,
];

impl ImageCommandName {
    /// The name by which a script calls the command.
    fn text(self) -> &'static [u8]
        ensures { result.now ≡ image_command_text self }
    {
        match self {
            ImageCommandName::Imgfetch => b"imgfetch",
            ImageCommandName::Initrd => b"initrd",
            ImageCommandName::Module => b"module",
            ImageCommandName::Imgselect => b"imgselect",
            ImageCommandName::Kernel => b"kernel",
            ImageCommandName::Imgload => b"imgload",
            ImageCommandName::Imgexec => b"imgexec",
            ImageCommandName::Chain => b"chain",
            ImageCommandName::Boot => b"boot",
            ImageCommandName::Imgargs => b"imgargs",
            ImageCommandName::Imgfree => b"imgfree",
            ImageCommandName::Imgstat => b"imgstat",
        }
    }

    /// The image command of a name.
    pub(crate) fn named(name: &[u8]) -> Option<ImageCommandName>
        ensures value { result ≡ image_command_named name.now }
        ensures sound { IfSome result (λ command. name.now ≡ image_command_text command) }
        ensures complete { (command : ImageCommandName) → name.now ≡ image_command_text command
            → result ≡ Some command }
    {
        IMAGE_COMMANDS
            .iter()
            .find(|command| command.is_named(name))
            .copied()
    }

    fn is_named(self, name: &[u8]) -> bool
        ensures { result ≡ bytes_eq name.now (image_command_text self) }
    {
        name == self.text()
    }
}
