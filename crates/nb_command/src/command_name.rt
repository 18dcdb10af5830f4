ghost use Rattle.std.specs.Prelude.{◌≡◌, Some, IfSome};
ghost use Rattle.std.specs.Str.{bytes_eq};
ghost use Rattle.nb_command.specs.CommandNames.{command_text, command_named};
ghost use Rattle.nb_command.specs.declared.command_name.CommandName.{CommandName};

/// Which command a name names, of those that aren't on images.
#[derive(Clone, Copy)]
pub enum CommandName {
    Echo,
    Goto,
    Exit,
    Isset,
    Iseq,
    Set,
    Clear,
    Show,
    Inc,
    Ifopen,
    Ifclose,
    Dhcp,
    Ping,
    Nslookup,
    Sleep,
}

const COMMANDS: [CommandName; 15] = [
    CommandName::Echo,
    CommandName::Goto,
    CommandName::Exit,
    CommandName::Isset,
    CommandName::Iseq,
    CommandName::Set,
    CommandName::Clear,
    CommandName::Show,
    CommandName::Inc,
    CommandName::Ifopen,
    CommandName::Ifclose,
    CommandName::Dhcp,
    CommandName::Ping,
    CommandName::Nslookup,
    CommandName::Sleep,
];

impl CommandName {
    /// The name by which a script calls the command.
    fn text(self) -> &'static [u8]
        ensures { result.now ≡ command_text self }
    {
        match self {
            CommandName::Echo => b"echo",
            CommandName::Goto => b"goto",
            CommandName::Exit => b"exit",
            CommandName::Isset => b"isset",
            CommandName::Iseq => b"iseq",
            CommandName::Set => b"set",
            CommandName::Clear => b"clear",
            CommandName::Show => b"show",
            CommandName::Inc => b"inc",
            CommandName::Ifopen => b"ifopen",
            CommandName::Ifclose => b"ifclose",
            CommandName::Dhcp => b"dhcp",
            CommandName::Ping => b"ping",
            CommandName::Nslookup => b"nslookup",
            CommandName::Sleep => b"sleep",
        }
    }

    /// The command of a name.
    pub(crate) fn named(name: &[u8]) -> Option<CommandName>
        ensures value { result ≡ command_named name.now }
        ensures sound { IfSome result (λ command. name.now ≡ command_text command) }
        ensures complete { (command : CommandName) → name.now ≡ command_text command
            → result ≡ Some command }
    {
        COMMANDS
            .iter()
            .find(|command| command.is_named(name))
            .copied()
    }

    fn is_named(self, name: &[u8]) -> bool
        ensures { result ≡ bytes_eq name.now (command_text self) }
    {
        name == self.text()
    }
}
