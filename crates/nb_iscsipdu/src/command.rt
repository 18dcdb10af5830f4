//! The SCSI commands that are sent.

ghost use Rattle.std.specs.Prelude.{◌≡◌, ◌<◌, ◌^◌};
ghost use Rattle.nb_iscsipdu.specs.Commands.{asked_len, command_flags, command_block};

/// The bit of a command after which no data follows on its own.
const FINAL: u8 = 0x80;
/// The bit of a command that reads.
const READ: u8 = 0x40;
/// The task attribute of a simple task.
const SIMPLE: u8 = 0x01;
/// The bytes of a block.
pub(crate) const BLOCK: u32 = 512;

/// A SCSI command (SPC-4 and SBC-3).
#[derive(Clone, Copy, Drop)]
pub enum Command {
    /// TEST UNIT READY.
    TestUnitReady,
    /// READ CAPACITY(10).
    ReadCapacity,
    /// READ(10) of so many blocks of 512 bytes, from this one on.
    Read { lba: u32, blocks: u16 },
}

impl Command {
    /// How many bytes are asked for.
    pub fn asked_len(self) -> u32
        ensures { result ≡ asked_len self }
    {
        match self {
            Command::TestUnitReady => 0,
            Command::ReadCapacity => 8,
            Command::Read { lba: _, blocks } => BLOCK * u32::from(blocks),
        }
    }

    /// The flags of a SCSI Command (RFC 7143, section 11.3.1).
    pub(crate) fn flags(self) -> u8
        ensures { result ≡ command_flags self }
    {
        match self {
            Command::TestUnitReady => FINAL + SIMPLE,
            _ => FINAL + READ + SIMPLE,
        }
    }

    /// The command descriptor block, with zeros after it.
    pub(crate) fn block(self) -> [u8; 16]
        ensures { result ≡ command_block self }
    {
        match self {
            Command::TestUnitReady => [0; 16],
            Command::ReadCapacity => [0x25, 0, 0, 0, 0, 0, 0, 0, 0, 0, 0, 0, 0, 0, 0, 0],
            Command::Read { lba, blocks } => read_block(lba, blocks),
        }
    }
}

fn read_block(lba: u32, blocks: u16) -> [u8; 16]
    ensures { result ≡ command_block (Command.Read lba blocks) }
{
    let [a0, a1, a2, a3] = lba.to_be_bytes();
    let [n0, n1] = blocks.to_be_bytes();
    [0x28, 0, a0, a1, a2, a3, 0, n0, n1, 0, 0, 0, 0, 0, 0, 0]
}
