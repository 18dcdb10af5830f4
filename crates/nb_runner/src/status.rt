ghost use Rattle.std.specs.Prelude.{◌≡◌};
ghost use Rattle.nb_runner.specs.StatusNumber.{status_number, IsLeftEnd};
ghost use Rattle.nb_machine.specs.CommandRecords.{status_of};

use nb_record::Cause;

/// How a run ended; its number is the program's exit status.
#[derive(Clone, Copy, Debug, PartialEq, Eq)]
pub enum Status {
    /// A command handed off.
    HandedOff,
    /// The words are invalid; nothing was attached.
    BadWords,
    /// The first script ended in Ok.
    Ended,
    /// The first script ended in a failed result.
    ScriptFailed,
    /// The input ended, or OFF came, while a command waited.
    Unfinished,
    /// No record of the grammar stands at that place, or the input ended before START or inside it.
    BadRecord,
    /// A read failed.
    ReadFault,
    /// A write failed.
    WriteFault,
    /// Memory ran out.
    NoMemory,
    /// The line could not be attached.
    AttachFault,
    /// Every record number was given, and another record begins.
    TooManyRecords,
}

impl Status {
    /// The status's number, as DONE and the program's exit have it.
    pub fn number(self) -> u8
        ensures { result ≡ status_number self }
    {
        match self {
            Status::HandedOff => 0,
            Status::BadWords => 2,
            Status::Ended => 3,
            Status::ScriptFailed => 4,
            Status::Unfinished => 5,
            Status::BadRecord => 6,
            Status::ReadFault => 7,
            Status::WriteFault => 8,
            Status::NoMemory => 9,
            Status::AttachFault => 10,
            Status::TooManyRecords => 11,
        }
    }
}

/// How a run ends whose first script was left with this cause.
pub fn status_after(cause: Cause) -> Status
    ensures value { status_number result ≡ status_of cause }
    ensures kind { IsLeftEnd result }
{
    if cause.code == 0 {
        Status::Ended
    } else {
        Status::ScriptFailed
    }
}
