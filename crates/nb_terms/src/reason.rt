ghost use Rattle.std.specs.Prelude.{◌≡◌};

use crate::Cause;
use nb_wire::Ip4;

/// What is too long.
#[derive(Clone, Copy, Debug, PartialEq, Eq)]
pub enum Long {
    /// A line, or the words of a command once they are expanded.
    Line = 1,
    /// The value of a setting.
    Value = 2,
    /// What a stream carries.
    Stream = 3,
    /// A file by TFTP: no block has a number after 65,535 (RFC 1350, section 5).
    Blocks = 4,
    /// A script.
    Script = 5,
    /// The head or the trailer of an HTTP response.
    Head = 6,
    /// A path, an image's name, or a URI.
    Path = 7,
}

/// What is too large.
#[derive(Clone, Copy, Debug, PartialEq, Eq)]
pub enum Large {
    /// One image: 268,435,456 bytes are the most.
    Image = 1,
    /// All images together: 536,870,912 bytes are the most.
    Images = 2,
}

/// Of what there are too many.
#[derive(Clone, Copy, Debug, PartialEq, Eq)]
pub enum Many {
    /// Words of a command, or joins of a list.
    Words = 1,
    /// Moves of a file to another place.
    Moves = 2,
    /// Images in the list.
    Images = 3,
    /// Scripts within one another.
    Scripts = 4,
    /// Settings.
    Settings = 5,
    /// Fields of an HTTP head.
    Fields = 7,
}

/// What is full.
#[derive(Clone, Copy, Debug, PartialEq, Eq)]
pub enum Fullness {
    /// The object graph.
    Objects = 1,
    /// The numbers of opens.
    Opens = 2,
    /// The drives.
    Drives = 3,
}

/// A reason that is all said by its name. Its number is the code of its cause.
#[derive(Clone, Copy, Debug, PartialEq, Eq)]
pub enum Plain {
    /// All went well.
    Ok = 0,
    /// A name is to be looked up, and no server of names is known.
    NoServer = 10,
    /// The target asks for CHAP, and a name or a secret isn't set.
    NoSecret = 11,
    /// There is no image of that name, or none is selected.
    NoImage = 12,
    /// The script has no such label.
    NoLabel = 13,
    /// The first line isn't `#!ipxe`, or the text isn't one that runs.
    NotScript = 14,
    /// The URI isn't one that is fetched.
    BadUri = 15,
    /// The URI has no scheme that is known.
    NoScheme = 16,
    /// The name isn't one of a setting or of a device.
    BadName = 17,
    /// The value isn't one of the setting's kind.
    BadValue = 18,
    /// There is no command of that name.
    Unknown = 19,
    /// The words don't fit the command.
    Usage = 20,
    /// What was asked isn't so.
    False = 21,
    /// Memory ran out.
    NoMemory = 23,
    /// The device was put down.
    Down = 25,
    /// It was ended from outside.
    Stopped = 26,
    /// The image is of a kind that can't be booted.
    NotBootable = 27,
    /// No such drive is hooked.
    NoDrive = 28,
}

/// Each way in which an open, a command or a script ends. docs/RECORDS.md has the codes and numbers
/// with which records spell it.
#[derive(Clone, Copy, Debug, PartialEq, Eq)]
pub enum Reason {
    /// Its name says all.
    Plain(Plain),
    /// The server's message in this record refuses, with a number of its protocol.
    Refused { rec: u32, code: u16 },
    /// So many tries had no answer.
    TimedOut { tries: u32 },
    /// The message in this record isn't allowed in its place.
    Broken { rec: u32 },
    /// The command's time ran out, in milliseconds.
    Deadline { ms: u32 },
    TooLong(Long),
    TooLarge(Large),
    TooMany(Many),
    Full(Fullness),
    /// There is no way to this address.
    NoRoute(Ip4),
    /// The script was left by `exit` with this number, which isn't 0.
    Exit(u8),
}

impl From<Reason> for Cause {
    ghost use Rattle.nb_terms.specs.Reasons.{as_cause};

    /// The one place where a reason gets its code and its numbers.
    fn from(reason: Reason) -> Cause
        ensures { result ≡ as_cause reason }
    {
        match reason {
            Reason::Plain(plain) => cause(plain as u8, 0, 0),
            Reason::Refused { rec, code } => cause(1, rec, u32::from(code)),
            Reason::TimedOut { tries } => cause(2, tries, 0),
            Reason::Broken { rec } => cause(3, rec, 0),
            Reason::Deadline { ms } => cause(4, ms, 0),
            Reason::TooLong(what) => cause(5, what as u32, 0),
            Reason::TooLarge(what) => cause(6, what as u32, 0),
            Reason::TooMany(what) => cause(7, what as u32, 0),
            Reason::Full(what) => cause(8, what as u32, 0),
            Reason::NoRoute(address) => cause(9, address.0, 0),
            Reason::Exit(n) => cause(24, u32::from(n), 0),
        }
    }
}

impl Plain {
    ghost use Rattle.nb_terms.specs.Reasons.{as_cause};
    ghost use Rattle.nb_terms.specs.declared.reason.Reason.TheVariants as reason;

    /// The cause of this reason.
    pub fn cause(self) -> Cause
        ensures { result ≡ as_cause (reason.Plain self) }
    {
        Cause::from(Reason::Plain(self))
    }
}

fn cause(code: u8, a: u32, b: u32) -> Cause
    ensures { result ≡ record { code = code; a = a; b = b } }
{
    Cause { code, a, b }
}
