use std::fmt::{Display, Formatter};
use std::{fmt, io};

/// A part of a line.
#[derive(Clone, Copy, Debug, PartialEq, Eq)]
pub enum Part {
    Input,
    Output,
    Peer,
    /// Standard output.
    Printed,
}

/// Why a part failed.
#[derive(Clone, Copy)]
pub enum Reason {
    /// The system's own reason.
    System(io::Error),
    /// Its name isn't UTF-8.
    NotUtf8,
    /// The output is the input, under this or another name.
    IsInput,
    /// Nothing of a piece was taken.
    TookNothing,
    /// Nothing is attached.
    Unattached,
}

/// A part of a line failed, and why.
#[derive(Clone, Copy)]
pub struct Fault {
    pub part: Part,
    pub reason: Reason,
}

impl Fault {
    /// The system's reason why a part failed.
    pub fn system(part: Part, error: io::Error) -> Fault {
        Fault {
            part,
            reason: Reason::System(error),
        }
    }
}

impl Display for Reason {
    fn fmt<W: fmt::Write>(&self, f: &mut Formatter<W>) -> fmt::Result {
        match self {
            Reason::System(error) => Display::fmt(error, f),
            Reason::NotUtf8 => f.write_str("its name is not UTF-8: give it one that is"),
            Reason::IsInput => f.write_str("it is the input itself, which stays as it is"),
            Reason::TookNothing => f.write_str("nothing more is taken"),
            Reason::Unattached => f.write_str("nothing is attached"),
        }
    }
}
