//! A walk through a name.

ghost use Rattle.nb_dnsmsg.specs.Walks.{IsNextStep};

use crate::piece::{NamePiece, first_piece, from_place};

/// How far a walk through a name is.
#[derive(Clone, Copy, Drop)]
pub(crate) struct Walk {
    /// Where the part began that it is in.
    pub(crate) part: usize,
    /// Where it is.
    pub(crate) place: usize,
    /// Where the name ends in the message, once a pointer was passed.
    pub(crate) end: Option<usize>,
}

/// What a walk comes to next.
#[derive(Drop)]
pub(crate) enum NameStep<'a> {
    /// The root: the name ends here in the message.
    Root(usize),
    Label(&'a [u8]),
    /// A pointer, which was followed.
    Jump,
    /// Nothing that a name goes on with.
    Invalid,
}

impl Walk {
    /// Goes on by one piece.
    pub(crate) fn next<'a>(&mut self, message: &'a [u8]) -> NameStep<'a>
        ensures { IsNextStep result message.now self.old self.new }
    {
        match first_piece(from_place(message, self.place)) {
            NamePiece::Root => NameStep::Root(self.end.unwrap_or(self.place + 1)),
            NamePiece::Label(label) => {
                self.place += 1 + label.len();
                NameStep::Label(label)
            }
            NamePiece::Pointer(target) if target < self.part => {
                self.end = Some(self.end.unwrap_or(self.place + 2));
                self.part = target;
                self.place = target;
                NameStep::Jump
            }
            _ => NameStep::Invalid,
        }
    }
}
