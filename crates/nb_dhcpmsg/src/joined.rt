//! A value joined from the options of one tag (RFC 3396).

ghost use Rattle.std.specs.Prelude.{◌≡◌, ◌++◌, ℕ, List, [], length};
ghost use Rattle.nb_dhcpmsg.specs.Lefts.{IsLength, IsOnlyByte, byte_of_only};

use crate::cursor::{Cursor, Next};

/// A joined value, as far as it has come: whether it is one byte.
#[derive(Clone, Copy, Drop)]
enum Joined {
    Nothing,
    Byte(u8),
    More,
}

impl Joined {
    /// With these bytes after it.
    fn and(self, value: &[u8]) -> Joined
        ensures { (before : List ℕ) → IsLength self before → IsLength result (before ++ value.now) }
    {
        match (self, value) {
            (joined, []) => joined,
            (Joined::Nothing, [byte]) => Joined::Byte(*byte),
            _ => Joined::More,
        }
    }
}

/// Whether the joined value of a tag is one byte.
#[derive(Drop)]
pub(crate) enum Only {
    /// What is left isn't options.
    Broken,
    /// No option has the tag, or its value has another length.
    Other,
    Byte(u8),
}

impl Only {
    /// The byte.
    pub(crate) fn byte(self) -> Option<u8>
        ensures { result ≡ byte_of_only self }
    {
        match self {
            Only::Byte(byte) => Some(byte),
            Only::Broken | Only::Other => None,
        }
    }
}

/// The joined value of a tag, where it is one byte.
pub(crate) fn only_byte(options: Cursor<'_>, tag: u8) -> Only
    ensures { IsOnlyByte result tag options.entry }
{
    let mut left = options;
    let mut joined = Joined::Nothing;
    'options: loop {
        match left.next() {
            Next::Option(option) if option.tag == tag => joined = joined.and(option.value),
            Next::Option(_) => {}
            Next::End => break,
            Next::Broken => return Only::Broken,
        }
    }
    match joined {
        Joined::Byte(byte) => Only::Byte(byte),
        Joined::Nothing | Joined::More => Only::Other,
    }
}
