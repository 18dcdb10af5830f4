ghost use Rattle.std.specs.Prelude.{◌≡◌, ◌==◌};
ghost use Rattle.nb_nodes.specs.Tags.{tag_number, IsTagOf};

/// What a message of an open's objects is. Its number is the message's tag.
#[derive(Clone, Copy, Debug, PartialEq, Eq)]
pub enum Tag {
    /// Down: the open begins. The bytes are an `Ask`, or the like of another kind.
    Begin,
    /// A datagram's body. From below `a` is the port that it came from, of an echo reply its identifier, and
    /// `b` the address. Down it is one that no timer covers, and `b` is the port that it goes to.
    Datagram,
    /// Down: a datagram's body that is sent as try `a`, to the port `b`.
    Try,
    /// Down: the place has grown to `a`. There are no bytes.
    Advance,
    /// Up: bytes of the file, or of what was asked for.
    Bytes,
    /// Up: the address that a name has is `a`. There are no bytes.
    Address,
}

/// A number that is no message's tag.
#[derive(Clone, Copy, Debug, PartialEq, Eq)]
pub struct UnknownTag(pub u8);

impl From<Tag> for u8 {
    ghost from_gives = { λ tag n. n ≡ tag_number tag };

    fn from(tag: Tag) -> u8 {
        match tag {
            Tag::Begin => 1,
            Tag::Datagram => 2,
            Tag::Try => 3,
            Tag::Advance => 4,
            Tag::Bytes => 5,
            Tag::Address => 6,
        }
    }
}

impl TryFrom<u8> for Tag {
    type Error = UnknownTag;

    ghost try_from_gives = { IsTagOf };

    fn try_from(number: u8) -> Result<Tag, UnknownTag> {
        match number {
            1 => Ok(Tag::Begin),
            2 => Ok(Tag::Datagram),
            3 => Ok(Tag::Try),
            4 => Ok(Tag::Advance),
            5 => Ok(Tag::Bytes),
            6 => Ok(Tag::Address),
            _ => Err(UnknownTag(number)),
        }
    }
}

/// Whether a message with this number is a `tag`.
pub(crate) fn is_tag(number: u8, tag: Tag) -> bool
    ensures { result ≡ (number == tag_number tag) }
{
    number == u8::from(tag)
}
