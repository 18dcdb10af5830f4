ghost use Rattle.std.specs.Prelude.{◌≡◌, ◌==◌};
ghost use Rattle.nb_conns.specs.StreamTags.{stream_tag_number};

/// What a message of a connection's object is. Its number is the message's tag.
#[derive(Clone, Copy, Debug, PartialEq, Eq)]
pub enum StreamTag {
    /// Down: the connection is asked for. The bytes are a `ConnAsk`.
    Begin,
    /// Up by slot 1: a segment's bytes, whose checksum is right between the two addresses; `a` is the port that it
    /// came from, and `b` the address. Down: a segment that no timer covers, with checksum 0; `b` is the port that it
    /// goes to.
    Segment,
    /// Down: a segment that is sent as try `a`, to the port `b`.
    TriedSegment,
    /// Down: the place has grown to `a`. There are no bytes.
    Place,
    /// Up: the next bytes of the peer's stream.
    Received,
    /// Down: bytes that the stream sends next.
    Send,
    /// Up: all of the peer's stream has come. There are no bytes.
    End,
    /// Down: two segments, of which the first has `b` bytes and no timer; the second is sent as try `a`, or under no
    /// timer where `a` is 0.
    TwoSegments,
}

impl From<StreamTag> for u8 {
    ghost from_gives = { λ tag n. n ≡ stream_tag_number tag };

    fn from(tag: StreamTag) -> u8 {
        match tag {
            StreamTag::Begin => 1,
            StreamTag::Segment => 2,
            StreamTag::TriedSegment => 3,
            StreamTag::Place => 4,
            StreamTag::Received => 5,
            StreamTag::Send => 7,
            StreamTag::End => 8,
            StreamTag::TwoSegments => 9,
        }
    }
}

/// Whether a message with this number is a `tag`.
#[inline(always)]
pub(crate) fn is_stream_tag(number: u8, tag: StreamTag) -> bool
    ensures { result ≡ (number == stream_tag_number tag) }
{
    number == u8::from(tag)
}
