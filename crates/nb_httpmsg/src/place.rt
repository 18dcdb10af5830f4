//! Where a reader of a chunked body is.

/// Where the next byte belongs.
#[derive(Clone, Copy)]
pub(crate) enum Place {
    /// The size line.
    Size,
    /// A chunk's bytes, of which so many are to come.
    Bytes(u64),
    /// The line end after a chunk's bytes; its CR has come.
    End(bool),
    /// The trailer, after a size line of so many bytes.
    Trailer(usize),
    /// The body has ended.
    Whole,
    /// These bytes are no chunked body.
    Broken,
    /// A size line and a trailer are too long.
    TooLong,
}
