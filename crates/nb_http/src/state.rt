//! How far a response is.

/// What the next byte belongs to.
#[derive(Clone, Copy)]
pub(crate) enum State {
    /// A head.
    Head,
    /// A body of a stated length, of which so many bytes are to come.
    Sized(u64),
    /// A chunked body, which may have so many bytes more.
    Chunked(u64),
    /// A body to the stream's end, which may have so many bytes more.
    ToEnd(u64),
    /// Nothing: it has ended, with a move's text there in the head if it moved.
    Over(Option<(u32, u32)>),
}
