// HTTP/1.1 responses as bytes (RFC 9112): where a head ends and what it says, how its body is framed,
// and the chunked transfer coding, over the kit's `httparse`. Bodies aren't copied but for those of
// chunks; extensions and trailer fields are passed over. What a stream is read as stands in
// nb_responses. Begin with `read_head`, then `Chunks`.
#![tactic(auto)]

mod block;
mod chunks;
mod field;
mod head;
mod line;
mod number;
mod place;
mod steps;
mod target;

pub use chunks::{ChunkState, Chunks, Fed};
pub use head::{BodyKind, Head, HeadInfo, MAX_HEAD, read_head};
pub use steps::fill;
pub use target::HttpTarget;
