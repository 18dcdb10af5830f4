// TCP segments (RFC 9293, section 3.1), read and written, with their checksum over the
// pseudo-header. Of the options only the maximum segment size is read; the others are passed over
// by their length. The urgent pointer isn't read and is written as 0. Begin with `Segment`.
#![tactic(auto)]

mod options;
mod segment;

pub use segment::{ACK, FIN, PSH, RST, SYN, Segment};
