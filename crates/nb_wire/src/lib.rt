// The smallest parts that everything else stands on: addresses of machines; texts, words and lists
// of words as small types that contracts see as lists; places in bytes to read from, room to write
// packets to, and the internet checksum (RFC 1071). Begin with `View` and `Out` for packets, with
// `Word` for scripts.
#![tactic(auto)]

mod address;
mod out;
mod sum;
mod text;
mod view;
mod word;

pub use address::{Ip4, Mac};
pub use out::{Full, Out};
pub use sum::{is_intact_after, sum_of_address, sum16, sum16_after, sum16_of, sum16_of_20};
pub use text::Text;
pub use view::View;
pub use word::{MAX_WORD, Word, Words};
