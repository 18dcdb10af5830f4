//! DNS messages (RFC 1035): the query for a name's addresses, and the answer to it.
//!
//! A name is kept as its text on the wire without pointers: each label after its length, and a zero byte.
//! Of an answer all records are checked, and the addresses and aliases of class IN are read; other data
//! aren't. Start with `Question` and `Answer`; specs/Messages.antt says which bytes are a message.
#![tactic(auto)]

mod answer;
mod laws;
mod name;
mod piece;
mod question;
mod record;
mod section;
mod walk;

pub use answer::Answer;
pub use laws::{
    address_stands_in_the_message, answers_are_read_by_the_grammar, one_reading,
    pointers_go_backwards,
};
pub use question::Question;
