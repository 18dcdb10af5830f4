//! The transfer of one file by TFTP (RFC 1350): a core without IO, clock or memory of its own.
//!
//! `Transfer::start` asks for a file in mode `octet` with the options blksize and tsize (RFC 2347 to 2349). From then
//! on the transfer is handed each message of its port and each time, and says by `Acts` what to send, what goes up, and
//! how it ended. The first OACK or block 1 is the agreement: its port is the server's, and the blocks have its size,
//! the last one less. A server that ignores options sends block 1, and then the size is 512. Packets from other ports
//! are told so (error 5). Windows and multicast are left out.
//! Start with `Transfer`; what it promises is `Stands` of specs/. What follows from that for a caller that
//! keeps the calls is said by the functions of `laws`.
#![tactic(auto)]

mod acts;
mod answer;
mod laws;
mod request;
mod state;
mod transfer;

pub use laws::{
    asks_plainly, asks_what_may_be_sent, at_most_65535_blocks, at_most_the_agreed_size,
    ends_as_told, gives_within_the_body, honest_server_gives_its_file,
};
pub use transfer::{TooLong, Transfer};
