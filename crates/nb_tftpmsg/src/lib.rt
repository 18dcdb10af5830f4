//! The packets of the Trivial File Transfer Protocol (RFC 1350), with the options of RFC 2347 to 2349.
//!
//! A read request is one of the two that this client sends: in mode `octet`, plain or with the options
//! blksize 1432 and tsize 0. A write request is no packet here. Of an OACK the first blksize and the first
//! tsize count, and unknown options are ignored. How long a block may be is left to the transfer.
//! Start with `Tftp`.
#![tactic(auto)]

mod decimal;
mod options;
mod packet;
mod text;

pub use packet::Tftp;
