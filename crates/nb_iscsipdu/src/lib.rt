//! The PDUs of iSCSI (RFC 7143, section 11), without digests and additional header segments.
//!
//! A data segment has at most 8,192 bytes; a longer one is no PDU here. Requests are made by their fields,
//! answers are read into theirs; reserved fields are written as 0 and not looked at. `Pdus` gathers one PDU
//! after another from a stream that comes in whatever pieces. Begin with `Pdu`, then `Answer` and `Pdus`.
#![tactic(auto)]

mod answer;
mod command;
mod keys;
mod laws;
mod opcode;
mod pdu;
mod pdus;
mod request;
mod stage;

pub use answer::{Answer, DataIn, LoginResponse, NopIn, ScsiResponse, TaskStatus};
pub use command::Command;
pub use keys::Keys;
pub use laws::{streams_are_cut_into_their_pdus, values_stand_after_their_names};
pub use pdu::{HEAD_LEN, MAX_SEGMENT, Pdu};
pub use pdus::{PduState, Pdus};
pub use request::{LoginRequest, NopOut, ScsiCommand};
pub use stage::Stage;
