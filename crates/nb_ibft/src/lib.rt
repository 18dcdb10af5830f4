//! The iSCSI Boot Firmware Table: what an operating system finds in memory of the network disks that
//! the client has hooked, written and read again.
//!
//! It is written after iBFT 1.03 in a layout of our own: the parts stand at fixed places, each is
//! followed by zeros up to the next multiple of 16, and the texts stand after the last part. Only
//! IPv4 addresses, one network interface and at most two targets are there. Begin with `BootInfo`.
#![tactic(auto)]

mod fields;
mod info;
mod lent;
mod owned;
mod parts;
mod texts;
mod view;

pub use info::{BootInfo, BootTarget, MAX_TEXT};
pub use view::{TableView, read_table, table};
