//! The drive of an iSCSI session in its full feature phase (RFC 7143): TEST UNIT READY until the unit is
//! ready, READ CAPACITY(10), then reads, one command at a time.
//!
//! Blocks have 512 bytes. What a read brings is handed up as it comes, as ranges of the PDUs. The core knows no
//! time, sends nothing itself and doesn't write to the drive. Begin with `Disk`.
#![tactic(auto)]

mod blocks;
mod causes;
mod disk;
mod kept;
mod laws;
mod sizing;
mod steps;
mod work;

pub use blocks::{BLOCK, BlockSource, ReadRefusal};
pub use disk::Disk;
pub use laws::{blocks_are_asked_as_history_says, ends_for_a_cause};
