// What a run's two lists of records say, and laws of it; no code.
#![tactic(auto)]

mod laws;

pub use laws::{
    honest_servers_files_are_brought, honest_targets_answer_with_their_disks,
    honest_targets_first_blocks_are_handed_off, names_are_read_as_spelled, one_history,
    packets_are_read_as_spelled,
};
