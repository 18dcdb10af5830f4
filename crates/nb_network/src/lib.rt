// The opens that live: a list of them, by rising number, with their objects on one graph and their ports bound, and what is kept
// of drives. What a
// record does to all of them is the machine's network (nb_machine, specs/Network.antt), and what stands of the graph among
// the records is traced by nb_traced. It knows nothing of scripts and commands. Begin with `Opens`.
#![tactic(auto)]

mod begin;
mod closing;
mod frame;
mod hooked;
mod living;
mod one;
mod opens;
mod over;
mod settle;
mod time;

pub use begin::put_begun;
pub use living::{KeptDrive, Living};
pub use opens::Opens;
pub use over::{HasEnded, KeptEnd};
