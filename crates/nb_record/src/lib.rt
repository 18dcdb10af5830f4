// The records of an input and of an output, the feed that cuts bytes into records, the log that
// gathers output, and `Line`, the outside: what is read from and written to, and its faults. Formats
// stand in docs/RECORDS.md. Begin with `InRec` and `OutRec`, then `Line`.
#![tactic(auto)]

mod feed;
mod fixed;
mod input;
mod kind;
mod line;
mod log;
mod mem_line;
mod memory;
mod notes;
mod output;
mod reading;
mod sure_line;

pub use feed::{BadRecord, Feed, Front};
pub use input::{InRec, Start, StartRecord};
pub use line::{Failed, Line, Target};
pub use log::{Log, LogPlace};
pub use mem_line::MemLine;
pub use nb_terms::{Acts, Cause, Event, NoMemory, SendTo};
pub use notes::{ReadNote, ReadNotes};
pub use output::OutRec;
pub use sure_line::SureLine;
