// How a run's scripts are run: what stands on a line, what each command comes to by its words and the world, and the world
// that it leaves: settings, images, the link, how many opens were made. It knows nothing of opens and of the graph: what a
// command asks for is an `Intent`, for which the engine makes an open. Begin with `RunningScript`, then `World`.
#![tactic(auto)]

mod command;
mod drives;
mod errand;
mod first_script;
mod following;
mod handing;
mod images;
mod intent;
mod link;
mod outside;
mod piece_record;
mod query;
mod running;
mod settings;
mod status;
mod texts;
mod world;

pub use command::{Deed, Done, MAX_OPENS, full_opens};
pub use errand::{Errand, Onward, Wanted};
pub use first_script::{Unread, read_script};
pub use following::Following;
pub use handing::{Booted, Handing};
pub use images::{Conclusion, ImageDeed, selected};
pub use intent::Intent;
pub use outside::OuterScripts;
pub use piece_record::PieceRecord;
pub use query::Query;
pub use running::{Next, RunningScript};
pub use status::{Status, status_after};
pub use texts::copy;
pub use world::{World, own_port};
