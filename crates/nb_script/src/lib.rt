// The text of a script: which texts are scripts, their lines after joining, each a label, a list of
// commands or nothing, and the commands of a list. It follows the ipxe.org references on scripts; the
// expansion of words stands elsewhere. Begin with `Script`.
#![tactic(auto)]

mod busy;
mod error;
mod idle;
mod item;
mod join;
mod joined;
mod kind;
mod labels;
mod line;
mod script;
mod span;
mod word;

pub use error::ScriptError;
pub use item::Item;
pub use join::Join;
pub use kind::ScriptLine;
pub use line::begins_script;
pub use script::Script;
