// The image commands of a script, after ipxe.org's references: `read_command` reads the words of one, which
// are expanded already, and `carry_out` carries it out on the list of images. What it names is looked for in
// the list; where it isn't there, the command asks for a file (`Asking`), and `arrive` says what comes of it
// once the file is there. A script that is to run leaves the list (`take_script`, `Arrival`). Here are
// imgfetch, imgselect and imgexec with their other names, imgargs, imgfree and imgstat. Left out are the
// option `--timeout`, the transfers, and the scripts themselves. Begin with `ImageCommand` and `ImageOutcome`.
#![tactic(auto)]

mod arriving;
mod asking;
mod carrying_out;
mod command_names;
mod commands;
mod copies;
mod error;
mod executing;
mod freeing;
mod laws;
mod moving;
mod options;
mod outcome;
mod reading;
mod stat;

pub use arriving::{Arrival, arrive};
pub use asking::{After, Asking, MAX_NAME, MAX_PATH};
pub use carrying_out::carry_out;
pub use commands::ImageCommand;
pub use copies::{copy_text, copy_word, copy_words, joined};
pub use error::{ImageFailure, PlanError};
pub use executing::take_script;
pub use laws::{
    arguments_are_short, fetched_images_are_booted, freed_names_are_gone,
    lists_hold_what_was_fetched, named_images_are_booted, names_stay_short,
    printed_lines_are_short, spelled_options_are_read,
};
pub use moving::{MAX_MOVES, moved_file};
pub use outcome::{ImageOutcome, ScriptImage};
pub use reading::read_command;
pub use stat::Lines;
