use crate::{Asking, Lines};
use nb_wire::Text;

/// What an image command that didn't fail comes to.
#[derive(Drop)]
pub enum ImageOutcome {
    /// It is done, and its result is Ok.
    Done,
    /// The same, and it prints these lines, one after another.
    Print(Lines),
    /// It waits for a file; `arrive` says what comes of that.
    Ask(Asking),
    /// The image at this place is a script, which is to run. It is still in the list: `take_script` takes it
    /// out.
    Run {
        image: usize,
        /// It takes the place of the script that runs.
        replace: bool,
    },
    /// The selected image is booted, and its result is Ok.
    Boot,
}

/// A script that was in the list of images, or was to be there.
#[derive(Drop)]
pub struct ScriptImage {
    pub text: Text,
    /// The URI that it was fetched from, to which its own URIs are joined.
    pub uri: Text,
}
