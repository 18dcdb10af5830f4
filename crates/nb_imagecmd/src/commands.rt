use nb_wire::{Word, Words};

/// An image command whose words fit it.
#[derive(Drop)]
pub enum ImageCommand {
    /// `imgfetch`, `initrd` or `module`: fetches a file into the list.
    Fetch {
        /// What the image is to be called.
        name: Option<Word>,
        uri: Word,
        args: Words,
    },
    /// `imgselect`, `kernel` or `imgload`: finds an image of this name or fetches a file, selects it, and
    /// sets its arguments.
    Select {
        /// What an image that is fetched is to be called.
        name: Option<Word>,
        /// The name of an image, or a URI.
        uri: Word,
        args: Words,
    },
    /// `imgexec`, `chain` or `boot`: as `Select`, and executes the image; without a word, the selected one.
    Exec {
        name: Option<Word>,
        /// Accepted, and changes nothing.
        autofree: bool,
        /// A script takes the place of the one that runs.
        replace: bool,
        uri: Option<Word>,
        args: Words,
    },
    /// Sets the arguments of the image of this name.
    Imgargs {
        name: Word,
        args: Words,
    },
    /// Frees the images of these names, or all where there are none.
    Imgfree(Words),
    /// Prints a line for each image.
    Imgstat,
}
