ghost use Rattle.std.specs.Prelude.{◌≡◌};
ghost use Rattle.nb_script.specs.declared.error.ScriptError.TheVariants as script;

use nb_terms::NoMemory;

/// Why a text isn't taken as a script, or a line not as a list.
#[derive(Clone, Copy, Debug, PartialEq, Eq)]
pub enum ScriptError {
    /// The text's first line isn't `#!ipxe`.
    NotScript,
    /// A line has more than 4,096 bytes after joining.
    LineTooLong,
    /// The text has more than 1,048,576 bytes.
    ScriptTooLong,
    /// The list has more than 64 words or more than 64 joins.
    TooManyWords,
    /// Memory ran out.
    NoMemory,
}

impl From<NoMemory> for ScriptError {
    ghost from_gives = { λ _ e. e ≡ script.NoMemory };

    fn from(_: NoMemory) -> ScriptError {
        ScriptError::NoMemory
    }
}
