// Settings in scripts as text: `${..}` put in place in a word, and a setting's value printed and
// read by its kind (RFC 4648 for hexadecimal and base64, RFC 9562 for UUIDs, RFC 3986 for escapes).
// An expanded value is not scanned again, so every expansion ends. Which names there are, and which
// setting a name finds, is nb_settings'. Begin with `expand`, then `print` and `parse`.
#![tactic(auto)]

mod address;
mod error;
mod expansion;
mod gathered;
mod number;
mod pairs;
mod parsing;
mod printing;
mod token;
mod values;
mod words_expansion;

pub use error::{ExpandError, ParseError};
pub use expansion::expand;
pub use number::integer;
pub use parsing::parse;
pub use printing::print;
pub use values::text_of_name;
pub use words_expansion::expand_words;
