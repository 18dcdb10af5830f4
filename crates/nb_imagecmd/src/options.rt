//! The options of image commands, which stand before all other words.

ghost use Rattle.std.specs.Prelude.{◌≡◌, codes, option_map};
ghost use Rattle.std.specs.Str.{bytes_eq};
ghost use Rattle.nb_defs.specs.Commands.{is_option};
ghost use Rattle.nb_imagecmd.specs.Options.{shown_options, options_read, no_options};
ghost use Rattle.nb_imagecmd.specs.Options.{with_name, with_autofree, with_replace};

use nb_wire::Word;

/// The options with which words begin, and the words after them.
#[derive(Clone, Copy, Drop)]
pub(crate) struct Options<'a> {
    /// The value of `--name`.
    pub name: Option<&'a Word>,
    pub autofree: bool,
    pub replace: bool,
    /// The words after the options.
    pub rest: &'a [Word],
}

impl<'a> Options<'a> {
    /// No options before these words.
    fn none(rest: &'a [Word]) -> Options<'a>
        ensures { shown_options result ≡ no_options rest.now }
    {
        Options {
            name: None,
            autofree: false,
            replace: false,
            rest,
        }
    }

    /// These, and before them `--name` with a value. None where it is given again.
    fn with_name(self, name: &'a Word) -> Option<Options<'a>>
        ensures { option_map shown_options result ≡ with_name name.now (shown_options self.entry) }
    {
        if self.name.is_some() {
            return None;
        }
        Some(Options {
            name: Some(name),
            autofree: self.autofree,
            replace: self.replace,
            rest: self.rest,
        })
    }

    /// These, and before them `--autofree`. None where it is given again.
    fn with_autofree(self) -> Option<Options<'a>>
        ensures { option_map shown_options result ≡ with_autofree (shown_options self.entry) }
    {
        if self.autofree {
            return None;
        }
        Some(Options {
            name: self.name,
            autofree: true,
            replace: self.replace,
            rest: self.rest,
        })
    }

    /// These, and before them `--replace`. None where it is given again.
    fn with_replace(self) -> Option<Options<'a>>
        ensures { option_map shown_options result ≡ with_replace (shown_options self.entry) }
    {
        if self.replace {
            return None;
        }
        Some(Options {
            name: self.name,
            autofree: self.autofree,
            replace: true,
            rest: self.rest,
        })
    }
}

/// The options with which words begin. None where one is unknown, is given again, or lacks its value.
#[tactic(auto, unfolding(crate::specs::Options::options_read))]
pub(crate) fn read_options(words: &[Word]) -> Option<Options<'_>>
    ensures { option_map shown_options result ≡ options_read words.now }
{
    match words {
        [word, name, others @ ..] if is_word(word, b"--name") => {
            read_options(others)?.with_name(name)
        }
        [word, others @ ..] if is_word(word, b"--autofree") => read_options(
            others,
        )?.with_autofree(),
        [word, others @ ..] if is_word(word, b"--replace") => read_options(others)?.with_replace(),
        [word, ..] if is_option(word) => None,
        _ => Some(Options::none(words)),
    }
}

fn is_word(word: &Word, text: &[u8]) -> bool
    ensures { result ≡ bytes_eq word.now text.now }
{
    word.as_slice() == text
}

/// Whether a word in option place is an option.
pub(crate) fn is_option(word: &Word) -> bool
    ensures { result ≡ is_option word.now }
{
    word.as_slice().starts_with(b"--".as_slice())
}
