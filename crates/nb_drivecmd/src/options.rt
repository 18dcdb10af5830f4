//! The options of drive commands, which stand before all other words.

ghost use Rattle.std.specs.Prelude.{◌≡◌, option_map};
ghost use Rattle.std.specs.Str.{bytes_eq};
ghost use Rattle.nb_defs.specs.Commands.{is_option};
ghost use Rattle.nb_drivecmd.specs.DriveOptions.{shown_drive_options, drive_options_read, no_drive_options};
ghost use Rattle.nb_drivecmd.specs.DriveOptions.{with_drive_number, with_no_describe, with_keep};

use crate::numbers::drive_in;
use nb_wire::Word;

/// The options with which words begin, and the words after them.
#[derive(Clone, Copy, Drop)]
pub(crate) struct DriveOptions<'a> {
    /// The number of `--drive`.
    pub drive: Option<u8>,
    pub no_describe: bool,
    pub keep: bool,
    /// The words after the options.
    pub rest: &'a [Word],
}

impl<'a> DriveOptions<'a> {
    /// No options before these words.
    fn none(rest: &'a [Word]) -> DriveOptions<'a>
        ensures { shown_drive_options result ≡ no_drive_options rest.now }
    {
        DriveOptions {
            drive: None,
            no_describe: false,
            keep: false,
            rest,
        }
    }

    /// These, and before them `--drive` with a number. None where it is given again.
    fn with_drive(self, number: u8) -> Option<DriveOptions<'a>>
        ensures { option_map shown_drive_options result ≡ with_drive_number number (shown_drive_options self.entry) }
    {
        if self.drive.is_some() {
            return None;
        }
        Some(DriveOptions {
            drive: Some(number),
            no_describe: self.no_describe,
            keep: self.keep,
            rest: self.rest,
        })
    }

    /// These, and before them `--no-describe`. None where it is given again.
    fn with_no_describe(self) -> Option<DriveOptions<'a>>
        ensures { option_map shown_drive_options result ≡ with_no_describe (shown_drive_options self.entry) }
    {
        if self.no_describe {
            return None;
        }
        Some(DriveOptions {
            drive: self.drive,
            no_describe: true,
            keep: self.keep,
            rest: self.rest,
        })
    }

    /// These, and before them `--keep`. None where it is given again.
    fn with_keep(self) -> Option<DriveOptions<'a>>
        ensures { option_map shown_drive_options result ≡ with_keep (shown_drive_options self.entry) }
    {
        if self.keep {
            return None;
        }
        Some(DriveOptions {
            drive: self.drive,
            no_describe: self.no_describe,
            keep: true,
            rest: self.rest,
        })
    }
}

/// The options with which words begin. None where one is unknown, is given again, or lacks its number.
#[tactic(auto, unfolding(crate::specs::DriveOptions::drive_options_read))]
pub(crate) fn read_options(words: &[Word]) -> Option<DriveOptions<'_>>
    ensures { option_map shown_drive_options result ≡ drive_options_read words.now }
{
    match words {
        [word, number, others @ ..] if is_word(word, b"--drive") => {
            let drive = drive_in(number.as_slice())?;
            read_options(others)?.with_drive(drive)
        }
        [word, others @ ..] if is_word(word, b"--no-describe") => {
            read_options(others)?.with_no_describe()
        }
        [word, others @ ..] if is_word(word, b"--keep") => read_options(others)?.with_keep(),
        [word, ..] if is_option(word) => None,
        _ => Some(DriveOptions::none(words)),
    }
}

fn is_word(word: &Word, text: &[u8]) -> bool
    ensures { result ≡ bytes_eq word.now text.now }
{
    word.as_slice() == text
}

/// Whether a word in option place is an option.
fn is_option(word: &Word) -> bool
    ensures { result ≡ is_option word.now }
{
    word.as_slice().starts_with(b"--".as_slice())
}
