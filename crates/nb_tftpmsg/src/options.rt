//! The options of an OACK (RFC 2347).

ghost use Rattle.std.specs.Prelude.{◌≡◌, ◌^◌};
ghost use Rattle.std.specs.Option.{option_map};
ghost use Rattle.nb_tftpmsg.specs.Options.{is_option_name};
ghost use Rattle.nb_tftpmsg.specs.Reading.{with_option, with_first, options_reading};
ghost use Rattle.nb_tftpmsg.specs.FoundViews.{found_of};

use crate::decimal::decimal;
use crate::text::text_at;

/// The values of the options that are looked at, as far as the OACK has been read.
#[derive(Clone, Copy, Drop)]
pub(crate) struct Options {
    pub(crate) blksize: Option<u16>,
    pub(crate) tsize: Option<u32>,
}

impl Options {
    /// What the OACK's options say. None where they aren't pairs of texts, or a value is no number.
    pub(crate) fn read(bytes: &[u8]) -> Option<Options>
        ensures { option_map found_of result ≡ options_reading bytes.now }
    {
        let mut found = Options {
            blksize: None,
            tsize: None,
        };
        let mut rest = bytes;
        while !rest.is_empty() {
            let Some((more, behind)) = found.with_first(rest) else {
                return None;
            };
            found = more;
            rest = behind;
        }
        Some(found)
    }

    /// The values with the first of these options more, and the options after it.
    fn with_first(self, bytes: &[u8]) -> Option<(Options, &[u8])>
        ensures { option_map (λ read. (found_of read.0, read.1.now)) result ≡ with_first (found_of self) bytes.now }
    {
        let (name, behind) = text_at(bytes)?;
        let (value, behind) = text_at(behind)?;
        let more = self.with_option(name, value)?;
        Some((more, behind))
    }

    /// The values with one option more, of which an earlier one of its name goes first.
    fn with_option(self, name: &[u8], value: &[u8]) -> Option<Options>
        ensures { option_map found_of result ≡ with_option (found_of self) name.now value.now }
    {
        if self.blksize.is_none() && is_named(name, b"blksize") {
            let blksize = decimal(value, u32::from(u16::MAX))? as u16;
            return Some(Options {
                blksize: Some(blksize),
                tsize: self.tsize,
            });
        }
        if self.tsize.is_none() && is_named(name, b"tsize") {
            let tsize = decimal(value, u32::MAX)?;
            return Some(Options {
                blksize: self.blksize,
                tsize: Some(tsize),
            });
        }
        Some(self)
    }
}

/// Names are compared without case.
fn is_named(name: &[u8], wanted: &[u8]) -> bool
    ensures { result ≡ is_option_name wanted.now name.now }
{
    name.eq_ignore_ascii_case(wanted)
}
