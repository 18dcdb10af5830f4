//! The options of a message, and those within a value, each read in one pass.

ghost use Rattle.std.specs.Prelude.{◌≡◌, List, IfOk};
ghost use Rattle.nb_dhcpmsg.specs.Options.{TagValue, joined, is_there};
ghost use Rattle.nb_dhcpmsg.specs.Fields.{inner_options};
ghost use Rattle.nb_dhcpmsg.specs.Lefts.{IsLeft};
ghost use Rattle.nb_dhcpmsg.specs.Collected.{tag_values};

use crate::cursor::{Cursor, Next};
use crate::option::{DhcpOption, First, first_option};
use std::alloc::{AllocError, Global};

/// The options within a value, which are read as those of a field. One that goes past the end ends them.
pub fn options_within(alloc: Global, value: &[u8]) -> Result<Vec<DhcpOption<'_>>, AllocError>
    ensures { IfOk result (λ all. tag_values all.items ≡ inner_options value.now) }
{
    let mut all = Vec::new(alloc);
    let mut rest = value;
    'options: while let First::Option(option, after) = first_option(rest) {
        all.push(option)?;
        rest = after;
    }
    Ok(all)
}

/// All options that are left.
pub(crate) fn options_left<'a>(
    alloc: Global,
    options: Cursor<'a>,
) -> Result<Vec<DhcpOption<'a>>, AllocError>
    ensures { IfOk result
        (λ all. (os : List TagValue) → IsLeft options.entry os → tag_values all.items ≡ os) }
{
    let mut all = Vec::new(alloc);
    let mut left = options;
    'options: loop {
        match left.next() {
            Next::Option(option) => all.push(option)?,
            Next::End => return Ok(all),
            Next::Broken => return Ok(all),
        }
    }
}

/// Whether one of the options has this tag.
pub fn has_tag(options: &[DhcpOption<'_>], tag: u8) -> bool
    ensures { result ≡ is_there tag (tag_values options.now) }
{
    let mut found = false;
    'options: for option in options {
        if option.tag == tag {
            found = true;
        }
    }
    found
}

/// The values of the options with this tag, one after another (RFC 3396).
pub fn joined_value(
    alloc: Global,
    options: &[DhcpOption<'_>],
    tag: u8,
) -> Result<Vec<u8>, AllocError>
    ensures { IfOk result (λ value. value.items ≡ joined tag (tag_values options.now)) }
{
    let mut value = Vec::new(alloc);
    'options: for option in options {
        if option.tag == tag {
            value.extend_from_slice(option.value)?;
        }
    }
    Ok(value)
}
