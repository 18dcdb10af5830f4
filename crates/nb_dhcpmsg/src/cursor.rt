//! The options of a message, one after another.

ghost use Rattle.std.specs.Prelude.{◌≡◌, ◌+◌, ◌≤◌, List, [], length};
ghost use Rattle.nb_dhcpmsg.specs.Options.{TagValue, AreOptions};
ghost use Rattle.nb_dhcpmsg.specs.Messages.{field, overload, has_file, has_sname, used_if};
ghost use Rattle.nb_dhcpmsg.specs.Lefts.{IsTaken, IsNextOption, OptionBegun};

use crate::joined::only_byte;
use crate::option::{DhcpOption, First, first_option};

/// The length of a message's fields before its options (RFC 2131, section 2).
pub(crate) const OPTIONS: usize = 240;

/// The fields that options may lie in too, for a server's and for a file's name.
const SNAME: usize = 44;

const SNAME_LEN: usize = 64;

pub(crate) const FILE: usize = 108;

pub(crate) const FILE_LEN: usize = 128;

/// Says which other fields have options (RFC 2132, section 9.3).
const OVERLOAD: u8 = 52;

/// The options that are still to come: of a field, and then of two more.
#[derive(Clone, Copy, Drop)]
pub(crate) struct Cursor<'a> {
    pub(crate) field: &'a [u8],
    pub(crate) second: &'a [u8],
    pub(crate) third: &'a [u8],
}

/// What comes next.
#[derive(Drop)]
pub(crate) enum Next<'a> {
    /// No option is left.
    End,
    /// What is left isn't options.
    Broken,
    Option(DhcpOption<'a>),
}

impl<'a> Cursor<'a> {
    /// All options of a message, at their beginning.
    pub(crate) fn of(message: &'a [u8]) -> Cursor<'a>
        requires { 240 ≤ length message.now }
        ensures { OptionBegun result message.now }
    {
        let (_, field) = message.split_at(OPTIONS);
        let overload = overload(field);
        Cursor {
            field,
            second: used_if(has_file(overload), part(message, FILE, FILE_LEN)),
            third: used_if(has_sname(overload), part(message, SNAME, SNAME_LEN)),
        }
    }

    /// The next option.
    pub(crate) fn next(&mut self) -> Next<'a>
        ensures { IsNextOption result self.old self.new }
    {
        match self.take() {
            Next::End => {}
            other => return other,
        }
        self.shift();
        match self.take() {
            Next::End => {}
            other => return other,
        }
        self.shift();
        self.take()
    }

    /// Goes on to the next field.
    fn shift(&mut self)
        ensures field { self.new.field.now ≡ self.old.second.now }
        ensures second { self.new.second.now ≡ self.old.third.now }
        ensures third { self.new.third.now ≡ [] }
    {
        self.field = self.second;
        self.second = self.third;
        self.third = &[];
    }

    /// The next option of the first field.
    fn take(&mut self) -> Next<'a>
        ensures { IsTaken result self.old self.new }
    {
        match first_option(self.field) {
            First::Option(option, rest) => {
                self.field = rest;
                Next::Option(option)
            }
            First::End => Next::End,
            First::Broken => Next::Broken,
        }
    }
}

/// What the options of this field say of the others.
pub(crate) fn overload(field: &[u8]) -> Option<u8>
    ensures { (os : List TagValue) → AreOptions field.now os → result ≡ overload os }
{
    let options = Cursor {
        field,
        second: &[],
        third: &[],
    };
    only_byte(options, OVERLOAD).byte()
}

pub(crate) fn has_file(overload: Option<u8>) -> bool
    ensures { result ≡ has_file overload }
{
    overload == Some(1) || overload == Some(3)
}

fn has_sname(overload: Option<u8>) -> bool
    ensures { result ≡ has_sname overload }
{
    overload == Some(2) || overload == Some(3)
}

/// The bytes, or nothing.
pub(crate) fn used_if(is_used: bool, bytes: &[u8]) -> &[u8]
    ensures { result.now ≡ used_if is_used bytes.now }
{
    if is_used { bytes } else { &[] }
}

/// A field by its place and its length.
pub(crate) fn part(message: &[u8], at: usize, len: usize) -> &[u8]
    requires { at + len ≤ length message.now }
    ensures value { result.now ≡ field at len message.now }
    ensures size { length result.now ≡ len }
{
    let (_, rest) = message.split_at(at);
    let (part, _) = rest.split_at(len);
    part
}
