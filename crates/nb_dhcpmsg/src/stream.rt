//! The bytes of a joined value, one after another, and the options within them.

ghost use Rattle.std.specs.Prelude.{◌≡◌, ◌≢◌, ◌<◌, ◌≤◌, ℕ, List, [], true, length, IfSome, MatchBool};
ghost use Rattle.nb_dhcpmsg.specs.Options.{TagValue, joined};
ghost use Rattle.nb_dhcpmsg.specs.Messages.{is_value};
ghost use Rattle.nb_dhcpmsg.specs.Fields.{inner_options, address_in};
ghost use Rattle.nb_dhcpmsg.specs.declared.stream.Inner.TheVariants as inner;
ghost use Rattle.nb_dhcpmsg.specs.Lefts.{IsLeft};
ghost use Rattle.nb_dhcpmsg.specs.Streams.{HoldsOption, IsByte, IsUnpadded, IsPassed, IsInner, IsPutBy, stream_left};

use crate::cursor::{Cursor, Next};
use crate::option::{END, PAD};
use arrayvec::ArrayVec;

/// The bytes of a tag's joined value that are still to come.
#[derive(Clone, Copy, Drop)]
pub(crate) struct Stream<'a> {
    pub(crate) tag: u8,
    /// What is left of the option at hand.
    pub(crate) part: &'a [u8],
    pub(crate) options: Cursor<'a>,
}

/// What the options within a value begin with.
#[derive(Clone, Copy, Drop)]
pub(crate) enum Inner {
    /// No option, or one that goes past the end.
    End,
    /// An option, whose value comes next in the stream.
    Option { tag: u8, len: usize },
}

impl<'a> Stream<'a> {
    /// The joined value of a tag, of all options that are left.
    pub(crate) fn of(tag: u8, options: Cursor<'a>) -> Stream<'a>
        ensures { (os : List TagValue) → IsLeft options.entry os → HoldsOption result (joined tag os) }
    {
        Stream {
            tag,
            part: &[],
            options,
        }
    }

    /// The next byte. None where none is left.
    pub(crate) fn byte(&mut self) -> Option<u8>
        ensures value { (bytes : List ℕ) → HoldsOption self.old bytes → IsByte result bytes self.new }
        ensures less { IfSome result (λ _. stream_left self.new < stream_left self.old) }
    {
        'parts: loop {
            if let Some((first, rest)) = self.part.split_first() {
                self.part = rest;
                return Some(*first);
            }
            match self.options.next() {
                Next::Option(option) if option.tag == self.tag => self.part = option.value,
                Next::Option(_) => {}
                Next::End => return None,
                Next::Broken => return None,
            }
        }
    }

    /// The address that the bytes begin with. None where they have fewer than four.
    pub(crate) fn address(mut self) -> Option<u32>
        ensures { (bytes : List ℕ) → HoldsOption self.entry bytes → result ≡ address_in bytes }
    {
        let first = self.byte()?;
        let second = self.byte()?;
        let third = self.byte()?;
        let fourth = self.byte()?;
        Some(u32::from_be_bytes([first, second, third, fourth]))
    }

    /// The next option within the bytes.
    fn inner(&mut self) -> Inner
        ensures value { (bytes : List ℕ) → HoldsOption self.old bytes → IsInner result bytes self.new }
        ensures less { result ≢ inner.End → stream_left self.new < stream_left self.old }
    {
        let Some(tag) = self.unpadded() else {
            return Inner::End;
        };
        if tag == END {
            return Inner::End;
        }
        match self.byte() {
            Some(len) if self.has(usize::from(len)) => Inner::Option {
                tag,
                len: usize::from(len),
            },
            _ => Inner::End,
        }
    }

    /// The next byte that is no padding.
    fn unpadded(&mut self) -> Option<u8>
        ensures value { (bytes : List ℕ) → HoldsOption self.old bytes → IsUnpadded result bytes self.new }
        ensures less { IfSome result (λ _. stream_left self.new < stream_left self.old) }
    {
        'padding: while let Some(byte) = self.byte() {
            if byte != PAD {
                return Some(byte);
            }
        }
        None
    }

    /// Whether so many bytes are left.
    fn has(self, len: usize) -> bool
        ensures { (bytes : List ℕ) → HoldsOption self.entry bytes
            → MatchBool result (len ≤ length bytes) (length bytes < len) }
    {
        let mut left = self;
        left.pass(len)
    }

    /// Passes so many bytes. False where fewer are left.
    fn pass(&mut self, len: usize) -> bool
        ensures value { (bytes : List ℕ) → HoldsOption self.old bytes → IsPassed result len bytes self.new }
        ensures less { result ≡ true → stream_left self.new ≤ stream_left self.old }
    {
        'bytes: for _i in 0..len {
            let Some(_) = self.byte() else {
                return false;
            };
        }
        true
    }

    /// Puts so many bytes. False where the room is too small.
    fn put(&mut self, len: usize, to: &mut ArrayVec<u8, 1024>) -> bool
        ensures value { (bytes : List ℕ) → HoldsOption self.old bytes → len ≤ length bytes
            → IsPutBy result len bytes to.old.items to.new.items self.new }
        ensures room { length to.old.items ≤ 1024 → length to.new.items ≤ 1024 }
        ensures less { result ≡ true → stream_left self.new ≤ stream_left self.old }
    {
        'bytes: for _i in 0..len {
            match self.byte() {
                Some(byte) if to.try_push(byte).is_ok() => {}
                _ => return false,
            }
        }
        true
    }
}

/// Puts the joined value of a tag, of all options within a value, into `to`, which is empty. False where no
/// option within it has the tag, or the room is too small.
pub(crate) fn gather_inner(value: Stream<'_>, tag: u8, to: &mut ArrayVec<u8, 1024>) -> bool
    requires { to.old.items ≡ [] }
    ensures found { (bytes : List ℕ) → HoldsOption value.entry bytes
        → result ≡ is_value tag (inner_options bytes) }
    ensures value { (bytes : List ℕ) → HoldsOption value.entry bytes → result ≡ true
        → to.new.items ≡ joined tag (inner_options bytes) }
{
    let mut left = value;
    let mut found = false;
    'options: loop {
        match left.inner() {
            Inner::Option { tag: other, len } if other == tag => {
                found = true;
                if !left.put(len, to) {
                    return false;
                }
            }
            Inner::Option { len, .. } => {
                if !left.pass(len) {
                    return found;
                }
            }
            Inner::End => return found,
        }
    }
}
