//! A message.

ghost use Rattle.std.specs.Prelude.{◌≡◌, ◌+◌, ◌<◌, ◌≤◌, ◌∷◌, ◌++◌, ◌↔◌, ℕ, ◌==◌, List, [], true, position, MatchBool, length, IfOk, IfSome, IsErr, IsSomeAnd, OnOk, OnErr};
ghost use Rattle.std.specs.Int.{w32, from_be_bytes};
ghost use Rattle.nb_dhcpmsg.specs.Options.{TagValue, joined};
ghost use Rattle.nb_dhcpmsg.specs.Messages.{MessageParts, IsMessage, HasCookie, HasOptions, field, is_value};
ghost use Rattle.std.specs.Option.{option_map};
ghost use Rattle.nb_dhcpmsg.specs.Fields.{inner_options, message_in, address_in, file_name, up_to_zero};
ghost use Rattle.nb_dhcpmsg.specs.Views.{parts_of};
ghost use Rattle.nb_dhcpmsg.specs.Collected.{tag_values};
ghost use Rattle.nb_dhcpmsg.specs.Lefts.{IsLeft};

use crate::collected::options_left;
use crate::cursor::{Cursor, FILE, FILE_LEN, Next, OPTIONS, has_file, overload, part, used_if};
use crate::joined::only_byte;
use crate::option::DhcpOption;
use crate::stream::{Stream, gather_inner};
use arrayvec::ArrayVec;
use nb_wire::{Full, Ip4, Mac, Out};
use std::alloc::{AllocError, Global};

/// What the options begin with (RFC 2131, section 3).
const COOKIE: [u8; 4] = [99, 130, 83, 99];

/// The kind of a message (RFC 2132, section 9.6).
const KIND: u8 = 53;

/// Where the fields of a message stand (RFC 2131, figure 1).
const XID: usize = 4;

const YIADDR: usize = 16;

const SIADDR: usize = 20;

const CHADDR: usize = 28;

const COOKIE_AT: usize = 236;

/// A DHCP message (RFC 2131, section 2).
#[derive(Clone, Copy, Debug, PartialEq, Eq)]
pub struct DhcpMsg<'a> {
    /// 1 from a client, 2 from a server.
    pub op: u8,
    /// The client's number of its transaction.
    pub xid: u32,
    /// The address that the server gives.
    pub yiaddr: Ip4,
    /// The server to use next, 0 where there is none.
    pub siaddr: Ip4,
    /// The client's hardware address.
    pub chaddr: Mac,
    /// The kind: 1 DISCOVER, 2 OFFER, 3 REQUEST, 5 ACK, 6 NAK and more (RFC 2132, section 9.6).
    pub kind: u8,
    /// The whole message.
    pub whole: &'a [u8],
}

impl<'a> DhcpMsg<'a> {
    /// The message that the bytes are, or None where they are none: too short, without the cookie, with an
    /// option past its field's end, or without a kind of one byte.
    pub fn read(bytes: &'a [u8]) -> Option<DhcpMsg<'a>>
        ensures sound { IfSome result (λ m. IsMessage bytes.now (parts_of m)) }
        ensures complete { (m : MessageParts) → IsMessage bytes.now m
            → IsSomeAnd result (λ r. parts_of r ≡ m) }
        ensures value { option_map parts_of result ≡ message_in bytes.now }
        ensures whole { IfSome result (λ m. m.whole.now ≡ bytes.now) }
        ensures kept { IfSome result (λ m. IsMessage m.whole.now (parts_of m)) }
    {
        if bytes.len() < OPTIONS || !has_cookie(bytes) {
            return None;
        }
        let Some(kind) = only_byte(Cursor::of(bytes), KIND).byte() else {
            return None;
        };
        Some(DhcpMsg {
            op: bytes[0],
            xid: number_at(bytes, XID),
            yiaddr: Ip4(number_at(bytes, YIADDR)),
            siaddr: Ip4(number_at(bytes, SIADDR)),
            chaddr: hardware(bytes),
            kind,
            whole: bytes,
        })
    }

    /// Puts the message's bytes. Full where the room is too small, and then nothing is put.
    pub fn write(&self, out: &mut Out<'_>) -> Result<(), Full>
        requires { IsMessage self.now.whole.now (parts_of self.now) }
        ensures full { IsErr result ↔ (out.old.left < length self.now.whole.now) }
        ensures appended { OnOk result (out.new.written ≡ out.old.written ++ self.now.whole.now) }
        ensures room { OnOk result (out.new.left + length self.now.whole.now ≡ out.old.left) }
        ensures refused { OnErr result (out.new ≡ out.old) }
    {
        out.put(self.whole)
    }

    /// All options, in the order in which the values of one tag are joined (RFC 3396): those of the options field,
    /// of the field for a file's name and of that for a server's.
    pub fn options(&self, alloc: Global) -> Result<Vec<DhcpOption<'a>>, AllocError>
        ensures { IfOk result (λ all. (os : List TagValue) → HasOptions self.now.whole.now os
            → tag_values all.items ≡ os) }
    {
        if self.whole.len() < OPTIONS {
            return Ok(Vec::new(alloc));
        }
        options_left(alloc, Cursor::of(self.whole))
    }

    /// Puts the joined value of a tag into `to`. False where no option has the tag, or the value has over
    /// 1,024 bytes.
    pub fn value(&self, tag: u8, to: &mut ArrayVec<u8, 1024>) -> bool
        ensures found { (os : List TagValue) → HasOptions self.now.whole.now os
            → result ≡ is_value tag os }
        ensures value { (os : List TagValue) → HasOptions self.now.whole.now os → result ≡ true
            → to.new.items ≡ joined tag os }
    {
        to.clear();
        if self.whole.len() < OPTIONS {
            return false;
        }
        gather(Cursor::of(self.whole), tag, to)
    }

    /// Puts the joined value of an option within a tag's joined value into `to`. The options within are read
    /// as those of a field, and one that goes past the end ends them. False where no option within has the
    /// tag `inner`, or its value has over 1,024 bytes.
    pub fn sub(&self, tag: u8, inner: u8, to: &mut ArrayVec<u8, 1024>) -> bool
        ensures found { (os : List TagValue) → HasOptions self.now.whole.now os
            → result ≡ is_value inner (inner_options (joined tag os)) }
        ensures value { (os : List TagValue) → HasOptions self.now.whole.now os → result ≡ true
            → to.new.items ≡ joined inner (inner_options (joined tag os)) }
    {
        to.clear();
        if self.whole.len() < OPTIONS {
            return false;
        }
        gather_inner(Stream::of(tag, Cursor::of(self.whole)), inner, to)
    }

    /// The address that a tag's joined value begins with. None where it has fewer than four bytes.
    pub fn address(&self, tag: u8) -> Option<Ip4>
        ensures { (os : List TagValue) → HasOptions self.now.whole.now os
            → option_map (λ ip. ip.0) result ≡ address_in (joined tag os) }
    {
        if self.whole.len() < OPTIONS {
            return None;
        }
        let value = Stream::of(tag, Cursor::of(self.whole));
        Some(Ip4(value.address()?))
    }

    /// The name in the field for a file's name, up to its first zero byte. Empty where that field holds options.
    pub fn file(&self) -> &'a [u8]
        ensures { (m : MessageParts) → IsMessage self.now.whole.now m
            → result.now ≡ file_name self.now.whole.now }
    {
        if self.whole.len() < OPTIONS {
            return &[];
        }
        let (_, options) = self.whole.split_at(OPTIONS);
        let is_name = !has_file(overload(options));
        used_if(is_name, up_to_zero(part(self.whole, FILE, FILE_LEN)))
    }
}

/// The bytes before the first zero byte. All of them where there is none.
fn up_to_zero(bytes: &[u8]) -> &[u8]
    ensures { result.now ≡ up_to_zero bytes.now }
{
    match zero_at(bytes) {
        Some(end) => &bytes[..end],
        None => bytes,
    }
}

/// The place of the first zero byte.
fn zero_at(bytes: &[u8]) -> Option<usize>
    ensures place { result ≡ position (λ byte. byte == 0) bytes.now }
    ensures within { IfSome result (λ end. end < length bytes.now) }
{
    bytes.iter().position(|byte| *byte == 0)
}

/// Puts the joined value of a tag, of all that is left, into `to`, which is empty. False where no option
/// has the tag, or the room is too small.
fn gather(options: Cursor<'_>, tag: u8, to: &mut ArrayVec<u8, 1024>) -> bool
    requires { to.old.items ≡ [] }
    ensures found { (os : List TagValue) → IsLeft options.entry os → result ≡ is_value tag os }
    ensures value { (os : List TagValue) → IsLeft options.entry os → result ≡ true
        → to.new.items ≡ joined tag os }
{
    let mut left = options;
    let mut found = false;
    'options: loop {
        match left.next() {
            Next::Option(option) if option.tag == tag => {
                found = true;
                if to.try_extend_from_slice(option.value).is_err() {
                    return false;
                }
            }
            Next::Option(_) => {}
            Next::End => return found,
            Next::Broken => return false,
        }
    }
}

/// The cookie stands before the options.
fn has_cookie(bytes: &[u8]) -> bool
    requires { 240 ≤ length bytes.now }
    ensures { MatchBool result (HasCookie bytes.now) (HasCookie bytes.now → ⊥) }
{
    part(bytes, COOKIE_AT, 4) == COOKIE.as_slice()
}

/// The number of four bytes at this place.
fn number_at(bytes: &[u8], at: usize) -> u32
    requires { at + 4 ≤ length bytes.now }
    ensures { result ≡ from_be_bytes w32 (field at 4 bytes.now) }
{
    let part = part(bytes, at, 4);
    u32::from_be_bytes([part[0], part[1], part[2], part[3]])
}

/// The client's hardware address.
fn hardware(bytes: &[u8]) -> Mac
    requires { 240 ≤ length bytes.now }
    ensures { result.0 ≡ field 28 6 bytes.now }
{
    let part = part(bytes, CHADDR, 6);
    Mac([part[0], part[1], part[2], part[3], part[4], part[5]])
}
