//! A resource record.

ghost use Rattle.std.specs.Prelude.{◌≡◌, ◌<◌, ◌≤◌, ◌+◌, length, take, drop, MatchBool};
ghost use Rattle.std.specs.Int.{from_be_bytes, w32};
ghost use Rattle.nb_dnsmsg.specs.Records.{number_at};
ghost use Rattle.nb_dnsmsg.specs.Views.{IsAliasRead, IsDataRead, IsRecordRead};

use crate::name::read_name;
use crate::piece::from_place;
use arrayvec::ArrayVec;
use nb_wire::Ip4;

/// The type of an address (RFC 1035, section 3.2.2).
pub(crate) const A: u16 = 1;

/// The type of an alias.
const CNAME: u16 = 5;

/// The class of the internet (RFC 1035, section 3.2.4).
pub(crate) const IN: u16 = 1;

/// The bytes of a record between its owner's name and its data: type, class, time to live and length.
const FIELDS: usize = 10;

/// What a record says.
#[derive(Clone, Copy, Drop)]
pub(crate) enum Rdata {
    /// The address of its owner.
    Address(Ip4),
    /// Its owner is an alias for the name at this place.
    Alias(usize),
    /// Something else, which isn't read.
    Other,
}

/// A record of a message, without its owner's name.
#[derive(Drop)]
pub(crate) struct Record {
    pub(crate) rdata: Rdata,
    /// Where it ends.
    pub(crate) end: usize,
}

/// The record at this place, whose owner's name is put into `owner`. None where no record stands there.
pub(crate) fn read_record(
    message: &[u8],
    place: usize,
    owner: &mut ArrayVec<u8, 255>,
) -> Option<Record>
    ensures { IsRecordRead result message.now place owner.new.items }
{
    let Some(fields) = read_name(message, place, owner) else {
        return None;
    };
    if !has(message, fields, FIELDS) {
        return None;
    }
    let start = fields + FIELDS;
    let size = usize::from(number_at(message, fields + 8));
    if !has(message, start, size) {
        return None;
    }
    let kind = number_at(message, fields);
    let class = number_at(message, fields + 2);
    match read_data(message, kind, class, start, size) {
        Some(rdata) => Some(Record {
            rdata,
            end: start + size,
        }),
        None => None,
    }
}

/// What data of this type, class, place and length say. None where an alias isn't one name.
fn read_data(message: &[u8], kind: u16, class: u16, start: usize, size: usize) -> Option<Rdata>
    requires { start + size ≤ length message.now }
    ensures { IsDataRead result message.now kind class start size }
{
    if class != IN {
        return Some(Rdata::Other);
    }
    if kind == CNAME {
        return read_alias(message, start, start + size);
    }
    if kind != A || size != 4 {
        return Some(Rdata::Other);
    }
    Some(Rdata::Address(Ip4(address_at(message, start))))
}

/// The alias whose name stands from this place up to that one.
fn read_alias(message: &[u8], start: usize, end: usize) -> Option<Rdata>
    ensures { IsAliasRead result message.now start end }
{
    let mut name = ArrayVec::new();
    let Some(last) = read_name(message, start, &mut name) else {
        return None;
    };
    if last != end {
        return None;
    }
    Some(Rdata::Alias(start))
}

/// So many bytes stand from this place on.
pub(crate) fn has(message: &[u8], place: usize, len: usize) -> bool
    ensures { MatchBool result (place + len ≤ length message.now) (length message.now < place + len) }
{
    place <= message.len() && len <= message.len() - place
}

/// The number of two bytes at this place.
pub(crate) fn number_at(message: &[u8], place: usize) -> u16
    requires { place + 2 ≤ length message.now }
    ensures { result ≡ number_at place message.now }
{
    let (part, _) = from_place(message, place).split_at(2);
    u16::from_be_bytes([part[0], part[1]])
}

/// The number of four bytes at this place.
fn address_at(message: &[u8], place: usize) -> u32
    requires { place + 4 ≤ length message.now }
    ensures { result ≡ from_be_bytes w32 (take 4 (drop place message.now)) }
{
    let (part, _) = from_place(message, place).split_at(4);
    u32::from_be_bytes([part[0], part[1], part[2], part[3]])
}
