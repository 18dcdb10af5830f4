//! The records of a section.

ghost use Rattle.std.specs.Prelude.{◌≡◌, ◌&&◌, List};
ghost use Rattle.nb_dnsmsg.specs.Records.{ResourceRecord, AreRecordsAt};
ghost use Rattle.nb_dnsmsg.specs.Messages.{reached_by, is_same_name};
ghost use Rattle.nb_dnsmsg.specs.Views.{IsSectionRead, IsFirstFound, AddressIs, IsSectionAt, IsStepped, kept_address, kept_alias, wants};

use crate::name::read_name;
use crate::record::{Rdata, read_record};
use arrayvec::ArrayVec;
use nb_wire::Ip4;

/// How many aliases are followed: our choice, since RFC 1034, section 3.6.2, leaves it open.
const MAX_ALIASES: u8 = 8;

/// Which records are looked for.
#[derive(Clone, Copy, Drop)]
pub(crate) enum Want {
    Address,
    Alias,
}

/// The records of a section: where the first one stands, and how many there are.
#[derive(Clone, Copy, Drop)]
pub(crate) struct Section {
    pub(crate) start: usize,
    pub(crate) count: u16,
}

impl Section {
    /// Where the records end. None where so many don't stand there.
    pub(crate) fn end(self, message: &[u8]) -> Option<usize>
        ensures { IsSectionRead result message.now self }
    {
        let mut owner = ArrayVec::new();
        let mut place = self.start;
        for i in 0..self.count {
            match read_record(message, place, &mut owner) {
                Some(record) => place = record.end,
                None => return None,
            }
        }
        Some(place)
    }

    /// What the first record of this owner says that is wanted. The section's records stand in the message.
    fn first(self, message: &[u8], name: &[u8], want: Want) -> Option<Rdata>
        ensures { (rs : List ResourceRecord) → IsSectionAt message.now self rs → IsFirstFound result want message.now name.now rs }
    {
        let mut owner = ArrayVec::new();
        let mut place = self.start;
        for i in 0..self.count {
            let Some(record) = read_record(message, place, &mut owner) else {
                return None;
            };
            if want.is_found(record.rdata, owner.as_slice(), name) {
                return Some(record.rdata);
            }
            place = record.end;
        }
        None
    }

    /// Follows aliases from a name, which becomes the name that they reach.
    pub(crate) fn follow(self, message: &[u8], name: &mut ArrayVec<u8, 255>)
        ensures { (rs : List ResourceRecord) → IsSectionAt message.now self rs → name.new.items ≡ reached_by 8 name.old.items rs }
    {
        for i in 0..MAX_ALIASES {
            if !self.step(message, name) {
                return;
            }
        }
    }

    /// Follows one alias. False where the name has none.
    fn step(self, message: &[u8], name: &mut ArrayVec<u8, 255>) -> bool
        ensures { (rs : List ResourceRecord) → IsSectionAt message.now self rs → IsStepped result name.old.items name.new.items rs }
    {
        match alias_of(self.first(message, name.as_slice(), Want::Alias)) {
            Some(place) => read_name(message, place, name).is_some(),
            None => false,
        }
    }

    /// The first address of a name.
    pub(crate) fn address(self, message: &[u8], name: &[u8]) -> Option<Ip4>
        ensures { (rs : List ResourceRecord) → IsSectionAt message.now self rs → AddressIs result name.now rs }
    {
        address_of(self.first(message, name, Want::Address))
    }
}

impl Want {
    /// What a record of this owner says is wanted of a name.
    fn is_found(self, rdata: Rdata, owner: &[u8], name: &[u8]) -> bool
        ensures { result ≡ (wants self rdata && is_same_name owner.now name.now) }
    {
        self.is(rdata) && owner.eq_ignore_ascii_case(name)
    }

    fn is(self, rdata: Rdata) -> bool
        ensures { result ≡ wants self rdata }
    {
        match (self, rdata) {
            (Want::Address, Rdata::Address(_)) => true,
            (Want::Alias, Rdata::Alias(_)) => true,
            _ => false,
        }
    }
}

/// The place of an alias's name.
fn alias_of(found: Option<Rdata>) -> Option<usize>
    ensures { result ≡ kept_alias found }
{
    match found {
        Some(Rdata::Alias(place)) => Some(place),
        _ => None,
    }
}

fn address_of(found: Option<Rdata>) -> Option<Ip4>
    ensures { result ≡ kept_address found }
{
    match found {
        Some(Rdata::Address(address)) => Some(address),
        _ => None,
    }
}
