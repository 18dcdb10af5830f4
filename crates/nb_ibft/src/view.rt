//! A table written, and read again.

ghost use Rattle.std.specs.Prelude.{◌≡◌, ℕ, ◌+◌, ◌%◌, ◌-◌, ◌++◌, List, [], length, sum, IfOk, IfSome, IsSome, IsTrue, ◌↔◌};
ghost use Rattle.nb_ibft.specs.Infos.{Info, IsInfo, HasShortTexts};
ghost use Rattle.nb_ibft.specs.Tables.{ibft, texts_text, check_of};
ghost use Rattle.nb_ibft.specs.Readings.{IsIbft, GivesInfo};
ghost use Rattle.nb_ibft.specs.Views.{boot_info, lent_info};

use crate::info::BootInfo;
use crate::lent::LentInfo;
use arrayvec::ArrayVec;
use nb_terms::NoMemory;
use nb_wire::Text;
use std::alloc::Global;
use std::marker::Model;

/// The bytes of a table.
#[derive(Drop)]
pub struct TableView<'a> {
    bytes: &'a [u8],
    lent: LentInfo<'a>,
}

impl<'a> Model for TableView<'a> {
    ghost use Rattle.std.specs.Prelude.{ℕ, List};

    ghost Value = { List ℕ };

    ghost use Rattle.nb_ibft.specs.Readings.{GivesLentInfo};

    ghost view = { λ t. t.bytes.now };

    ghost invariant = { λ t. GivesLentInfo t.bytes.now t.lent };
}

impl TableView<'_> {
    /// What the table says.
    pub fn info(&self, alloc: Global) -> Result<BootInfo, NoMemory>
        ensures { IfOk result (λ b. GivesInfo self.now (boot_info b)) }
    {
        let lent = &self.lent;
        lent.owned(alloc)
    }
}

/// The table that says this.
#[tactic(auto, using(crate::proofs::SumLemmas::sums_to_zero))]
pub fn table(alloc: Global, info: &BootInfo) -> Result<Text, NoMemory>
    requires { HasShortTexts (boot_info info.now) }
    ensures value { IfOk result (λ t. t ≡ ibft (boot_info info.now)) }
    ensures sum { IfOk result (λ t. sum t % 256 ≡ 0) }
{
    let lent = LentInfo::of(info);
    let mut texts = Vec::new(alloc);
    lent.put_texts(&mut texts)?;
    let mut parts = ArrayVec::new();
    lent.put_checked(texts.as_slice(), &mut parts);
    let mut bytes = Vec::new(alloc);
    bytes.extend_from_slice(parts.as_slice())?;
    bytes.extend_from_slice(texts.as_slice())?;
    Ok(Text::from_vec(bytes))
}

/// The table that the bytes are, if they are one.
#[tactic(auto, using(crate::proofs::SumLemmas::sums_to_zero))]
pub fn read_table(bytes: &[u8]) -> Option<TableView<'_>>
    ensures same { IfSome result (λ t. t ≡ bytes.now) }
    ensures exact { IsSome result ↔ IsIbft bytes.now }
    ensures sum { IfSome result (λ _. sum bytes.now % 256 ≡ 0) }
{
    let lent = LentInfo::read(bytes)?;
    if lent.is_table(bytes) {
        Some(TableView { bytes, lent })
    } else {
        None
    }
}

impl LentInfo<'_> {
    /// Puts all that stands before the texts, the checksum included.
    fn put_checked(&self, texts: &[u8], to: &mut ArrayVec<u8, 400>)
        requires short { HasShortTexts (lent_info self.now) }
        requires given { texts.now ≡ texts_text (lent_info self.now) }
        requires empty { to.old.items ≡ [] }
        ensures { to.new.items ++ texts.now ≡ ibft (lent_info self.now) }
    {
        self.put_parts(0, to);
        let check = check_of(sum_of(to.as_slice()).wrapping_add(sum_of(texts)));
        to.clear();
        self.put_parts(check, to);
    }

    /// Whether the bytes are the table that says this.
    fn is_table(&self, bytes: &[u8]) -> bool
        requires { IsInfo (lent_info self.now) }
        ensures { IsTrue result ↔ (bytes.now ≡ ibft (lent_info self.now)) }
    {
        let place = usize::from(self.texts_place());
        if bytes.len() < place {
            return false;
        }
        let (before, texts) = bytes.split_at(place);
        if !self.are_texts(texts) {
            return false;
        }
        let mut parts = ArrayVec::new();
        self.put_checked(texts, &mut parts);
        before == parts.as_slice()
    }
}

/// The sum of the bytes modulo 256.
fn sum_of(bytes: &[u8]) -> u8
    ensures { result ≡ sum bytes.now % 256 }
{
    let mut total: u8 = 0;
    for byte in bytes {
        total = total.wrapping_add(*byte);
    }
    total
}

/// What makes this sum 0 modulo 256.
fn check_of(total: u8) -> u8
    ensures { result ≡ check_of total }
{
    0u8.wrapping_sub(total)
}
