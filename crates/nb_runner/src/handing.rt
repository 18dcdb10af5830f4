ghost use Rattle.std.specs.Prelude.{◌≡◌, ◌<◌, ◌≤◌, ◌∷◌, [], true, false, length, option_map, slice_get, IfSome};
ghost use Rattle.std.specs.Option.{option_copied};
ghost use Rattle.nb_image.specs.Parts.{part_text, sector_part, table_parts};
ghost use Rattle.nb_runner.specs.Handings.{ComesNext, FitsBooted, HandsOn, IsAtPiece, PassesNext, booted_parts, moved_on, parts_handed, records_left};

use crate::PieceRecord;
use nb_image::{Handoff, Images, Part, PartBytes, PartKind};
use nb_record::{Log, OutRec};
use nb_wire::Text;

/// What is handed off.
#[derive(Drop)]
pub enum Booted {
    /// The image at this place of the list, with the others.
    Image(usize),
    /// The disk of which this is the first block.
    Disk(Text),
}

/// How far a hand-off is: what is booted, the boot table of drives where there is one, and the part and the piece
/// that come next.
#[derive(Drop)]
pub struct Handing {
    /// What is booted.
    pub booted: Booted,
    /// The boot table, which is the last part.
    pub table: Option<Text>,
    /// The part that comes next.
    pub part: usize,
    /// The piece of it that comes next.
    pub piece: usize,
}

/// The boot table as a part.
fn table_part(table: &Option<Text>) -> Option<Part<'_>>
    ensures { option_map part_text result ≡ slice_get (table_parts table.now) 0 }
{
    match table {
        Some(text) => Some(Part {
            kind: PartKind::Table,
            index: 0,
            bytes: PartBytes::Text(text.as_slice()),
        }),
        None => None,
    }
}

/// The only part of a disk, which is its first block.
fn block_part(block: &[u8], k: usize) -> Option<Part<'_>>
    ensures { option_map part_text result ≡ slice_get (sector_part block.now ∷ []) k }
{
    if k == 0 {
        return Some(Part {
            kind: PartKind::Sector,
            index: 0,
            bytes: PartBytes::Text(block),
        });
    }
    None
}

impl Booted {
    /// Part `k` of what is booted, from 0. None after the last.
    fn part<'a>(&'a self, images: &'a Images, k: usize) -> Option<Part<'a>>
        requires { FitsBooted images.now.images self.now }
        ensures { option_map part_text result ≡ slice_get (booted_parts images.now.images self.now) k }
    {
        match self {
            Booted::Image(kernel) => {
                let kernel = *kernel;
                Handoff { kernel, images }.part(k)
            }
            Booted::Disk(block) => block_part(block.as_slice(), k),
        }
    }

    /// How many parts it has.
    fn part_count(&self, images: &Images) -> usize
        requires { FitsBooted images.now.images self.now }
        ensures value { result ≡ length (booted_parts images.now.images self.now) }
        ensures few { result ≤ 65 }
    {
        match self {
            Booted::Image(kernel) => {
                let kernel = *kernel;
                Handoff { kernel, images }.part_count()
            }
            Booted::Disk(_) => 1,
        }
    }
}

impl Handing {
    /// The hand-off of what is booted, and of this boot table; nothing was put.
    pub fn of(booted: Booted, table: Option<Text>) -> Handing
        ensures { result ≡ record { booted = booted; table = table; part = 0; piece = 0 } }
    {
        Handing {
            booted,
            table,
            part: 0,
            piece: 0,
        }
    }

    /// The part that comes next. None where all was put.
    fn next_part<'a>(&'a self, images: &'a Images) -> Option<Part<'a>>
        requires { FitsBooted images.now.images self.now.booted }
        ensures value { option_map part_text result ≡ slice_get (parts_handed images.now.images self.now) self.now.part }
        ensures few { IfSome result (λ _. self.now.part ≤ 65) }
    {
        if self.part == self.booted.part_count(images) {
            return table_part(&self.table);
        }
        self.booted.part(images, self.part)
    }

    /// The record of the next piece. None where all was put.
    pub fn next_piece<'a>(&'a self, images: &'a Images) -> Option<PieceRecord<'a>>
        requires { IsAtPiece images.now self.now }
        ensures { ComesNext result images.now.images self.now }
    {
        let Some(part) = self.next_part(images) else {
            return None;
        };
        let Some(piece) = part.piece(self.piece) else {
            unreachable!()
        };
        Some(PieceRecord {
            kind: part.kind.number(),
            index: part.index,
            offset: piece.offset as u32,
            bytes: piece.bytes,
        })
    }

    /// The next piece was put: another comes next, if any is left.
    pub fn pass_piece(&mut self, images: &Images)
        requires at { IsAtPiece images.now self.old }
        requires some { records_left images.now.images self.old ≡ [] → ⊥ }
        ensures { PassesNext images.now self.old self.new }
    {
        let Some(part) = self.next_part(images) else {
            unreachable!()
        };
        let last = self.piece + 1 == part.piece_count();
        self.go_on(last);
    }

    /// Puts the next piece. False where all was put.
    pub fn put_piece(&mut self, images: &Images, log: &mut Log) -> bool
        requires { IsAtPiece images.now self.old }
        ensures { HandsOn result images.now self.old self.new log.old log.new }
    {
        let Some(piece) = self.next_piece(images) else {
            return false;
        };
        log.put(&OutRec::Part {
            kind: piece.kind,
            index: piece.index,
            offset: piece.offset,
            bytes: piece.bytes,
        });
        self.pass_piece(images);
        true
    }

    /// The piece was put, which was the last of its part or not.
    fn go_on(&mut self, last: bool)
        requires piece { self.old.piece < 65536 }
        requires part { self.old.part ≤ 65 }
        ensures { self.new ≡ moved_on last self.old }
    {
        if last {
            self.part += 1;
            self.piece = 0;
        } else {
            self.piece += 1;
        }
    }
}
