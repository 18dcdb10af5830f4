ghost use Rattle.std.specs.Prelude.{◌≡◌, ◌*◌, ◌<◌, ◌≤◌, ◌^◌, length, take, drop, slice_get, option_map};
ghost use Rattle.nb_image.specs.Parts.{part_number, bytes_of, piece_text, part_pieces, piece_count};

use crate::Body;
use crate::pages::PAGE_LEN;

/// What a part of a hand-off is.
#[derive(Clone, Copy)]
pub enum PartKind {
    /// The bytes of the image to boot.
    Kernel,
    /// The bytes of another image.
    Initrd,
    /// The arguments of the image to boot.
    CommandLine,
    /// The boot table of drives.
    Table,
    /// The first block of the drive to boot.
    Sector,
    KernelName,
    InitrdName,
}

impl PartKind {
    /// The number by which a record names the kind.
    pub fn number(self) -> u8
        ensures { result ≡ part_number self }
    {
        match self {
            PartKind::Kernel => 0,
            PartKind::Initrd => 1,
            PartKind::CommandLine => 2,
            PartKind::Table => 3,
            PartKind::Sector => 4,
            PartKind::KernelName => 5,
            PartKind::InitrdName => 6,
        }
    }
}

/// The bytes of a part. Those of an image stand in pages.
#[derive(Clone, Copy, Drop)]
pub enum PartBytes<'a> {
    Text(&'a [u8]),
    Pages(&'a Body),
}

impl<'a> PartBytes<'a> {
    /// How many there are.
    pub fn len(&self) -> usize
        ensures { result ≡ length (bytes_of self.now) }
    {
        match self {
            PartBytes::Text(text) => text.len(),
            PartBytes::Pages(body) => body.len(),
        }
    }

    /// At most 65,536 of them, from 65,536 times `p` on.
    fn page(&self, p: usize) -> &'a [u8]
        requires within { 65536 * p ≤ length (bytes_of self.now) }
        requires fits { 65536 * p < 2 ^ 64 }
        ensures { result.now ≡ take 65536 (drop (65536 * p) (bytes_of self.now)) }
    {
        match *self {
            PartBytes::Text(text) => first_page(&text[p * PAGE_LEN..]),
            PartBytes::Pages(body) => page_or_none(body, p),
        }
    }
}

/// Page `p` of a body, empty after the last.
fn page_or_none(body: &Body, p: usize) -> &[u8]
    ensures { result.now ≡ take 65536 (drop (65536 * p) body.now) }
{
    match body.page(p) {
        Some(page) => page,
        None => &[],
    }
}

/// The first 65,536 of these bytes, or all where there are fewer.
fn first_page(bytes: &[u8]) -> &[u8]
    ensures { result.now ≡ take 65536 bytes.now }
{
    &bytes[..bytes.len().min(PAGE_LEN)]
}

/// A part of a hand-off.
#[derive(Clone, Copy, Drop)]
pub struct Part<'a> {
    pub kind: PartKind,
    /// Which of the other images it is of, from 0; 0 for the image to boot.
    pub index: u16,
    pub bytes: PartBytes<'a>,
}

/// A piece of a part.
#[derive(Clone, Copy, Drop)]
pub struct Piece<'a> {
    /// Where in the part it begins, in bytes.
    pub offset: usize,
    /// At most 65,536 bytes.
    pub bytes: &'a [u8],
}

impl<'a> Part<'a> {
    /// Piece `p`, from 0. None after the last.
    pub fn piece(&self, p: usize) -> Option<Piece<'a>>
        ensures { option_map piece_text result ≡ slice_get (part_pieces (bytes_of self.now.bytes)) p }
    {
        if p >= piece_count(self.bytes.len()) {
            return None;
        }
        Some(Piece {
            offset: p * PAGE_LEN,
            bytes: self.bytes.page(p),
        })
    }

    /// How many pieces it has; one without bytes has one.
    pub fn piece_count(&self) -> usize
        ensures { result ≡ length (part_pieces (bytes_of self.now.bytes)) }
    {
        piece_count(self.bytes.len())
    }
}

/// How many pieces so many bytes have.
fn piece_count(len: usize) -> usize
    ensures { result ≡ piece_count len }
{
    len.div_ceil(PAGE_LEN).max(1)
}
