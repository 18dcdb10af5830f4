use nb_record::{Feed, Front, InRec};
use std::alloc::Global;
use std::fmt;
use std::fmt::{Display, Formatter};

/// A record's number, from 1, and the place of its first byte in the input, from 0.
#[derive(Clone, Copy, Debug, PartialEq, Eq)]
pub struct Place {
    pub number: u64,
    pub at: u64,
}

impl Display for Place {
    fn fmt<W: fmt::Write>(&self, f: &mut Formatter<W>) -> fmt::Result {
        write!(f, "record {}, at byte {}", self.number, self.at)
    }
}

/// The bytes of a record's length field.
const LENGTH: usize = 4;

/// How many bytes of a record are kept: they say whether it is in the grammar.
const KEPT: usize = 8;

/// How many are kept of the first record, which is START: all that stands before its script.
const KEPT_OF_FIRST: usize = 128;

/// The most records that end in a piece of 65,536 bytes: the one that it goes on with, and others of five bytes at least.
const MOST_RECORDS: usize = 65_536 / 5 + 2;

/// What stands in the place of bytes that aren't kept.
const FILLING: [u8; 512] = [0; 512];

/// The first bytes of a record, with zeros after those of a shorter one.
type Head = [u8; KEPT];

/// The beginnings of the records that were read last, and where they stand: it says which record was refused. It rests on
/// a clause of the top call: it reads only once every whole record that was read before is used.
#[derive(Drop)]
pub struct Trail {
    /// What the input begins with.
    start: Vec<u8>,
    /// The records that have come wholly since the last piece began to come.
    heads: Vec<Head>,
    /// How many bytes these have.
    passed: u64,
    /// Where the first of these stands, or else the record at hand.
    place: Place,
    /// The record at hand, and how many bytes of it have come.
    begun: Head,
    come: usize,
}

/// The bytes of the record that begins so, its length field among them.
fn total(head: &Head) -> usize {
    let [a, b, c, d, ..] = *head;
    match usize::try_from(u32::from_be_bytes([a, b, c, d])) {
        Ok(len) => len.saturating_add(LENGTH),
        Err(_) => usize::MAX,
    }
}

impl Trail {
    /// A trail of an input of which nothing was read. It takes the memory that it needs.
    pub fn new(alloc: Global) -> Option<Trail> {
        Some(Trail {
            start: Vec::with_capacity(alloc, KEPT_OF_FIRST).ok()?,
            heads: Vec::with_capacity(alloc, MOST_RECORDS).ok()?,
            passed: 0,
            place: Place { number: 1, at: 0 },
            begun: [0; KEPT],
            come: 0,
        })
    }

    /// These bytes were read next: the whole records before them were used.
    pub fn note(&mut self, piece: &[u8]) {
        self.keep_start(piece);
        self.forget_used();
        let mut rest = piece;
        for _ in 0..piece.len() {
            if self.come == 0 {
                rest = self.pass_whole(rest);
            }
            rest = self.pass_part(rest);
            if rest.is_empty() {
                return;
            }
        }
    }

    /// Keeps what the input begins with.
    fn keep_start(&mut self, piece: &[u8]) {
        let room = KEPT_OF_FIRST.saturating_sub(self.start.len());
        let _ = self
            .start
            .extend_from_slice(&piece[..piece.len().min(room)]);
    }

    /// The whole records are gone.
    fn forget_used(&mut self) {
        self.place.number = self.place.number.saturating_add(self.heads.len() as u64);
        self.place.at = self.place.at.saturating_add(self.passed);
        self.passed = 0;
        self.heads.clear();
    }

    /// Passes the records that stand at the start and are all there, up to one that is shorter than what is kept. None is
    /// at hand.
    fn pass_whole<'a>(&mut self, bytes: &'a [u8]) -> &'a [u8] {
        let mut rest = bytes;
        for _ in 0..bytes.len() {
            let Some(head) = rest.first_chunk::<8>() else {
                break;
            };
            let len = total(head);
            let Some(after) = rest.get(len..) else {
                break;
            };
            if len < KEPT {
                break;
            }
            let _ = self.heads.push(*head);
            rest = after;
        }
        let passed = bytes.len().saturating_sub(rest.len());
        self.passed = self.passed.saturating_add(passed as u64);
        rest
    }

    /// Passes bytes of the record at hand: those of its length field, others that are kept, or the rest.
    #[inline(never)]
    fn pass_part<'a>(&mut self, bytes: &'a [u8]) -> &'a [u8] {
        let until = match self.come {
            0..LENGTH => LENGTH,
            LENGTH..KEPT => total(&self.begun).min(KEPT),
            _ => total(&self.begun),
        };
        let (part, rest) = bytes.split_at(until.saturating_sub(self.come).min(bytes.len()));
        for (place, byte) in part.iter().enumerate().take(KEPT) {
            if let Some(to) = self.begun.get_mut(self.come.saturating_add(place)) {
                *to = *byte;
            }
        }
        self.come = self.come.saturating_add(part.len());
        self.end_if_whole();
        rest
    }

    /// The record at hand ends, if all of it has come.
    fn end_if_whole(&mut self) {
        let len = total(&self.begun);
        if self.come >= LENGTH && self.come >= len {
            self.end_record(self.begun, len);
            self.begun = [0; KEPT];
            self.come = 0;
        }
    }

    /// A record of so many bytes has come. There is room for those of a piece.
    #[inline(always)]
    fn end_record(&mut self, head: Head, len: usize) {
        let _ = self.heads.push(head);
        self.passed = self.passed.saturating_add(len as u64);
    }

    /// The record that was refused: the first that isn't whole, isn't in the grammar, or is no START where
    /// one must be, or one where none may be.
    pub fn refused(&self, alloc: Global) -> Option<Place> {
        let mut feed = Feed::new(alloc).ok()?;
        let mut place = self.place;
        for head in self.heads.as_slice() {
            let len = total(head);
            let kept = if place.number == 1 {
                self.start.as_slice()
            } else {
                head
            };
            if !is_used(&mut feed, &kept[..kept.len().min(len)], len, place.number) {
                break;
            }
            place.number = place.number.saturating_add(1);
            place.at = place.at.saturating_add(len as u64);
        }
        Some(place)
    }
}

/// Whether a run may use the record of this length that begins so, as the one of this number. What isn't kept of it says
/// nothing of that.
fn is_used(feed: &mut Feed, kept: &[u8], len: usize, number: u64) -> bool {
    feed.push(kept);
    fill(feed, len.saturating_sub(kept.len()));
    let (is_start, len) = match feed.front() {
        Front::Whole(entry, len) => (matches!(entry, InRec::Start(_)), len),
        _ => return false,
    };
    feed.pass(len);
    is_start == (number == 1)
}

/// Pushes so many bytes.
fn fill(feed: &mut Feed, count: usize) {
    let mut left = count;
    for _ in 0..count {
        if left == 0 {
            return;
        }
        let n = left.min(FILLING.len());
        feed.push(&FILLING[..n]);
        left = left.saturating_sub(n);
    }
}
