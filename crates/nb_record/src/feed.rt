ghost use Rattle.std.specs.Prelude.{◌≡◌, ◌+◌, ◌-◌, ◌^◌, ◌<◌, ◌≤◌, [], ◌++◌, ◌==◌, length, take, drop, min, IfOk, OnErr, vec_len};
ghost use Rattle.nb_defs.specs.Records.{IsPartial};
ghost use Rattle.nb_record.specs.Held.{ShowsFront};
ghost use Rattle.nb_record.specs.Bytes.{TakesIn};
ghost use Rattle.nb_record.specs.Outside.{Reads, NotesRead, AsksPiece, Rose, IsAtEnd};

use crate::reading::front_of;
use crate::{Failed, InRec, Line};
use nb_terms::NoMemory;
use std::alloc::Global;
use std::marker::Model;

/// No record begins so: the number of bytes of all whole records before it, and where the first byte
/// stands with which no record is possible any more: 1 in the length, 2 the type, 3 in the body.
#[derive(Clone, Copy, Debug, PartialEq, Eq)]
pub struct BadRecord {
    pub at: u64,
    pub why: u8,
}

/// What stands at the start of what a feed holds.
#[derive(Debug, Drop)]
pub enum Front<'a> {
    /// A whole record, and how many bytes it has.
    Whole(InRec<'a>, usize),
    /// A proper prefix of a record; more bytes are needed.
    Partial,
    /// No record.
    Broken(BadRecord),
}

/// The most bytes that a feed holds: a record of 131,076 and a piece of 65,536.
const ROOM: usize = 196_612;

/// The most bytes that a read asks for.
const PIECE: usize = 65_536;

/// Cuts the bytes of an input into records, in whatever pieces they come.
#[derive(Drop)]
pub struct Feed {
    bytes: Vec<u8>,
    start: usize,
    end: usize,
    passed: u64,
}

impl Model for Feed {
    ghost use Rattle.std.specs.Prelude.{ℕ, ◌≡◌, ◌≤◌, drop, take, vec_len};
    ghost use Rattle.nb_record.specs.Bytes.{Held};

    ghost Value = { Held };

    ghost view = { λ f. record { bytes = drop f.start (take f.end f.bytes.items); passed = f.passed } };

    ghost invariant = { λ f. (f.start ≤ f.end) × (f.end ≤ 196612) × (vec_len f.bytes ≡ 196612) };
}

/// Moves the bytes from `start` up to `end` to the front, and says how many they are.
fn move_to_front(bytes: &mut Vec<u8>, start: usize, end: usize) -> usize
    requires ordered { start ≤ end }
    requires within { end ≤ vec_len bytes.old }
    ensures moved { take result bytes.new.items ≡ drop start (take end bytes.old.items) }
    ensures count { result ≡ end - start }
    ensures len { vec_len bytes.new ≡ vec_len bytes.old }
{
    bytes.copy_within(start..end, 0);
    end - start
}

/// Writes a piece over the bytes from `end` on.
#[inline(always)]
pub(crate) fn copy_behind(bytes: &mut Vec<u8>, end: usize, piece: &[u8])
    requires { end + length piece.now ≤ vec_len bytes.old }
    ensures held { take (end + length piece.now) bytes.new.items ≡ take end bytes.old.items ++ piece.now }
    ensures len { vec_len bytes.new ≡ vec_len bytes.old }
{
    bytes.as_mut_slice()[end..end + piece.len()].copy_from_slice(piece);
}

/// Reads at most so many bytes over those from `end` on.
fn read_behind<L: Line>(
    bytes: &mut Vec<u8>,
    end: usize,
    most: usize,
    line: &mut L,
) -> Result<usize, Failed>
    requires { end + most ≤ vec_len bytes.old }
    ensures len { vec_len bytes.new ≡ vec_len bytes.old }
    ensures front { take end bytes.new.items ≡ take end bytes.old.items }
    ensures within { IfOk result (λ n. end + n ≤ vec_len bytes.old) }
    ensures ok { IfOk result (λ n. Reads (L.outside line.old) (L.outside line.new) (take n (drop end bytes.new.items))) }
    ensures over { IfOk result (λ n. n ≡ 0 → 0 < most → IsAtEnd (L.outside line.old)) }
    ensures noted { NotesRead most (L.outside line.old) (L.outside line.new) }
    ensures failed { OnErr result (Reads (L.outside line.old) (L.outside line.new) []
        × Rose (L.outside line.old).read_faults (L.outside line.new).read_faults) }
{
    line.read(&mut bytes.as_mut_slice()[end..end + most])
}

impl Feed {
    /// An empty feed. It takes all the memory that a feed needs.
    pub fn new(alloc: Global) -> Result<Feed, NoMemory>
        ensures { IfOk result (λ f. f ≡ record { bytes = []; passed = 0 }) }
    {
        Ok(Feed {
            bytes: vec![in alloc; 0; ROOM]?,
            start: 0,
            end: 0,
            passed: 0,
        })
    }

    /// Takes as many first bytes as fit, and says how many: at least one where a prefix of
    /// a record is held, and then all of a piece of at most 65,536 bytes.
    pub fn push(&mut self, piece: &[u8]) -> usize
        ensures within { result ≤ length piece.now }
        ensures held { self.new ≡ record { bytes = self.old.bytes ++ take result piece.now; passed = self.old.passed } }
        ensures some { IsPartial self.old.bytes → 0 < length piece.now → 0 < result }
        ensures all { IsPartial self.old.bytes → length piece.now ≤ 65536 → result ≡ length piece.now }
    {
        self.end = move_to_front(&mut self.bytes, self.start, self.end);
        self.start = 0;
        let taken = piece.len().min(ROOM - self.end);
        copy_behind(&mut self.bytes, self.end, &piece[..taken]);
        self.end += taken;
        taken
    }

    /// Reads a piece of at most 65,536 bytes straight into the room after what is held, and says how many it
    /// has: 0 at the end of the input, where a prefix of a record is held. Where the read fails, what is held stays.
    pub fn read<L: Line>(&mut self, line: &mut L) -> Result<usize, Failed>
        ensures ok { IfOk result (λ n. TakesIn n self.old self.new (L.outside line.old) (L.outside line.new)) }
        ensures over { IfOk result (λ n. n ≡ 0 → IsPartial self.old.bytes → IsAtEnd (L.outside line.old)) }
        ensures asks { AsksPiece (L.outside line.old) (L.outside line.new) }
        ensures failed { OnErr result ((self.new ≡ self.old) × Reads (L.outside line.old) (L.outside line.new) []
            × Rose (L.outside line.old).read_faults (L.outside line.new).read_faults) }
    {
        self.end = move_to_front(&mut self.bytes, self.start, self.end);
        self.start = 0;
        let most = (ROOM - self.end).min(PIECE);
        let len = read_behind(&mut self.bytes, self.end, most, line)?;
        self.end += len;
        Ok(len)
    }

    /// What stands at the front. It stays there until it is passed.
    #[inline(always)]
    pub fn front(&self) -> Front<'_>
        ensures { ShowsFront self.now result }
    {
        front_of(&self.bytes.as_slice()[self.start..self.end], self.passed)
    }

    /// Whether no byte is held.
    pub fn is_empty(&self) -> bool
        ensures { result ≡ (length self.now.bytes == 0) }
    {
        self.start == self.end
    }

    /// Passes the first bytes, those of a record that was used.
    pub fn pass(&mut self, len: usize)
        requires { len ≤ length self.old.bytes }
        ensures { self.new ≡ record { bytes = drop len self.old.bytes; passed = min (self.old.passed + len) (2 ^ 64 - 1) } }
    {
        self.passed = self.passed.saturating_add(len as u64);
        self.start += len;
    }
}
