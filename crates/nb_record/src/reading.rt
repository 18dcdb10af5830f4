ghost use Rattle.std.specs.Prelude.{◌≡◌, ◌+◌, ◌<◌, ◌≤◌, ◌⊎◌, MatchBool, length, take, drop, true, false, None, IfSome, slice_index_or};
ghost use Rattle.nb_defs.proofs.StartLaws.{start_at};
ghost use Rattle.nb_defs.proofs.RecordLaws.{in_by};
ghost use Rattle.nb_record.specs.View.{start_of, in_of};
ghost use Rattle.nb_record.specs.Reading.{record_type, least_length, length_with, ms_with, BodyBeginsAs, BeginsAs, CanBegin, whole_len};
ghost use Rattle.nb_record.specs.Held.{BreaksAt, ShowsFront, IsFront, part_of};
ghost use Rattle.nb_defs.specs.Records.{frame};

use crate::kind::Kind;
use crate::{BadRecord, Front, InRec, Start, StartRecord};
use nb_wire::{Ip4, Mac};

const VERSION: u8 = 1;

/// The bytes of a frame's shortest record.
const LEAST_FRAME: usize = 19;

/// The high byte of `w` is less.
const W_HIGH_END: u8 = 64;

/// The least and the most milliseconds of a TICK.
const LEAST_TICK: u16 = 1;

const GREATEST_TICK: u16 = 60_000;

/// The byte at a place, or another where none stands there yet.
fn byte_or(bytes: &[u8], place: usize, missing: u8) -> u8
    ensures { result ≡ slice_index_or bytes.now place missing }
{
    match bytes.get(place) {
        Some(byte) => *byte,
        None => missing,
    }
}

/// The length that stands at the front, with `missing` in place of its bytes that aren't there yet.
#[tactic(auto, unfolding(crate::specs::Reading::length_with))]
fn spelled_length(bytes: &[u8], missing: u8) -> u32
    ensures { result ≡ length_with missing bytes.now }
{
    u32::from_be_bytes([
        byte_or(bytes, 0, missing),
        byte_or(bytes, 1, missing),
        byte_or(bytes, 2, missing),
        byte_or(bytes, 3, missing),
    ])
}

/// The milliseconds that stand at a body's front, with `missing` in place of bytes that aren't there yet.
#[tactic(auto, unfolding(crate::specs::Reading::ms_with))]
fn spelled_ms(bytes: &[u8], missing: u8) -> u16
    ensures { result ≡ ms_with missing bytes.now }
{
    u16::from_be_bytes([byte_or(bytes, 5, missing), byte_or(bytes, 6, missing)])
}

/// Whether a body of this kind can begin so.
fn body_begins_as(kind: Kind, bytes: &[u8]) -> bool
    ensures yes { result ≡ true → BodyBeginsAs kind bytes.now }
    ensures not { result ≡ false → BodyBeginsAs kind bytes.now → ⊥ }
{
    match kind {
        Kind::Start => byte_or(bytes, 5, VERSION) == VERSION && byte_or(bytes, 62, 0) < W_HIGH_END,
        Kind::Tick => LEAST_TICK <= spelled_ms(bytes, 255) && spelled_ms(bytes, 0) <= GREATEST_TICK,
        Kind::Frame | Kind::Off => true,
    }
}

/// Whether a record of this kind can begin with these bytes.
fn begins_as(kind: Kind, bytes: &[u8]) -> bool
    ensures yes { result ≡ true → BeginsAs kind bytes.now }
    ensures not { result ≡ false → BeginsAs kind bytes.now → ⊥ }
{
    spelled_length(bytes, 0) <= kind.greatest_length()
        && kind.least_length() <= spelled_length(bytes, 255)
        && byte_or(bytes, 4, kind.number()) == kind.number()
        && body_begins_as(kind, bytes)
}

/// A kind of which a record can begin with these bytes.
fn kind_of(bytes: &[u8]) -> Option<Kind>
    ensures some { IfSome result (λ kind. BeginsAs kind bytes.now) }
    ensures none { result ≡ None → CanBegin bytes.now → ⊥ }
{
    if begins_as(Kind::Start, bytes) {
        Some(Kind::Start)
    } else if begins_as(Kind::Frame, bytes) {
        Some(Kind::Frame)
    } else if begins_as(Kind::Tick, bytes) {
        Some(Kind::Tick)
    } else if begins_as(Kind::Off, bytes) {
        Some(Kind::Off)
    } else {
        None
    }
}

/// The place of the first byte with which no record can begin.
fn break_place(bytes: &[u8]) -> usize
    requires { CanBegin bytes.now → ⊥ }
    ensures { BreaksAt bytes.now (part_of result) }
{
    for place in 0..bytes.len() {
        if kind_of(&bytes[..place + 1]).is_none() {
            return place;
        }
    }
    unreachable!()
}

/// The part of a record in which a place lies: 1 the length, 2 the type, 3 the body.
fn part_at(place: usize) -> u8
    ensures { result ≡ part_of place }
{
    match place {
        0..4 => 1,
        4 => 2,
        _ => 3,
    }
}

/// The `N` bytes from a place on.
fn part<const N: usize>(bytes: &[u8], place: usize) -> [u8; N]
    requires { place + N ≤ length bytes.now }
    ensures { result ≡ take N (drop place bytes.now) }
{
    match bytes[place..].first_chunk::<N>() {
        Some(part) => *part,
        None => unreachable!(),
    }
}

/// The fields of a START record, each from its place.
#[tactic(auto, unfolding(nb_defs::proofs::StartLaws::start_at))]
pub fn start_fields(bytes: &[u8]) -> Start<'_>
    requires { 80 ≤ length bytes.now }
    ensures { start_of result ≡ start_at bytes.now }
{
    Start {
        mac: Mac(part(bytes, 6)),
        uuid: part(bytes, 12),
        key: part(bytes, 28),
        arch: u16::from_be_bytes(part(bytes, 60)),
        w: u16::from_be_bytes(part(bytes, 62)),
        ip: Ip4(u32::from_be_bytes(part(bytes, 64))),
        mask: Ip4(u32::from_be_bytes(part(bytes, 68))),
        gateway: Ip4(u32::from_be_bytes(part(bytes, 72))),
        dns: Ip4(u32::from_be_bytes(part(bytes, 76))),
        script: &bytes[80..],
    }
}

/// A whole record of this kind.
#[tactic(auto, unfolding(nb_defs::proofs::RecordLaws::in_by))]
fn record_of(kind: Kind, bytes: &[u8]) -> InRec<'_>
    requires { 4 + least_length kind ≤ length bytes.now }
    ensures { in_of result ≡ in_by (record_type kind) bytes.now }
{
    match kind {
        Kind::Start => InRec::Start(StartRecord::of(bytes)),
        Kind::Frame => InRec::Frame(&bytes[5..]),
        Kind::Tick => InRec::Tick(u16::from_be_bytes(part(bytes, 5))),
        Kind::Off => InRec::Off,
    }
}

/// The frame that stands whole at the front, and how many bytes its record has, if one does.
#[inline(always)]
fn frame_at(bytes: &[u8]) -> Option<(&[u8], usize)>
    ensures { IfSome result (λ f. IsFront bytes.now (frame f.0.now) f.1) }
{
    if bytes.len() < LEAST_FRAME {
        return None;
    }
    let len = spelled_length(bytes, 0);
    if byte_or(bytes, 4, 0) != Kind::Frame.number() || !is_frame_length(len) {
        return None;
    }
    let end = 4 + len as usize;
    if bytes.len() < end {
        return None;
    }
    let (whole, _) = bytes.split_at(end);
    Some((&whole[5..], end))
}

/// Whether a frame's record may have this length.
fn is_frame_length(len: u32) -> bool
    ensures { MatchBool result ((15 ≤ len) × (len ≤ 1523)) ((len < 15) ⊎ (1523 < len)) }
{
    Kind::Frame.least_length() <= len && len <= Kind::Frame.greatest_length()
}

/// What stands at the start of the bytes, before which this many bytes of whole records were passed.
/// Nearly all records are frames, so these are looked for first.
#[inline(always)]
pub fn front_of(bytes: &[u8], passed: u64) -> Front<'_>
    ensures { ShowsFront (record { bytes = bytes.now; passed = passed }) result }
{
    match frame_at(bytes) {
        Some((frame, len)) => Front::Whole(InRec::Frame(frame), len),
        None => any_front_of(bytes, passed),
    }
}

#[inline(never)]
fn any_front_of(bytes: &[u8], passed: u64) -> Front<'_>
    ensures { ShowsFront (record { bytes = bytes.now; passed = passed }) result }
{
    let Some(kind) = kind_of(bytes) else {
        return Front::Broken(BadRecord {
            at: passed,
            why: part_at(break_place(bytes)),
        });
    };
    let len = 4 + spelled_length(bytes, 0) as usize;
    if bytes.len() < len {
        return Front::Partial;
    }
    Front::Whole(record_of(kind, &bytes[..len]), len)
}
