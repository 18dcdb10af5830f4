//! The head of a response (RFC 9112, sections 2 to 6).

ghost use Rattle.std.specs.Prelude.{◌≡◌, ◌≤◌, length, IfSome, MatchOption};
ghost use Rattle.httparse.specs.Spans.{IsResponseOf, IsResponseWithin};
ghost use Rattle.httparse.specs.Grammar.{ResponseHead};
ghost use Rattle.nb_responses.specs.Heads.{IsHead};
ghost use Rattle.nb_httpmsg.specs.HeadInfos.{IsAllOf, IsHeadOf, IsInfoOf};

use crate::block::{BlockEnd, find_block};
use crate::field::{body_of, location_of};
use httparse::Status;
use httparse::spans::{EMPTY_HEADER_SPAN, HeaderSpan, ResponseSpans, parse_response};

/// The most bytes of a head.
pub const MAX_HEAD: usize = 16_384;
/// The most fields of a head.
const MAX_FIELDS: usize = 64;
/// The most lines of a head: the status line, its fields, and one that ends it.
const MAX_LINES: usize = 66;

/// Where a body ends (RFC 9112, section 6.3).
#[derive(Clone, Copy, Debug, PartialEq, Eq)]
pub enum BodyKind {
    /// After so many bytes. A number above the largest u64 is given as that one.
    Length(u64),
    /// With its last chunk.
    Chunked,
    /// With the stream.
    ToEnd,
    /// Its fields contradict one another, or can't be read.
    Bad,
}

/// What a head says.
#[derive(Clone, Copy, Debug, PartialEq, Eq)]
pub struct HeadInfo {
    pub status: u16,
    /// How many bytes the head has.
    pub len: u32,
    pub body: BodyKind,
    /// Where the first Location's text stands, from and to, if it isn't empty.
    pub location: Option<(u32, u32)>,
}

/// What bytes begin with.
#[derive(Clone, Copy, Debug, PartialEq, Eq)]
pub enum Head {
    /// A head.
    Whole(HeadInfo),
    /// No empty line has come yet.
    More,
    /// Lines up to an empty one that are no head.
    Broken,
    /// 66 lines, none of them empty.
    TooMany,
}

/// Reads the head with which bytes begin. That they are too long for one is the caller's to say.
pub fn read_head(bytes: &[u8]) -> Head
    requires { length bytes.now ≤ 16384 }
    ensures { IsHeadOf bytes.now result }
{
    match find_block(MAX_LINES, bytes) {
        BlockEnd::Unfinished => Head::More,
        BlockEnd::Crowded => Head::TooMany,
        BlockEnd::Whole(len) => match parse_block(&bytes[..len]) {
            Some(info) => Head::Whole(info),
            None => Head::Broken,
        },
    }
}

/// What a block says, if it is a head.
fn parse_block(block: &[u8]) -> Option<HeadInfo>
    requires { length block.now ≤ 16384 }
    ensures { MatchOption result ((h : ResponseHead) → ¬ (IsHead block.now h))
        (λ info. (h : ResponseHead) × IsInfoOf block.now h info) }
{
    let mut spans = [EMPTY_HEADER_SPAN; MAX_FIELDS];
    let head = parsed(block, &mut spans)?;
    if head.len != block.len() {
        return None;
    }
    let fields = &spans[..head.headers];
    Some(HeadInfo {
        status: head.code,
        len: block.len() as u32,
        body: body_of(block, fields),
        location: location_of(block, fields),
    })
}

/// The head with which a block begins, and its fields.
fn parsed(block: &[u8], spans: &mut [HeaderSpan]) -> Option<ResponseSpans>
    requires { length spans.old ≡ 64 }
    ensures head { IfSome result (IsResponseOf block.now spans.new) }
    ensures within { IfSome result (IsResponseWithin block.now spans.new) }
    ensures found { (h : ResponseHead) → IsHead block.now h → IsAllOf block.now result }
{
    match parse_response(block, spans) {
        Ok(Status::Complete(head)) => Some(head),
        Ok(Status::Partial) => None,
        Err(_) => None,
    }
}
