//! What the bytes of a head so far come to (RFC 9112, sections 4 and 6; RFC 9110, section 15).

ghost use Rattle.std.specs.Prelude.{◌≡◌, ◌≤◌, ◌&&◌, true, false, ℕ, List, [], nat_le, nat_lt, length, Some, None, if◌then◌else◌};
ghost use Rattle.nb_http.specs.declared.state.State.TheVariants.{Over};
ghost use Rattle.httparse.specs.Grammar.{ResponseHead};
ghost use Rattle.nb_responses.specs.Lines.{head_block, first_block, most_lines, unfinished, found};
ghost use Rattle.nb_responses.specs.Heads.{is_move, moves_to};
ghost use Rattle.nb_httpmsg.specs.HeadInfos.{IsInfoOf};
ghost use Rattle.nb_http.specs.HeadReading.{HeadGoes, GoesAfter, IsFinalHead, IsHeadRead, IsDecidedAt, after_length, unfinished_step};

use crate::causes::{not_a_response, ok, refused, too_large, too_long, too_many};
use crate::state::State;
use nb_httpmsg::{BodyKind, Head, HeadInfo, MAX_HEAD, read_head};
use nb_terms::Cause;

/// The most bytes of a body.
pub(crate) const MAX_BODY: u64 = 268_435_456;

/// How many of the bytes belong to the head, how many of them are kept, the state after them, and the
/// end if they decide.
#[derive(Clone, Copy)]
pub(crate) struct HeadStep {
    pub(crate) len: usize,
    pub(crate) kept: usize,
    pub(crate) state: State,
    pub(crate) over: Option<Cause>,
}

/// The state after a head that isn't interim, and the end if it decides.
#[derive(Clone, Copy)]
pub(crate) struct Next {
    pub(crate) state: State,
    pub(crate) over: Option<Cause>,
}

/// The body isn't read: the response has ended so.
pub(crate) fn ended(cause: Cause) -> Next
    ensures { result ≡ record { state = Over None; over = Some cause } }
{
    Next {
        state: State::Over(None),
        over: Some(cause),
    }
}

/// A body follows.
pub(crate) fn follows(state: State) -> Next
    ensures { result ≡ record { state = state; over = None } }
{
    Next { state, over: None }
}

/// Whether a status moves to another place: 301, 302, 303, 307 and 308.
fn is_move(status: u16) -> bool
    ensures { result ≡ is_move status }
{
    matches!(status, 301 | 302 | 303 | 307 | 308)
}

/// Whether a status is interim: 100 to 199.
fn is_interim(status: u16) -> bool
    ensures { result ≡ (nat_le 100 status && nat_lt status 200) }
{
    if status < 100 {
        return false;
    }
    status < 200
}

/// Where the text of a move stands.
fn target_of(info: &HeadInfo) -> Option<(u32, u32)>
    ensures { result ≡ (if is_move info.now.status then info.now.location else None) }
{
    if is_move(info.status) {
        return info.location;
    }
    None
}

/// What a head says: a move goes before its status, and that before its fields on the body.
fn after_head(rec: u32, info: &HeadInfo) -> Next
    ensures { (block : List ℕ) (h : ResponseHead) → IsFinalHead block h info.now
        → HeadGoes rec result.state block block result.over }
{
    match target_of(info) {
        Some(range) => moves(range),
        None => after_status(rec, info),
    }
}

/// What a head that doesn't move says.
fn after_status(rec: u32, info: &HeadInfo) -> Next
    ensures { (block : List ℕ) (h : ResponseHead) → IsFinalHead block h info.now → moves_to h ≡ None
        → HeadGoes rec result.state block block result.over }
{
    if info.status != 200 {
        return ended(refused(rec, info.status));
    }
    match info.body {
        BodyKind::Length(size) => sized(size),
        BodyKind::Chunked => follows(State::Chunked(MAX_BODY)),
        BodyKind::ToEnd => follows(State::ToEnd(MAX_BODY)),
        BodyKind::Bad => ended(not_a_response(rec)),
    }
}

/// It has moved to the text there.
fn moves(range: (u32, u32)) -> Next
    ensures { result ≡ record { state = Over (Some range); over = Some (record { code = 0; a = 0; b = 0 }) } }
{
    Next {
        state: State::Over(Some(range)),
        over: Some(ok()),
    }
}

/// A body of a stated length.
fn sized(size: u64) -> Next
    ensures { result ≡ after_length size }
{
    if size > MAX_BODY {
        return ended(too_large());
    }
    if size > 0 {
        follows(State::Sized(size))
    } else {
        ended(ok())
    }
}

/// Reads the bytes of a head so far.
pub(crate) fn read(rec: u32, bytes: &[u8]) -> HeadStep
    requires { length bytes.now ≤ 16384 }
    ensures { IsHeadRead rec bytes.now result }
{
    match read_head(bytes) {
        Head::More => unfinished(bytes.len()),
        Head::TooMany => stops(deciding(bytes), too_many()),
        Head::Broken => stops(deciding(bytes), not_a_response(rec)),
        Head::Whole(info) => whole(rec, &info),
    }
}

/// How many bytes are the first that decide, where all of them do.
fn deciding(bytes: &[u8]) -> usize
    requires short { length bytes.now ≤ 16384 }
    requires decided { first_block most_lines bytes.now ≡ unfinished → ⊥ }
    ensures { IsDecidedAt bytes.now result }
{
    let mut low = 0;
    let mut high = bytes.len();
    while high - low > 1 {
        let middle = low + (high - low) / 2;
        if is_unfinished(&bytes[..middle]) {
            low = middle;
        } else {
            high = middle;
        }
    }
    high
}

/// Whether no empty line, and not too many lines without one, have come.
fn is_unfinished(bytes: &[u8]) -> bool
    requires { length bytes.now ≤ 16384 }
    ensures yes { result ≡ true → first_block most_lines bytes.now ≡ unfinished }
    ensures no { result ≡ false → first_block most_lines bytes.now ≡ unfinished → ⊥ }
{
    match read_head(bytes) {
        Head::More => true,
        Head::Whole(_) | Head::Broken | Head::TooMany => false,
    }
}

/// No empty line has come among so many bytes.
fn unfinished(len: usize) -> HeadStep
    ensures { result ≡ unfinished_step len }
{
    if len < MAX_HEAD {
        HeadStep {
            len,
            kept: len,
            state: State::Head,
            over: None,
        }
    } else {
        stops(len, too_long())
    }
}

/// So many bytes end the response.
fn stops(len: usize, cause: Cause) -> HeadStep
    ensures { result ≡ record { len = len; kept = len; state = Over None; over = Some cause } }
{
    HeadStep {
        len,
        kept: len,
        state: State::Over(None),
        over: Some(cause),
    }
}

/// A head stands there: an interim one is passed over.
fn whole(rec: u32, info: &HeadInfo) -> HeadStep
    ensures { (block : List ℕ) (h : ResponseHead) → IsInfoOf block h info.now
        → head_block block ≡ found block [] → GoesAfter rec block result }
{
    let len = info.len as usize;
    if is_interim(info.status) {
        return HeadStep {
            len,
            kept: 0,
            state: State::Head,
            over: None,
        };
    }
    let next = after_head(rec, info);
    HeadStep {
        len,
        kept: len,
        state: next.state,
        over: next.over,
    }
}
