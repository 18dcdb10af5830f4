//! The fields of a head, by their spans (RFC 9112, section 5).

ghost use Rattle.std.specs.Prelude.{◌≡◌, ◌≤◌, ◌<◌, ◌+◌, ◌∷◌, [], List, ℕ, length, drop, All, MatchOption, IfSome, codes, slice_index_or, slice_range, true};
ghost use Rattle.std.specs.Option.{option_map};
ghost use Rattle.std.specs.List.{list_all};
ghost use Rattle.std.specs.Str.Parse.{digits_value};
ghost use Rattle.httparse.specs.declared.spans.HeaderSpan.{HeaderSpan};
ghost use Rattle.httparse.specs.Spans.{IsHeaderWithin, span_bytes};
ghost use Rattle.nb_responses.specs.Heads.{is_same_word, framing_by, has_decimal_value, is_decimal, moves_to_first};
ghost use Rattle.nb_httpmsg.specs.Fields.{covered, named};
ghost use Rattle.nb_httpmsg.specs.HeadInfos.{body_kind};

use crate::head::BodyKind;
use crate::number::{is_decimal, is_same_number, saturated};
use httparse::spans::HeaderSpan;

/// Whether a field has this name; case makes no difference.
fn has_name(block: &[u8], field: &HeaderSpan, name: &[u8]) -> bool
    requires { IsHeaderWithin (length block.now) field.now }
    ensures { result ≡ is_same_word name.now (span_bytes block.now field.now.name) }
{
    field.name.of(block).eq_ignore_ascii_case(name)
}

/// The first field of a name.
fn find_field(block: &[u8], fields: &[HeaderSpan], name: &[u8]) -> Option<usize>
    requires { All (IsHeaderWithin (length block.now)) fields.now }
    ensures { MatchOption result (named name.now (covered block.now fields.now) ≡ [])
        (λ i. (i < length fields.now) × ((d : HeaderSpan) → named name.now (covered block.now fields.now)
        ≡ span_bytes block.now (slice_index_or fields.now i d).value
        ∷ named name.now (covered block.now (drop (i + 1) fields.now)))) }
{
    for i in 0..fields.len() {
        if has_name(block, &fields[i], name) {
            return Some(i);
        }
    }
    None
}

/// Where the body ends (RFC 9112, section 6.3). Transfer-Encoding goes before Content-Length.
pub(crate) fn body_of(block: &[u8], fields: &[HeaderSpan]) -> BodyKind
    requires { All (IsHeaderWithin (length block.now)) fields.now }
    ensures { result
        ≡ body_kind (framing_by (named (codes "transfer-encoding") (covered block.now fields.now))
        (named (codes "content-length") (covered block.now fields.now))) }
{
    match find_field(block, fields, b"transfer-encoding") {
        None => length_of(block, fields),
        Some(i) => encoding_of(block, fields[i].value.of(block), &fields[i + 1..]),
    }
}

/// The body by its one transfer coding, which is `chunked` or bad; a second field is bad.
fn encoding_of(block: &[u8], first: &[u8], later: &[HeaderSpan]) -> BodyKind
    requires { All (IsHeaderWithin (length block.now)) later.now }
    ensures { (lengths : List (List ℕ))
        → result ≡ body_kind (framing_by (first.now ∷ named (codes "transfer-encoding")
        (covered block.now later.now)) lengths) }
{
    if let Some(_) = find_field(block, later, b"transfer-encoding") {
        return BodyKind::Bad;
    }
    if first.eq_ignore_ascii_case(b"chunked") {
        BodyKind::Chunked
    } else {
        BodyKind::Bad
    }
}

/// The body by Content-Length: to the stream's end without one, bad where two differ.
fn length_of(block: &[u8], fields: &[HeaderSpan]) -> BodyKind
    requires { All (IsHeaderWithin (length block.now)) fields.now }
    ensures { result ≡ body_kind (framing_by [] (named (codes "content-length") (covered block.now fields.now))) }
{
    match find_field(block, fields, b"content-length") {
        None => BodyKind::ToEnd,
        Some(i) => number_of(block, fields[i].value.of(block), &fields[i + 1..]),
    }
}

/// The body by the first Content-Length, which all later ones repeat.
fn number_of(block: &[u8], first: &[u8], later: &[HeaderSpan]) -> BodyKind
    requires { All (IsHeaderWithin (length block.now)) later.now }
    ensures { result
        ≡ body_kind (framing_by [] (first.now ∷ named (codes "content-length") (covered block.now later.now))) }
{
    if !is_decimal(first) {
        return BodyKind::Bad;
    }
    if !all_repeat(block, later, first) {
        return BodyKind::Bad;
    }
    BodyKind::Length(saturated(first))
}

/// Whether each Content-Length is this number.
fn all_repeat(block: &[u8], fields: &[HeaderSpan], number: &[u8]) -> bool
    requires within { All (IsHeaderWithin (length block.now)) fields.now }
    requires decimal { is_decimal number.now ≡ true }
    ensures { result ≡ list_all (has_decimal_value (digits_value 10 number.now))
        (named (codes "content-length") (covered block.now fields.now)) }
{
    for i in 0..fields.len() {
        let field = &fields[i];
        if has_name(block, field, b"content-length") {
            if !is_same_number(field.value.of(block), number) {
                return false;
            }
        }
    }
    true
}

/// Where the first Location's text stands, if it isn't empty.
pub(crate) fn location_of(block: &[u8], fields: &[HeaderSpan]) -> Option<(u32, u32)>
    requires within { All (IsHeaderWithin (length block.now)) fields.now }
    requires short { length block.now ≤ 16384 }
    ensures text { option_map (λ r. slice_range block.now r.0 r.1) result
        ≡ moves_to_first (named (codes "location") (covered block.now fields.now)) }
    ensures in_block { IfSome result (λ r. (r.0 ≤ r.1) × (r.1 ≤ length block.now)) }
{
    let i = find_field(block, fields, b"location")?;
    let value = fields[i].value;
    if value.start == value.end {
        return None;
    }
    Some((value.start as u32, value.end as u32))
}
