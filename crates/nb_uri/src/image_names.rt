//! The names of images, by their URIs.

ghost use Rattle.std.specs.Prelude.{◌≡◌, IfOk};
ghost use Rattle.std.specs.List.{before_first, after_first};
ghost use Rattle.percent_encoding.specs.Percent.{percent_decode};
ghost use Rattle.nb_uri.specs.Pieces.{is_slash};
ghost use Rattle.nb_uri.specs.ImageNames.{is_question_mark, authority_and_path, path_text, last_path_segment, segment_or_host, image_name};

use crate::pieces::{cut, last_segment};
use nb_terms::NoMemory;
use nb_wire::Text;
use percent_encoding::percent_decode;
use std::alloc::Global;

/// What the image of a file is named: the last segment of its URI's path, percent-decoded after the path is cut
/// into segments (RFC 3986, section 2.4); the host where that segment is empty. `uri` is the file's URI
/// without its fragment, as a target has it.
pub fn image_name(alloc: Global, uri: &[u8], host: &[u8]) -> Result<Text, NoMemory>
    ensures { IfOk result (λ name. name ≡ image_name uri.now host.now) }
{
    segment_or_host(alloc, last_path_segment(uri), host)
}

fn segment_or_host(alloc: Global, segment: &[u8], host: &[u8]) -> Result<Text, NoMemory>
    ensures { IfOk result (λ name. name ≡ segment_or_host segment.now host.now) }
{
    match segment {
        [] => Ok(Text::from_vec(Vec::from_slice(alloc, host)?)),
        _ => decoded(alloc, segment),
    }
}

fn decoded(alloc: Global, segment: &[u8]) -> Result<Text, NoMemory>
    ensures { IfOk result (λ name. name ≡ percent_decode segment.now) }
{
    let mut name = Vec::new(alloc);
    percent_decode(segment).append_to(&mut name)?;
    Ok(Text::from_vec(name))
}

/// The last segment of that path.
fn last_path_segment(uri: &[u8]) -> &[u8]
    ensures { result.now ≡ last_path_segment uri.now }
{
    last_segment(path_text(uri))
}

/// The path of a URI without its first slash, escaped as it stands there.
fn path_text(uri: &[u8]) -> &[u8]
    ensures { result.now ≡ path_text uri.now }
{
    after_slash(authority_and_path(uri))
}

/// What follows the `//` of a URI, without its query.
fn authority_and_path(uri: &[u8]) -> &[u8]
    ensures { result.now ≡ authority_and_path uri.now }
{
    before_question_mark(after_slash(after_slash(uri)))
}

fn before_question_mark(text: &[u8]) -> &[u8]
    ensures { result.now ≡ before_first is_question_mark text.now }
{
    match cut(text, b'?') {
        Some((before, _)) => before,
        None => text,
    }
}

/// What follows the first `/`; nothing where there is none.
fn after_slash(text: &[u8]) -> &[u8]
    ensures { result.now ≡ after_first is_slash text.now }
{
    match cut(text, b'/') {
        Some((_, after)) => after,
        None => &[],
    }
}
