//! Resolving a URI (URL Standard, sections 4.4 and 4.5).

ghost use Rattle.std.specs.Prelude.{◌≡◌, ◌↔◌, ◌⊎◌, Some, None, IfOk};
ghost use Rattle.std.specs.Option.{option_copied};
ghost use Rattle.url.specs.Parser.{IsOutOfRoom};
ghost use Rattle.url.specs.Parts.{IsValid};
ghost use Rattle.nb_uri.specs.Resolutions.{GivesOrNoMemory, GivesUrl, HasCleanPath, IsReadBack, IsReliable, MayBeAsked, NamesItself, StaysBelowRoot, joined_url, url_of, url_target, scheme_target, tftp_file, http_file, disk_target, whole_of, tftp_path, resolution};
ghost use Rattle.nb_uri.specs.ImageNames.{AsksForItsPath};
ghost use Rattle.nb_uri.specs.Refusals.{ExactlyWhere, IsBadUri, IsOtherScheme, IsLongUri};
ghost use Rattle.nb_uri.specs.IscsiNames.{iscsi_target};
ghost use Rattle.nb_uri.specs.declared.target.UriError.TheVariants as error;

use crate::iscsi::{IscsiUri, after_iscsi};
use crate::target::{UriError, UriTarget, fitted};
use nb_wire::Text;
use percent_encoding::percent_decode;
use std::alloc::{AllocError, Global};
use std::str;
use url::{ParseError, Position, Url};

/// The port that a TFTP server listens at (RFC 1350, section 4).
pub const TFTP_PORT: u16 = 69;

/// The port that an HTTP server listens at (RFC 9110, section 4.2.1).
pub const HTTP_PORT: u16 = 80;

/// What a text names. It is joined to a base where there is one; the name of an iSCSI disk stands alone.
pub fn resolve(alloc: Global, base: Option<&[u8]>, text: &[u8]) -> Result<UriTarget, UriError>
    // What is given, and each refusal, as one equation; the next three say each refusal alone.
    ensures answer { GivesOrNoMemory result (resolution (option_copied base.entry) text.now) }
    ensures bad_uri { ExactlyWhere result error.BadUri (IsBadUri (option_copied base.entry) text.now) }
    ensures no_scheme { ExactlyWhere result error.NoScheme (IsOtherScheme (option_copied base.entry) text.now) }
    ensures too_long { ExactlyWhere result error.TooLong (IsLongUri (option_copied base.entry) text.now) }
    // A transfer may ask for the path.
    ensures clean { IfOk result HasCleanPath }
    // Its URI names the target again, whatever it is joined to.
    ensures itself { IfOk result NamesItself }
    // Dots never lead out of the root.
    ensures rooted { IfOk result StaysBelowRoot }
    // The path that a TFTP server is asked for is the one whose last segment names the image.
    ensures asked { IfOk result AsksForItsPath }
    // An HTTP server's host and path are visible bytes, so that a request for them is a single one.
    ensures sendable { IfOk result MayBeAsked }
{
    resolve_bytes(alloc, base, text)
}

fn resolve_bytes(alloc: Global, base: Option<&[u8]>, text: &[u8]) -> Result<UriTarget, UriError>
    ensures reliable { IfOk result IsReliable }
    ensures answer { GivesOrNoMemory result (resolution (option_copied base.entry) text.now) }
{
    match str::from_utf8(text) {
        Ok(text) => resolve_text(alloc, base, text),
        Err(_) => Err(UriError::BadUri),
    }
}

fn resolve_text(alloc: Global, base: Option<&[u8]>, text: &str) -> Result<UriTarget, UriError>
    ensures reliable { IfOk result IsReliable }
    ensures answer { GivesOrNoMemory result (resolution (option_copied base.entry) text.now) }
{
    match after_iscsi(text) {
        Some(name) => disk_target(alloc, text, name),
        None => url_target(alloc, base, text),
    }
}

/// The disk that a text names; `name` is what follows `iscsi:` in it.
fn disk_target(alloc: Global, text: &str, name: &str) -> Result<UriTarget, UriError>
    ensures { GivesOrNoMemory result (disk_target text.now (iscsi_target name.now)) }
{
    let Some(disk) = IscsiUri::read(name) else {
        return Err(UriError::BadUri);
    };
    fitted(UriTarget::Iscsi {
        host: copy(alloc, disk.server)?,
        port: disk.port,
        lun: disk.lun,
        name: copy(alloc, disk.target)?,
        whole: copy(alloc, text)?,
    })
}

/// The file that the URL of a text names.
fn url_target(alloc: Global, base: Option<&[u8]>, text: &str) -> Result<UriTarget, UriError>
    ensures reliable { IfOk result IsReliable }
    ensures answer { GivesOrNoMemory result (url_target (url_of (option_copied base.entry) text.now)) }
{
    let url = parse(alloc, base, text)?;
    named(alloc, &url)
}

/// The URL of a text, joined to that of the base.
fn parse(alloc: Global, base: Option<&[u8]>, text: &str) -> Result<Url, UriError>
    ensures url { GivesUrl result (url_of (option_copied base.entry) text.now) }
    ensures back { IfOk result IsReadBack }
{
    match base {
        Some(base) => join(parse_base(alloc, base)?, text),
        None => parse_text(alloc, text),
    }
}

fn parse_base(alloc: Global, base: &[u8]) -> Result<Url, UriError>
    ensures url { GivesUrl result (joined_url None base.now) }
    ensures back { IfOk result IsReadBack }
{
    match str::from_utf8(base) {
        Ok(base) => parse_text(alloc, base),
        Err(_) => Err(UriError::BadUri),
    }
}

fn parse_text(alloc: Global, text: &str) -> Result<Url, UriError>
    ensures url { GivesUrl result (joined_url None text.now) }
    ensures back { IfOk result IsReadBack }
{
    match Url::parse(alloc, text) {
        Ok(url) => Ok(valid(url)),
        Err(why) => Err(refusal(why)),
    }
}

fn join(base: Url, text: &str) -> Result<Url, UriError>
    requires { IsReadBack base }
    ensures url { GivesUrl result (joined_url (Some base) text.now) }
    ensures back { IfOk result IsReadBack }
{
    match base.join(text) {
        Ok(url) => Ok(valid(url)),
        Err(why) => Err(refusal(why)),
    }
}

/// The same URL. What every URL's text keeps to is known of it.
fn valid(url: Url) -> Url
    ensures same { result ≡ url }
    ensures valid { IsValid result }
{
    let _text = url.as_str();
    url
}

/// Why no URL was read.
fn refusal(why: ParseError) -> UriError
    ensures full { (result ≡ error.NoMemory) ↔ IsOutOfRoom why }
    ensures other { (result ≡ error.BadUri) ⊎ (result ≡ error.NoMemory) }
{
    match why {
        ParseError::OutOfMemory | ParseError::Overflow => UriError::NoMemory,
        _ => UriError::BadUri,
    }
}

/// The file that a URL names.
fn named(alloc: Global, url: &Url) -> Result<UriTarget, UriError>
    ensures { GivesOrNoMemory result (url_target (Some url.now)) }
{
    match url.host_str() {
        Some(host) => scheme_target(alloc, url, host),
        None => Err(UriError::BadUri),
    }
}

/// The file that a URL with this host names, by its scheme.
fn scheme_target(alloc: Global, url: &Url, host: &str) -> Result<UriTarget, UriError>
    ensures { GivesOrNoMemory result (scheme_target url.now host.now) }
{
    match url.scheme() {
        "tftp" => tftp_file(alloc, url, host),
        "http" => http_file(alloc, url, host),
        _ => Err(UriError::NoScheme),
    }
}

fn tftp_file(alloc: Global, url: &Url, host: &str) -> Result<UriTarget, UriError>
    ensures { GivesOrNoMemory result (tftp_file url.now host.now) }
{
    let path = tftp_path(alloc, url)?;
    if path.as_slice().contains(&0) {
        return Err(UriError::BadUri);
    }
    fitted(UriTarget::Tftp {
        host: copy(alloc, host)?,
        port: url.port().unwrap_or(TFTP_PORT),
        path: Text::from_vec(path),
        whole: copy(alloc, whole(url))?,
    })
}

fn http_file(alloc: Global, url: &Url, host: &str) -> Result<UriTarget, UriError>
    ensures { GivesOrNoMemory result (http_file url.now host.now) }
{
    fitted(UriTarget::Http {
        host: copy(alloc, host)?,
        port: url.port().unwrap_or(HTTP_PORT),
        path: copy(alloc, url.slice(Position::BeforePath, Position::AfterQuery))?,
        whole: copy(alloc, whole(url))?,
    })
}

/// The path without its first slash, decoded.
fn tftp_path(alloc: Global, url: &Url) -> Result<Vec<u8>, AllocError>
    ensures { IfOk result (λ path. path.items ≡ tftp_path url.now) }
{
    let path = match url.path().as_bytes() {
        [_, path @ ..] => path,
        [] => &[],
    };
    let mut decoded = Vec::new(alloc);
    percent_decode(path).append_to(&mut decoded)?;
    Ok(decoded)
}

/// The URL without its fragment.
fn whole(url: &Url) -> &str
    ensures { result.now ≡ whole_of url.now }
{
    url.slice(Position::BeforeScheme, Position::AfterQuery)
}

fn copy(alloc: Global, text: &str) -> Result<Text, AllocError>
    ensures { IfOk result (λ copy. copy ≡ text.now) }
{
    Ok(Text::from_vec(Vec::from_slice(alloc, text.as_bytes())?))
}
