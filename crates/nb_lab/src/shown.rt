//! What the output of a run shows of what is counted.

ghost use Rattle.std.specs.Prelude.{◌≡◌, ◌+◌, ◌<◌, ◌^◌, ◌++◌, ◌↔◌, ℕ, List, length, IsNone, IsSomeAnd, IfSome};
ghost use Rattle.nb_defs.specs.Records.{Out, out_text, record_text};
ghost use Rattle.nb_lab.specs.Shows.{seen, seen_of, image_at_url, image_of_open};
ghost use Rattle.nb_lab.specs.Readings.{seen_by, begins_with_zero, image_by, BeginsWithRecord};

use crate::image::Image;
use nb_wire::View;

/// The types of the output records that are counted.
const FRAME: u8 = 0x82;

const RESULT: u8 = 0x85;

const OPEN: u8 = 0x87;

const TRY: u8 = 0x88;

/// Where the body of an OPEN has the kind, and where its target begins.
const KIND: usize = 2;

const TARGET: usize = 13;

/// The kinds of an open for a file.
const BY_TFTP: u8 = 1;

const BY_HTTP: u8 = 2;

/// What the servers' images are named by HTTP.
const HTTP_ROOT: &[u8] = b"http://10.0.0.1/";

/// An output record, as far as it is counted.
#[derive(Clone, Copy, Debug, PartialEq, Eq)]
pub enum Shown<'a> {
    /// A frame is sent.
    Frame(&'a [u8]),
    /// A message is tried.
    Try,
    /// An open begins: for an image of the lab, or for something else.
    Open(Option<Image>),
    /// A command's result, and whether it is Ok.
    Result { ok: bool },
    /// Another record.
    Other,
}

impl<'a> Shown<'a> {
    /// The first of some records as they are spelled, and the bytes after it. None where no whole record stands there.
    pub fn read(records: &'a [u8]) -> Option<(Shown<'a>, &'a [u8])>
        ensures first { (o : Out) (rest : List ℕ) → length (out_text o) < 2 ^ 32 → records.now ≡ out_text o ++ rest
            → IsSomeAnd result (λ r. (seen_of r.0 ≡ seen o) × (r.1.now ≡ rest)) }
        ensures none { IsNone result ↔ (BeginsWithRecord records.now → ⊥) }
        ensures shorter { IfSome result (λ r. length r.1.now < length records.now) }
    {
        Shown::read_record(records)
    }

    fn read_record(records: &'a [u8]) -> Option<(Shown<'a>, &'a [u8])>
        ensures first { (kind : ℕ) (body rest : List ℕ) → length body + 1 < 2 ^ 32 → records.now ≡ record_text kind body ++ rest
            → IsSomeAnd result (λ r. (seen_of r.0 ≡ seen_by kind body) × (r.1.now ≡ rest)) }
        ensures none { IsNone result ↔ (BeginsWithRecord records.now → ⊥) }
        ensures shorter { IfSome result (λ r. length r.1.now < length records.now) }
    {
        let mut view = View::new(records);
        let len = view.u32()? as usize;
        let record = view.take(len)?;
        let (kind, body) = record.split_first()?;
        Some((Shown::of(*kind, body), &records[view.at..]))
    }

    fn of(kind: u8, body: &'a [u8]) -> Shown<'a>
        ensures { seen_of result ≡ seen_by kind body.now }
    {
        match kind {
            FRAME => Shown::Frame(body),
            TRY => Shown::Try,
            RESULT => Shown::Result {
                ok: begins_with_zero(body),
            },
            OPEN => Shown::Open(image_by(body)),
            _ => Shown::Other,
        }
    }
}

/// Whether a cause's code is that of Ok.
fn begins_with_zero(body: &[u8]) -> bool
    ensures { result ≡ begins_with_zero body.now }
{
    matches!(body, [0, ..])
}

/// The image that an OPEN is for.
fn image_by(body: &[u8]) -> Option<Image>
    ensures { result ≡ image_by body.now }
{
    if body.len() < TARGET {
        return None;
    }
    image_of(body[KIND], &body[TARGET..])
}

fn image_of(kind: u8, target: &[u8]) -> Option<Image>
    ensures { result ≡ image_of_open kind target.now }
{
    match kind {
        BY_TFTP => Image::named(target),
        BY_HTTP => image_at_url(target),
        _ => None,
    }
}

/// The image of a URL of the servers.
fn image_at_url(url: &[u8]) -> Option<Image>
    ensures { result ≡ image_at_url url.now }
{
    if !url.starts_with(HTTP_ROOT) {
        return None;
    }
    Image::named(&url[HTTP_ROOT.len()..])
}
