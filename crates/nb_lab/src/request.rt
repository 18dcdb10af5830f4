//! The requests to the HTTP server (RFC 9112, section 3).

ghost use Rattle.std.specs.Prelude.{◌≡◌};
ghost use Rattle.nb_lab.specs.Requests.{image_in, image_at, page_of, IsPageFor};

use crate::image::Image;
use crate::page::Page;
use httparse::Status;
use httparse::spans::{EMPTY_HEADER_SPAN, parse_request};

/// The most fields of a request.
const MOST_FIELDS: usize = 16;

/// Of so many images, the one whose number a text writes.
pub fn image_in(text: &[u8], images: u8) -> Option<Image>
    ensures { result ≡ image_in images text.now }
{
    let image = Image::named(text)?;
    if image.0 < images { Some(image) } else { None }
}

/// What answers a request with these bytes, where there are so many images. None where more of it is to come.
pub fn page_for(bytes: &[u8], images: u8) -> Option<Page>
    ensures { IsPageFor images bytes.now result }
{
    let mut fields = [EMPTY_HEADER_SPAN; MOST_FIELDS];
    match parse_request(bytes, &mut fields) {
        Ok(Status::Complete(head)) => Some(page_of(
            head.method.of(bytes),
            head.path.of(bytes),
            images,
        )),
        Ok(Status::Partial) => None,
        Err(_) => Some(Page::BadRequest),
    }
}

fn page_of(method: &[u8], path: &[u8], images: u8) -> Page
    ensures { result ≡ page_of images method.now path.now }
{
    if method != b"GET".as_slice() {
        return Page::BadRequest;
    }
    match image_at(path, images) {
        Some(image) => Page::Found(image),
        None => Page::NotFound,
    }
}

/// The image of a path: its number, after a slash.
fn image_at(path: &[u8], images: u8) -> Option<Image>
    ensures { result ≡ image_at images path.now }
{
    match path {
        [b'/', text @ ..] => image_in(text, images),
        _ => None,
    }
}
