//! The responses of the HTTP server (RFC 9112, section 4).

ghost use Rattle.std.specs.Prelude.{◌≡◌, ◌+◌, ◌-◌, ◌<◌, ◌≤◌, ◌++◌, length, min};
ghost use Rattle.arrayvec.specs.ArrayVec.{array_vec_len};
ghost use Rattle.nb_lab.specs.Pages.{status_text, page_body_len, body_piece, head_text, response_text, response_piece};

use crate::image::Image;
use arrayvec::ArrayVec;
use itoa::Buffer;
use nb_wire::Out;

/// The most bytes of a response that are put at once.
pub const MOST_BYTES: u32 = 1000;

/// What a response has.
#[derive(Clone, Copy, Debug, PartialEq, Eq)]
pub enum Page {
    /// An image.
    Found(Image),
    /// Nothing has the path of the request.
    NotFound,
    /// The request can't be read.
    BadRequest,
}

impl Page {
    /// How many bytes the whole response has.
    pub fn len(self) -> u32
        ensures value { result ≡ length (response_text self) }
        ensures fits { result ≤ 250263 }
    {
        self.head().len() as u32 + self.body_len()
    }

    /// Puts the response's bytes from a place on, so many where there are so many.
    pub fn put(self, from: u32, len: u16, out: &mut Out<'_>)
        requires short { len ≤ 1000 }
        requires room { len ≤ out.old.left }
        ensures put { out.new.written ≡ out.old.written ++ response_piece self from len }
    {
        let head = self.head();
        let from = from as usize;
        let end = from + usize::from(len);
        let start = from.min(head.len());
        out.push(&head.as_slice()[start..end.min(head.len())]);
        let body_from = from.saturating_sub(head.len());
        let body_end = end.saturating_sub(head.len()).min(self.body_len() as usize);
        self.put_body(body_from.min(body_end), body_end, out);
    }

    fn put_body(self, from: usize, end: usize, out: &mut Out<'_>)
        requires ordered { from ≤ end }
        requires within { end ≤ page_body_len self }
        requires short { end - from ≤ 1000 }
        requires room { end - from ≤ out.old.left }
        ensures put { out.new.written ≡ out.old.written ++ body_piece self from (end - from) }
    {
        let mut piece = [0; MOST_BYTES as usize];
        if let Page::Found(image) = self {
            image.fill(from as u32, &mut piece[..end - from]);
        }
        out.push(&piece[..end - from]);
    }

    /// The status line and the fields, with the empty line after them.
    fn head(self) -> ArrayVec<u8, 128>
        ensures text { result.items ≡ head_text self }
        ensures fits { length (head_text self) ≤ 128 }
    {
        let mut number = Buffer::new();
        let mut head = ArrayVec::new();
        extend(&mut head, b"HTTP/1.1 ");
        extend(&mut head, self.status());
        extend(&mut head, b"\r\nContent-Length: ");
        extend(&mut head, number.format(self.body_len()).as_bytes());
        extend(&mut head, b"\r\nConnection: close\r\n\r\n");
        head
    }

    /// The status and its reason (RFC 9110, section 15).
    fn status(self) -> &'static [u8]
        ensures text { result.now ≡ status_text self }
        ensures short { length result.now ≤ 15 }
    {
        match self {
            Page::Found(_) => b"200 OK",
            Page::NotFound => b"404 Not Found",
            Page::BadRequest => b"400 Bad Request",
        }
    }

    fn body_len(self) -> u32
        ensures value { result ≡ page_body_len self }
        ensures fits { result ≤ 250135 }
    {
        match self {
            Page::Found(image) => image.len(),
            Page::NotFound | Page::BadRequest => 0,
        }
    }
}

fn extend(head: &mut ArrayVec<u8, 128>, bytes: &[u8])
    requires { array_vec_len head.old + length bytes.now ≤ 128 }
    ensures items { head.new.items ≡ head.old.items ++ bytes.now }
    ensures len { array_vec_len head.new ≡ array_vec_len head.old + length bytes.now }
{
    let _ = head.try_extend_from_slice(bytes);
}
