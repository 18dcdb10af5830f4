ghost use Rattle.std.specs.Prelude.{◌≡◌, ◌+◌, ◌*◌, ◌++◌, ◌∷◌, ◌<◌, ◌≤◌, [], length, take, drop, IfOk, OnOk, OnErr};
ghost use Rattle.std.specs.Option.{MatchOption};
ghost use Rattle.nb_image.specs.Pages.{all_bytes, IsPaged};

use nb_terms::NoMemory;
use nb_wire::Text;
use std::alloc::Global;
use std::mem;

/// How many bytes a page has; the last may have fewer.
pub const PAGE_LEN: usize = 65_536;

/// Bytes in pages: a page that is full stays where it is, whatever is appended.
#[derive(Drop)]
pub struct Pages {
    /// The pages before the last, each of 65,536 bytes.
    pub full: Vec<Text>,
    /// The last page, of at most 65,536 bytes.
    pub last: Vec<u8>,
}

impl Pages {
    /// No bytes.
    pub fn new(alloc: Global) -> Pages
        ensures paged { IsPaged result }
        ensures value { all_bytes result ≡ [] }
    {
        Pages {
            full: Vec::new(alloc),
            last: Vec::new(alloc),
        }
    }

    /// How many bytes there are.
    pub fn len(&self) -> usize
        requires { IsPaged self.now }
        ensures value { result ≡ length (all_bytes self.now) }
        ensures fits { result ≤ 268435456 }
    {
        self.full.len() * PAGE_LEN + self.last.len()
    }

    /// How many bytes the last page has room for.
    pub fn room(&self) -> usize
        requires { IsPaged self.now }
        ensures { result + length self.now.last.items ≡ 65536 }
    {
        PAGE_LEN - self.last.len()
    }

    /// Appends bytes, page by page. Where memory runs out, some of them may stand there.
    pub fn append(&mut self, bytes: &[u8]) -> Result<(), NoMemory>
        requires paged { IsPaged self.old }
        requires fits { length (all_bytes self.old) + length bytes.now ≤ 268435456 }
        ensures paged { IsPaged self.new }
        ensures ok { OnOk result (all_bytes self.new ≡ all_bytes self.old ++ bytes.now) }
        ensures keeps { take (length (all_bytes self.old)) (all_bytes self.new) ≡ all_bytes self.old }
    {
        let mut rest = bytes;
        while rest.len() > self.room() {
            let (head, tail) = rest.split_at(self.room());
            self.last.extend_from_slice(head)?;
            self.turn()?;
            rest = tail;
        }
        self.last.extend_from_slice(rest)?;
        Ok(())
    }

    /// Begins a page after the last one, which is full. It is taken whole, so that it never grows.
    fn turn(&mut self) -> Result<(), NoMemory>
        requires paged { IsPaged self.old }
        requires full { length self.old.last.items ≡ 65536 }
        requires fits { length (all_bytes self.old) < 268435456 }
        ensures paged { IsPaged self.new }
        ensures bytes { all_bytes self.new ≡ all_bytes self.old }
        ensures ok { OnOk result (self.new.last.items ≡ []) }
    {
        let next = Vec::with_capacity(*self.last.allocator(), PAGE_LEN)?;
        self.full.reserve(1)?;
        let page = mem::replace(&mut self.last, next);
        self.full.push_reserved(Text::from_vec(page));
        Ok(())
    }

    /// Drops all bytes from a place on.
    pub fn cut(&mut self, len: usize)
        requires paged { IsPaged self.old }
        requires within { len ≤ length (all_bytes self.old) }
        ensures paged { IsPaged self.new }
        ensures bytes { all_bytes self.new ≡ take len (all_bytes self.old) }
    {
        while self.full.len() * PAGE_LEN > len {
            if let Some(page) = self.full.pop() {
                self.last = page.into_vec();
            }
        }
        self.last.truncate(len - self.full.len() * PAGE_LEN);
    }

    /// Page `p`, from 0. None where it would have no bytes.
    pub fn page(&self, p: usize) -> Option<&[u8]>
        requires { IsPaged self.now }
        ensures { MatchOption result (length (all_bytes self.now) ≤ 65536 * p)
            (λ page. (65536 * p < length (all_bytes self.now)) × (page.now ≡ take 65536 (drop (65536 * p) (all_bytes self.now)))) }
    {
        if p < self.full.len() {
            return Some(self.full[p].as_slice());
        }
        if p > self.full.len() || self.last.is_empty() {
            return None;
        }
        Some(self.last.as_slice())
    }

    /// A copy of all bytes.
    pub fn text(&self, alloc: Global) -> Result<Text, NoMemory>
        requires { IsPaged self.now }
        ensures { IfOk result (λ text. text ≡ all_bytes self.now) }
    {
        let mut bytes = Vec::with_capacity(alloc, self.len())?;
        for page in &self.full {
            bytes.extend_from_slice(page.as_slice())?;
        }
        bytes.extend_from_slice(self.last.as_slice())?;
        Ok(Text::from_vec(bytes))
    }
}
