ghost use Rattle.std.specs.Prelude.{◌≡◌, ◌+◌, ◌*◌, ◌<◌, ◌≤◌, [], ◌++◌, length, take, drop, slice_get, IfOk, OnOk, OnErr, IsErrOf};
ghost use Rattle.std.specs.Option.{MatchOption};
ghost use Rattle.nb_image.specs.Kinds.{kind_of};

use crate::kind::kind_of;
use crate::pages::{PAGE_LEN, Pages};
use crate::{ImageKind, PushError};
use nb_terms::NoMemory;
use nb_wire::Text;
use std::alloc::Global;
use std::marker::Model;

/// The most bytes that a body may have.
pub const MAX_BODY_LEN: usize = 268_435_456;

/// The bytes of an image: at most 268,435,456. They are kept in pages of 65,536 bytes, so that what came
/// stays where it is while more comes.
#[derive(Drop)]
pub struct Body {
    pages: Pages,
}

impl Model for Body {
    ghost use Rattle.std.specs.Prelude.{ℕ, List};
    ghost use Rattle.nb_image.specs.Pages.{all_bytes, IsPaged};

    ghost Value = { List ℕ };

    ghost view = { λ b. all_bytes b.pages };

    ghost invariant = { λ b. IsPaged b.pages };
}

impl Body {
    /// No bytes.
    pub fn new(alloc: Global) -> Body
        ensures { result ≡ [] }
    {
        Body {
            pages: Pages::new(alloc),
        }
    }

    /// Appends bytes.
    pub fn push(&mut self, bytes: &[u8]) -> Result<(), PushError>
        ensures ok { OnOk result (self.new ≡ self.old ++ bytes.now) }
        ensures fits { OnOk result (length self.old + length bytes.now ≤ 268435456) }
        ensures too_large { IsErrOf result PushError.TooLarge → 268435456 < length self.old + length bytes.now }
        ensures refused { OnErr result (self.new ≡ self.old) }
    {
        if bytes.len() <= PAGE_LEN - self.pages.last.len() {
            self.pages.last.extend_from_slice(bytes)?;
            return Ok(());
        }
        self.push_over(bytes)
    }

    /// Appends bytes for which the last page has no room. Not inlined, as most fit.
    #[cold]
    #[inline(never)]
    fn push_over(&mut self, bytes: &[u8]) -> Result<(), PushError>
        ensures ok { OnOk result (self.new ≡ self.old ++ bytes.now) }
        ensures fits { OnOk result (length self.old + length bytes.now ≤ 268435456) }
        ensures too_large { IsErrOf result PushError.TooLarge → 268435456 < length self.old + length bytes.now }
        ensures refused { OnErr result (self.new ≡ self.old) }
    {
        let len = self.pages.len();
        if bytes.len() > MAX_BODY_LEN - len {
            return Err(PushError::TooLarge);
        }
        if self.pages.append(bytes).is_err() {
            self.pages.cut(len);
            return Err(PushError::NoMemory);
        }
        Ok(())
    }

    /// How many bytes there are.
    pub fn len(&self) -> usize
        ensures value { result ≡ length self.now }
        ensures fits { result ≤ 268435456 }
    {
        self.pages.len()
    }

    /// What an image of these bytes is.
    pub fn kind(&self) -> ImageKind
        ensures { result ≡ kind_of self.now }
    {
        kind_of(self)
    }

    /// The bytes from 65,536 times `p` on, at most 65,536 of them. None where none are there.
    pub fn page(&self, p: usize) -> Option<&[u8]>
        ensures { MatchOption result (length self.now ≤ 65536 * p)
            (λ page. (65536 * p < length self.now) × (page.now ≡ take 65536 (drop (65536 * p) self.now))) }
    {
        self.pages.page(p)
    }

    /// The byte at a place. None after the last.
    pub fn byte(&self, at: usize) -> Option<u8>
        ensures { result ≡ slice_get self.now at }
    {
        let page = self.page(at / PAGE_LEN)?;
        page.get(at % PAGE_LEN).copied()
    }

    /// A copy of all bytes.
    pub fn text(&self, alloc: Global) -> Result<Text, NoMemory>
        ensures { IfOk result (λ text. text ≡ self.now) }
    {
        self.pages.text(alloc)
    }
}
