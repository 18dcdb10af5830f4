ghost use Rattle.std.specs.Prelude.{◌≡◌, ◌-◌, ◌<◌, ◌≤◌, ◌↔◌, [], ◌∷◌, length, max, IsTrue, IfOk, drop, slice_get};
ghost use Rattle.nb_expand.specs.Expansion.{put_back};
ghost use Rattle.nb_expand.specs.Gathering.{with_more, IsAlike};

use nb_terms::NoMemory;
use nb_wire::MAX_WORD;
use std::alloc::Global;
use std::marker::Model;

/// The most bytes that a name of a setting has: a block of two words, a word, and the longest kind.
const MAX_NAME: usize = 201;

/// What a text is expanded to so far: the result's text, after it each open part as `${` and its
/// text, and where these texts begin.
#[derive(Drop)]
pub(crate) struct Gathered {
    text: Vec<u8>,
    opens: Vec<usize>,
}

impl Model for Gathered {
    ghost use Rattle.std.specs.Prelude.{reverse};
    ghost use Rattle.nb_expand.specs.Gathering.{Parts, parts_at, IsGathered};

    ghost Value = { Parts };

    ghost view = { λ g. parts_at g.text.items (reverse g.opens.items) };

    ghost invariant = { λ g. IsGathered g.text.items (reverse g.opens.items) };
}

impl Gathered {
    /// Nothing, and no part is open.
    pub(crate) fn new(alloc: Global) -> Gathered
        ensures inner { result.inner ≡ [] }
        ensures around { result.around ≡ [] }
    {
        Gathered {
            text: Vec::new(alloc),
            opens: Vec::new(alloc),
        }
    }

    /// Whether a part is open.
    pub(crate) fn is_open(&self) -> bool
        ensures { IsTrue result ↔ (0 < length self.now.around) }
    {
        !self.opens.is_empty()
    }

    /// The text of the innermost open part, or of the result where no part is open.
    pub(crate) fn inner(&self) -> &[u8]
        ensures { result.now ≡ self.now.inner }
    {
        match self.opens.last() {
            Some(place) => &self.text[*place..],
            None => self.text.as_slice(),
        }
    }

    /// A part is opened.
    pub(crate) fn opened(self) -> Result<Gathered, NoMemory>
        ensures inner { IfOk result (λ new. new.inner ≡ []) }
        ensures around { IfOk result (λ new. new.around ≡ self.inner ∷ self.around) }
    {
        let Gathered {
            mut text,
            mut opens,
        } = self;
        text.extend_from_slice(b"${")?;
        opens.push(text.len())?;
        Ok(Gathered { text, opens })
    }

    /// The innermost part is closed, and its text left out.
    pub(crate) fn closed(self) -> Gathered
        requires { 0 < length self.around }
        ensures { self.around ≡ result.inner ∷ result.around }
    {
        let Gathered {
            mut text,
            mut opens,
        } = self;
        if let Some(place) = opens.pop() {
            text.truncate(place - 2);
        }
        Gathered { text, opens }
    }

    /// With more at the end of the innermost text. What no answer depends on is left out.
    pub(crate) fn with(self, more: &[u8]) -> Result<Gathered, NoMemory>
        ensures { IfOk result (λ new. IsAlike (with_more self more.now) new) }
    {
        let room = self.room();
        let Gathered { mut text, opens } = self;
        text.extend_from_slice(&more[..more.len().min(room)])?;
        Ok(Gathered { text, opens })
    }

    /// How many bytes may be added until the answer depends on no further ones.
    fn room(&self) -> usize
        ensures { result ≡ max (4097 - length (put_back self.now.inner self.now.around))
            (202 - length self.now.inner) }
    {
        let word = (MAX_WORD + 1).saturating_sub(self.text.len());
        let name = (MAX_NAME + 1).saturating_sub(self.inner().len());
        word.max(name)
    }

    /// The text, with each open part put back.
    pub(crate) fn into_text(self) -> Vec<u8>
        ensures { result.items ≡ put_back self.inner self.around }
    {
        let Gathered { text, opens: _ } = self;
        text
    }
}
