ghost use Rattle.std.specs.Prelude.{◌≡◌, ◌≤◌, ℕ, List, length, vec_len};

use std::marker::Model;

/// The most bytes that a word may have.
pub const MAX_WORD: usize = 4096;

/// A word of a command: at most 4,096 bytes, of any kind.
#[derive(Debug, Drop)]
pub struct Word {
    bytes: Vec<u8>,
}

impl Model for Word {
    ghost Value = { List ℕ };

    ghost view = { λ w. w.bytes.items };

    ghost invariant = { λ w. vec_len w.bytes ≤ 4096 };
}

impl Word {
    /// The word of these bytes. It takes no memory.
    pub fn from_vec(bytes: Vec<u8>) -> Word
        requires { vec_len bytes ≤ 4096 }
        ensures { result ≡ bytes.items }
    {
        Word { bytes }
    }

    /// The bytes.
    pub fn as_slice(&self) -> &[u8]
        ensures value { result.now ≡ self.now }
        ensures fits { length self.now ≤ 4096 }
    {
        self.bytes.as_slice()
    }

    /// How many bytes there are.
    pub fn len(&self) -> usize
        ensures value { result ≡ length self.now }
        ensures fits { result ≤ 4096 }
    {
        self.bytes.len()
    }
}

/// The words of a command, in order.
#[derive(Debug, Drop)]
pub struct Words {
    words: Vec<Word>,
}

impl Model for Words {
    ghost Value = { List (List ℕ) };

    ghost view = { λ w. w.words.items };
}

impl Words {
    /// The list of these words. It takes no memory.
    pub fn from_vec(words: Vec<Word>) -> Words
        ensures { result ≡ words.items }
    {
        Words { words }
    }

    /// The words.
    pub fn as_slice(&self) -> &[Word]
        ensures { result.now ≡ self.now }
    {
        self.words.as_slice()
    }

    /// How many words there are.
    pub fn len(&self) -> usize
        ensures { result ≡ length self.now }
    {
        self.words.len()
    }
}
