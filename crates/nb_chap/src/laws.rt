//! Laws of the texts, each a function that does nothing, whose contract is the law.

ghost use Rattle.std.specs.Prelude.{◌≡◌, ◌≤◌, ◌<◌, ℕ, List, Some, length};
ghost use Rattle.hex.specs.Hex.{IsBytes};
ghost use Rattle.nb_chap.specs.Values.{binary_in, binary_text};

/// What is written as a binary value is read as the same bytes.
pub fn own_binary_texts_are_read()
    ensures { (bytes : List ℕ) → IsBytes bytes → 0 < length bytes → length bytes ≤ 1024
        → binary_in (binary_text bytes) ≡ Some bytes }
{}
