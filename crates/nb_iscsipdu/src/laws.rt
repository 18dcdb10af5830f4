//! Laws of streams and key texts: each is a function that does nothing, whose contract is the law.

ghost use Rattle.std.specs.Prelude.{◌≡◌, ◌↔◌, ◌∷◌, ◌++◌, ℕ, List, Some};
ghost use Rattle.nb_iscsipdu.specs.PduTexts.{PduParts};
ghost use Rattle.nb_iscsipdu.specs.KeyTexts.{value_in};
ghost use Rattle.nb_iscsipdu.specs.Streams.{cut, IsCutInto};

/// A stream is cut into the PDUs that it spells one after the other, with their padding, and into no others.
pub fn streams_are_cut_into_their_pdus()
    ensures spelled { (stream : List ℕ) → IsCutInto stream (cut stream).pdus }
    ensures one { (stream : List ℕ) (ps : List PduParts) → IsCutInto stream ps → (cut stream).pdus ≡ ps }
{}

/// A text has a value of a name where it is the name, `=` (61) and the value.
pub fn values_stand_after_their_names()
    ensures { (name text value : List ℕ) → (value_in name text ≡ Some value) ↔ (text ≡ name ++ 61 ∷ value) }
{}
