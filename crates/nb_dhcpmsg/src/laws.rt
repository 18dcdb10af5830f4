//! Laws of how messages and values are read: each is a function that does nothing, whose contract is the law.

ghost use Rattle.std.specs.Prelude.{◌≡◌, ◌++◌, ◌↔◌, ℕ, List, Some};
ghost use Rattle.nb_dhcpmsg.specs.Options.{TagValue, AreOptions};
ghost use Rattle.nb_dhcpmsg.specs.Messages.{MessageParts, IsMessage, HasOptions};
ghost use Rattle.nb_dhcpmsg.specs.Fields.{inner_options, message_options, message_in};
ghost use Rattle.nb_dhcpmsg.specs.Inner.{inner_options_text, HaveTags, IsCutOff};

/// The options within a value are those that the same bytes are in a field. Where an option goes past the
/// value's end, those before it count.
pub fn inner_options_are_read_as_a_field()
    ensures field { (value : List ℕ) (os : List TagValue) → AreOptions value os → inner_options value ≡ os }
    ensures cut_off { (os : List TagValue) (rest : List ℕ) → HaveTags os → IsCutOff rest
        → inner_options (inner_options_text os ++ rest) ≡ os }
{}

/// As functions of the bytes, a message and its options are those of the grammar.
pub fn messages_are_read_by_the_grammar()
    ensures message { (bytes : List ℕ) (m : MessageParts) → (message_in bytes ≡ Some m) ↔ IsMessage bytes m }
    ensures options { (bytes : List ℕ) (os : List TagValue) → (message_options bytes ≡ Some os) ↔ HasOptions bytes os }
{}
