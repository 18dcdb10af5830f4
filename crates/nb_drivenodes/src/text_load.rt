//! What the messages carry.

ghost use Rattle.std.specs.Prelude.{◌≡◌, ◌++◌};
ghost use Rattle.nb_drivenodes.specs.DriveEffects.{TextCarrier};

use nb_graph::Parts;
use nb_wire::Text;

/// What the messages of a graph's objects carry, where some of these are drives: a text is one of these.
pub trait CarriesText: Parts {
    /// How a text is one of these, and its bytes.
    ghost texts: { TextCarrier Self };

    /// The load that carries this text.
    fn load_of(text: Text) -> Self
        ensures { result ≡ texts.as_load text };

    /// The text that this is. None where it is another's.
    fn text_of(self) -> Option<Text>;

    /// A load's bytes are its two parts.
    ghost text_parts: { (load : Self) → texts.load_bytes load ≡ Self.first load ++ Self.second load };
}
