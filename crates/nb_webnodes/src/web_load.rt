//! What the messages carry.

ghost use Rattle.std.specs.Prelude.{◌≡◌, ◌++◌};
ghost use Rattle.nb_webnodes.specs.WebEffects.{WebCarrier};

use nb_graph::Parts;
use nb_wire::Text;

/// What the messages of a graph's objects carry, where some of these fetch by HTTP: a text is one of these.
pub trait CarriesWeb: Parts {
    /// How a text is one of these, and its bytes.
    ghost web: { WebCarrier Self };

    /// The load that carries this text.
    fn carry_text(text: Text) -> Self
        ensures { result ≡ web.as_load text };

    /// The text that this is. None where it is another's.
    fn into_text(self) -> Option<Text>;

    /// A load's bytes are its two parts.
    ghost web_parts: { (load : Self) → web.load_bytes load ≡ Self.first load ++ Self.second load };
}
