ghost use Rattle.std.specs.Prelude.{◌≡◌};
ghost use Rattle.nb_settings.specs.Keys.{key_of, same_key};
ghost use Rattle.nb_settings.specs.Listed.{listed_kind};

use crate::Kind;

/// Which setting of a block is meant. A name that is listed with a tag is read as its tag, so that
/// name and tag are the same setting.
#[derive(Clone, Copy, Debug, PartialEq, Eq, Drop)]
pub enum Key<'a> {
    /// A DHCP option (RFC 2132), by its number.
    Tag(u8),
    /// An option within an option: 175.1 is option 1 in option 175.
    Sub(u8, u8),
    /// A name without a tag.
    Free(&'a [u8]),
}

impl Key<'_> {
    /// Whether two keys are the same.
    pub(crate) fn is(&self, other: &Key<'_>) -> bool
        ensures { result ≡ same_key (key_of self.now) (key_of other.now) }
    {
        match (*self, *other) {
            (Key::Tag(number), Key::Tag(other)) => number == other,
            (Key::Sub(outer, inner), Key::Sub(other, within)) => outer == other && inner == within,
            (Key::Free(name), Key::Free(other)) => name == other,
            _ => false,
        }
    }

    /// The kind that the list of names gives the setting. None where it isn't listed.
    pub fn listed_kind(&self) -> Option<Kind>
        ensures { result ≡ listed_kind (key_of self.now) }
    {
        crate::listed::kind_of(self)
    }
}
