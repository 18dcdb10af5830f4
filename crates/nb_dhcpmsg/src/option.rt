//! The first option of a field.

ghost use Rattle.std.specs.Prelude.{◌≡◌, ◌∷◌, ◌<◌, ◌≤◌, ℕ, List, length};
ghost use Rattle.nb_dhcpmsg.specs.Options.{SameOptions};
ghost use Rattle.nb_dhcpmsg.specs.Fields.{inner_options};
ghost use Rattle.nb_dhcpmsg.specs.Lefts.{IsFirstOption};
ghost use Rattle.nb_dhcpmsg.specs.Collected.{IsFirstWithin};

/// Padding, one byte alone (RFC 2132, section 3.1).
pub(crate) const PAD: u8 = 0;

/// The end of a field's options (RFC 2132, section 3.2).
pub(crate) const END: u8 = 255;

/// An option of a message: its tag, and the bytes of its value.
#[derive(Clone, Copy, Debug, PartialEq, Eq, Drop)]
pub struct DhcpOption<'a> {
    pub tag: u8,
    pub value: &'a [u8],
}

/// What a field begins with.
#[derive(Drop)]
pub(crate) enum First<'a> {
    /// No option.
    End,
    /// An option whose length goes past the field's end.
    Broken,
    /// An option, and what follows it.
    Option(DhcpOption<'a>, &'a [u8]),
}

/// What the field begins with, padding aside.
pub(crate) fn first_option(field: &[u8]) -> First<'_>
    ensures first { IsFirstOption result field.now }
    ensures within { IsFirstWithin result field.now }
{
    let Some((tag, more)) = after_padding(field).split_first() else {
        return First::End;
    };
    if *tag == END {
        return First::End;
    }
    match more.split_first() {
        Some((len, rest)) => option_of(*tag, usize::from(*len), rest),
        None => First::Broken,
    }
}

/// The option of this tag and length, whose value begins these bytes.
fn option_of(tag: u8, len: usize, bytes: &[u8]) -> First<'_>
    requires tag { (0 < tag) × (tag < 255) }
    ensures first { IsFirstOption result (tag ∷ len ∷ bytes.now) }
    ensures within { IsFirstWithin result (tag ∷ len ∷ bytes.now) }
{
    if len > bytes.len() {
        return First::Broken;
    }
    let (value, rest) = bytes.split_at(len);
    First::Option(DhcpOption { tag, value }, rest)
}

/// The field without the padding that it begins with.
fn after_padding(field: &[u8]) -> &[u8]
    ensures same { SameOptions field.now result.now }
    ensures unpadded { (more : List ℕ) → result.now ≡ 0 ∷ more → ⊥ }
    ensures within { inner_options field.now ≡ inner_options result.now }
    ensures less { length result.now ≤ length field.now }
{
    let mut rest = field;
    'padding: while let Some((first, after)) = rest.split_first() {
        if *first != PAD {
            return rest;
        }
        rest = after;
    }
    rest
}
