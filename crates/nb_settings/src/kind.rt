ghost use Rattle.std.specs.Prelude.{◌≡◌, Some, IfSome};
ghost use Rattle.std.specs.Str.{bytes_eq};
ghost use Rattle.nb_settings.specs.declared.kind.Kind.{Kind};
ghost use Rattle.nb_settings.specs.Kinds.{kind_name, kind_named};

/// How the bytes of a setting are read from text and printed.
#[derive(Clone, Copy, Debug, PartialEq, Eq)]
pub enum Kind {
    /// `string`: the bytes themselves.
    Str,
    /// `ipv4`: four decimals.
    Ipv4,
    /// `int8`: a signed decimal of one byte.
    Int8,
    Int16,
    Int32,
    /// `uint8`: an unsigned number of one byte, printed in hexadecimal.
    Uint8,
    Uint16,
    Uint32,
    /// `hex`: pairs of hexadecimal digits, joined by `:`.
    Hex,
    /// `hexhyp`: such pairs, joined by `-`.
    Hexhyp,
    /// `hexraw`: such pairs, joined by nothing.
    Hexraw,
    Base64,
    Uuid,
    /// `uristring`: percent-encoded where a URI needs it.
    Uristring,
}

const KINDS: [Kind; 14] = [
    Kind::Str,
    Kind::Ipv4,
    Kind::Int8,
    Kind::Int16,
    Kind::Int32,
    Kind::Uint8,
    Kind::Uint16,
    Kind::Uint32,
    Kind::Hex,
    Kind::Hexhyp,
    Kind::Hexraw,
    Kind::Base64,
    Kind::Uuid,
    Kind::Uristring,
];

impl Kind {
    /// The name by which a script names the kind.
    pub fn name(self) -> &'static [u8]
        ensures { result.now ≡ kind_name self }
    {
        match self {
            Kind::Str => b"string",
            Kind::Ipv4 => b"ipv4",
            Kind::Int8 => b"int8",
            Kind::Int16 => b"int16",
            Kind::Int32 => b"int32",
            Kind::Uint8 => b"uint8",
            Kind::Uint16 => b"uint16",
            Kind::Uint32 => b"uint32",
            Kind::Hex => b"hex",
            Kind::Hexhyp => b"hexhyp",
            Kind::Hexraw => b"hexraw",
            Kind::Base64 => b"base64",
            Kind::Uuid => b"uuid",
            Kind::Uristring => b"uristring",
        }
    }

    /// The kind of a name.
    pub fn named(name: &[u8]) -> Option<Kind>
        ensures value { result ≡ kind_named name.now }
        ensures sound { IfSome result (λ kind. name.now ≡ kind_name kind) }
        ensures complete { (kind : Kind) → name.now ≡ kind_name kind → result ≡ Some kind }
    {
        KINDS.iter().find(|kind| kind.is_named(name)).copied()
    }

    fn is_named(self, name: &[u8]) -> bool
        ensures { result ≡ bytes_eq name.now (kind_name self) }
    {
        name == self.name()
    }
}
