//! The pieces of a name.

ghost use Rattle.std.specs.Prelude.{◌≡◌, ◌∷◌, ◌<◌, length, drop};
ghost use Rattle.nb_dnsmsg.specs.Walks.{BeginsPiece};

/// A label has fewer bytes; a greater number before one isn't a length (RFC 1035, section 4.1.4).
const MAX_LABEL: u8 = 64;

/// The first byte of a pointer is this number or more.
const POINTER: u8 = 192;

/// What a name goes on with.
#[derive(Drop)]
pub(crate) enum NamePiece<'a> {
    /// The root, which ends it.
    Root,
    Label(&'a [u8]),
    /// It goes on at this place of the message.
    Pointer(usize),
    /// Nothing that a name goes on with.
    Invalid,
}

/// What these bytes begin with.
pub(crate) fn first_piece(bytes: &[u8]) -> NamePiece<'_>
    ensures { BeginsPiece result bytes.now }
{
    match bytes.split_first() {
        Some((first, rest)) => piece_of(*first, rest),
        None => NamePiece::Invalid,
    }
}

/// What a first byte and the rest begin with.
fn piece_of(first: u8, rest: &[u8]) -> NamePiece<'_>
    ensures { BeginsPiece result (first ∷ rest.now) }
{
    if first == 0 {
        return NamePiece::Root;
    }
    if first < MAX_LABEL {
        return label_of(usize::from(first), rest);
    }
    if first < POINTER {
        return NamePiece::Invalid;
    }
    match rest.split_first() {
        Some((low, _)) => NamePiece::Pointer(
            usize::from(first - POINTER) * 256 + usize::from(*low),
        ),
        None => NamePiece::Invalid,
    }
}

/// The label of this length.
fn label_of(len: usize, bytes: &[u8]) -> NamePiece<'_>
    requires { (0 < len) × (len < 64) }
    ensures { BeginsPiece result (len ∷ bytes.now) }
{
    if len > bytes.len() {
        return NamePiece::Invalid;
    }
    let (label, _) = bytes.split_at(len);
    NamePiece::Label(label)
}

/// The bytes from this place on; none where it is past the end.
pub(crate) fn from_place(message: &[u8], place: usize) -> &[u8]
    ensures { result.now ≡ drop place message.now }
{
    if place > message.len() {
        return &[];
    }
    let (_, rest) = message.split_at(place);
    rest
}
