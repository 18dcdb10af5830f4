//! The options of a header (RFC 9293, section 3.2).

ghost use Rattle.std.specs.Prelude.{◌≡◌, ℕ, List, Option, ◌+◌, ◌++◌, ◌∷◌, length, IfSome, IsSomeAnd};
ghost use Rattle.std.specs.Option.{option_or};
ghost use Rattle.nb_tcpseg.specs.Options.{OptionsSay, mss_value};

const END: u8 = 0;

const NO_OPERATION: u8 = 1;

const MAXIMUM_SEGMENT_SIZE: u8 = 2;

/// The first maximum segment size among the options, or None where they are malformed. Most headers have no options.
#[inline(always)]
pub(crate) fn mss_of(options: &[u8]) -> Option<Option<u16>>
    ensures sound { IfSome result (λ mss. OptionsSay options.now mss) }
    ensures complete { (mss : Option ℕ) → OptionsSay options.now mss
        → IsSomeAnd result (λ found. found ≡ mss) }
{
    if options.is_empty() {
        return Some(None);
    }
    mss_in(options)
}

/// The same, option by option.
#[inline(never)]
fn mss_in(options: &[u8]) -> Option<Option<u16>>
    ensures sound { IfSome result (λ mss. OptionsSay options.now mss) }
    ensures complete { (mss : Option ℕ) → OptionsSay options.now mss
        → IsSomeAnd result (λ found. found ≡ mss) }
{
    let Some((kind, rest)) = options.split_first() else {
        return Some(None);
    };
    match *kind {
        END => Some(None),
        NO_OPERATION => mss_in(rest),
        _ => {
            let (value, after) = option_value(rest)?;
            let later = mss_in(after)?;
            Some(mss_value(*kind, value).or(later))
        }
    }
}

/// The value of an option whose kind stands before these bytes, and what follows it.
fn option_value(bytes: &[u8]) -> Option<(&[u8], &[u8])>
    ensures sound { IfSome result
        (λ found. bytes.now ≡ (2 + length found.0.now) ∷ (found.0.now ++ found.1.now)) }
    ensures complete { (value rest : List ℕ) → bytes.now ≡ (2 + length value) ∷ (value ++ rest)
        → IsSomeAnd result (λ found. (found.0.now ≡ value) × (found.1.now ≡ rest)) }
{
    let (len, rest) = bytes.split_first()?;
    let value_len = usize::from(*len).checked_sub(2)?;
    if rest.len() < value_len {
        return None;
    }
    Some(rest.split_at(value_len))
}

/// The maximum segment size that an option with this value is.
fn mss_value(kind: u8, value: &[u8]) -> Option<u16>
    ensures { result ≡ mss_value kind value.now }
{
    match value {
        [high, low] if kind == MAXIMUM_SEGMENT_SIZE => Some(u16::from_be_bytes([*high, *low])),
        _ => None,
    }
}
