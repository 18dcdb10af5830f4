ghost use Rattle.std.specs.Prelude.{◌≡◌, ℕ, map, IfSome, IfNone};
ghost use Rattle.std.specs.String.{string_bytes};
ghost use Rattle.nb_labrun.specs.Words.{IsLabNumber, NamesLab, AreLabWords};

/// The most images of a lab.
const MOST_IMAGES: u8 = 64;

/// The number that a text writes in decimal, without leading zeros, from 1 to 64.
fn number(text: &str) -> Option<u8>
    ensures some { IfSome result (IsLabNumber text.now) }
    ensures none { IfNone result ((n : ℕ) → IsLabNumber text.now n → ⊥) }
{
    // `parse` reads a plus and leading zeros too.
    if text.starts_with('+') || text.starts_with('0') {
        return None;
    }
    match text.parse::<u8>() {
        Ok(n) if n <= MOST_IMAGES => Some(n),
        _ => None,
    }
}

/// How many images the words ask for. None where they aren't `lab N`, N from 1 to 64.
pub fn images(words: &[String]) -> Option<u8>
    ensures some { IfSome result (NamesLab (map string_bytes words.now)) }
    ensures none { IfNone result (AreLabWords (map string_bytes words.now) → ⊥) }
{
    match words {
        [command, text] if command.as_str() == "lab" => number(text.as_str()),
        _ => None,
    }
}
