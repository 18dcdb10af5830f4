ghost use Rattle.std.specs.Prelude.{◌≡◌, ◌↔◌, true, map, IfSome, IsSome};
ghost use Rattle.std.specs.String.{string_bytes};
ghost use Rattle.nb_boot.specs.Words.{AreWords, NamesTarget, IsPeerText, IsPortText};

use nb_record::Target;

/// Whether a text is a port from 1 to 65535 in decimal, without leading zeros.
fn is_port(text: &str) -> bool
    ensures { (result ≡ true) ↔ IsPortText text.now }
{
    // `parse` reads a plus and leading zeros too.
    !text.starts_with('+') && !text.starts_with('0') && text.parse::<u16>().is_ok()
}

/// Whether a text is a host that isn't empty, a last colon and a port.
fn is_peer(text: &str) -> bool
    ensures { (result ≡ true) ↔ IsPeerText text.now }
{
    match text.rsplit_once(':') {
        Some((host, port)) => !host.is_empty() && is_port(port),
        None => false,
    }
}

/// What the words name. None where they are neither `replay IN OUT` nor `live PEER`.
pub fn target(words: &[String]) -> Option<Target<'_>>
    ensures valid { IsSome result ↔ AreWords (map string_bytes words.now) }
    ensures names { IfSome result (λ target. NamesTarget (map string_bytes words.now) target) }
{
    match words {
        [command, peer] if command.as_str() == "live" && is_peer(peer.as_str()) => {
            Some(Target::Peer(peer.as_str()))
        }
        [command, input, output]
            if command.as_str() == "replay" && !input.is_empty() && !output.is_empty() => {
            Some(Target::Files {
                input: input.as_str(),
                output: output.as_str(),
            })
        }
        _ => None,
    }
}
