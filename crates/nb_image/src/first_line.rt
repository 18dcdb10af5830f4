ghost use Rattle.std.specs.Prelude.{◌≡◌, drop};
ghost use Rattle.nb_defs.specs.ScriptText.{is_blank};
ghost use Rattle.nb_image.specs.Kinds.{is_script};
ghost use Rattle.nb_image.specs.FirstLine.{ends_blank, ends_line};

use crate::Body;
use crate::kind::start_of;

/// With what a script's first line begins.
const MAGIC: &[u8] = b"#!ipxe";

/// Whether a body's first line is `#!ipxe`, with blanks and then at most one carriage return after it.
pub fn is_script(body: &Body) -> bool
    ensures { result ≡ is_script body.now }
{
    start_of(body).starts_with(MAGIC) && ends_blank(body, MAGIC.len())
}

/// Whether blanks and then at most one carriage return stand from a place to the line's end.
fn ends_blank(body: &Body, from: usize) -> bool
    ensures { result ≡ ends_blank (drop from body.now) }
{
    for at in from..body.len() {
        let Some(b) = body.byte(at) else {
            return true;
        };
        if b == b'\r' {
            return ends_line(body, at + 1);
        }
        if !is_blank(b) {
            return b == b'\n';
        }
    }
    true
}

fn is_blank(b: u8) -> bool
    ensures { result ≡ is_blank b }
{
    b == b' ' || b == b'\t'
}

/// Whether a line ends at a place.
fn ends_line(body: &Body, at: usize) -> bool
    ensures { result ≡ ends_line (drop at body.now) }
{
    match body.byte(at) {
        Some(b) => b == b'\n',
        None => true,
    }
}
