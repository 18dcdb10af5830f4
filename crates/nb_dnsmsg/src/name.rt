//! The name at a place of a message.

ghost use Rattle.std.specs.Prelude.{◌≡◌, ◌<◌, ◌≤◌, ◌+◌, ◌∷◌, ◌++◌, length, true, false};
ghost use Rattle.nb_dnsmsg.specs.Walks.{IsNameRead};

use crate::walk::{NameStep, Walk};
use arrayvec::ArrayVec;

/// Puts the text of the name at this place, of at most 255 bytes (RFC 1035, section 2.3.4), into `to`, and
/// returns where it ends. None where no name stands there.
pub(crate) fn read_name(message: &[u8], place: usize, to: &mut ArrayVec<u8, 255>) -> Option<usize>
    ensures { IsNameRead result message.now place to.new.items }
{
    to.clear();
    let mut walk = Walk {
        part: place,
        place,
        end: None,
    };
    'pieces: loop {
        match walk.next(message) {
            NameStep::Root(end) => {
                if !put(to, 0, &[]) {
                    return None;
                }
                return Some(end);
            }
            NameStep::Label(label) => {
                if !put(to, label.len() as u8, label) {
                    return None;
                }
            }
            NameStep::Jump => {}
            NameStep::Invalid => return None,
        }
    }
}

/// Puts a length and a label. False where they don't fit.
fn put(to: &mut ArrayVec<u8, 255>, len: u8, label: &[u8]) -> bool
    ensures put { result ≡ true → to.new.items ≡ to.old.items ++ (len ∷ label.now) }
    ensures fits { result ≡ true → length to.new.items ≤ 255 }
    ensures full { result ≡ false → 255 < length to.old.items + (1 + length label.now) }
{
    to.try_push(len).is_ok() && to.try_extend_from_slice(label).is_ok()
}
