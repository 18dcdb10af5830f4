ghost use Rattle.std.specs.Prelude.{◌≡◌, IfOk};

use nb_record::NoMemory;
use nb_wire::Text;
use std::alloc::Global;

/// A copy of these bytes.
pub fn copy(alloc: Global, bytes: &[u8]) -> Result<Text, NoMemory>
    ensures { IfOk result (λ text. text ≡ bytes.now) }
{
    Ok(Text::from_vec(Vec::from_slice(alloc, bytes)?))
}
