ghost use Rattle.std.specs.Prelude.{◌≡◌, IfOk};
ghost use Rattle.nb_expand.specs.Addresses.{printed_address};

use nb_terms::NoMemory;
use std::alloc::Global;

/// The first four bytes as four decimals. Fewer print nothing.
pub(crate) fn print_address(alloc: Global, bytes: &[u8]) -> Result<Vec<u8>, NoMemory>
    ensures { IfOk result (λ text. text.items ≡ printed_address bytes.now) }
{
    match bytes {
        [a, b, c, d, ..] => Ok(format!(in alloc; "{a}.{b}.{c}.{d}")?.into_bytes()),
        _ => Ok(Vec::new(alloc)),
    }
}
