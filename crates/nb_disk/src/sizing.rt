//! What READ CAPACITY(10) brings (SBC-3, section 5.15).

ghost use Rattle.std.specs.Prelude.{◌≡◌, ◌≤◌, length};
ghost use Rattle.nb_disk.specs.Histories.{capacity_by, capacity_of};

/// The bytes of a block.
const BLOCK: u32 = 512;

/// The number of blocks, where a block has 512 bytes and the number can be said.
pub(crate) fn capacity_of(bytes: &[u8]) -> Option<u32>
    ensures { result ≡ capacity_of bytes.now }
{
    match bytes {
        [a, b, c, d, e, f, g, h] => capacity_by(
            u32::from_be_bytes([*a, *b, *c, *d]),
            u32::from_be_bytes([*e, *f, *g, *h]),
        ),
        _ => None,
    }
}

fn capacity_by(last: u32, len: u32) -> Option<u32>
    ensures { result ≡ capacity_by last len }
{
    if len == BLOCK && last < u32::MAX {
        Some(last + 1)
    } else {
        None
    }
}
