//! What the steps ask of the caller.

ghost use Rattle.std.specs.Prelude.{◌≡◌, None, Some, Option, if◌then◌else◌};
ghost use Rattle.std.specs.Option.{is_none};
ghost use Rattle.nb_tftp.specs.Asks.{range_of_block};

use nb_terms::{Acts, Cause};

/// What stands before a block's bytes in its packet (RFC 1350, section 5).
const BLOCK_HEAD: u32 = 4;

/// A block was taken: its bytes go up, under a timer where more come. Its acknowledgement is asked already.
pub(crate) fn take_block(block: u16, len: u16, over: Option<Cause>, acts: &mut Acts)
    ensures { acts.new ≡ record acts.old { tried = if is_none over then Some 1 else None; advance = Some block; give = range_of_block len; over = over } }
{
    acts.tried = if over.is_none() { Some(1) } else { None };
    acts.advance = Some(u32::from(block));
    acts.give = range_of_block(len);
    acts.over = over;
}

/// Where a block's bytes stand in its packet. None where there are none.
fn range_of_block(len: u16) -> Option<(u32, u32)>
    ensures { result ≡ range_of_block len }
{
    if len == 0 {
        return None;
    }
    Some((BLOCK_HEAD, BLOCK_HEAD + u32::from(len)))
}
