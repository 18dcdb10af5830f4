//! The request's packet.

ghost use Rattle.std.specs.Prelude.{◌≡◌, ◌≤◌, ◌∷◌, length};
ghost use Rattle.nb_tftpmsg.specs.Packets.{rrq, packet_text, request_tail};

use arrayvec::ArrayVec;

/// The opcode of a read request (RFC 1350, section 5).
const READ_REQUEST: [u8; 2] = [0, 1];
/// What follows the path without options: its end, and the mode.
const MODE: &[u8] = b"\0octet\0";
/// The same with options: blksize 1432 (RFC 2348) and tsize 0 (RFC 2349).
const MODE_AND_OPTIONS: &[u8] = b"\0octet\0blksize\x001432\0tsize\x000\0";

/// The read request of this path, in mode `octet`, with or without options. It is made once, for all its tries.
pub(crate) fn request_bytes(path: &[u8], options: bool) -> ArrayVec<u8, 1480>
    requires { length path.now ≤ 1024 }
    ensures { result.items ≡ packet_text (rrq path.now options) }
{
    let mut request = ArrayVec::new();
    let _ = request.try_extend_from_slice(&READ_REQUEST);
    let _ = request.try_extend_from_slice(path);
    let _ = request.try_extend_from_slice(tail(options));
    request
}

/// What follows the path.
fn tail(options: bool) -> &'static [u8]
    ensures tail { result.now ≡ 0 ∷ request_tail options }
    ensures fits { length result.now ≤ 64 }
{
    if options { MODE_AND_OPTIONS } else { MODE }
}
