ghost use Rattle.std.specs.Prelude.{◌≡◌, ◌++◌, ◌≤◌, length, IfSome, Some, true};
ghost use Rattle.std.specs.List.{list_all};
ghost use Rattle.std.specs.Option.{option_map};
ghost use Rattle.nb_tftpmsg.specs.Texts.{HasNoZero};
ghost use Rattle.nb_nodes.specs.Asking.{ask_value, ask_head, ask_in, is_path, is_nonzero};

use nb_wire::Ip4;

/// The most bytes of a path.
pub const MAX_PATH: usize = 1024;

/// What a transfer asks for. As the bytes of the message that begins an open it is the server's
/// address, the server's port, the client's port, each with its high byte first, and the path. The
/// path holds no zero byte and has at most 1,024 bytes.
#[derive(Clone, Copy, Debug, PartialEq, Eq)]
pub struct Ask<'a> {
    pub server: Ip4,
    /// The port that is asked.
    pub port: u16,
    /// The client's port.
    pub own_port: u16,
    pub path: &'a [u8],
}

impl<'a> Ask<'a> {
    /// What these bytes ask for. None where they are no `Ask`.
    pub fn read(bytes: &'a [u8]) -> Option<Ask<'a>>
        ensures value { option_map ask_value result ≡ ask_in bytes.now }
        ensures clean { IfSome result (λ a. HasNoZero a.path.now) }
        ensures short { IfSome result (λ a. length a.path.now ≤ 1024) }
    {
        match bytes {
            [s0, s1, s2, s3, p0, p1, o0, o1, path @ ..] if is_path(path) => Some(Ask {
                server: Ip4(u32::from_be_bytes([*s0, *s1, *s2, *s3])),
                port: u16::from_be_bytes([*p0, *p1]),
                own_port: u16::from_be_bytes([*o0, *o1]),
                path,
            }),
            _ => None,
        }
    }

    /// The bytes before the path.
    pub fn head(&self) -> [u8; 8]
        ensures value { result ≡ ask_head (ask_value self.now) }
        // With the path after them they are read back.
        ensures readable { is_path self.now.path.now ≡ true
            → ask_in (result ++ self.now.path.now) ≡ Some (ask_value self.now) }
    {
        let [s0, s1, s2, s3] = self.server.0.to_be_bytes();
        let [p0, p1] = self.port.to_be_bytes();
        let [o0, o1] = self.own_port.to_be_bytes();
        [s0, s1, s2, s3, p0, p1, o0, o1]
    }
}

/// Whether a transfer can ask for this path.
#[tactic(auto, using(crate::proofs::AskLemmas::path_clean, crate::proofs::AskLemmas::path_short))]
fn is_path(path: &[u8]) -> bool
    ensures value { result ≡ is_path path.now }
    ensures clean { result ≡ true → HasNoZero path.now }
    ensures short { result ≡ true → length path.now ≤ 1024 }
{
    path.len() <= MAX_PATH && are_nonzero(path)
}

fn are_nonzero(path: &[u8]) -> bool
    ensures { result ≡ list_all is_nonzero path.now }
{
    path.iter().all(|byte| is_nonzero(*byte))
}

fn is_nonzero(byte: u8) -> bool
    ensures { result ≡ is_nonzero byte }
{
    byte > 0
}
