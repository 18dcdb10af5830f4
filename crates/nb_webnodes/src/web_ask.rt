ghost use Rattle.std.specs.Prelude.{◌≡◌, ◌≤◌, length, IsSome};
ghost use Rattle.std.specs.Option.{option_map};
ghost use Rattle.nb_webnodes.specs.WebAsks.{web_ask_in, ask_parts};

use nb_conns::ConnAsk;

/// What is fetched, and by which connection. As the bytes of the message that begins it: those of the connection, the
/// host and the path; the message's number `a` is the length of the host.
#[derive(Clone, Copy, Debug)]
pub struct WebAsk<'a> {
    pub conn: ConnAsk,
    /// The server's name or address, as the URI has it.
    pub host: &'a [u8],
    /// The path with its query, as it is sent.
    pub path: &'a [u8],
}

impl<'a> WebAsk<'a> {
    /// What these bytes ask for, of which so many are the host. None where they are too few.
    pub fn read(bytes: &'a [u8], host: u32) -> Option<WebAsk<'a>>
        ensures value { option_map ask_parts result ≡ web_ask_in host bytes.now }
        ensures enough { IsSome result → 16 ≤ length bytes.now }
    {
        if bytes.len() < 16 {
            return None;
        }
        let (conn, rest) = bytes.split_at(16);
        let conn = ConnAsk::read(conn)?;
        if rest.len() < host as usize {
            return None;
        }
        let (host, path) = rest.split_at(host as usize);
        Some(WebAsk { conn, host, path })
    }
}
