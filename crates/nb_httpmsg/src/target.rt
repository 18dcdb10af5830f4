use nb_wire::Text;

/// What a request asks for, and whom.
#[derive(Debug, Drop)]
pub struct HttpTarget {
    /// The server's name or address, as the URI has it.
    pub host: Text,
    pub port: u16,
    /// The path with its query, as it is sent.
    pub path: Text,
}
