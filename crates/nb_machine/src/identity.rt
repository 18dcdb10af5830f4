//! The machine.

/// The machine, as START tells it.
#[derive(Clone, Copy, Debug, Drop)]
pub struct Identity {
    /// Its identifier (RFC 4578, section 2.3).
    pub uuid: [u8; 16],
    /// Its architecture (RFC 4578, section 2.1).
    pub arch: u16,
    /// The key of the words that its opens take: transaction and query numbers.
    pub key: [u8; 32],
}
