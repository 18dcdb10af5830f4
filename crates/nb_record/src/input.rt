use crate::reading::start_fields;
use nb_wire::{Ip4, Mac};
use std::marker::Model;

/// What a START record says: who the client is, and the first script. Where `ip` is 0 the other
/// addresses are ignored. `w` is 0 to 16,383.
#[derive(Clone, Copy, Debug)]
pub struct Start<'a> {
    pub mac: Mac,
    pub uuid: [u8; 16],
    pub key: [u8; 32],
    pub arch: u16,
    pub w: u16,
    pub ip: Ip4,
    pub mask: Ip4,
    pub gateway: Ip4,
    pub dns: Ip4,
    pub script: &'a [u8],
}

/// A whole START record. Its fields are read where they are needed, so that each `InRec` is small.
#[derive(Debug, Drop)]
pub struct StartRecord<'a> {
    bytes: &'a [u8],
}

impl<'a> Model for StartRecord<'a> {
    ghost use Rattle.std.specs.Prelude.{◌≤◌, length};
    ghost use Rattle.nb_defs.specs.Records.{Start as Fields};
    ghost use Rattle.nb_defs.proofs.StartLaws.{start_at};

    ghost Value = { Fields };

    ghost view = { λ s. start_at s.bytes.now };

    ghost invariant = { λ s. 80 ≤ length s.bytes.now };
}

impl<'a> StartRecord<'a> {
    ghost use Rattle.std.specs.Prelude.{◌≡◌, ◌≤◌, length};
    ghost use Rattle.nb_defs.proofs.StartLaws.{start_at};
    ghost use Rattle.nb_record.specs.View.{start_of};

    /// The record of these bytes, its length and its type included.
    pub(crate) fn of(bytes: &'a [u8]) -> StartRecord<'a>
        requires { 80 ≤ length bytes.now }
        ensures { result ≡ start_at bytes.now }
    {
        StartRecord { bytes }
    }

    /// What it says.
    pub fn fields(&self) -> Start<'a>
        ensures { start_of result ≡ self.now }
    {
        start_fields(self.bytes)
    }
}

/// A record of the input.
#[derive(Debug, Drop)]
pub enum InRec<'a> {
    /// The first record.
    Start(StartRecord<'a>),
    /// A frame that arrived, 14 to 1,522 bytes without its check sequence.
    Frame(&'a [u8]),
    /// So many milliseconds passed, 1 to 60,000.
    Tick(u16),
    /// The power was switched off.
    Off,
}
