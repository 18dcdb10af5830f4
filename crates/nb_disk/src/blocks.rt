//! What reads blocks asks by this, wherever they come from.

ghost use Rattle.std.specs.Prelude.{◌≡◌, ◌≤◌, ℕ, Bool, List, Option, false, IfOk, OnOk, OnErr};
ghost use Rattle.nb_disk.specs.BlockReads.{TakesRead, WaitsForRead};

use nb_terms::NoMemory;
use nb_wire::Text;
use std::alloc::Global;

/// The bytes of a block.
pub const BLOCK: u16 = 512;

/// Why a read isn't put.
#[derive(Clone, Copy, Debug, PartialEq, Eq)]
pub enum ReadRefusal {
    /// It goes beyond the last block.
    OutOfDisk,
    /// A command is at work.
    Busy,
    NoMemory,
}

impl From<NoMemory> for ReadRefusal {
    ghost use Rattle.std.specs.Prelude.{◌≡◌};
    ghost use Rattle.nb_disk.specs.declared.blocks.ReadRefusal.TheVariants as refusal;

    ghost from_gives = { λ _ e. e ≡ refusal.NoMemory };

    fn from(_: NoMemory) -> ReadRefusal {
        ReadRefusal::NoMemory
    }
}

/// Blocks of 512 bytes that are read by requests, one at a time: a drive of an iSCSI session, or a file of a
/// server. A request is a function of the source and of what is asked for. What answers it is given to the source
/// in its own way, and goes up by `Acts`.
pub trait BlockSource: Drop {
    /// The number of blocks, once it is known.
    ghost size_of: { Self → Option ℕ };

    /// Whether a request isn't answered.
    ghost waits: { Self → Bool };

    /// Whether it has ended.
    ghost is_over: { Self → Bool };

    /// The request for so many blocks, from this one on, of a source that waits for no answer.
    ghost asks: { Self → ℕ → ℕ → List ℕ };

    /// The source once it has put that request.
    ghost asked: { Self → ℕ → ℕ → Self };

    /// The number of blocks, once it is known.
    fn capacity(&self) -> Option<u32>
        ensures { result ≡ size_of self.now };

    /// Whether a request isn't answered.
    fn is_busy(&self) -> bool
        ensures { result ≡ waits self.now };

    /// Whether it has ended.
    fn has_ended(&self) -> bool
        ensures { result ≡ is_over self.now };

    /// Asks for so many blocks, from this one on; returns the text of the request. It may not have ended.
    fn read(&mut self, alloc: Global, lba: u32, n: u16) -> Result<Text, ReadRefusal>
        requires some { 1 ≤ n }
        requires few { n ≤ 64 }
        requires live { is_over self.old ≡ false }
        ensures refused { TakesRead (size_of self.old) (waits self.old) lba n result }
        ensures text { IfOk result (λ text. text ≡ asks self.old lba n) }
        ensures left { OnOk result (self.new ≡ asked self.old lba n) }
        ensures out { OnOk result (WaitsForRead (size_of self.old) (size_of self.new) (waits self.new) (is_over self.new)) }
        ensures err { OnErr result (self.new ≡ self.old) };
}
