//! The transfer of one file.

use crate::state::State;
use nb_terms::Acts;
use nb_wire::Ip4;
use std::marker::Model;

/// The most bytes of a path.
pub const MAX_PATH: usize = 1024;

/// The path has more than 1,024 bytes.
#[derive(Clone, Copy, Debug, PartialEq, Eq, Drop)]
pub struct TooLong;

/// The transfer of one file from a server. It takes no memory.
#[derive(Drop)]
pub struct Transfer {
    state: State,
}

impl Model for Transfer {
    ghost use Rattle.nb_tftp.specs.declared.state.State.{State};

    ghost Value = { State };

    ghost view = { λ t. t.state };
}

impl Transfer {
    ghost use Rattle.std.specs.Prelude.{◌≡◌, ◌<◌, ◌∷◌, ◌++◌, ◌↔◌, [], ℕ, Bool, List, length, IsErr, IfOk, OnErr, OnOk, Some, None, true, false};
    ghost use Rattle.nb_tftpmsg.specs.Texts.{HasNoZero};
    ghost use Rattle.nb_tftp.specs.Asks.{Begun, begun, nothing, sending, last_message};
    ghost use Rattle.nb_tftp.specs.Received.{received};
    ghost use Rattle.nb_tftp.specs.History.{Entry, entry, came, ticked, is_ended};
    ghost use Rattle.nb_tftp.specs.Stands.{Stands, StandsWith};
    ghost use Rattle.nb_tftp.specs.Sound.{AreSoundActs};

    /// Asks the server for the file of this path with options: blocks of 1,432 bytes (RFC 2348), and the file's
    /// size (RFC 2349). The path holds no zero byte; one of more than 1,024 bytes is too long. The open's number
    /// isn't needed here.
    pub fn start(
        _number: u16,
        server: Ip4,
        port: u16,
        own_port: u16,
        path: &[u8],
        now: u64,
        acts: &mut Acts,
    ) -> Result<Transfer, TooLong>
        requires { HasNoZero path.now }
        ensures too_long { IsErr result ↔ (1024 < length path.now) }
        ensures refused { OnErr result (acts.new ≡ nothing) }
        // The request is sent, under a timer, and no call stands after it.
        ensures request { OnOk result (acts.new ≡ sending (last_message (begun server port own_port path.now) None 0) (Some 1)) }
        ensures stands { IfOk result (λ t. Stands (begun server port own_port path.now) now t []) }
        ensures sound { AreSoundActs 0 acts.new }
    {
        if path.len() > MAX_PATH {
            acts.clear();
            return Err(TooLong);
        }
        let state = State::begun(true, server, port, own_port, path, now);
        acts.clear();
        state.ask_last(Some(1), acts);
        Ok(Transfer { state })
    }

    /// A datagram of the transfer's port, from this port of the server; `rec` is its record's number.
    #[inline(always)]
    pub fn message(&mut self, rec: u32, src_port: u16, body: &[u8], now: u64, acts: &mut Acts)
        // With this call and what it asks, the transfer stands for one call more. `Stands` has what it
        // promises of all of them.
        ensures stands { (options : Bool) (b : Begun) (start : ℕ) (h : List Entry) → StandsWith options b start self.old h → is_ended h ≡ false → StandsWith options b start self.new (h ++ entry (came (received rec src_port body.now) now) acts.new ∷ []) }
        // It asks for at most one message, by UDP, and gives up a range of the body.
        ensures sound { AreSoundActs (length body.now) acts.new }
        // After its end it ignores every call.
        ensures ended { (options : Bool) (b : Begun) (start : ℕ) (h : List Entry) → StandsWith options b start self.old h → is_ended h ≡ true → StandsWith options b start self.new h × (acts.new ≡ nothing) }
    {
        self.state.datagram(rec, src_port, body, now, acts);
    }

    /// It is this time, in milliseconds since the start of the run.
    pub fn time(&mut self, now: u64, acts: &mut Acts)
        ensures stands { (options : Bool) (b : Begun) (start : ℕ) (h : List Entry) → StandsWith options b start self.old h → is_ended h ≡ false → StandsWith options b start self.new (h ++ entry (ticked now) acts.new ∷ []) }
        ensures sound { AreSoundActs 0 acts.new }
        ensures ended { (options : Bool) (b : Begun) (start : ℕ) (h : List Entry) → StandsWith options b start self.old h → is_ended h ≡ true → StandsWith options b start self.new h × (acts.new ≡ nothing) }
    {
        acts.clear();
        self.state.tick(now, acts);
    }
}
