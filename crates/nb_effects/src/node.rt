ghost use Rattle.std.specs.Prelude.{◌≡◌, ◌+◌, ◌≤◌, ℕ, List, [], ◌∷◌, ◌++◌, Option, OnOk, length};
ghost use Rattle.std.specs.Prelude.{is_ok};
ghost use Rattle.nb_effects.specs.Trace.{NodeEntry, up, down, closed, time, regain, said, IsSettled};
ghost use Rattle.nb_effects.specs.Trace.{LacksLoad};
ghost use Rattle.nb_effects.specs.Effects.{IsNothing, MayAsk, MayAskBelow, TakesSome};

use crate::Fx;
use nb_ledger::Msg;
use nb_terms::{Cause, NoMemory};

/// A load that a message carries: its bytes, in two parts.
pub trait Parts: Drop {
    ghost first: { Self → List ℕ };

    ghost second: { Self → List ℕ };

    /// Its bytes are the first part and then the second.
    fn parts(&self) -> (&[u8], &[u8])
        ensures first { result.0.now ≡ first self.now }
        ensures second { result.1.now ≡ second self.now };
}

/// What an object of the graph does when it is entered. It asks for its effects by `fx`, which is
/// empty before.
pub trait Node: Sized + Drop {
    /// What its messages may carry.
    type Load: Parts;

    /// The rank, which bounds those below it.
    ghost rank_of: { Self → ℕ };

    /// The number of its kind.
    ghost kind_of: { Self → ℕ };

    /// A number that no entry changes, and a harvest may.
    ghost mark_of: { Self → ℕ };

    /// What `harvest` gives, and what it leaves.
    ghost harvests: { Self → Option Self.Load → Self → Type 0 };

    /// The traces that an object stands for, which is all that it means: a trace has its entries so
    /// far, each with what it was called with, what it answered and its effects, and the loads that
    /// came back to it.
    ghost stands: { Self → List (NodeEntry Self Self.Load) → Type 0 };

    /// The rank, which never changes: an object's links go down to lower ranks.
    fn rank(&self) -> u8
        ensures { result ≡ rank_of self.now };

    /// The number of its kind, which never changes.
    fn kind(&self) -> u8
        ensures { result ≡ kind_of self.now };

    /// A message comes from below by `slot`, or the rest of it. All loads that were lent came back
    /// before.
    fn on_up(
        &mut self,
        slot: u8,
        msg: &Msg<'_>,
        now: u64,
        fx: &mut Fx<Self, Self::Load>,
    ) -> Result<(), NoMemory>
        requires { IsNothing fx.old }
        ensures rank { rank_of self.new ≡ rank_of self.old }
        ensures kind { kind_of self.new ≡ kind_of self.old }
        ensures mark { mark_of self.new ≡ mark_of self.old }
        ensures asks { MayAsk rank_of stands (rank_of self.old)
            (length msg.now.first.now + length msg.now.second.now) fx.new }
        ensures took { fx.new.took ≤ length msg.now.first.now + length msg.now.second.now }
        ensures takes { OnOk result (TakesSome slot (length msg.now.first.now + length
            msg.now.second.now) fx.new) }
        ensures stands { (t : List (NodeEntry Self Self.Load)) → stands self.old t → IsSettled t
            → stands self.new (t ++ up slot (said msg.now) now (is_ok result) fx.new ∷ []) };

    /// A message comes from above.
    fn on_down(
        &mut self,
        msg: &Msg<'_>,
        now: u64,
        fx: &mut Fx<Self, Self::Load>,
    ) -> Result<(), NoMemory>
        requires { IsNothing fx.old }
        ensures rank { rank_of self.new ≡ rank_of self.old }
        ensures kind { kind_of self.new ≡ kind_of self.old }
        ensures mark { mark_of self.new ≡ mark_of self.old }
        ensures asks { MayAskBelow (length msg.now.first.now + length msg.now.second.now) fx.new }
        ensures stands { (t : List (NodeEntry Self Self.Load)) → stands self.old t
            → stands self.new (t ++ down (said msg.now) now (is_ok result) fx.new ∷ []) };

    /// The port `slot` was closed from its other end.
    fn on_close(&mut self, slot: u8, cause: &Cause, now: u64, fx: &mut Fx<Self, Self::Load>)
        requires { IsNothing fx.old }
        ensures rank { rank_of self.new ≡ rank_of self.old }
        ensures kind { kind_of self.new ≡ kind_of self.old }
        ensures mark { mark_of self.new ≡ mark_of self.old }
        ensures asks { MayAskBelow 0 fx.new }
        ensures stands { (t : List (NodeEntry Self Self.Load)) → stands self.old t
            → stands self.new (t ++ closed slot cause.now now fx.new ∷ []) };

    /// Time has come to `now`, in milliseconds. All loads that were lent came back before.
    fn on_time(&mut self, now: u64, fx: &mut Fx<Self, Self::Load>) -> Result<(), NoMemory>
        requires { IsNothing fx.old }
        ensures rank { rank_of self.new ≡ rank_of self.old }
        ensures kind { kind_of self.new ≡ kind_of self.old }
        ensures mark { mark_of self.new ≡ mark_of self.old }
        ensures asks { MayAsk rank_of stands (rank_of self.old) 0 fx.new }
        ensures stands { (t : List (NodeEntry Self Self.Load)) → stands self.old t → IsSettled t
            → stands self.new (t ++ time now (is_ok result) fx.new ∷ []) };

    /// A load that was lent comes back.
    fn regain(&mut self, load: Self::Load)
        ensures rank { rank_of self.new ≡ rank_of self.old }
        ensures kind { kind_of self.new ≡ kind_of self.old }
        ensures mark { mark_of self.new ≡ mark_of self.old }
        ensures stands { (t : List (NodeEntry Self Self.Load)) → stands self.old t → LacksLoad t load
            → stands self.new (t ++ regain load ∷ []) };

    /// What the object has to hand out, once.
    fn harvest(&mut self) -> Option<Self::Load>
        ensures gives { harvests self.old result self.new }
        ensures rank { rank_of self.new ≡ rank_of self.old }
        ensures kind { kind_of self.new ≡ kind_of self.old }
        ensures stands { (t : List (NodeEntry Self Self.Load)) → stands self.old t → stands self.new
            t };
}
