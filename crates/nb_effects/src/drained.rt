ghost use Rattle.std.specs.Prelude.{◌≡◌, ◌≢◌, ◌≤◌, ℕ, List, ◌∷◌, ◌++◌, Some, false};
ghost use Rattle.nb_terms.specs.declared.cause.Cause.{Cause};
ghost use Rattle.nb_ledger.specs.Flat.{Heard};
ghost use Rattle.nb_ledger.specs.Ledger.{port, rank};
ghost use Rattle.nb_ledger.specs.declared.event.GraphEvent.TheVariants.{Closed};
ghost use Rattle.nb_ledger.specs.declared.port.Port.{Port as ThePort};
ghost use Rattle.nb_ledger.specs.declared.port.PortState.TheVariants as state;
ghost use Rattle.nb_effects.specs.Accounts.{Account, Balanced, account, rests};
ghost use Rattle.nb_effects.specs.Deeds.{Deed, Stage, events_of, no_place, writes};
ghost use Rattle.nb_effects.specs.Drained.{AreFromOutside, IsDrained, watch, link_watch_begun};
ghost use Rattle.nb_effects.specs.Trace.{nature};
ghost use Rattle.nb_effects.specs.Went.{WentOne, all_of};
ghost use Rattle.nb_effects.specs.Whole.{IsLinked, Objects};

use crate::Node;

/// Where a call closes the end p of a link before its other end q, all that p's object sent by it
/// was taken: its messages leave before its closes. `IsDrained` says which closes are meant.
pub fn closed_first_was_taken<N: Node>()
    ensures { (now : ℕ) (asks : List (Stage N N.Load)) (a b : Objects N) (m n : Heard)
        (p q : ThePort) (i j : Account) → AreFromOutside asks
        → IsLinked (port a.book) (rank a.book) → Balanced a.book p q i j
        → (k : WentOne N.stands (nature N.kind_of N.mark_of N.Load.first N.Load.second) now asks
        a b m n) → i.peer ≡ Some q → port a.book p.obj.0 p.slot ≡ state.Linked q
        → IsDrained (nature N.kind_of N.mark_of N.Load.first N.Load.second) p q (rests i)
        (rests j) link_watch_begun (all_of k.deeds) }
{}

/// The same, where so much happened, and then p was closed.
pub fn drained_where_closed<N: Node>()
    ensures { (p q : ThePort) (i j : Account) (ds us vs : List (Deed N N.Load)) (c : Cause)
        → IsDrained (nature N.kind_of N.mark_of N.Load.first N.Load.second) p q i j link_watch_begun ds
        → ds ≡ us ++ writes (Closed p c) ∷ vs → c ≢ no_place
        → (watch p q link_watch_begun (events_of us)).ended ≡ false
        → (watch p q link_watch_begun (events_of us)).running ≤ 1
        → (account (nature N.kind_of N.mark_of N.Load.first N.Load.second) p i us).sent
        ≡ (account (nature N.kind_of N.mark_of N.Load.first N.Load.second) q j us).taken }
{}
