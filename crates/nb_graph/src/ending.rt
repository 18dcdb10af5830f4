// The end of a graph: all ports are closed, and then all holds let go.
ghost use Rattle.std.specs.Prelude.{◌≡◌, ◌+◌, ◌<◌, ◌≤◌, ℕ, List, ◌∷◌, false};
ghost use Rattle.nb_ledger.specs.declared.port.Port.{Port as ThePort};
ghost use Rattle.std.specs.Vec.{vec_capacity};
ghost use Rattle.nb_ledger.specs.Ledger.{object_lives, busy, holds, port, open_count};
ghost use Rattle.nb_effects.specs.Trace.{nature};
ghost use Rattle.nb_effects.specs.Flows.{Empty};
ghost use Rattle.nb_effects.specs.Calm.{IsSteady};
ghost use Rattle.nb_graph.specs.Lives.{here, CalmFor, RunFor, Same};
ghost use Rattle.nb_graph.specs.Ending.{OnlyLetsGo};
ghost use Rattle.nb_effects.specs.Deeds.{Ends, LetsAllGo};
ghost use Rattle.nb_effects.specs.Whole.{IsGraph, IsQuiet};
ghost use Rattle.nb_effects.specs.Order.{ClosesInOrder};

use crate::Node;
use crate::inner::Inner;
use nb_ledger::{ObjId, Outside};
use nb_terms::Cause;

impl<N: Node> Inner<N> {
    /// Closes the ports of all objects above a serial, by rising serial and slot.
    pub(crate) fn close_above<O: Outside>(
        &mut self,
        after: u64,
        cause: &Cause,
        now: u64,
        out: &mut O,
    )
        requires steady { IsSteady N.rank_of self.old.book self.old.nodes.items
            (vec_capacity self.old.nodes) }
        ensures lives { CalmFor N.stands (nature N.kind_of N.mark_of N.Load.first N.Load.second) now
            self.old.book
            self.new.book self.old.nodes.items self.new.nodes.items (Same (busy self.old.book))
            Empty (λ st. Ends after cause.now ∷ st) (O.events out.old) (O.events out.new) }
        ensures steady { IsSteady N.rank_of self.new.book self.new.nodes.items
            (vec_capacity self.new.nodes) }
        ensures shut { (x k : ℕ) → after < x → open_count (port self.new.book x k) ≡ 0 }
        ensures order { IsQuiet self.old.book → (ps : List ThePort) × ClosesInOrder cause.now
            (after + 1) 0 self.old.book self.new.book (O.events out.old) (O.events out.new) ps }
    {
        match self.book.above(after) {
            Some(id) => {
                self.close_all(id, cause, now, out);
                self.close_above(id.0, cause, now, out);
            }
            None => {}
        }
    }

    /// Lets all holds go of an object.
    fn let_all_go<O: Outside>(&mut self, id: ObjId, out: &mut O)
        requires graph { IsGraph N.rank_of self.old.book self.old.nodes.items
            (vec_capacity self.old.nodes) }
        ensures graph { IsGraph N.rank_of self.new.book self.new.nodes.items
            (vec_capacity self.new.nodes) }
        ensures runs { RunFor N.stands (nature N.kind_of N.mark_of N.Load.first N.Load.second) self.old.book
            self.new.book self.old.nodes.items self.new.nodes.items (λ st. LetsAllGo ∷ st)
            (λ st. LetsAllGo ∷ st) (O.events out.old)
            (O.events out.new) }
        ensures lets { OnlyLetsGo self.old.book self.new.book }
        ensures none { holds self.new.book id.0 ≡ 0 }
    {
        while self.book.is_held(id) {
            self.let_go(id, out);
        }
    }

    /// Lets all holds go of the objects above a serial.
    pub(crate) fn let_above_go<O: Outside>(&mut self, after: u64, out: &mut O)
        requires graph { IsGraph N.rank_of self.old.book self.old.nodes.items
            (vec_capacity self.old.nodes) }
        ensures graph { IsGraph N.rank_of self.new.book self.new.nodes.items
            (vec_capacity self.new.nodes) }
        ensures runs { RunFor N.stands (nature N.kind_of N.mark_of N.Load.first N.Load.second) self.old.book
            self.new.book self.old.nodes.items self.new.nodes.items (λ st. LetsAllGo ∷ st) here
            (O.events out.old)
            (O.events out.new) }
        ensures lets { OnlyLetsGo self.old.book self.new.book }
        ensures none { (x : ℕ) → after < x → holds self.new.book x ≡ 0 }
        ensures first { object_lives self.new.book 0 ≡ false }
    {
        match self.book.above(after) {
            Some(id) => {
                self.let_all_go(id, out);
                self.let_above_go(id.0, out);
            }
            None => {}
        }
    }
}
