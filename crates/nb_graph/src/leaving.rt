// An entry ends.
ghost use Rattle.std.specs.Prelude.{◌≡◌, ◌<◌, ◌∷◌, true, None};
ghost use Rattle.std.specs.Vec.{vec_capacity};
ghost use Rattle.nb_ledger.specs.Ledger.{place, port, object_lives};
ghost use Rattle.nb_effects.specs.Calm.{IsSteady};
ghost use Rattle.nb_effects.specs.Trace.{nature};
ghost use Rattle.nb_effects.specs.Deeds.{Holds};
ghost use Rattle.nb_ledger.specs.declared.event.Way.{Way as TheWay};
ghost use Rattle.nb_ledger.specs.declared.event.Way.TheVariants.{Close};
ghost use Rattle.nb_ledger.specs.GraphRun.{Running};
ghost use Rattle.nb_graph.specs.Lives.{EndsFor};

use crate::Node;
use crate::inner::Inner;
use nb_ledger::{Outside, Port};

impl<N: Node> Inner<N> {
    /// Ends an entry, and frees its object if that was the last of its count.
    #[inline(always)]
    pub(crate) fn leave<O: Outside>(&mut self, at: Port, index: usize, was: bool, out: &mut O)
        requires lives { object_lives self.old.book at.obj.0 ≡ true }
        requires place { index ≡ place self.old.book at.obj.0 }
        requires steady { IsSteady N.rank_of self.old.book self.old.nodes.items
            (vec_capacity self.old.nodes) }
        ensures ends { (by : TheWay) → (by ≡ Close → ⊥) → EndsFor N.stands
            (nature N.kind_of N.mark_of N.Load.first N.Load.second)
            self.old.book self.new.book self.old.nodes.items self.new.nodes.items (O.events out.old)
            (O.events out.new) at.obj.0 was
            (λ st. Running at by ∷ st) (port self.old.book) (λ st. Holds at by None ∷ st) }
        ensures steady { IsSteady N.rank_of self.new.book self.new.nodes.items
            (vec_capacity self.new.nodes) }
    {
        let unused = self.book.leave(at, index, was, out);
        self.settle(at.obj, unused, out);
    }
}
