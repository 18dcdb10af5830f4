// The making of an object within an entry.
ghost use Rattle.std.specs.Prelude.{◌≡◌, ◌+◌, ◌-◌, ◌<◌, ◌≤◌, ◌↔◌, ◌⊎◌, ◌^◌, IfSome, IsTrue, length};
ghost use Rattle.std.specs.Prelude.{true, ℕ, [], ◌∷◌, ◌++◌};
ghost use Rattle.std.specs.Bool.{OnFalse};
ghost use Rattle.std.specs.Vec.{vec_capacity};
ghost use Rattle.nb_ledger.specs.declared.port.PortState.TheVariants as state;
ghost use Rattle.nb_ledger.specs.Ledger.{object_lives, busy, place, rank, port};
ghost use Rattle.nb_effects.specs.Trace.{nature};
ghost use Rattle.nb_effects.specs.Flows.{Making};
ghost use Rattle.nb_effects.specs.Moves.{always, asked_due};
ghost use Rattle.nb_effects.specs.Calm.{IsSteady};
ghost use Rattle.nb_graph.specs.Lives.{LivelyFor, LivelyInFor, Same, here};
ghost use Rattle.nb_effects.specs.Effects.{IsMake};
ghost use Rattle.nb_effects.specs.Deeds.{Makes, makes_of};

use crate::inner::Inner;
use crate::{Make, Node};
use nb_ledger::{GraphEvent, ObjId, Outside, Port};
use nb_terms::Cause;

/// The cause of the closes of an object whose make found no place.
const FULL: Cause = Cause {
    code: 8,
    a: 1,
    b: 0,
};

impl<N: Node> Inner<N> {
    /// Whether nothing can be made: as many objects live as may, or no serial is left.
    pub(crate) fn is_full(&self) -> bool
        ensures full { IsTrue result ↔ ((length self.now.book.objects ≡ self.now.book.room) ⊎
            (self.now.book.made ≡ 2 ^ 64 - 1)) }
        ensures serial { OnFalse result (self.now.book.made + 1 < 2 ^ 64) }
    {
        self.book.len() == self.book.room() || self.book.made() == u64::MAX
    }

    /// Makes what an entry asks for.
    #[inline(always)]
    pub(crate) fn run_make<O: Outside>(
        &mut self,
        id: ObjId,
        index: usize,
        makes: &mut Option<Make<N>>,
        now: u64,
        out: &mut O,
    ) -> usize
        requires place { index ≡ place self.old.book id.0 }
        requires runs { busy self.old.book id.0 ≡ true }
        requires make { IfSome makes.old (IsMake N.rank_of N.stands (rank self.old.book id.0)) }
        requires steady { IsSteady N.rank_of self.old.book self.old.nodes.items
            (vec_capacity self.old.nodes) }
        ensures place { result ≡ place self.new.book id.0 }
        ensures lives { LivelyInFor N.stands (nature N.kind_of N.mark_of N.Load.first N.Load.second) now id.0
            self.old.book self.new.book self.old.nodes.items self.new.nodes.items
            (Same (busy self.old.book)) always (asked_due id.0) (Making self.old.book id.0)
            (λ st. makes_of id.0 makes.old ++ st) here
            (O.events out.old) (O.events out.new) }
        ensures steady { IsSteady N.rank_of self.new.book self.new.nodes.items
            (vec_capacity self.new.nodes) }
    {
        if makes.is_some() {
            self.make_asked(id, makes, now, out);
            self.book.place_at(id, index)
        } else {
            index
        }
    }

    #[cold]
    #[inline(never)]
    fn make_asked<O: Outside>(
        &mut self,
        id: ObjId,
        makes: &mut Option<Make<N>>,
        now: u64,
        out: &mut O,
    )
        requires runs { busy self.old.book id.0 ≡ true }
        requires make { IfSome makes.old (IsMake N.rank_of N.stands (rank self.old.book id.0)) }
        requires steady { IsSteady N.rank_of self.old.book self.old.nodes.items
            (vec_capacity self.old.nodes) }
        ensures lives { LivelyInFor N.stands (nature N.kind_of N.mark_of N.Load.first N.Load.second) now id.0
            self.old.book self.new.book self.old.nodes.items self.new.nodes.items
            (Same (busy self.old.book)) always (asked_due id.0) (Making self.old.book id.0)
            (λ st. makes_of id.0 makes.old ++ st) here
            (O.events out.old) (O.events out.new) }
        ensures steady { IsSteady N.rank_of self.new.book self.new.nodes.items
            (vec_capacity self.new.nodes) }
    {
        match makes.take() {
            Some(Make { node, slot }) => self.make_at(Port { obj: id, slot }, node, now, out),
            None => {}
        }
    }

    fn make_at<O: Outside>(&mut self, at: Port, node: N, now: u64, out: &mut O)
        requires slot { (1 ≤ at.slot) × (at.slot ≤ 3) }
        requires stands { N.stands node [] }
        requires lower { N.rank_of node < rank self.old.book at.obj.0 }
        requires steady { IsSteady N.rank_of self.old.book self.old.nodes.items
            (vec_capacity self.old.nodes) }
        ensures lives { LivelyInFor N.stands (nature N.kind_of N.mark_of N.Load.first N.Load.second) now
            at.obj.0
            self.old.book self.new.book self.old.nodes.items self.new.nodes.items
            (Same (busy self.old.book)) always (asked_due at.obj.0) (Making self.old.book at.obj.0)
            (λ st. Makes at node ∷ st) here (O.events out.old) (O.events out.new) }
        ensures steady { IsSteady N.rank_of self.new.book self.new.nodes.items
            (vec_capacity self.new.nodes) }
    {
        if !self.book.is_free(at) {
            out.event(&GraphEvent::Dropped(at).spelled());
            return;
        }
        if self.is_full() {
            self.close_all(at.obj, &FULL, now, out);
            return;
        }
        self.make_below(at, node, out);
    }

    fn make_below<O: Outside>(&mut self, at: Port, node: N, out: &mut O)
        requires room { length self.old.book.objects < self.old.book.room }
        requires serial { self.old.book.made + 1 < 2 ^ 64 }
        requires free { port self.old.book at.obj.0 at.slot ≡ state.Open }
        requires slot { 1 ≤ at.slot }
        requires stands { N.stands node [] }
        requires lower { N.rank_of node < rank self.old.book at.obj.0 }
        requires steady { IsSteady N.rank_of self.old.book self.old.nodes.items
            (vec_capacity self.old.nodes) }
        ensures lives { (now : ℕ) → LivelyFor N.stands (nature N.kind_of N.mark_of N.Load.first
            N.Load.second) now
            self.old.book self.new.book self.old.nodes.items self.new.nodes.items
            (Same (busy self.old.book)) (asked_due at.obj.0) (Making self.old.book at.obj.0)
            (λ st. Makes at node ∷ st) (O.events out.old) (O.events out.new) }
        ensures steady { IsSteady N.rank_of self.new.book self.new.nodes.items
            (vec_capacity self.new.nodes) }
    {
        let id = self.add(node, out);
        self.book.plug(at, Port { obj: id, slot: 0 }, out);
    }
}
