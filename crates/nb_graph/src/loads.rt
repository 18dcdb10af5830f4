// Loads that were lent come back.
ghost use Rattle.std.specs.Prelude.{◌≡◌, ◌+◌, ◌<◌, ◌++◌, ◌∷◌, ℕ, true, [], List, Option};
ghost use Rattle.std.specs.Vec.{vec_capacity};
ghost use Rattle.nb_ledger.specs.Ledger.{busy, object_lives, place};
ghost use Rattle.nb_effects.specs.Trace.{carried, in_list, lent, loads, nature};
ghost use Rattle.nb_effects.specs.Deeds.{returns_of, Returns};
ghost use Rattle.nb_graph.specs.Lives.{Back, here, StaysTraced, nodes_at};
ghost use Rattle.nb_effects.specs.Whole.{IsManned};
ghost use Rattle.nb_ledger.specs.Flat.{Heard};
ghost use Rattle.nb_effects.specs.Flows.{Still};
ghost use Rattle.nb_effects.specs.Moves.{Calms};

use crate::inner::Inner;
use crate::{Asked, Emit, Few, Fx, Node};
use nb_ledger::ObjId;

impl<N: Node> Inner<N> {
    /// Gives a lent load back to its node.
    #[inline(always)]
    pub(crate) fn give_back(&mut self, id: ObjId, index: usize, load: N::Load)
        requires lives { object_lives self.old.book id.0 ≡ true }
        requires place { index ≡ place self.old.book id.0 }
        requires manned { IsManned N.rank_of self.old.book self.old.nodes.items
            (vec_capacity self.old.nodes) }
        ensures book { self.new.book ≡ self.old.book }
        ensures lives { (now : ℕ) (u : Heard) → StaysTraced N.stands
            (nature N.kind_of N.mark_of N.Load.first N.Load.second) now
            (nodes_at self.old.book self.old.nodes.items u)
            (nodes_at self.new.book self.new.nodes.items u)
            (Back (busy self.old.book) id.0 (load ∷ [])) (λ st. Returns id.0 load ∷ st) here
            (Calms (nature N.kind_of N.mark_of N.Load.first N.Load.second) self.old.book self.old.book Still)
            [] }
        ensures manned { IsManned N.rank_of self.new.book self.new.nodes.items
            (vec_capacity self.new.nodes) }
    {
        self.nodes[index].regain(load);
    }

    /// Gives the loads of effects that aren't run back to their node.
    pub(crate) fn take_back(&mut self, id: ObjId, index: usize, fx: &mut Fx<N, N::Load>)
        requires lives { object_lives self.old.book id.0 ≡ true }
        requires place { index ≡ place self.old.book id.0 }
        requires manned { IsManned N.rank_of self.old.book self.old.nodes.items
            (vec_capacity self.old.nodes) }
        ensures book { self.new.book ≡ self.old.book }
        ensures lives { (now : ℕ) (u : Heard) → StaysTraced N.stands
            (nature N.kind_of N.mark_of N.Load.first N.Load.second) now
            (nodes_at self.old.book self.old.nodes.items u)
            (nodes_at self.new.book self.new.nodes.items u) (Back (busy self.old.book) id.0
            (lent fx.old))
            (λ st. returns_of id.0 (lent fx.old) ++ st) here (Calms
            (nature N.kind_of N.mark_of N.Load.first N.Load.second) self.old.book self.old.book
            Still) [] }
        ensures manned { IsManned N.rank_of self.new.book self.new.nodes.items
            (vec_capacity self.new.nodes) }
    {
        self.take_few(id, index, &mut fx.downs);
        self.take_few(id, index, &mut fx.ups);
    }

    fn take_few(&mut self, id: ObjId, index: usize, few: &mut Few<Emit<N::Load>>)
        requires lives { object_lives self.old.book id.0 ≡ true }
        requires place { index ≡ place self.old.book id.0 }
        requires manned { IsManned N.rank_of self.old.book self.old.nodes.items
            (vec_capacity self.old.nodes) }
        ensures book { self.new.book ≡ self.old.book }
        ensures lives { (now : ℕ) (u : Heard) → StaysTraced N.stands
            (nature N.kind_of N.mark_of N.Load.first N.Load.second) now
            (nodes_at self.old.book self.old.nodes.items u)
            (nodes_at self.new.book self.new.nodes.items u)
            (Back (busy self.old.book) id.0 (loads few.old)) (λ st. returns_of id.0
            (loads few.old) ++ st) here
            (Calms (nature N.kind_of N.mark_of N.Load.first N.Load.second) self.old.book self.old.book Still)
            [] }
        ensures manned { IsManned N.rank_of self.new.book self.new.nodes.items
            (vec_capacity self.new.nodes) }
    {
        self.take_one(id, index, &mut few.first);
        self.take_one(id, index, &mut few.second);
    }

    fn take_one(&mut self, id: ObjId, index: usize, emit: &mut Asked<Emit<N::Load>>)
        requires lives { object_lives self.old.book id.0 ≡ true }
        requires place { index ≡ place self.old.book id.0 }
        requires manned { IsManned N.rank_of self.old.book self.old.nodes.items
            (vec_capacity self.old.nodes) }
        ensures book { self.new.book ≡ self.old.book }
        ensures lives { (now : ℕ) (u : Heard) → StaysTraced N.stands
            (nature N.kind_of N.mark_of N.Load.first N.Load.second) now
            (nodes_at self.old.book self.old.nodes.items u)
            (nodes_at self.new.book self.new.nodes.items u)
            (Back (busy self.old.book) id.0 (carried emit.old)) (λ st. returns_of id.0
            (carried emit.old) ++ st) here
            (Calms (nature N.kind_of N.mark_of N.Load.first N.Load.second) self.old.book self.old.book Still)
            [] }
        ensures manned { IsManned N.rank_of self.new.book self.new.nodes.items
            (vec_capacity self.new.nodes) }
    {
        if emit.is {
            self.take_load(id, index, &mut emit.what.load);
        }
    }

    /// Gives the load of a message that an entry asked for back to its node.
    #[inline(always)]
    pub(crate) fn take_load(&mut self, id: ObjId, index: usize, load: &mut Option<N::Load>)
        requires lives { object_lives self.old.book id.0 ≡ true }
        requires place { index ≡ place self.old.book id.0 }
        requires manned { IsManned N.rank_of self.old.book self.old.nodes.items
            (vec_capacity self.old.nodes) }
        ensures book { self.new.book ≡ self.old.book }
        ensures lives { (now : ℕ) (u : Heard) → StaysTraced N.stands
            (nature N.kind_of N.mark_of N.Load.first N.Load.second) now
            (nodes_at self.old.book self.old.nodes.items u)
            (nodes_at self.new.book self.new.nodes.items u)
            (Back (busy self.old.book) id.0 (in_list load.old)) (λ st. returns_of id.0
            (in_list load.old) ++ st) here
            (Calms (nature N.kind_of N.mark_of N.Load.first N.Load.second) self.old.book self.old.book Still)
            [] }
        ensures manned { IsManned N.rank_of self.new.book self.new.nodes.items
            (vec_capacity self.new.nodes) }
    {
        if load.is_some() {
            self.take_lent(id, index, load.take());
        }
    }

    #[inline(always)]
    fn take_lent(&mut self, id: ObjId, index: usize, load: Option<N::Load>)
        requires lives { object_lives self.old.book id.0 ≡ true }
        requires place { index ≡ place self.old.book id.0 }
        requires manned { IsManned N.rank_of self.old.book self.old.nodes.items
            (vec_capacity self.old.nodes) }
        ensures book { self.new.book ≡ self.old.book }
        ensures lives { (now : ℕ) (u : Heard) → StaysTraced N.stands
            (nature N.kind_of N.mark_of N.Load.first N.Load.second) now
            (nodes_at self.old.book self.old.nodes.items u)
            (nodes_at self.new.book self.new.nodes.items u)
            (Back (busy self.old.book) id.0 (in_list load)) (λ st. returns_of id.0
            (in_list load) ++ st) here
            (Calms (nature N.kind_of N.mark_of N.Load.first N.Load.second) self.old.book self.old.book Still)
            [] }
        ensures manned { IsManned N.rank_of self.new.book self.new.nodes.items
            (vec_capacity self.new.nodes) }
    {
        match load {
            Some(load) => self.give_back(id, index, load),
            None => {}
        }
    }
}
