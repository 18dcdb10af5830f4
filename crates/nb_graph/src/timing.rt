// Time comes to an object.
ghost use Rattle.std.specs.Prelude.{◌≡◌, ◌+◌, ◌<◌, ◌++◌, ◌∷◌, ℕ, true, false, []};
ghost use Rattle.std.specs.Vec.{vec_capacity};
ghost use Rattle.nb_ledger.specs.Ledger.{busy, object_lives, place, rank};
ghost use Rattle.nb_effects.specs.Whole.{port_at};
ghost use Rattle.nb_effects.specs.Flows.{asked_sent, DoesEffects, Keeping};
ghost use Rattle.nb_effects.specs.Calm.{IsSteady, Starts};
ghost use Rattle.nb_effects.specs.Trace.{lent, nature, silence, time};
ghost use Rattle.nb_effects.specs.Deeds.{Hands, Ticks, runs_of};
ghost use Rattle.nb_graph.specs.Lives.{Back, Same, here, IsBelow, LivelyFor, LivelyInFor};
ghost use Rattle.nb_ledger.specs.declared.event.GraphEvent.TheVariants.{Entered};
ghost use Rattle.nb_ledger.specs.declared.event.Way.TheVariants as way;
ghost use Rattle.nb_effects.specs.Effects.{MayAskTime};
ghost use Rattle.nb_effects.specs.Moves.{HasAsked, none_due};

use crate::inner::Inner;
use crate::spare::Spare;
use crate::{Fx, Node};
use nb_effects::NOTHING;
use nb_ledger::{ObjId, Outside, Port, Way};

impl<N: Node> Inner<N> {
    /// Time enters a live object.
    pub(crate) fn enter_time<O: Outside>(
        &mut self,
        id: ObjId,
        spare: &mut Option<Box<Spare<N>>>,
        now: u64,
        out: &mut O,
    )
        requires lives { object_lives self.old.book id.0 ≡ true }
        requires idle { (x : ℕ) → busy self.old.book x ≡ false }
        requires steady { IsSteady N.rank_of self.old.book self.old.nodes.items
            (vec_capacity self.old.nodes) }
        ensures lives { (k : LivelyFor N.stands (nature N.kind_of N.mark_of N.Load.first N.Load.second) now
            self.old.book self.new.book self.old.nodes.items self.new.nodes.items
            (Same (busy self.old.book)) none_due (Keeping self.old.book) (λ st. Ticks id.0 ∷ st)
            (O.events out.old)
            (O.events out.new))
            × Hands (Entered (port_at id.0 4) way.Time) id.0 (λ done fx. time now done fx)
            k.lives.deeds }
        ensures starts { Starts self.old.book self.new.book (O.events out.old) (O.events out.new)
            (Entered (port_at id.0 4) way.Time) }
        ensures steady { IsSteady N.rank_of self.new.book self.new.nodes.items
            (vec_capacity self.new.nodes) }
    {
        let at = Port { obj: id, slot: 4 };
        let key = self.book.key(id);
        let was = self.book.enter(at, key, Way::Time, out);
        let mut fx = Fx::none();
        let done = self.ask_time(id, key, now, &mut fx);
        let index = self.book.place_at(id, key);
        let place = self.after_time(id, index, done, &mut fx, spare, now, out);
        self.leave(at, place, was, out);
    }

    fn after_time<O: Outside>(
        &mut self,
        id: ObjId,
        index: usize,
        done: bool,
        fx: &mut Fx<N, N::Load>,
        spare: &mut Option<Box<Spare<N>>>,
        now: u64,
        out: &mut O,
    ) -> usize
        requires place { index ≡ place self.old.book id.0 }
        requires runs { busy self.old.book id.0 ≡ true }
        requires asks { MayAskTime N.rank_of N.stands (rank self.old.book id.0) done fx.old }
        requires below { IsBelow (rank self.old.book id.0) self.old.book }
        requires steady { IsSteady N.rank_of self.old.book self.old.nodes.items
            (vec_capacity self.old.nodes) }
        ensures place { result ≡ place self.new.book id.0 }
        ensures lives { LivelyInFor N.stands (nature N.kind_of N.mark_of N.Load.first N.Load.second) now id.0
            self.old.book self.new.book self.old.nodes.items self.new.nodes.items
            (Back (busy self.old.book) id.0 (lent fx.old))
            (HasAsked id.0 (asked_sent (nature N.kind_of N.mark_of N.Load.first N.Load.second) [] done
            fx.old))
            none_due
            (DoesEffects self.old.book id.0 (asked_sent (nature N.kind_of N.mark_of N.Load.first N.Load.second) [] done
            fx.old))
            (λ st. runs_of (nature N.kind_of N.mark_of N.Load.first N.Load.second) id.0 silence done fx.old ++
            st) here (O.events out.old) (O.events out.new) }
        ensures steady { IsSteady N.rank_of self.new.book self.new.nodes.items
            (vec_capacity self.new.nodes) }
    {
        if done {
            self.effects(id, index, &NOTHING, fx, spare, now, out)
        } else {
            self.fail(id, index, fx, now, out)
        }
    }
}
