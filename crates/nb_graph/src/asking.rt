// A node is called.
ghost use Rattle.std.specs.Prelude.{◌≡◌, ◌+◌, ◌<◌, ◌++◌, ◌∷◌, true, length, Some, None, [], List};
ghost use Rattle.std.specs.Prelude.{◌-◌, ◌≢◌, ℕ, Option};
ghost use Rattle.std.specs.Vec.{vec_capacity};
ghost use Rattle.nb_ledger.specs.GraphRun.{IsOpen};
ghost use Rattle.nb_ledger.specs.Ledger.{place, port, object_lives, rank};
ghost use Rattle.nb_effects.specs.Whole.{port_at, Harvests, IsManned};
ghost use Rattle.nb_effects.specs.Flows.{asked_sent, by_no_slot, Asking, asked_taken, asked_whole};
ghost use Rattle.nb_effects.specs.Trace.{down, lent, said, nature, silence, up, time};
ghost use Rattle.nb_effects.specs.Deeds.{rest, runs_of, Calls, Holds, MustHear};
ghost use Rattle.nb_effects.specs.Effects.{IsNothing, MayAskBelow, MayAskDown};
ghost use Rattle.nb_effects.specs.Effects.{MayAskTime, MayAskUp};
ghost use Rattle.nb_effects.specs.Accounts.{fx_bytes};
ghost use Rattle.nb_effects.specs.Lived.{KeepsTraces};
ghost use Rattle.nb_ledger.specs.declared.event.Way.TheVariants.{Close, Down, Time, Up};
ghost use Rattle.nb_ledger.specs.Flat.{Heard};
ghost use Rattle.nb_effects.specs.Moves.{Asks, Calms};
ghost use Rattle.nb_graph.specs.Lives.{Lends, LendsFirst, StaysTraced, nodes_at, seat};

use crate::inner::Inner;
use crate::{Fx, Node};
use nb_ledger::{Msg, ObjId, Port};
use nb_terms::Cause;

impl<N: Node> Inner<N> {
    /// Calls the node of a port that was closed from its other end; `fx` gets what it asks for.
    pub(crate) fn ask_closed(
        &mut self,
        at: Port,
        key: usize,
        cause: &Cause,
        now: u64,
        fx: &mut Fx<N, N::Load>,
    )
        requires nothing { IsNothing fx.old }
        requires lives { object_lives self.old.book at.obj.0 ≡ true }
        requires manned { IsManned N.rank_of self.old.book self.old.nodes.items
            (vec_capacity self.old.nodes) }
        ensures asks { MayAskBelow 0 fx.new }
        ensures book { self.new.book ≡ self.old.book }
        ensures lives { (u : Heard) → StaysTraced N.stands
            (nature N.kind_of N.mark_of N.Load.first N.Load.second) now
            (nodes_at self.old.book self.old.nodes.items u)
            (nodes_at self.new.book self.new.nodes.items u) (Lends at.obj.0 (lent fx.new))
            (λ st. MustHear at cause.now ∷ st) (λ st. runs_of
            (nature N.kind_of N.mark_of N.Load.first N.Load.second) at.obj.0 silence true fx.new ++ Holds at
            Close None ∷ st)
            (Calms (nature N.kind_of N.mark_of N.Load.first N.Load.second) self.old.book self.old.book
            (Asking self.old.book at.obj.0 (λ k. fx_bytes (nature N.kind_of N.mark_of N.Load.first
            N.Load.second) k []
            fx.new) by_no_slot)) [] }
        ensures manned { IsManned N.rank_of self.new.book self.new.nodes.items
            (vec_capacity self.new.nodes) }
    {
        let place = self.book.place_at(at.obj, key);
        self.nodes[place].on_close(at.slot, cause, now, fx);
    }

    /// Calls the node that a message enters from above; false where it ran out of memory.
    #[inline(always)]
    pub(crate) fn ask_down(
        &mut self,
        id: ObjId,
        index: usize,
        msg: &Msg<'_>,
        now: u64,
        fx: &mut Fx<N, N::Load>,
    ) -> bool
        requires nothing { IsNothing fx.old }
        requires place { index ≡ place self.old.book id.0 }
        requires lives { object_lives self.old.book id.0 ≡ true }
        requires manned { IsManned N.rank_of self.old.book self.old.nodes.items
            (vec_capacity self.old.nodes) }
        ensures asks { MayAskDown (length msg.now.first.now + length msg.now.second.now) result fx.new }
        ensures book { self.new.book ≡ self.old.book }
        ensures lives { (u : Heard) → (k : StaysTraced N.stands
            (nature N.kind_of N.mark_of N.Load.first N.Load.second) now
            (nodes_at self.old.book self.old.nodes.items u)
            (nodes_at self.new.book self.new.nodes.items u) (Lends id.0 (lent fx.new))
            (λ st. Holds (port_at id.0 0) Down (Some (said msg.now)) ∷ st)
            (λ st. runs_of (nature N.kind_of N.mark_of N.Load.first N.Load.second) id.0 (said msg.now) result fx.new ++ Holds (port_at id.0 0) Down None ∷ st)
            (Calms (nature N.kind_of N.mark_of N.Load.first N.Load.second) self.old.book self.old.book
            (Asking self.old.book id.0 (asked_sent (nature N.kind_of N.mark_of N.Load.first N.Load.second)
            (said msg.now).bytes result fx.new) (asked_whole (said msg.now).bytes result))) [])
            × Calls id.0 (λ done fx. down (said msg.now) now done fx) k.deeds }
        ensures manned { IsManned N.rank_of self.new.book self.new.nodes.items
            (vec_capacity self.new.nodes) }
    {
        match self.nodes[index].on_down(msg, now, fx) {
            Ok(()) => true,
            Err(_) => false,
        }
    }

    /// Calls the node that a message, or the rest of one, enters from below; false where it ran out
    /// of memory.
    #[inline(always)]
    pub(crate) fn ask_up(
        &mut self,
        at: Port,
        index: usize,
        msg: &Msg<'_>,
        now: u64,
        fx: &mut Fx<N, N::Load>,
    ) -> bool
        requires nothing { IsNothing fx.old }
        requires place { index ≡ place self.old.book at.obj.0 }
        requires lives { object_lives self.old.book at.obj.0 ≡ true }
        requires open { IsOpen (port self.old.book at.obj.0 at.slot) }
        requires manned { IsManned N.rank_of self.old.book self.old.nodes.items
            (vec_capacity self.old.nodes) }
        ensures asks { MayAskUp N.rank_of N.stands (rank self.old.book at.obj.0) at.slot
            (length msg.now.first.now + length msg.now.second.now) result fx.new }
        ensures book { self.new.book ≡ self.old.book }
        ensures lives { (u : Heard) → (k : StaysTraced N.stands
            (nature N.kind_of N.mark_of N.Load.first N.Load.second) now
            (nodes_at self.old.book self.old.nodes.items u)
            (nodes_at self.new.book self.new.nodes.items u) (LendsFirst at.obj.0
            (lent fx.new))
            (λ st. Holds at Up (Some (said msg.now)) ∷ st)
            (λ st. runs_of (nature N.kind_of N.mark_of N.Load.first N.Load.second) at.obj.0 (said msg.now) result fx.new ++ Holds at Up (rest (said msg.now) result fx.new) ∷ st)
            (λ ds. Calms (nature N.kind_of N.mark_of N.Load.first N.Load.second) self.old.book self.old.book
            (Asking self.old.book at.obj.0 (asked_sent (nature N.kind_of N.mark_of N.Load.first N.Load.second)
            (said msg.now).bytes result fx.new) (asked_taken at.slot (said msg.now).bytes result fx.new)) ds ×
            Asks (nature N.kind_of N.mark_of N.Load.first N.Load.second) at.obj.0
            (asked_sent (nature N.kind_of N.mark_of N.Load.first N.Load.second)
            (said msg.now).bytes result fx.new) ds) [])
            × Calls at.obj.0 (λ done fx. up at.slot (said msg.now) now done fx) k.deeds }
        ensures manned { IsManned N.rank_of self.new.book self.new.nodes.items
            (vec_capacity self.new.nodes) }
    {
        match self.nodes[index].on_up(at.slot, msg, now, fx) {
            Ok(()) => true,
            Err(_) => false,
        }
    }

    /// Calls the node that time enters; false where it ran out of memory.
    pub(crate) fn ask_time(
        &mut self,
        id: ObjId,
        key: usize,
        now: u64,
        fx: &mut Fx<N, N::Load>,
    ) -> bool
        requires nothing { IsNothing fx.old }
        requires lives { object_lives self.old.book id.0 ≡ true }
        requires manned { IsManned N.rank_of self.old.book self.old.nodes.items
            (vec_capacity self.old.nodes) }
        ensures asks { MayAskTime N.rank_of N.stands (rank self.old.book id.0) result fx.new }
        ensures book { self.new.book ≡ self.old.book }
        ensures lives { (u : Heard) → (k : StaysTraced N.stands
            (nature N.kind_of N.mark_of N.Load.first N.Load.second) now
            (nodes_at self.old.book self.old.nodes.items u)
            (nodes_at self.new.book self.new.nodes.items u) (LendsFirst id.0 (lent fx.new))
            (λ st. Holds (port_at id.0 4) Time (Some silence) ∷ st)
            (λ st. runs_of (nature N.kind_of N.mark_of N.Load.first N.Load.second) id.0 silence result fx.new ++
            Holds (port_at id.0 4) Time None ∷ st)
            (λ ds. Calms (nature N.kind_of N.mark_of N.Load.first N.Load.second) self.old.book self.old.book
            (Asking self.old.book id.0 (asked_sent (nature N.kind_of N.mark_of N.Load.first N.Load.second) []
            result fx.new)
            by_no_slot) ds × Asks (nature N.kind_of N.mark_of N.Load.first N.Load.second) id.0
            (asked_sent (nature N.kind_of N.mark_of N.Load.first N.Load.second) [] result fx.new) ds) [])
            × Calls id.0 (λ done fx. time now done fx) k.deeds }
        ensures manned { IsManned N.rank_of self.new.book self.new.nodes.items
            (vec_capacity self.new.nodes) }
    {
        let place = self.book.place_at(id, key);
        match self.nodes[place].on_time(now, fx) {
            Ok(()) => true,
            Err(_) => false,
        }
    }

    /// What the node of a live object has to hand out.
    pub(crate) fn harvest(&mut self, id: ObjId) -> Option<N::Load>
        requires lives { object_lives self.old.book id.0 ≡ true }
        requires manned { IsManned N.rank_of self.old.book self.old.nodes.items
            (vec_capacity self.old.nodes) }
        ensures gives { Harvests N.harvests (record {
          book = self.old.book;
          nodes =
              self.old.nodes.items;
        })
            (record { book = self.new.book; nodes = self.new.nodes.items }) id result }
        ensures others { (x : ℕ) → x ≢ id.0 → seat self.new.book self.new.nodes.items x ≡ seat
            self.old.book self.old.nodes.items x }
        ensures keeps { KeepsTraces N.stands (record {
          book = self.old.book;
          nodes =
              self.old.nodes.items;
        })
            (record { book = self.new.book; nodes = self.new.nodes.items }) }
        ensures book { self.new.book ≡ self.old.book }
        ensures manned { IsManned N.rank_of self.new.book self.new.nodes.items
            (vec_capacity self.new.nodes) }
    {
        let place = self.book.place(id);
        self.nodes[place].harvest()
    }
}
