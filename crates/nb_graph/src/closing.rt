// A port is closed, with its peer if it is linked; all ports of an object are.
ghost use Rattle.std.specs.Prelude.{◌≡◌, ◌+◌, ◌<◌, ◌≤◌, ◌++◌, ◌∷◌, ℕ, true, length, None, [], ◌≢◌};
ghost use Rattle.std.specs.Prelude.{List, ◌-◌};
ghost use Rattle.std.specs.Vec.{vec_capacity};
ghost use Rattle.nb_ledger.specs.declared.port.PortState.TheVariants.{Linked, Leaving};
ghost use Rattle.nb_ledger.specs.declared.port.PortState.TheVariants.{Closed as Shut};
ghost use Rattle.nb_ledger.specs.Ledger.{busy, place, port, open_count, object_lives, rank, run_state};
ghost use Rattle.nb_effects.specs.Whole.{IsQuiet, IsManned, IsLinked, CountedButTwo};
ghost use Rattle.nb_effects.specs.Order.{ClosesOnce, ShutsObject, EndsLink};
ghost use Rattle.nb_effects.specs.Flows.{Closing, Failing, Still};
ghost use Rattle.nb_effects.specs.Calm.{IsSteady, HalfCloses};
ghost use Rattle.nb_effects.specs.Trace.{lent, nature};
ghost use Rattle.nb_effects.specs.Deeds.{Closes, all_closes, closes_of, no_memory, returns_of, Holds};
ghost use Rattle.nb_effects.specs.Deeds.{MustHear, MustUnplug as Unlinks};
ghost use Rattle.nb_graph.specs.Lives.{Back, CalmFor, Same, EndsFor, StaysTraced, SettlesTwoFor, Stays};
ghost use Rattle.nb_graph.specs.Lives.{nodes_at};
ghost use Rattle.nb_ledger.specs.declared.event.GraphEvent.TheVariants.{Entered, Closed};
ghost use Rattle.nb_effects.specs.Effects.{ClosesSlot};
ghost use Rattle.nb_ledger.specs.Flat.{Tells};
ghost use Rattle.nb_ledger.specs.declared.event.Way.TheVariants.{Close};
ghost use Rattle.nb_ledger.specs.GraphRun.{OnStack, Running, MustUnplug, IsIdle, GraphRunOf, port_but};
ghost use Rattle.nb_effects.specs.Moves.{Calms};

use crate::inner::Inner;
use crate::{Fx, Node};
use nb_effects::NOTHING;
use nb_ledger::{ObjId, Outside, Port, PortState};
use nb_terms::Cause;

/// The cause of the closes of an object whose entry ran out of memory.
pub(crate) const NO_MEMORY: Cause = Cause {
    code: 23,
    a: 0,
    b: 0,
};

impl<N: Node> Inner<N> {
    /// Closes a port, if it is open, and its peer.
    #[cycle(calm)]
    pub(crate) fn close_port<O: Outside>(&mut self, at: Port, cause: &Cause, now: u64, out: &mut O)
        requires steady { IsSteady N.rank_of self.old.book self.old.nodes.items
            (vec_capacity self.old.nodes) }
        ensures shut { open_count (port self.new.book at.obj.0 at.slot) ≡ 0 }
        ensures lives { CalmFor N.stands (nature N.kind_of N.mark_of N.Load.first N.Load.second) now
            self.old.book
            self.new.book self.old.nodes.items self.new.nodes.items (Same (busy self.old.book))
            (Closing self.old.book at.obj.0) (λ st. Closes at cause.now ∷ st) (O.events out.old)
            (O.events out.new) }
        ensures starts { 0 < open_count (port self.old.book at.obj.0 at.slot)
            → ClosesOnce self.old.book self.new.book (O.events out.old) (O.events out.new) at
            cause.now }
        ensures stays { open_count (port self.old.book at.obj.0 at.slot) ≡ 0
            → (self.new ≡ self.old) × (out.new ≡ out.old) }
        ensures steady { IsSteady N.rank_of self.new.book self.new.nodes.items
            (vec_capacity self.new.nodes) }
    {
        match self.book.port(at) {
            PortState::Open => self.book.close_alone(at, cause, out),
            PortState::Linked(peer) => self.close_link(at, peer, cause, now, out),
            PortState::Leaving(_) => {}
            PortState::Closed => {}
        }
    }

    /// Closes both ends of a link: the peer's object is entered between.
    #[cycle(calm)]
    fn close_link<O: Outside>(&mut self, at: Port, peer: Port, cause: &Cause, now: u64, out: &mut O)
        requires linked { port self.old.book at.obj.0 at.slot ≡ Linked peer }
        requires steady { IsSteady N.rank_of self.old.book self.old.nodes.items
            (vec_capacity self.old.nodes) }
        ensures shut { open_count (port self.new.book at.obj.0 at.slot) ≡ 0 }
        ensures lives { CalmFor N.stands (nature N.kind_of N.mark_of N.Load.first N.Load.second) now
            self.old.book
            self.new.book self.old.nodes.items self.new.nodes.items (Same (busy self.old.book))
            (Closing self.old.book at.obj.0) (λ st. Closes at cause.now ∷ st) (O.events out.old)
            (O.events out.new) }
        ensures starts { ClosesOnce self.old.book self.new.book (O.events out.old) (O.events out.new) at
            cause.now }
        ensures steady { IsSteady N.rank_of self.new.book self.new.nodes.items
            (vec_capacity self.new.nodes) }
    {
        let key = self.book.key(peer.obj);
        let was = self.close_both(at, peer, key, cause, out);
        let mut fx = Fx::none();
        self.ask_closed(peer, key, cause, now, &mut fx);
        let index = self.book.place_at(peer.obj, key);
        let place = self.calm_effects(peer.obj, index, &NOTHING, &mut fx, &mut None, now, out);
        self.unplug(at, peer, place, was, out);
    }

    /// Closes both ends of a link and begins the peer's entry; whether one of its object ran
    /// already.
    pub(crate) fn close_both<O: Outside>(
        &mut self,
        at: Port,
        peer: Port,
        key: usize,
        cause: &Cause,
        out: &mut O,
    ) -> bool
        requires linked { port self.old.book at.obj.0 at.slot ≡ Linked peer }
        requires steady { IsSteady N.rank_of self.old.book self.old.nodes.items
            (vec_capacity self.old.nodes) }
        ensures told { Tells (O.events out.old) (O.events out.new)
            (Closed at cause.now ∷ Closed peer cause.now ∷ Entered peer Close ∷ []) }
        ensures run { (st : List OnStack) → IsIdle st → GraphRunOf (run_state self.old.book st)
            (Closed at cause.now ∷ Closed peer cause.now ∷ Entered peer Close ∷ [])
            (run_state self.new.book (Running peer Close ∷ MustUnplug at peer ∷ st)) }
        ensures lives { (now : ℕ) → StaysTraced N.stands (nature N.kind_of N.mark_of N.Load.first N.Load.second)
            now (nodes_at self.old.book self.old.nodes.items (O.events out.old))
            (nodes_at self.new.book self.new.nodes.items (O.events out.new)) Stays
            (λ st. Closes at cause.now ∷ st)
            (λ st. MustHear peer cause.now ∷ Unlinks at peer ∷ st) (Calms
            (nature N.kind_of N.mark_of N.Load.first N.Load.second)
            self.old.book self.new.book Still) (Closed at cause.now ∷ Closed peer cause.now ∷
            Entered peer Close ∷ []) }
        ensures was { result ≡ busy self.old.book peer.obj.0 }
        ensures runs { busy self.new.book peer.obj.0 ≡ true }
        ensures half { HalfCloses self.old.book self.new.book at peer }
        ensures steady { IsSteady N.rank_of self.new.book self.new.nodes.items
            (vec_capacity self.new.nodes) }
    {
        self.book.close_first(at, peer, cause, out);
        self.book.close_peer(peer, at, cause, out);
        self.book.enter_closed(peer, key, out)
    }

    /// Ends the peer's entry of a closing and takes the link away.
    pub(crate) fn unplug<O: Outside>(
        &mut self,
        at: Port,
        peer: Port,
        index: usize,
        was: bool,
        out: &mut O,
    )
        requires place { index ≡ place self.old.book peer.obj.0 }
        requires first { port self.old.book at.obj.0 at.slot ≡ Leaving peer }
        requires other { port self.old.book peer.obj.0 peer.slot ≡ Leaving at }
        requires apart { at.obj.0 ≢ peer.obj.0 }
        requires steady { IsSteady N.rank_of self.old.book self.old.nodes.items
            (vec_capacity self.old.nodes) }
        ensures ends { (e : EndsFor N.stands (nature N.kind_of N.mark_of N.Load.first N.Load.second)
            self.old.book
            self.new.book self.old.nodes.items self.new.nodes.items (O.events out.old)
            (O.events out.new) peer.obj.0 was
            (λ st. Running peer Close ∷ MustUnplug at peer ∷ st)
            (port_but peer Shut (port_but at Shut (port self.old.book)))
            (λ st. Holds peer Close None ∷ Unlinks at peer ∷ st)) × EndsLink at peer e.ends.added }
        ensures steady { IsSteady N.rank_of self.new.book self.new.nodes.items
            (vec_capacity self.new.nodes) }
    {
        self.book.leave(peer, index, was, out);
        self.book.unplug(at, peer, out);
        self.settle_two(at.obj, peer.obj, out);
    }

    fn settle_two<O: Outside>(&mut self, first: ObjId, other: ObjId, out: &mut O)
        requires first { object_lives self.old.book first.0 ≡ true }
        requires other { object_lives self.old.book other.0 ≡ true }
        requires apart { first.0 ≢ other.0 }
        requires manned { IsManned N.rank_of self.old.book self.old.nodes.items
            (vec_capacity self.old.nodes) }
        requires links { IsLinked (port self.old.book) (rank self.old.book) }
        requires counted { CountedButTwo first.0 other.0 self.old.book }
        requires small { (x : ℕ) → rank self.old.book x < 256 }
        ensures settles { SettlesTwoFor N.stands (nature N.kind_of N.mark_of N.Load.first N.Load.second)
            self.old.book
            self.new.book self.old.nodes.items self.new.nodes.items (O.events out.old)
            (O.events out.new) first other }
        ensures steady { IsSteady N.rank_of self.new.book self.new.nodes.items
            (vec_capacity self.new.nodes) }
    {
        if first.0 < other.0 {
            self.settle_pair(first, other, out);
        } else {
            self.settle_pair(other, first, out);
        }
    }

    fn settle_pair<O: Outside>(&mut self, low: ObjId, high: ObjId, out: &mut O)
        requires low { object_lives self.old.book low.0 ≡ true }
        requires high { object_lives self.old.book high.0 ≡ true }
        requires order { low.0 < high.0 }
        requires manned { IsManned N.rank_of self.old.book self.old.nodes.items
            (vec_capacity self.old.nodes) }
        requires links { IsLinked (port self.old.book) (rank self.old.book) }
        requires counted { CountedButTwo low.0 high.0 self.old.book }
        requires small { (x : ℕ) → rank self.old.book x < 256 }
        ensures settles { SettlesTwoFor N.stands (nature N.kind_of N.mark_of N.Load.first N.Load.second)
            self.old.book
            self.new.book self.old.nodes.items self.new.nodes.items (O.events out.old)
            (O.events out.new) low high }
        ensures steady { IsSteady N.rank_of self.new.book self.new.nodes.items
            (vec_capacity self.new.nodes) }
    {
        let unused = self.book.is_unused_at(low, self.book.key(low));
        self.settle(low, unused, out);
        let unused = self.book.is_unused_at(high, self.book.key(high));
        self.settle(high, unused, out);
    }

    /// Closes the ports that an entry asks for, with its causes.
    #[inline(always)]
    #[cycle(calm)]
    pub(crate) fn close_asked<O: Outside>(
        &mut self,
        id: ObjId,
        index: usize,
        closes: &[(u8, Cause)],
        now: u64,
        out: &mut O,
    ) -> usize
        requires place { index ≡ place self.old.book id.0 }
        requires few { length closes.now ≤ 4 }
        requires steady { IsSteady N.rank_of self.old.book self.old.nodes.items
            (vec_capacity self.old.nodes) }
        ensures place { result ≡ place self.new.book id.0 }
        ensures shut { (k : ℕ) → ClosesSlot k closes.now → open_count (port self.new.book id.0 k) ≡
            0 }
        ensures lives { CalmFor N.stands (nature N.kind_of N.mark_of N.Load.first N.Load.second) now
            self.old.book
            self.new.book self.old.nodes.items self.new.nodes.items (Same (busy self.old.book))
            (Closing self.old.book id.0) (λ st. closes_of id.0 closes.now ++ st)
            (O.events out.old) (O.events out.new) }
        ensures steady { IsSteady N.rank_of self.new.book self.new.nodes.items
            (vec_capacity self.new.nodes) }
    {
        if let [_, ..] = closes {
            self.run_closes(id, closes, now, out);
            self.book.place_at(id, index)
        } else {
            index
        }
    }

    /// The same, one after the other.
    #[cold]
    #[inline(never)]
    #[cycle(calm)]
    fn run_closes<O: Outside>(&mut self, id: ObjId, closes: &[(u8, Cause)], now: u64, out: &mut O)
        requires few { length closes.now ≤ 4 }
        requires steady { IsSteady N.rank_of self.old.book self.old.nodes.items
            (vec_capacity self.old.nodes) }
        ensures shut { (k : ℕ) → ClosesSlot k closes.now → open_count (port self.new.book id.0 k) ≡
            0 }
        ensures lives { CalmFor N.stands (nature N.kind_of N.mark_of N.Load.first N.Load.second) now
            self.old.book
            self.new.book self.old.nodes.items self.new.nodes.items (Same (busy self.old.book))
            (Closing self.old.book id.0) (λ st. closes_of id.0 closes.now ++ st)
            (O.events out.old) (O.events out.new) }
        ensures steady { IsSteady N.rank_of self.new.book self.new.nodes.items
            (vec_capacity self.new.nodes) }
    {
        if let [(slot, cause), rest @ ..] = closes {
            self.close_port(
                Port {
                    obj: id,
                    slot: *slot,
                },
                cause,
                now,
                out,
            );
            self.run_closes(id, rest, now, out);
        }
    }

    /// Closes an object's open ports, slot 0 first.
    #[cycle(calm)]
    pub(crate) fn close_all<O: Outside>(&mut self, id: ObjId, cause: &Cause, now: u64, out: &mut O)
        requires steady { IsSteady N.rank_of self.old.book self.old.nodes.items
            (vec_capacity self.old.nodes) }
        ensures shut { (k : ℕ) → open_count (port self.new.book id.0 k) ≡ 0 }
        ensures lives { CalmFor N.stands (nature N.kind_of N.mark_of N.Load.first N.Load.second) now
            self.old.book
            self.new.book self.old.nodes.items self.new.nodes.items (Same (busy self.old.book))
            (Closing self.old.book id.0) (λ st. all_closes id.0 cause.now ++ st)
            (O.events out.old) (O.events out.new) }
        ensures order { IsQuiet self.old.book → ShutsObject cause.now id.0 self.old.book
            self.new.book (O.events out.old) (O.events out.new) }
        ensures steady { IsSteady N.rank_of self.new.book self.new.nodes.items
            (vec_capacity self.new.nodes) }
    {
        self.close_port(Port { obj: id, slot: 0 }, cause, now, out);
        self.close_port(Port { obj: id, slot: 1 }, cause, now, out);
        self.close_port(Port { obj: id, slot: 2 }, cause, now, out);
        self.close_port(Port { obj: id, slot: 3 }, cause, now, out);
    }

    /// An entry ran out of memory: its loads come back, and the object's ports are closed. Not inlined, as it is rare.
    #[cold]
    #[inline(never)]
    #[cycle(calm)]
    pub(crate) fn fail<O: Outside>(
        &mut self,
        id: ObjId,
        index: usize,
        fx: &mut Fx<N, N::Load>,
        now: u64,
        out: &mut O,
    ) -> usize
        requires place { index ≡ place self.old.book id.0 }
        requires runs { busy self.old.book id.0 ≡ true }
        requires steady { IsSteady N.rank_of self.old.book self.old.nodes.items
            (vec_capacity self.old.nodes) }
        ensures place { result ≡ place self.new.book id.0 }
        ensures lives { CalmFor N.stands (nature N.kind_of N.mark_of N.Load.first N.Load.second) now
            self.old.book
            self.new.book self.old.nodes.items self.new.nodes.items
            (Back (busy self.old.book) id.0 (lent fx.old)) (Failing self.old.book id.0)
            (λ st. (returns_of id.0 (lent fx.old) ++ all_closes id.0 no_memory) ++ st)
            (O.events out.old) (O.events out.new) }
        ensures steady { IsSteady N.rank_of self.new.book self.new.nodes.items
            (vec_capacity self.new.nodes) }
    {
        self.take_back(id, index, fx);
        self.close_all(id, &NO_MEMORY, now, out);
        self.book.place_at(id, index)
    }
}
