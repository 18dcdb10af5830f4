// What an entry asks for is run: what goes up enters another object.
ghost use Rattle.std.specs.Prelude.{◌≡◌, ◌+◌, ◌<◌, ◌++◌, ◌∷◌, ℕ, true, length, IfSome, Some};
ghost use Rattle.std.specs.Vec.{vec_capacity};
ghost use Rattle.nb_ledger.specs.Ledger.{busy, object_lives, place, port, open_count, rank};
ghost use Rattle.nb_ledger.specs.declared.port.PortState.TheVariants.{Open};
ghost use Rattle.nb_ledger.specs.GraphRun.{IsOpen};
ghost use Rattle.nb_graph.specs.Sending.{said_with};
ghost use Rattle.std.specs.Prelude.{◌≢◌, ◌≤◌, ◌^◌};
ghost use Rattle.nb_effects.specs.Whole.{port_at};
ghost use Rattle.nb_effects.specs.Accounts.{few_bytes, emit_bytes, fx_bytes};
ghost use Rattle.nb_effects.specs.Calm.{IsSteady};
ghost use Rattle.nb_effects.specs.Trace.{carried, in_list, lent, loads, said};
ghost use Rattle.nb_effects.specs.Trace.{nature, carries, up};
ghost use Rattle.nb_effects.specs.Deeds.{Gives, Sends, emit_of, few_of, runs_of};
ghost use Rattle.nb_graph.specs.Lives.{Back, Same, here, IsBelow, IsUnder, LivelyFor, LivelyInFor};
ghost use Rattle.nb_effects.specs.Effects.{ClosesSlot, MayAsk, AreUps, IsUp};
ghost use Rattle.nb_effects.specs.Flows.{DoesEffects, Leaves, Rising};
ghost use Rattle.nb_effects.specs.Moves.{HasAsked, none_due};

use crate::downward::is_asked;
use crate::inner::Inner;
use crate::spare::Spare;
use crate::{Asked, Emit, Few, Fx, Node};
use nb_effects::{bytes_of, drop_message, send_part};
use nb_ledger::{Msg, ObjId, Outside, Port, PortState};

impl<N: Node> Inner<N> {
    /// Runs the effects of an entry from below or by time: makes, downs, ups, closes.
    #[inline(always)]
    #[cycle(lively)]
    pub(crate) fn effects<O: Outside>(
        &mut self,
        id: ObjId,
        index: usize,
        msg: &Msg<'_>,
        fx: &mut Fx<N, N::Load>,
        spare: &mut Option<Box<Spare<N>>>,
        now: u64,
        out: &mut O,
    ) -> usize
        requires place { index ≡ place self.old.book id.0 }
        requires runs { busy self.old.book id.0 ≡ true }
        requires asks { MayAsk N.rank_of N.stands (rank self.old.book id.0)
            (length msg.now.first.now + length msg.now.second.now) fx.old }
        requires below { IsBelow (rank self.old.book id.0) self.old.book }
        requires steady { IsSteady N.rank_of self.old.book self.old.nodes.items
            (vec_capacity self.old.nodes) }
        ensures place { result ≡ place self.new.book id.0 }
        ensures lives { LivelyInFor N.stands (nature N.kind_of N.mark_of N.Load.first N.Load.second) now id.0
            self.old.book self.new.book self.old.nodes.items self.new.nodes.items
            (Back (busy self.old.book) id.0 (lent fx.old)) (HasAsked id.0
            (λ k. fx_bytes (nature N.kind_of N.mark_of N.Load.first N.Load.second) k (said msg.now).bytes fx.old))
            none_due (DoesEffects self.old.book id.0 (λ k. fx_bytes
            (nature N.kind_of N.mark_of N.Load.first N.Load.second)
            k (said msg.now).bytes fx.old)) (λ st. runs_of (nature N.kind_of N.mark_of N.Load.first
            N.Load.second) id.0 (said msg.now) true fx.old ++ st) here (O.events out.old)
            (O.events out.new) }
        ensures shut { (k : ℕ) → ClosesSlot k fx.old.closes.items → open_count
            (port self.new.book id.0 k) ≡ 0 }
        ensures steady { IsSteady N.rank_of self.new.book self.new.nodes.items
            (vec_capacity self.new.nodes) }
    {
        let place = self.run_make(id, index, &mut fx.makes, now, out);
        let place = self.run_downs(id, place, msg, &mut fx.downs, spare, now, out);
        let place = self.run_ups(id, place, msg, &mut fx.ups, spare, now, out);
        self.close_asked(id, place, fx.closes.as_slice(), now, out)
    }

    #[inline(always)]
    #[cycle(lively)]
    fn run_ups<O: Outside>(
        &mut self,
        id: ObjId,
        index: usize,
        msg: &Msg<'_>,
        ups: &mut Few<Emit<N::Load>>,
        spare: &mut Option<Box<Spare<N>>>,
        now: u64,
        out: &mut O,
    ) -> usize
        requires place { index ≡ place self.old.book id.0 }
        requires runs { busy self.old.book id.0 ≡ true }
        requires ups { AreUps (length msg.now.first.now + length msg.now.second.now) ups.old }
        requires below { IsBelow (rank self.old.book id.0) self.old.book }
        requires steady { IsSteady N.rank_of self.old.book self.old.nodes.items
            (vec_capacity self.old.nodes) }
        ensures place { result ≡ place self.new.book id.0 }
        ensures lives { LivelyFor N.stands (nature N.kind_of N.mark_of N.Load.first N.Load.second) now
            self.old.book
            self.new.book self.old.nodes.items self.new.nodes.items
            (Back (busy self.old.book) id.0 (loads ups.old)) none_due
            (Leaves self.old.book (port_at id.0 0) (few_bytes
            (nature N.kind_of N.mark_of N.Load.first N.Load.second)
            0 (said msg.now).bytes ups.old)) (λ st. few_of (nature N.kind_of N.mark_of N.Load.first
            N.Load.second) id.0 (said msg.now) ups.old ++ st) (O.events out.old) (O.events out.new) }
        ensures steady { IsSteady N.rank_of self.new.book self.new.nodes.items
            (vec_capacity self.new.nodes) }
    {
        if is_asked(&ups.first) {
            let place = self.run_up(id, index, msg, &mut ups.first, spare, now, out);
            self.run_late_up(id, place, msg, &mut ups.second, spare, now, out)
        } else {
            index
        }
    }

    #[inline(always)]
    #[cycle(lively)]
    fn run_up<O: Outside>(
        &mut self,
        id: ObjId,
        index: usize,
        msg: &Msg<'_>,
        emit: &mut Asked<Emit<N::Load>>,
        spare: &mut Option<Box<Spare<N>>>,
        now: u64,
        out: &mut O,
    ) -> usize
        requires place { index ≡ place self.old.book id.0 }
        requires runs { busy self.old.book id.0 ≡ true }
        requires up { IfSome emit.old (IsUp (length msg.now.first.now + length msg.now.second.now)) }
        requires below { IsBelow (rank self.old.book id.0) self.old.book }
        requires steady { IsSteady N.rank_of self.old.book self.old.nodes.items
            (vec_capacity self.old.nodes) }
        ensures place { result ≡ place self.new.book id.0 }
        ensures lives { LivelyFor N.stands (nature N.kind_of N.mark_of N.Load.first N.Load.second) now
            self.old.book
            self.new.book self.old.nodes.items self.new.nodes.items
            (Back (busy self.old.book) id.0 (carried emit.old)) none_due
            (Leaves self.old.book (port_at id.0 0) (emit_bytes
            (nature N.kind_of N.mark_of N.Load.first N.Load.second)
            0 (said msg.now).bytes emit.old)) (λ st. emit_of (nature N.kind_of N.mark_of N.Load.first
            N.Load.second) id.0 (said msg.now) emit.old ++ st) (O.events out.old) (O.events out.new) }
        ensures steady { IsSteady N.rank_of self.new.book self.new.nodes.items
            (vec_capacity self.new.nodes) }
    {
        if emit.is {
            self.send_up(id, index, msg, &mut emit.what, spare, now, out)
        } else {
            index
        }
    }

    #[inline(always)]
    #[cycle(lively)]
    fn run_late_up<O: Outside>(
        &mut self,
        id: ObjId,
        index: usize,
        msg: &Msg<'_>,
        emit: &mut Asked<Emit<N::Load>>,
        spare: &mut Option<Box<Spare<N>>>,
        now: u64,
        out: &mut O,
    ) -> usize
        requires place { index ≡ place self.old.book id.0 }
        requires runs { busy self.old.book id.0 ≡ true }
        requires up { IfSome emit.old (IsUp (length msg.now.first.now + length msg.now.second.now)) }
        requires below { IsBelow (rank self.old.book id.0) self.old.book }
        requires steady { IsSteady N.rank_of self.old.book self.old.nodes.items
            (vec_capacity self.old.nodes) }
        ensures place { result ≡ place self.new.book id.0 }
        ensures lives { LivelyFor N.stands (nature N.kind_of N.mark_of N.Load.first N.Load.second) now
            self.old.book
            self.new.book self.old.nodes.items self.new.nodes.items
            (Back (busy self.old.book) id.0 (carried emit.old)) none_due
            (Leaves self.old.book (port_at id.0 0) (emit_bytes
            (nature N.kind_of N.mark_of N.Load.first N.Load.second)
            0 (said msg.now).bytes emit.old)) (λ st. emit_of (nature N.kind_of N.mark_of N.Load.first
            N.Load.second) id.0 (said msg.now) emit.old ++ st) (O.events out.old) (O.events out.new) }
        ensures steady { IsSteady N.rank_of self.new.book self.new.nodes.items
            (vec_capacity self.new.nodes) }
    {
        if emit.is {
            self.send_late_up(id, index, msg, &mut emit.what, spare, now, out)
        } else {
            index
        }
    }

    #[inline(always)]
    #[cycle(lively)]
    fn send_up<O: Outside>(
        &mut self,
        id: ObjId,
        index: usize,
        msg: &Msg<'_>,
        emit: &mut Emit<N::Load>,
        spare: &mut Option<Box<Spare<N>>>,
        now: u64,
        out: &mut O,
    ) -> usize
        requires place { index ≡ place self.old.book id.0 }
        requires runs { busy self.old.book id.0 ≡ true }
        requires up { IsUp (length msg.now.first.now + length msg.now.second.now) emit.old }
        requires below { IsBelow (rank self.old.book id.0) self.old.book }
        requires steady { IsSteady N.rank_of self.old.book self.old.nodes.items
            (vec_capacity self.old.nodes) }
        ensures place { result ≡ place self.new.book id.0 }
        ensures lives { LivelyFor N.stands (nature N.kind_of N.mark_of N.Load.first N.Load.second) now
            self.old.book
            self.new.book self.old.nodes.items self.new.nodes.items
            (Back (busy self.old.book) id.0 (in_list emit.old.load)) none_due
            (Leaves self.old.book (port_at id.0 0) (carries (nature N.kind_of N.mark_of N.Load.first
            N.Load.second)
            (said msg.now).bytes emit.old.from emit.old.to emit.old.load)) (λ st. emit_of
            (nature N.kind_of N.mark_of N.Load.first N.Load.second) id.0 (said msg.now) (Some emit.old) ++ st)
            (O.events out.old) (O.events out.new) }
        ensures steady { IsSteady N.rank_of self.new.book self.new.nodes.items
            (vec_capacity self.new.nodes) }
    {
        let at = Port { obj: id, slot: 0 };
        let (first, second) = bytes_of::<N>(emit, msg.first, msg.second);
        let place = self.pass_up(at, index, emit, msg.rec, first, second, spare, now, out);
        self.take_load(id, place, &mut emit.load);
        place
    }

    /// The same, not inlined, as few entries ask for two.
    #[inline(never)]
    #[cycle(lively)]
    fn send_late_up<O: Outside>(
        &mut self,
        id: ObjId,
        index: usize,
        msg: &Msg<'_>,
        emit: &mut Emit<N::Load>,
        spare: &mut Option<Box<Spare<N>>>,
        now: u64,
        out: &mut O,
    ) -> usize
        requires place { index ≡ place self.old.book id.0 }
        requires runs { busy self.old.book id.0 ≡ true }
        requires up { IsUp (length msg.now.first.now + length msg.now.second.now) emit.old }
        requires below { IsBelow (rank self.old.book id.0) self.old.book }
        requires steady { IsSteady N.rank_of self.old.book self.old.nodes.items
            (vec_capacity self.old.nodes) }
        ensures place { result ≡ place self.new.book id.0 }
        ensures lives { LivelyFor N.stands (nature N.kind_of N.mark_of N.Load.first N.Load.second) now
            self.old.book
            self.new.book self.old.nodes.items self.new.nodes.items
            (Back (busy self.old.book) id.0 (in_list emit.old.load)) none_due
            (Leaves self.old.book (port_at id.0 0) (carries (nature N.kind_of N.mark_of N.Load.first
            N.Load.second)
            (said msg.now).bytes emit.old.from emit.old.to emit.old.load)) (λ st. emit_of
            (nature N.kind_of N.mark_of N.Load.first N.Load.second) id.0 (said msg.now) (Some emit.old) ++ st)
            (O.events out.old) (O.events out.new) }
        ensures steady { IsSteady N.rank_of self.new.book self.new.nodes.items
            (vec_capacity self.new.nodes) }
    {
        self.send_up(id, index, msg, emit, spare, now, out)
    }

    /// A message that is asked for leaves by slot 0, with this record and these bytes.
    #[inline(always)]
    #[cycle(lively)]
    fn pass_up<O: Outside>(
        &mut self,
        at: Port,
        index: usize,
        emit: &Emit<N::Load>,
        rec: u32,
        first: &[u8],
        second: &[u8],
        spare: &mut Option<Box<Spare<N>>>,
        now: u64,
        out: &mut O,
    ) -> usize
        requires place { index ≡ place self.old.book at.obj.0 }
        requires lives { object_lives self.old.book at.obj.0 ≡ true }
        requires slot { at.slot ≡ 0 }
        requires runs { busy self.old.book at.obj.0 ≡ true }
        requires below { IsBelow (rank self.old.book at.obj.0) self.old.book }
        requires steady { IsSteady N.rank_of self.old.book self.old.nodes.items
            (vec_capacity self.old.nodes) }
        ensures place { result ≡ place self.new.book at.obj.0 }
        ensures lives { LivelyFor N.stands (nature N.kind_of N.mark_of N.Load.first N.Load.second) now
            self.old.book
            self.new.book self.old.nodes.items self.new.nodes.items (Same (busy self.old.book))
            none_due (Leaves self.old.book at (first.now ++ second.now)) (λ st. Sends at
            (said_with emit.now rec (first.now ++ second.now)) ∷ st) (O.events out.old) (O.events out.new) }
        ensures steady { IsSteady N.rank_of self.new.book self.new.nodes.items
            (vec_capacity self.new.nodes) }
    {
        if self.book.is_free_of_live(at, index) {
            send_part::<N, O>(at, emit, rec, first, second, out);
            index
        } else {
            self.hand_up(at, index, emit, rec, first, second, spare, now, out)
        }
    }

    /// The same by a port that isn't free: to its peer, or the message is dropped.
    #[inline(always)]
    #[cycle(lively)]
    fn hand_up<O: Outside>(
        &mut self,
        at: Port,
        index: usize,
        emit: &Emit<N::Load>,
        rec: u32,
        first: &[u8],
        second: &[u8],
        spare: &mut Option<Box<Spare<N>>>,
        now: u64,
        out: &mut O,
    ) -> usize
        requires place { index ≡ place self.old.book at.obj.0 }
        requires lives { object_lives self.old.book at.obj.0 ≡ true }
        requires held { port self.old.book at.obj.0 at.slot ≢ Open }
        requires slot { at.slot ≡ 0 }
        requires runs { busy self.old.book at.obj.0 ≡ true }
        requires below { IsBelow (rank self.old.book at.obj.0) self.old.book }
        requires steady { IsSteady N.rank_of self.old.book self.old.nodes.items
            (vec_capacity self.old.nodes) }
        ensures place { result ≡ place self.new.book at.obj.0 }
        ensures lives { LivelyFor N.stands (nature N.kind_of N.mark_of N.Load.first N.Load.second) now
            self.old.book
            self.new.book self.old.nodes.items self.new.nodes.items (Same (busy self.old.book))
            none_due (Leaves self.old.book at (first.now ++ second.now)) (λ st. Sends at
            (said_with emit.now rec (first.now ++ second.now)) ∷ st) (O.events out.old) (O.events out.new) }
        ensures steady { IsSteady N.rank_of self.new.book self.new.nodes.items
            (vec_capacity self.new.nodes) }
    {
        let _length = (first.len(), second.len());
        match self.book.port_of_live(at, index) {
            PortState::Open => unreachable!(),
            PortState::Linked(peer) => {
                self.hand_up_to(peer, emit, rec, first, second, spare, now, out);
                self.book.place_at(at.obj, index)
            }
            PortState::Leaving(_) => {
                drop_message(at, out);
                index
            }
            PortState::Closed => {
                drop_message(at, out);
                index
            }
        }
    }

    /// The message that is asked for, with this record and these bytes, enters an object by this port.
    #[inline(always)]
    #[cycle(lively)]
    fn hand_up_to<O: Outside>(
        &mut self,
        at: Port,
        emit: &Emit<N::Load>,
        rec: u32,
        first: &[u8],
        second: &[u8],
        spare: &mut Option<Box<Spare<N>>>,
        now: u64,
        out: &mut O,
    )
        requires slot { (1 ≤ at.slot) × (at.slot ≤ 3) }
        requires open { IsOpen (port self.old.book at.obj.0 at.slot) }
        requires small { length first.now + length second.now < 2 ^ 65 }
        requires under { IsUnder (rank self.old.book at.obj.0) self.old.book }
        requires steady { IsSteady N.rank_of self.old.book self.old.nodes.items
            (vec_capacity self.old.nodes) }
        ensures lives { LivelyFor N.stands (nature N.kind_of N.mark_of N.Load.first N.Load.second) now
            self.old.book
            self.new.book self.old.nodes.items self.new.nodes.items (Same (busy self.old.book))
            none_due (Rising self.old.book at (first.now ++ second.now)) (λ st. Gives at
            (said_with emit.now rec (first.now ++ second.now)) ∷ st) (O.events out.old) (O.events out.new) }
        ensures steady { IsSteady N.rank_of self.new.book self.new.nodes.items
            (vec_capacity self.new.nodes) }
    {
        let part = Msg {
            tag: emit.tag,
            rec,
            a: emit.a,
            b: emit.b,
            first,
            second,
        };
        let index = self.book.seek(at.obj);
        self.enter_up(at, index, &part, spare, now, out);
    }
}
