// A message goes down: nothing in here makes an object or sends a message up.
ghost use Rattle.std.specs.Prelude.{◌≡◌, ◌+◌, ◌<◌, ◌≤◌, ◌++◌, ◌∷◌, true, length, IfSome, Some};
ghost use Rattle.std.specs.Vec.{vec_capacity};
ghost use Rattle.nb_ledger.specs.GraphRun.{IsOpen};
ghost use Rattle.nb_ledger.specs.Ledger.{busy, object_lives, place, port};
ghost use Rattle.nb_ledger.specs.declared.port.PortState.TheVariants.{Open};
ghost use Rattle.nb_graph.specs.Sending.{said_with};
ghost use Rattle.std.specs.Prelude.{◌≢◌};
ghost use Rattle.nb_effects.specs.Whole.{port_at};
ghost use Rattle.nb_effects.specs.Accounts.{few_bytes};
ghost use Rattle.nb_effects.specs.Flows.{Downs, Emitting, Following, Giving, Passing, asked_left};
ghost use Rattle.nb_effects.specs.Flows.{asked_sent};
ghost use Rattle.nb_effects.specs.Calm.{IsSteady, Starts};
ghost use Rattle.nb_effects.specs.Trace.{carried, down, in_list, lent, loads, said, nature, carries};
ghost use Rattle.nb_effects.specs.Deeds.{Hands, Gives, Sends, emit_of, few_of, runs_of};
ghost use Rattle.nb_graph.specs.Lives.{Back, CalmFor, Same};
ghost use Rattle.nb_ledger.specs.declared.event.GraphEvent.TheVariants.{Entered};
ghost use Rattle.nb_ledger.specs.declared.event.Way.TheVariants as way;
ghost use Rattle.nb_effects.specs.Effects.{MayAskBelow, MayAskDown};
ghost use Rattle.nb_effects.specs.Effects.{AreDowns, IsDown};

use crate::inner::Inner;
use crate::spare::Spare;
use crate::{Asked, Emit, Few, Fx, Node};
use nb_effects::{bytes_of, drop_message, send_part};
use nb_ledger::{Msg, ObjId, Outside, Port, PortState, Way};

impl<N: Node> Inner<N> {
    /// A message enters an object from above, which stands at this place of the book.
    #[inline(always)]
    #[cycle(calm)]
    pub(crate) fn enter_down<O: Outside>(
        &mut self,
        at: Port,
        index: usize,
        msg: &Msg<'_>,
        spare: &mut Option<Box<Spare<N>>>,
        now: u64,
        out: &mut O,
    )
        requires slot { at.slot ≡ 0 }
        requires place { index ≡ place self.old.book at.obj.0 }
        requires open { IsOpen (port self.old.book at.obj.0 at.slot) }
        requires steady { IsSteady N.rank_of self.old.book self.old.nodes.items
            (vec_capacity self.old.nodes) }
        ensures lives { (k : CalmFor N.stands (nature N.kind_of N.mark_of N.Load.first N.Load.second) now
            self.old.book self.new.book self.old.nodes.items self.new.nodes.items
            (Same (busy self.old.book)) (Giving self.old.book at (said msg.now).bytes)
            (λ st. Gives at (said msg.now) ∷ st) (O.events out.old) (O.events out.new))
            × Hands (Entered at way.Down) at.obj.0 (λ done fx. down (said msg.now) now done fx)
            k.lives.deeds }
        ensures starts { Starts self.old.book self.new.book (O.events out.old) (O.events out.new)
            (Entered at way.Down) }
        ensures steady { IsSteady N.rank_of self.new.book self.new.nodes.items
            (vec_capacity self.new.nodes) }
    {
        match spare {
            Some(own) => self.enter_down_by(at, index, msg, own, now, out),
            None => self.enter_down_anew(at, index, msg, now, out),
        }
    }

    /// The same where all effects that are kept run.
    #[cold]
    #[inline(never)]
    #[cycle(calm)]
    fn enter_down_anew<O: Outside>(
        &mut self,
        at: Port,
        index: usize,
        msg: &Msg<'_>,
        now: u64,
        out: &mut O,
    )
        requires slot { at.slot ≡ 0 }
        requires place { index ≡ place self.old.book at.obj.0 }
        requires open { IsOpen (port self.old.book at.obj.0 at.slot) }
        requires steady { IsSteady N.rank_of self.old.book self.old.nodes.items
            (vec_capacity self.old.nodes) }
        ensures lives { (k : CalmFor N.stands (nature N.kind_of N.mark_of N.Load.first N.Load.second) now
            self.old.book self.new.book self.old.nodes.items self.new.nodes.items
            (Same (busy self.old.book)) (Giving self.old.book at (said msg.now).bytes)
            (λ st. Gives at (said msg.now) ∷ st) (O.events out.old) (O.events out.new))
            × Hands (Entered at way.Down) at.obj.0 (λ done fx. down (said msg.now) now done fx)
            k.lives.deeds }
        ensures starts { Starts self.old.book self.new.book (O.events out.old) (O.events out.new)
            (Entered at way.Down) }
        ensures steady { IsSteady N.rank_of self.new.book self.new.nodes.items
            (vec_capacity self.new.nodes) }
    {
        let mut own = Spare {
            fx: Fx::none(),
            within: None,
        };
        self.enter_down_by(at, index, msg, &mut own, now, out);
    }

    /// The same with these effects, whatever they are.
    #[cycle(calm)]
    fn enter_down_by<O: Outside>(
        &mut self,
        at: Port,
        index: usize,
        msg: &Msg<'_>,
        own: &mut Spare<N>,
        now: u64,
        out: &mut O,
    )
        requires slot { at.slot ≡ 0 }
        requires place { index ≡ place self.old.book at.obj.0 }
        requires open { IsOpen (port self.old.book at.obj.0 at.slot) }
        requires steady { IsSteady N.rank_of self.old.book self.old.nodes.items
            (vec_capacity self.old.nodes) }
        ensures lives { (k : CalmFor N.stands (nature N.kind_of N.mark_of N.Load.first N.Load.second) now
            self.old.book self.new.book self.old.nodes.items self.new.nodes.items
            (Same (busy self.old.book)) (Giving self.old.book at (said msg.now).bytes)
            (λ st. Gives at (said msg.now) ∷ st) (O.events out.old) (O.events out.new))
            × Hands (Entered at way.Down) at.obj.0 (λ done fx. down (said msg.now) now done fx)
            k.lives.deeds }
        ensures starts { Starts self.old.book self.new.book (O.events out.old) (O.events out.new)
            (Entered at way.Down) }
        ensures steady { IsSteady N.rank_of self.new.book self.new.nodes.items
            (vec_capacity self.new.nodes) }
    {
        self.enter_down_with(at, index, msg, &mut own.fx, &mut own.within, now, out);
    }

    #[inline(always)]
    #[cycle(calm)]
    fn enter_down_with<O: Outside>(
        &mut self,
        at: Port,
        index: usize,
        msg: &Msg<'_>,
        fx: &mut Fx<N, N::Load>,
        spare: &mut Option<Box<Spare<N>>>,
        now: u64,
        out: &mut O,
    )
        requires slot { at.slot ≡ 0 }
        requires place { index ≡ place self.old.book at.obj.0 }
        requires open { IsOpen (port self.old.book at.obj.0 at.slot) }
        requires steady { IsSteady N.rank_of self.old.book self.old.nodes.items
            (vec_capacity self.old.nodes) }
        ensures lives { (k : CalmFor N.stands (nature N.kind_of N.mark_of N.Load.first N.Load.second) now
            self.old.book self.new.book self.old.nodes.items self.new.nodes.items
            (Same (busy self.old.book)) (Giving self.old.book at (said msg.now).bytes)
            (λ st. Gives at (said msg.now) ∷ st) (O.events out.old) (O.events out.new))
            × Hands (Entered at way.Down) at.obj.0 (λ done fx. down (said msg.now) now done fx)
            k.lives.deeds }
        ensures starts { Starts self.old.book self.new.book (O.events out.old) (O.events out.new)
            (Entered at way.Down) }
        ensures steady { IsSteady N.rank_of self.new.book self.new.nodes.items
            (vec_capacity self.new.nodes) }
    {
        let was = self.book.enter_in(at, index, Way::Down, out);
        fx.empty();
        let done = self.ask_down(at.obj, index, msg, now, fx);
        let place = self.after_down(at.obj, index, msg, done, fx, spare, now, out);
        self.leave(at, place, was, out);
    }

    #[cycle(calm)]
    fn after_down<O: Outside>(
        &mut self,
        id: ObjId,
        index: usize,
        msg: &Msg<'_>,
        done: bool,
        fx: &mut Fx<N, N::Load>,
        spare: &mut Option<Box<Spare<N>>>,
        now: u64,
        out: &mut O,
    ) -> usize
        requires place { index ≡ place self.old.book id.0 }
        requires runs { busy self.old.book id.0 ≡ true }
        requires asks { MayAskDown (length msg.now.first.now + length msg.now.second.now) done
            fx.old }
        requires steady { IsSteady N.rank_of self.old.book self.old.nodes.items
            (vec_capacity self.old.nodes) }
        ensures place { result ≡ place self.new.book id.0 }
        ensures lives { CalmFor N.stands (nature N.kind_of N.mark_of N.Load.first N.Load.second) now
            self.old.book
            self.new.book self.old.nodes.items self.new.nodes.items
            (Back (busy self.old.book) id.0 (lent fx.old))
            (Following self.old.book (port_at id.0 0) (asked_left (said msg.now).bytes done)
            (asked_sent (nature N.kind_of N.mark_of N.Load.first N.Load.second) (said msg.now).bytes done
            fx.old))
            (λ st. runs_of (nature N.kind_of N.mark_of N.Load.first N.Load.second) id.0
            (said msg.now) done fx.old ++ st) (O.events out.old) (O.events out.new) }
        ensures steady { IsSteady N.rank_of self.new.book self.new.nodes.items
            (vec_capacity self.new.nodes) }
    {
        if done {
            self.calm_effects(id, index, msg, fx, spare, now, out)
        } else {
            self.fail(id, index, fx, now, out)
        }
    }

    /// Runs the effects of an entry from above or by a close: downs, then closes.
    #[cycle(calm)]
    pub(crate) fn calm_effects<O: Outside>(
        &mut self,
        id: ObjId,
        index: usize,
        msg: &Msg<'_>,
        fx: &mut Fx<N, N::Load>,
        spare: &mut Option<Box<Spare<N>>>,
        now: u64,
        out: &mut O,
    ) -> usize
        requires place { index ≡ place self.old.book id.0 }
        requires runs { busy self.old.book id.0 ≡ true }
        requires asks { MayAskBelow (length msg.now.first.now + length msg.now.second.now) fx.old }
        requires steady { IsSteady N.rank_of self.old.book self.old.nodes.items
            (vec_capacity self.old.nodes) }
        ensures place { result ≡ place self.new.book id.0 }
        ensures lives { CalmFor N.stands (nature N.kind_of N.mark_of N.Load.first N.Load.second) now
            self.old.book
            self.new.book self.old.nodes.items self.new.nodes.items
            (Back (busy self.old.book) id.0 (lent fx.old)) (Downs self.old.book id.0
            (λ k. few_bytes (nature N.kind_of N.mark_of N.Load.first N.Load.second) k
            (said msg.now).bytes fx.old.downs))
            (λ st. runs_of (nature N.kind_of N.mark_of N.Load.first N.Load.second) id.0
            (said msg.now) true fx.old ++ st) (O.events out.old) (O.events out.new) }
        ensures steady { IsSteady N.rank_of self.new.book self.new.nodes.items
            (vec_capacity self.new.nodes) }
    {
        let place = self.run_downs(id, index, msg, &mut fx.downs, spare, now, out);
        self.close_asked(id, place, fx.closes.as_slice(), now, out)
    }

    #[inline(always)]
    #[cycle(calm)]
    pub(crate) fn run_downs<O: Outside>(
        &mut self,
        id: ObjId,
        index: usize,
        msg: &Msg<'_>,
        downs: &mut Few<Emit<N::Load>>,
        spare: &mut Option<Box<Spare<N>>>,
        now: u64,
        out: &mut O,
    ) -> usize
        requires place { index ≡ place self.old.book id.0 }
        requires runs { busy self.old.book id.0 ≡ true }
        requires downs { AreDowns (length msg.now.first.now + length msg.now.second.now)
            downs.old }
        requires steady { IsSteady N.rank_of self.old.book self.old.nodes.items
            (vec_capacity self.old.nodes) }
        ensures place { result ≡ place self.new.book id.0 }
        ensures lives { CalmFor N.stands (nature N.kind_of N.mark_of N.Load.first N.Load.second) now
            self.old.book
            self.new.book self.old.nodes.items self.new.nodes.items
            (Back (busy self.old.book) id.0 (loads downs.old))
            (Downs self.old.book id.0 (λ k. few_bytes (nature N.kind_of N.mark_of N.Load.first N.Load.second)
            k
            (said msg.now).bytes downs.old)) (λ st. few_of (nature N.kind_of N.mark_of N.Load.first
            N.Load.second) id.0 (said msg.now) downs.old ++ st) (O.events out.old) (O.events out.new) }
        ensures steady { IsSteady N.rank_of self.new.book self.new.nodes.items
            (vec_capacity self.new.nodes) }
    {
        if is_asked(&downs.first) {
            let place = self.run_down(id, index, msg, &mut downs.first, spare, now, out);
            self.run_down(id, place, msg, &mut downs.second, spare, now, out)
        } else {
            index
        }
    }

    #[inline(always)]
    #[cycle(calm)]
    fn run_down<O: Outside>(
        &mut self,
        id: ObjId,
        index: usize,
        msg: &Msg<'_>,
        emit: &mut Asked<Emit<N::Load>>,
        spare: &mut Option<Box<Spare<N>>>,
        now: u64,
        out: &mut O,
    ) -> usize
        requires place { index ≡ place self.old.book id.0 }
        requires runs { busy self.old.book id.0 ≡ true }
        requires down { IfSome emit.old (IsDown (length msg.now.first.now + length
            msg.now.second.now)) }
        requires steady { IsSteady N.rank_of self.old.book self.old.nodes.items
            (vec_capacity self.old.nodes) }
        ensures place { result ≡ place self.new.book id.0 }
        ensures lives { CalmFor N.stands (nature N.kind_of N.mark_of N.Load.first N.Load.second) now
            self.old.book
            self.new.book self.old.nodes.items self.new.nodes.items
            (Back (busy self.old.book) id.0 (carried emit.old))
            (Emitting self.old.book id.0 (nature N.kind_of N.mark_of N.Load.first N.Load.second)
            (said msg.now).bytes
            emit.old) (λ st. emit_of (nature N.kind_of N.mark_of N.Load.first N.Load.second) id.0
            (said msg.now) emit.old ++ st) (O.events out.old) (O.events out.new) }
        ensures steady { IsSteady N.rank_of self.new.book self.new.nodes.items
            (vec_capacity self.new.nodes) }
    {
        if emit.is {
            self.send_down(id, index, msg, &mut emit.what, spare, now, out)
        } else {
            index
        }
    }

    #[inline(always)]
    #[cycle(calm)]
    fn send_down<O: Outside>(
        &mut self,
        id: ObjId,
        index: usize,
        msg: &Msg<'_>,
        emit: &mut Emit<N::Load>,
        spare: &mut Option<Box<Spare<N>>>,
        now: u64,
        out: &mut O,
    ) -> usize
        requires place { index ≡ place self.old.book id.0 }
        requires runs { busy self.old.book id.0 ≡ true }
        requires down { IsDown (length msg.now.first.now + length msg.now.second.now) emit.old }
        requires steady { IsSteady N.rank_of self.old.book self.old.nodes.items
            (vec_capacity self.old.nodes) }
        ensures place { result ≡ place self.new.book id.0 }
        ensures lives { CalmFor N.stands (nature N.kind_of N.mark_of N.Load.first N.Load.second) now
            self.old.book
            self.new.book self.old.nodes.items self.new.nodes.items
            (Back (busy self.old.book) id.0 (in_list emit.old.load))
            (Passing self.old.book (port_at id.0 emit.old.slot)
            (carries (nature N.kind_of N.mark_of N.Load.first N.Load.second)
            (said msg.now).bytes emit.old.from emit.old.to
            emit.old.load)) (λ st. emit_of (nature N.kind_of N.mark_of N.Load.first N.Load.second) id.0
            (said msg.now) (Some emit.old) ++ st) (O.events out.old) (O.events out.new) }
        ensures steady { IsSteady N.rank_of self.new.book self.new.nodes.items
            (vec_capacity self.new.nodes) }
    {
        let at = Port {
            obj: id,
            slot: emit.slot,
        };
        let (first, second) = bytes_of::<N>(emit, msg.first, msg.second);
        let place = self.pass_down(at, index, emit, msg.rec, first, second, spare, now, out);
        self.take_load(id, place, &mut emit.load);
        place
    }

    /// A message that is asked for leaves by one of the slots 1 to 3, with this record and these bytes.
    #[inline(always)]
    #[cycle(calm)]
    fn pass_down<O: Outside>(
        &mut self,
        at: Port,
        index: usize,
        emit: &Emit<N::Load>,
        rec: u32,
        first: &[u8],
        second: &[u8],
        spare: &mut Option<Box<Spare<N>>>,
        now: u64,
        out: &mut O,
    ) -> usize
        requires place { index ≡ place self.old.book at.obj.0 }
        requires lives { object_lives self.old.book at.obj.0 ≡ true }
        requires slot { (1 ≤ at.slot) × (at.slot ≤ 3) }
        requires steady { IsSteady N.rank_of self.old.book self.old.nodes.items
            (vec_capacity self.old.nodes) }
        ensures place { result ≡ place self.new.book at.obj.0 }
        ensures lives { CalmFor N.stands (nature N.kind_of N.mark_of N.Load.first N.Load.second) now
            self.old.book
            self.new.book self.old.nodes.items self.new.nodes.items (Same (busy self.old.book))
            (Passing self.old.book at (first.now ++ second.now)) (λ st. Sends at
            (said_with emit.now rec (first.now ++ second.now)) ∷ st) (O.events out.old) (O.events out.new) }
        ensures steady { IsSteady N.rank_of self.new.book self.new.nodes.items
            (vec_capacity self.new.nodes) }
    {
        if self.book.is_free_of_live(at, index) {
            send_part::<N, O>(at, emit, rec, first, second, out);
            index
        } else {
            self.hand_down(at, index, emit, rec, first, second, spare, now, out)
        }
    }

    /// The same by a port that isn't free: to its peer, or the message is dropped.
    #[cycle(calm)]
    fn hand_down<O: Outside>(
        &mut self,
        at: Port,
        index: usize,
        emit: &Emit<N::Load>,
        rec: u32,
        first: &[u8],
        second: &[u8],
        spare: &mut Option<Box<Spare<N>>>,
        now: u64,
        out: &mut O,
    ) -> usize
        requires place { index ≡ place self.old.book at.obj.0 }
        requires lives { object_lives self.old.book at.obj.0 ≡ true }
        requires held { port self.old.book at.obj.0 at.slot ≢ Open }
        requires slot { (1 ≤ at.slot) × (at.slot ≤ 3) }
        requires steady { IsSteady N.rank_of self.old.book self.old.nodes.items
            (vec_capacity self.old.nodes) }
        ensures place { result ≡ place self.new.book at.obj.0 }
        ensures lives { CalmFor N.stands (nature N.kind_of N.mark_of N.Load.first N.Load.second) now
            self.old.book
            self.new.book self.old.nodes.items self.new.nodes.items (Same (busy self.old.book))
            (Passing self.old.book at (first.now ++ second.now)) (λ st. Sends at
            (said_with emit.now rec (first.now ++ second.now)) ∷ st) (O.events out.old) (O.events out.new) }
        ensures steady { IsSteady N.rank_of self.new.book self.new.nodes.items
            (vec_capacity self.new.nodes) }
    {
        match self.book.port_of_live(at, index) {
            PortState::Open => unreachable!(),
            PortState::Linked(peer) => {
                self.hand_down_to(peer, emit, rec, first, second, spare, now, out);
                self.book.place_at(at.obj, index)
            }
            PortState::Leaving(_) => {
                drop_message(at, out);
                index
            }
            PortState::Closed => {
                drop_message(at, out);
                index
            }
        }
    }

    /// The message that is asked for, with this record and these bytes, enters an object by this port.
    #[inline(always)]
    #[cycle(calm)]
    fn hand_down_to<O: Outside>(
        &mut self,
        at: Port,
        emit: &Emit<N::Load>,
        rec: u32,
        first: &[u8],
        second: &[u8],
        spare: &mut Option<Box<Spare<N>>>,
        now: u64,
        out: &mut O,
    )
        requires slot { at.slot ≡ 0 }
        requires open { IsOpen (port self.old.book at.obj.0 at.slot) }
        requires steady { IsSteady N.rank_of self.old.book self.old.nodes.items
            (vec_capacity self.old.nodes) }
        ensures lives { CalmFor N.stands (nature N.kind_of N.mark_of N.Load.first N.Load.second) now
            self.old.book
            self.new.book self.old.nodes.items self.new.nodes.items (Same (busy self.old.book))
            (Giving self.old.book at (first.now ++ second.now)) (λ st. Gives at
            (said_with emit.now rec (first.now ++ second.now)) ∷ st) (O.events out.old) (O.events out.new) }
        ensures steady { IsSteady N.rank_of self.new.book self.new.nodes.items
            (vec_capacity self.new.nodes) }
    {
        let index = self.book.seek(at.obj);
        let part = Msg {
            tag: emit.tag,
            rec,
            a: emit.a,
            b: emit.b,
            first,
            second,
        };
        self.enter_down(at, index, &part, spare, now, out);
    }
}

ghost use Rattle.std.specs.Prelude.{is_some};

/// Whether a message is asked for.
#[inline(always)]
pub(crate) fn is_asked<L>(emit: &Asked<Emit<L>>) -> bool
    ensures { result ≡ is_some emit.now }
{
    emit.is
}
