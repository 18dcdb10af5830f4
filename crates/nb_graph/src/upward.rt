// A message goes up: objects may be made.
ghost use Rattle.std.specs.Prelude.{◌≡◌, ◌+◌, ◌<◌, ◌≤◌, ◌∷◌, ℕ, true, length, Some};
ghost use Rattle.std.specs.Prelude.{◌^◌, ◌-◌};
ghost use Rattle.std.specs.Vec.{vec_capacity};
ghost use Rattle.nb_ledger.specs.GraphRun.{IsOpen};
ghost use Rattle.nb_ledger.specs.Ledger.{busy, place, port, open_count, rank};
ghost use Rattle.nb_effects.specs.Calm.{IsSteady, Starts};
ghost use Rattle.nb_effects.specs.Trace.{left, said, said_behind};
ghost use Rattle.nb_effects.specs.Trace.{nature, up};
ghost use Rattle.nb_effects.specs.Deeds.{Hands, Gives};
ghost use Rattle.nb_graph.specs.Lives.{Same, IsBelow, IsUnder, LivelyFor};
ghost use Rattle.nb_ledger.specs.declared.event.GraphEvent.TheVariants.{Entered};
ghost use Rattle.nb_ledger.specs.declared.event.Way.TheVariants as way;
ghost use Rattle.nb_effects.specs.Effects.{MayAskUp};
ghost use Rattle.nb_effects.specs.Flows.{Rising};
ghost use Rattle.nb_effects.specs.Moves.{none_due};
ghost use Rattle.nb_graph.specs.Again.{Delivered, Gives as GivesAll, GoesOn, LeftOn};
ghost use Rattle.nb_graph.specs.Lively.{GrowsLively};

use crate::inner::Inner;
use crate::spare::Spare;
use crate::{Fx, Node};
use nb_effects::{behind, length_of, rest_of};
use nb_ledger::{GraphEvent, Msg, Outside, Port, Way};

/// How many bytes of a message count as taken, and where the object that it was given to stands then.
#[derive(Clone, Copy)]
pub(crate) struct Uptake {
    took: usize,
    place: usize,
}

impl<N: Node> Inner<N> {
    /// A message enters an object from below, which stands at this place of the book.
    #[inline(always)]
    #[cycle(lively)]
    pub(crate) fn enter_up<O: Outside>(
        &mut self,
        at: Port,
        index: usize,
        msg: &Msg<'_>,
        spare: &mut Option<Box<Spare<N>>>,
        now: u64,
        out: &mut O,
    )
        requires slot { (1 ≤ at.slot) × (at.slot ≤ 3) }
        requires place { index ≡ place self.old.book at.obj.0 }
        requires open { IsOpen (port self.old.book at.obj.0 at.slot) }
        requires small { length msg.now.first.now + length msg.now.second.now < 2 ^ 65 }
        requires under { IsUnder (rank self.old.book at.obj.0) self.old.book }
        requires steady { IsSteady N.rank_of self.old.book self.old.nodes.items
            (vec_capacity self.old.nodes) }
        ensures lives { (k : LivelyFor N.stands (nature N.kind_of N.mark_of N.Load.first N.Load.second) now
            self.old.book self.new.book self.old.nodes.items self.new.nodes.items
            (Same (busy self.old.book)) none_due (Rising self.old.book at (said msg.now).bytes)
            (λ st. Gives at (said msg.now) ∷ st) (O.events out.old) (O.events out.new))
            × Hands (Entered at way.Up) at.obj.0 (λ done fx. up at.slot (said msg.now) now done fx)
            k.lives.deeds }
        ensures starts { Starts self.old.book self.new.book (O.events out.old) (O.events out.new)
            (Entered at way.Up) }
        ensures steady { IsSteady N.rank_of self.new.book self.new.nodes.items
            (vec_capacity self.new.nodes) }
    {
        match spare {
            Some(own) => self.enter_up_by(at, index, msg, own, now, out),
            None => self.enter_up_anew(at, index, msg, now, out),
        }
    }

    /// The same where all effects that are kept run.
    #[cold]
    #[inline(never)]
    #[cycle(lively)]
    fn enter_up_anew<O: Outside>(
        &mut self,
        at: Port,
        index: usize,
        msg: &Msg<'_>,
        now: u64,
        out: &mut O,
    )
        requires slot { (1 ≤ at.slot) × (at.slot ≤ 3) }
        requires place { index ≡ place self.old.book at.obj.0 }
        requires open { IsOpen (port self.old.book at.obj.0 at.slot) }
        requires small { length msg.now.first.now + length msg.now.second.now < 2 ^ 65 }
        requires under { IsUnder (rank self.old.book at.obj.0) self.old.book }
        requires steady { IsSteady N.rank_of self.old.book self.old.nodes.items
            (vec_capacity self.old.nodes) }
        ensures lives { (k : LivelyFor N.stands (nature N.kind_of N.mark_of N.Load.first N.Load.second) now
            self.old.book self.new.book self.old.nodes.items self.new.nodes.items
            (Same (busy self.old.book)) none_due (Rising self.old.book at (said msg.now).bytes)
            (λ st. Gives at (said msg.now) ∷ st) (O.events out.old) (O.events out.new))
            × Hands (Entered at way.Up) at.obj.0 (λ done fx. up at.slot (said msg.now) now done fx)
            k.lives.deeds }
        ensures starts { Starts self.old.book self.new.book (O.events out.old) (O.events out.new)
            (Entered at way.Up) }
        ensures steady { IsSteady N.rank_of self.new.book self.new.nodes.items
            (vec_capacity self.new.nodes) }
    {
        let mut own = Spare {
            fx: Fx::none(),
            within: None,
        };
        self.enter_up_by(at, index, msg, &mut own, now, out);
    }

    /// The same with these effects, whatever they are. No other entry of the object runs.
    #[cycle(lively)]
    fn enter_up_by<O: Outside>(
        &mut self,
        at: Port,
        index: usize,
        msg: &Msg<'_>,
        own: &mut Spare<N>,
        now: u64,
        out: &mut O,
    )
        requires slot { (1 ≤ at.slot) × (at.slot ≤ 3) }
        requires place { index ≡ place self.old.book at.obj.0 }
        requires open { IsOpen (port self.old.book at.obj.0 at.slot) }
        requires small { length msg.now.first.now + length msg.now.second.now < 2 ^ 65 }
        requires under { IsUnder (rank self.old.book at.obj.0) self.old.book }
        requires steady { IsSteady N.rank_of self.old.book self.old.nodes.items
            (vec_capacity self.old.nodes) }
        ensures lives { (k : LivelyFor N.stands (nature N.kind_of N.mark_of N.Load.first N.Load.second) now
            self.old.book self.new.book self.old.nodes.items self.new.nodes.items
            (Same (busy self.old.book)) none_due (Rising self.old.book at (said msg.now).bytes)
            (λ st. Gives at (said msg.now) ∷ st) (O.events out.old) (O.events out.new))
            × Hands (Entered at way.Up) at.obj.0 (λ done fx. up at.slot (said msg.now) now done fx)
            k.lives.deeds }
        ensures starts { Starts self.old.book self.new.book (O.events out.old) (O.events out.new)
            (Entered at way.Up) }
        ensures steady { IsSteady N.rank_of self.new.book self.new.nodes.items
            (vec_capacity self.new.nodes) }
    {
        let _was = self.book.enter_in(at, index, Way::Up, out);
        let place = self.deliver(at, index, msg, &mut own.fx, &mut own.within, now, out);
        self.leave(at, place, false, out);
    }

    /// A message is given to the node of an entry from below, and what it leaves of it again.
    #[inline(always)]
    #[cycle(lively)]
    fn deliver<O: Outside>(
        &mut self,
        at: Port,
        index: usize,
        msg: &Msg<'_>,
        fx: &mut Fx<N, N::Load>,
        spare: &mut Option<Box<Spare<N>>>,
        now: u64,
        out: &mut O,
    ) -> usize
        requires slot { 1 ≤ at.slot }
        requires place { index ≡ place self.old.book at.obj.0 }
        requires open { IsOpen (port self.old.book at.obj.0 at.slot) }
        requires runs { busy self.old.book at.obj.0 ≡ true }
        requires small { length msg.now.first.now + length msg.now.second.now < 2 ^ 65 }
        requires below { IsBelow (rank self.old.book at.obj.0) self.old.book }
        requires steady { IsSteady N.rank_of self.old.book self.old.nodes.items
            (vec_capacity self.old.nodes) }
        ensures place { result ≡ place self.new.book at.obj.0 }
        ensures lives { Delivered N.stands (nature N.kind_of N.mark_of N.Load.first N.Load.second) now at
            (said msg.now) self.old.book self.new.book self.old.nodes.items self.new.nodes.items
            (O.events out.old) (O.events out.new) }
        ensures steady { IsSteady N.rank_of self.new.book self.new.nodes.items
            (vec_capacity self.new.nodes) }
    {
        let given = self.give(at, index, msg, fx, spare, now, out);
        if given.took < length_of(msg) {
            self.deliver_rest(at, given.place, msg, given.took, fx, spare, now, out)
        } else {
            given.place
        }
    }

    /// The same of what a node left of a message of which it took so much.
    #[cold]
    #[inline(never)]
    #[cycle(lively)]
    fn deliver_rest<O: Outside>(
        &mut self,
        at: Port,
        key: usize,
        msg: &Msg<'_>,
        took: usize,
        fx: &mut Fx<N, N::Load>,
        spare: &mut Option<Box<Spare<N>>>,
        now: u64,
        out: &mut O,
    ) -> usize
        requires took { took ≤ length msg.now.first.now + length msg.now.second.now }
        requires slot { 1 ≤ at.slot }
        requires open { IsOpen (port self.old.book at.obj.0 at.slot) }
        requires runs { busy self.old.book at.obj.0 ≡ true }
        requires small { length msg.now.first.now + length msg.now.second.now < 2 ^ 65 }
        requires below { IsBelow (rank self.old.book at.obj.0) self.old.book }
        requires steady { IsSteady N.rank_of self.old.book self.old.nodes.items
            (vec_capacity self.old.nodes) }
        ensures place { result ≡ place self.new.book at.obj.0 }
        ensures lives { Delivered N.stands (nature N.kind_of N.mark_of N.Load.first N.Load.second) now at
            (said_behind took (said msg.now)) self.old.book self.new.book self.old.nodes.items
            self.new.nodes.items (O.events out.old) (O.events out.new) }
        ensures steady { IsSteady N.rank_of self.new.book self.new.nodes.items
            (vec_capacity self.new.nodes) }
    {
        self.deliver_again(at, key, &behind(msg, took), fx, spare, now, out);
        self.book.place_at(at.obj, key)
    }

    /// A message is given until nothing is left of it.
    #[cycle(lively)]
    fn deliver_again<O: Outside>(
        &mut self,
        at: Port,
        key: usize,
        msg: &Msg<'_>,
        fx: &mut Fx<N, N::Load>,
        spare: &mut Option<Box<Spare<N>>>,
        now: u64,
        out: &mut O,
    )
        requires slot { 1 ≤ at.slot }
        requires open { IsOpen (port self.old.book at.obj.0 at.slot) }
        requires runs { busy self.old.book at.obj.0 ≡ true }
        requires small { length msg.now.first.now + length msg.now.second.now < 2 ^ 65 }
        requires below { IsBelow (rank self.old.book at.obj.0) self.old.book }
        requires steady { IsSteady N.rank_of self.old.book self.old.nodes.items
            (vec_capacity self.old.nodes) }
        ensures lives { Delivered N.stands (nature N.kind_of N.mark_of N.Load.first N.Load.second) now at
            (said msg.now) self.old.book self.new.book self.old.nodes.items self.new.nodes.items
            (O.events out.old) (O.events out.new) }
        ensures steady { IsSteady N.rank_of self.new.book self.new.nodes.items
            (vec_capacity self.new.nodes) }
    {
        let mut rest = Some(*msg);
        while let Some(part) = rest {
            let index = self.book.place_at(at.obj, key);
            let given = self.give(at, index, &part, fx, spare, now, out);
            rest = rest_of(&part, given.took);
        }
    }

    /// Gives a message once. Where fewer bytes are returned than it has, the others are to be given again.
    #[inline(always)]
    #[cycle(lively)]
    fn give<O: Outside>(
        &mut self,
        at: Port,
        index: usize,
        msg: &Msg<'_>,
        fx: &mut Fx<N, N::Load>,
        spare: &mut Option<Box<Spare<N>>>,
        now: u64,
        out: &mut O,
    ) -> Uptake
        requires slot { 1 ≤ at.slot }
        requires place { index ≡ place self.old.book at.obj.0 }
        requires open { IsOpen (port self.old.book at.obj.0 at.slot) }
        requires runs { busy self.old.book at.obj.0 ≡ true }
        requires small { length msg.now.first.now + length msg.now.second.now < 2 ^ 65 }
        requires below { IsBelow (rank self.old.book at.obj.0) self.old.book }
        requires steady { IsSteady N.rank_of self.old.book self.old.nodes.items
            (vec_capacity self.old.nodes) }
        ensures gives { GivesAll N.stands (nature N.kind_of N.mark_of N.Load.first N.Load.second) now at
            (said msg.now) self.old.book self.new.book self.old.nodes.items self.new.nodes.items
            (O.events out.old) (O.events out.new) (left result.took (said msg.now)) }
        ensures place { result.place ≡ place self.new.book at.obj.0 }
        ensures more { result.took < length msg.now.first.now + length msg.now.second.now
            → (0 < result.took) × IsOpen (port self.new.book at.obj.0 at.slot) }
        ensures grows { GrowsLively self.old.book self.new.book }
        ensures steady { IsSteady N.rank_of self.new.book self.new.nodes.items
            (vec_capacity self.new.nodes) }
    {
        fx.empty();
        let done = self.ask_up(at, index, msg, now, fx);
        self.after_up(at, index, msg, done, fx, spare, now, out)
    }

    #[inline(always)]
    #[cycle(lively)]
    fn after_up<O: Outside>(
        &mut self,
        at: Port,
        index: usize,
        msg: &Msg<'_>,
        done: bool,
        fx: &mut Fx<N, N::Load>,
        spare: &mut Option<Box<Spare<N>>>,
        now: u64,
        out: &mut O,
    ) -> Uptake
        requires slot { 1 ≤ at.slot }
        requires place { index ≡ place self.old.book at.obj.0 }
        requires runs { busy self.old.book at.obj.0 ≡ true }
        requires asks { MayAskUp N.rank_of N.stands (rank self.old.book at.obj.0) at.slot
            (length msg.now.first.now + length msg.now.second.now) done fx.old }
        requires small { length msg.now.first.now + length msg.now.second.now < 2 ^ 65 }
        requires below { IsBelow (rank self.old.book at.obj.0) self.old.book }
        requires steady { IsSteady N.rank_of self.old.book self.old.nodes.items
            (vec_capacity self.old.nodes) }
        ensures goes { GoesOn N.stands (nature N.kind_of N.mark_of N.Load.first N.Load.second) now at
            (said msg.now) done fx.old self.old.book self.new.book self.old.nodes.items
            self.new.nodes.items
            (O.events out.old) (O.events out.new) (left result.took (said msg.now)) }
        ensures place { result.place ≡ place self.new.book at.obj.0 }
        ensures more { result.took < length msg.now.first.now + length msg.now.second.now
            → (0 < result.took) × IsOpen (port self.new.book at.obj.0 at.slot) }
        ensures grows { GrowsLively self.old.book self.new.book }
        ensures steady { IsSteady N.rank_of self.new.book self.new.nodes.items
            (vec_capacity self.new.nodes) }
    {
        if done {
            let took = fx.took as usize;
            let place = self.effects(at.obj, index, msg, fx, spare, now, out);
            Uptake {
                took: self.left_of(at, place, msg, took, out),
                place,
            }
        } else {
            let place = self.fail(at.obj, index, fx, now, out);
            Uptake {
                took: length_of(msg),
                place,
            }
        }
    }

    /// How much of a message a node took, of which the rest is to be given again. All of it where its
    /// port isn't open any more: then the rest is dropped.
    #[inline(always)]
    fn left_of<O: Outside>(
        &mut self,
        at: Port,
        key: usize,
        msg: &Msg<'_>,
        took: usize,
        out: &mut O,
    ) -> usize
        requires took { took ≤ length msg.now.first.now + length msg.now.second.now }
        requires some { took ≡ 0 → 0 < length msg.now.first.now + length msg.now.second.now →
            open_count (port self.old.book at.obj.0 at.slot) ≡ 0 }
        ensures goes { (now : ℕ) → LeftOn N.stands (nature N.kind_of N.mark_of N.Load.first N.Load.second)
            now at
            took (said msg.now) self.old.book self.new.book self.old.nodes.items
            self.new.nodes.items (O.events out.old) (O.events out.new)
            (left result (said msg.now)) }
        ensures same { (self.new.book ≡ self.old.book) × (self.new.nodes ≡ self.old.nodes) }
        ensures more { result < length msg.now.first.now + length msg.now.second.now
            → (0 < result) × IsOpen (port self.new.book at.obj.0 at.slot) }
    {
        let whole = length_of(msg);
        if took >= whole {
            return whole;
        }
        if self.book.is_open_at(at, key) {
            return took;
        }
        out.event(&GraphEvent::Dropped(at).spelled());
        whole
    }
}
