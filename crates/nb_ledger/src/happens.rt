ghost use Rattle.std.specs.Prelude.{◌≡◌, ◌+◌, ◌-◌, ◌<◌, ◌≤◌, ◌^◌, true, false, List, [], ◌∷◌};
ghost use Rattle.std.specs.Prelude.{length, min, max};
ghost use Rattle.nb_ledger.specs.declared.event.GraphEvent.TheVariants.{Made, Held, LetGo, Plugged};
ghost use Rattle.nb_ledger.specs.declared.event.GraphEvent.TheVariants.{Entered, Left, Closed};
ghost use Rattle.nb_ledger.specs.declared.event.GraphEvent.TheVariants.{Unplugged, Freed};
ghost use Rattle.nb_ledger.specs.declared.event.Way.TheVariants as way;
ghost use Rattle.nb_ledger.specs.declared.port.PortState.TheVariants as state;
ghost use Rattle.nb_ledger.specs.Flat.{Given, Tells, flat};
ghost use Rattle.nb_ledger.specs.Flat as notice;
ghost use Rattle.nb_ledger.specs.GraphRun.{OnStack, Running, MustClose, MustEnter, MustUnplug};
ghost use Rattle.nb_ledger.specs.GraphRun.{MustFree, IsIdle, MayEnter, Step, owed};
ghost use Rattle.nb_ledger.specs.Ledger.{Ledger, object_lives, holds, busy, port, place, run_state};
ghost use Rattle.nb_ledger.specs.Ledger.{unused};
ghost use Rattle.nb_ledger.specs.Changes.{SetsHolds, SetsBusy, SetsPort, Adds, Removes};

use crate::event::{entry_event, left_event};
use crate::{Book, GraphEvent, ObjId, Outside, Port, PortState, Way};
use nb_terms::Cause;

impl Book {
    /// Makes an object of this rank and kind, with the next serial.
    #[tactic(auto, using(crate::proofs::RunLemmas::told_event))]
    pub fn make<O: Outside>(&mut self, rank: u8, kind: u8, out: &mut O) -> ObjId
        requires room { length self.old.objects < self.old.room }
        requires serial { self.old.made + 1 < 2 ^ 64 }
        ensures told { Tells (O.events out.old) (O.events out.new) (Made result kind ∷ []) }
        ensures given { Given (O.events out.old) (O.events out.new) (notice.event
            (flat (Made result kind)) ∷ []) }
        ensures serial { result.0 ≡ self.old.made + 1 }
        ensures fresh { object_lives self.old result.0 ≡ false }
        ensures step { (st : List OnStack) → IsIdle st → Step (run_state self.old st)
            (Made result kind) (run_state self.new st) }
        ensures adds { Adds self.old self.new result.0 rank }
        ensures place { place self.new result.0 ≡ length self.old.objects }
        ensures len { length self.new.objects ≡ length self.old.objects + 1 }
    {
        let id = self.add(rank);
        out.event(&GraphEvent::Made(id, kind).spelled());
        id
    }

    /// Adds a hold of a live object.
    #[tactic(auto, using(crate::proofs::RunLemmas::told_event))]
    pub fn hold<O: Outside>(&mut self, id: ObjId, out: &mut O)
        requires lives { object_lives self.old id.0 ≡ true }
        requires fits { holds self.old id.0 + 1 < 2 ^ 32 }
        ensures told { Tells (O.events out.old) (O.events out.new) (Held id ∷ []) }
        ensures given { Given (O.events out.old) (O.events out.new) (notice.event (flat (Held id))
            ∷ []) }
        ensures step { (st : List OnStack) → IsIdle st → Step (run_state self.old st) (Held id)
            (run_state self.new st) }
        ensures sets { SetsHolds self.old self.new id.0 (holds self.old id.0 + 1) }
    {
        let count = self.holds(id);
        self.set_holds(id, count + 1);
        out.event(&GraphEvent::Held(id).spelled());
    }

    /// Takes a hold of a live object. What is then to be freed is the caller's to free.
    #[tactic(auto, using(crate::proofs::RunLemmas::told_event))]
    pub fn let_go<O: Outside>(&mut self, id: ObjId, out: &mut O)
        requires lives { object_lives self.old id.0 ≡ true }
        requires held { 0 < holds self.old id.0 }
        ensures told { Tells (O.events out.old) (O.events out.new) (LetGo id ∷ []) }
        ensures given { Given (O.events out.old) (O.events out.new) (notice.event (flat (LetGo id))
            ∷ []) }
        ensures step { (st : List OnStack) → IsIdle st → Step (run_state self.old st) (LetGo id)
            (owed id.0 (run_state self.new st)) }
        ensures sets { SetsHolds self.old self.new id.0 (holds self.old id.0 - 1) }
    {
        let count = self.holds(id);
        self.set_holds(id, count - 1);
        out.event(&GraphEvent::LetGo(id).spelled());
    }

    /// Joins two open ports, the upper object's slot 1 to 3 and the lower object's slot 0.
    #[tactic(auto, using(crate::proofs::RunLemmas::told_event))]
    pub fn plug<O: Outside>(&mut self, upper: Port, lower: Port, out: &mut O)
        requires upper_open { port self.old upper.obj.0 upper.slot ≡ state.Open }
        requires lower_open { port self.old lower.obj.0 lower.slot ≡ state.Open }
        requires upper_slot { 1 ≤ upper.slot }
        requires lower_slot { lower.slot ≡ 0 }
        ensures told { Tells (O.events out.old) (O.events out.new) (Plugged upper lower ∷ []) }
        ensures given { Given (O.events out.old) (O.events out.new) (notice.event
            (flat (Plugged upper lower)) ∷ []) }
        ensures step { (st : List OnStack) → IsIdle st → Step (run_state self.old st)
            (Plugged upper lower) (run_state self.new st) }
        ensures sets { (mid : Ledger) × SetsPort self.old mid upper (state.Linked lower) × SetsPort
            mid self.new lower (state.Linked upper) }
        ensures made { (upper.obj.0 ≤ self.old.made) × (lower.obj.0 ≤ self.old.made) }
    {
        self.set_port(upper, PortState::Linked(lower));
        self.set_port(lower, PortState::Linked(upper));
        out.event(&GraphEvent::Plugged(upper, lower).spelled());
    }

    /// An entry by a message or by time begins, of the object with this key; whether one of it ran
    /// already.
    #[inline(always)]
    pub fn enter<O: Outside>(&mut self, at: Port, key: usize, by: Way, out: &mut O) -> bool
        requires { object_lives self.old at.obj.0 ≡ true }
        ensures told { Tells (O.events out.old) (O.events out.new) (Entered at by ∷ []) }
        ensures given { Given (O.events out.old) (O.events out.new) (notice.event
            (flat (Entered at by)) ∷ []) }
        ensures was { result ≡ busy self.old at.obj.0 }
        ensures step { (st : List OnStack) → IsIdle st → MayEnter (run_state self.old st) at by
            → Step (run_state self.old st) (Entered at by) (run_state self.new (Running at by ∷ st)) }
        ensures sets { SetsBusy self.old self.new at.obj.0 true }
        ensures runs { busy self.new at.obj.0 ≡ true }
    {
        self.enter_in(at, self.place_at(at.obj, key), by, out)
    }

    /// The same of the object at this place.
    #[tactic(auto, using(crate::proofs::RunLemmas::told_event))]
    #[inline(always)]
    pub fn enter_in<O: Outside>(&mut self, at: Port, index: usize, by: Way, out: &mut O) -> bool
        requires lives { object_lives self.old at.obj.0 ≡ true }
        requires place { index ≡ place self.old at.obj.0 }
        ensures told { Tells (O.events out.old) (O.events out.new) (Entered at by ∷ []) }
        ensures given { Given (O.events out.old) (O.events out.new) (notice.event
            (flat (Entered at by)) ∷ []) }
        ensures was { result ≡ busy self.old at.obj.0 }
        ensures step { (st : List OnStack) → IsIdle st → MayEnter (run_state self.old st) at by
            → Step (run_state self.old st) (Entered at by) (run_state self.new (Running at by ∷ st)) }
        ensures sets { SetsBusy self.old self.new at.obj.0 true }
        ensures runs { busy self.new at.obj.0 ≡ true }
    {
        let was = self.set_busy(at.obj, index, true);
        out.event(&entry_event(at, by));
        was
    }

    /// An entry by the closing of a port begins; whether one of the object ran already.
    #[tactic(auto, using(crate::proofs::RunLemmas::told_event))]
    pub fn enter_closed<O: Outside>(&mut self, at: Port, key: usize, out: &mut O) -> bool
        requires { object_lives self.old at.obj.0 ≡ true }
        ensures told { Tells (O.events out.old) (O.events out.new) (Entered at way.Close ∷ []) }
        ensures given { Given (O.events out.old) (O.events out.new) (notice.event
            (flat (Entered at way.Close)) ∷ []) }
        ensures was { result ≡ busy self.old at.obj.0 }
        ensures step { (st : List OnStack) → Step (run_state self.old (MustEnter at ∷ st))
            (Entered at way.Close) (run_state self.new (Running at way.Close ∷ st)) }
        ensures sets { SetsBusy self.old self.new at.obj.0 true }
        ensures runs { busy self.new at.obj.0 ≡ true }
    {
        let place = self.place_at(at.obj, key);
        let was = self.set_busy(at.obj, place, true);
        out.event(&GraphEvent::Entered(at, Way::Close).spelled());
        was
    }

    /// The innermost entry ends, of the object at this place; `was` says whether one of it ran before.
    /// Returns whether the object is then unused.
    #[tactic(auto, using(crate::proofs::RunLemmas::told_event))]
    #[inline(always)]
    pub fn leave<O: Outside>(&mut self, at: Port, index: usize, was: bool, out: &mut O) -> bool
        requires lives { object_lives self.old at.obj.0 ≡ true }
        requires place { index ≡ place self.old at.obj.0 }
        ensures told { Tells (O.events out.old) (O.events out.new) (Left at ∷ []) }
        ensures given { Given (O.events out.old) (O.events out.new) (notice.event (flat (Left at))
            ∷ []) }
        ensures step { (by : _) (st : List OnStack) → Step (run_state self.old (Running at by ∷ st))
            (Left at) (owed at.obj.0 (run_state self.new st)) }
        ensures sets { SetsBusy self.old self.new at.obj.0 was }
        ensures unused { result ≡ unused self.new at.obj.0 }
    {
        out.event(&left_event(at));
        self.end_entry(at.obj, index, was)
    }

    /// Closes an open port without a link.
    #[tactic(auto, using(crate::proofs::RunLemmas::told_event))]
    pub fn close_alone<O: Outside>(&mut self, at: Port, cause: &Cause, out: &mut O)
        requires { port self.old at.obj.0 at.slot ≡ state.Open }
        ensures told { Tells (O.events out.old) (O.events out.new) (Closed at cause.now ∷ []) }
        ensures given { Given (O.events out.old) (O.events out.new) (notice.event
            (flat (Closed at cause.now)) ∷ []) }
        ensures step { (st : List OnStack) → IsIdle st → Step (run_state self.old st)
            (Closed at cause.now) (run_state self.new st) }
        ensures sets { SetsPort self.old self.new at state.Closed }
    {
        self.set_port(at, PortState::Closed);
        out.event(&GraphEvent::Closed(at, *cause).spelled());
    }

    /// Closes the first end of a link.
    #[tactic(auto, using(crate::proofs::RunLemmas::told_event))]
    pub fn close_first<O: Outside>(&mut self, at: Port, peer: Port, cause: &Cause, out: &mut O)
        requires { port self.old at.obj.0 at.slot ≡ state.Linked peer }
        ensures told { Tells (O.events out.old) (O.events out.new) (Closed at cause.now ∷ []) }
        ensures given { Given (O.events out.old) (O.events out.new) (notice.event
            (flat (Closed at cause.now)) ∷ []) }
        ensures step { (st : List OnStack) → IsIdle st → Step (run_state self.old st)
            (Closed at cause.now)
            (run_state self.new (MustClose peer cause.now ∷ MustEnter peer ∷ MustUnplug at peer
            ∷ st)) }
        ensures sets { SetsPort self.old self.new at (state.Leaving peer) }
    {
        self.set_port(at, PortState::Leaving(peer));
        out.event(&GraphEvent::Closed(at, *cause).spelled());
    }

    /// Closes the other end of a link.
    #[tactic(auto, using(crate::proofs::RunLemmas::told_event))]
    pub fn close_peer<O: Outside>(&mut self, at: Port, peer: Port, cause: &Cause, out: &mut O)
        requires { port self.old at.obj.0 at.slot ≡ state.Linked peer }
        ensures told { Tells (O.events out.old) (O.events out.new) (Closed at cause.now ∷ []) }
        ensures given { Given (O.events out.old) (O.events out.new) (notice.event
            (flat (Closed at cause.now)) ∷ []) }
        ensures step { (st : List OnStack) → Step (run_state self.old (MustClose at cause.now ∷ st))
            (Closed at cause.now) (run_state self.new st) }
        ensures sets { SetsPort self.old self.new at (state.Leaving peer) }
    {
        self.set_port(at, PortState::Leaving(peer));
        out.event(&GraphEvent::Closed(at, *cause).spelled());
    }

    /// Takes a link away whose ends are closed.
    #[tactic(auto, using(crate::proofs::RunLemmas::told_event))]
    pub fn unplug<O: Outside>(&mut self, first: Port, other: Port, out: &mut O)
        requires first { port self.old first.obj.0 first.slot ≡ state.Leaving other }
        requires other { port self.old other.obj.0 other.slot ≡ state.Leaving first }
        ensures told { Tells (O.events out.old) (O.events out.new) (Unplugged first other ∷ []) }
        ensures given { Given (O.events out.old) (O.events out.new) (notice.event
            (flat (Unplugged first other)) ∷ []) }
        ensures step { (st : List OnStack) → Step (run_state self.old (MustUnplug first other ∷ st))
            (Unplugged first other)
            (owed (min first.obj.0 other.obj.0) (owed (max first.obj.0 other.obj.0)
            (run_state self.new st))) }
        ensures sets { (mid : Ledger) × SetsPort self.old mid first state.Closed × SetsPort mid
            self.new other state.Closed }
    {
        self.set_port(first, PortState::Closed);
        self.set_port(other, PortState::Closed);
        out.event(&GraphEvent::Unplugged(first, other).spelled());
    }

    /// Frees an object whose count is 0.
    #[tactic(auto, using(crate::proofs::RunLemmas::told_event))]
    pub fn free<O: Outside>(&mut self, id: ObjId, out: &mut O)
        requires { object_lives self.old id.0 ≡ true }
        ensures told { Tells (O.events out.old) (O.events out.new) (Freed id ∷ []) }
        ensures given { Given (O.events out.old) (O.events out.new) (notice.event (flat (Freed id))
            ∷ []) }
        ensures step { (st : List OnStack) → Step (run_state self.old (MustFree id.0 ∷ st)) (Freed id)
            (run_state self.new st) }
        ensures removes { Removes self.old self.new id.0 }
        ensures len { length self.new.objects + 1 ≡ length self.old.objects }
    {
        self.take_out(id);
        out.event(&GraphEvent::Freed(id).spelled());
    }
}
