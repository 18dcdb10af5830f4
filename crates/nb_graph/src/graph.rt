ghost use Rattle.std.specs.Prelude.{◌≡◌, ◌+◌, ◌<◌, ◌≤◌, ◌↔◌, ◌⊎◌, ◌≢◌, ◌^◌, ◌-◌, ℕ, List, [], ◌∷◌};
ghost use Rattle.std.specs.Prelude.{◌++◌, Ok, Err, IfOk, IfErr, OnErr, OnOk, IsErr, IsTrue, IsSome};
ghost use Rattle.std.specs.Prelude.{IsNone, IfSome, IfNone, length, true, false, slice_get};
ghost use Rattle.std.specs.Bool.{OnTrue, OnFalse};
ghost use Rattle.std.specs.Option.{option_copied};
ghost use Rattle.nb_ledger.specs.declared.event.GraphEvent.TheVariants.{Held, LetGo};
ghost use Rattle.nb_ledger.specs.declared.port.Port.{Port as ThePort};
ghost use Rattle.nb_effects.specs.Accounts.{Balanced, unplugged};
ghost use Rattle.nb_graph.specs.declared.graph.Reach.TheVariants as reach;
ghost use Rattle.nb_ledger.specs.declared.port.PortState.TheVariants as state;
ghost use Rattle.nb_ledger.specs.Ledger.{object_lives, holds, port, rank, open_count, IsLeastAbove};
ghost use Rattle.nb_effects.specs.Trace.{said, nature};
ghost use Rattle.nb_effects.specs.Deeds.{Closes, Ends, LetsAllGo, MustMake, MustPlug, Offers, Ticks, Wants};
ghost use Rattle.nb_effects.specs.Lived.{KeepsTraces};
ghost use Rattle.nb_graph.specs.Noded.{AreNoded};
ghost use Rattle.nb_effects.specs.Order.{ClosesOnePort, EndsInOrder, LetsOneGo};
ghost use Rattle.nb_effects.specs.Whole.{Harvests, IsLinked, IsMade, KeepsRanks, OnlyDrops, node_at, node_of};
ghost use Rattle.nb_effects.specs.Whole.{StaysSame};

use crate::Node;
use crate::inner::Inner;
use crate::spare::{Spare, spare_effects};
use nb_ledger::{Book, GraphEvent, Msg, ObjId, Outside, Port};
use nb_terms::{Cause, NoMemory};
use std::alloc::Global;
use std::marker::Model;

/// A graph of at most `cap` live objects. After `new` it takes no memory of its own.
#[derive(Drop)]
pub struct Graph<N: Node> {
    inner: Inner<N>,
    spare: Option<Box<Spare<N>>>,
}

/// This port is dead, closed or plugged.
#[derive(Clone, Copy, Debug, PartialEq, Eq)]
pub struct NotOpen {
    pub port: Port,
}

/// Whether a message or time reached its object.
#[derive(Clone, Copy, Debug, PartialEq, Eq)]
pub enum Reach {
    Entered,
    Dropped,
}

impl<N: Node> Model for Graph<N> {
    ghost use Rattle.nb_effects.specs.Whole.{Objects, IsGraph};
    ghost use Rattle.std.specs.Vec.{vec_capacity};

    ghost Value = { Objects N };

    ghost view = { λ g. record { book = g.inner.book; nodes = g.inner.nodes.items } };

    ghost invariant = { λ g. IsGraph N.rank_of g.inner.book g.inner.nodes.items
        (vec_capacity g.inner.nodes) };
}

impl<N: Node> Graph<N> {
    /// An empty graph for `cap` objects, 1 to 64.
    pub fn new(alloc: Global, cap: usize) -> Result<Graph<N>, NoMemory>
        requires { (1 ≤ cap) × (cap ≤ 64) }
        ensures empty { IfOk result (λ g. g ≡ record {
          book = record
              { made = 0; room = cap; objects = [] };
          nodes = [];
        }) }
        ensures bytes { IfOk result (λ g. (p q : ThePort) → Balanced g.book p q unplugged
            unplugged) }
    {
        let book = Book::new(alloc, cap)?;
        let nodes = Vec::with_capacity(alloc, cap)?;
        let spare = spare_effects(alloc)?;
        Ok(Graph {
            inner: Inner { book, nodes },
            spare,
        })
    }

    /// Makes an object, with one hold. The node comes back where the graph is full.
    pub fn make<O: Outside>(&mut self, node: N, out: &mut O) -> Result<ObjId, N>
        requires { N.stands node [] }
        ensures full { IsErr result ↔ ((length self.old.book.objects ≡ self.old.book.room) ⊎
            (self.old.book.made ≡ 2 ^ 64 - 1)) }
        ensures back { IfErr result (λ n. (n ≡ node) × StaysSame O.events self.old self.new
            out.old out.new) }
        ensures made { IfOk result (IsMade self.old self.new node (N.rank_of node)) }
        ensures ranks { KeepsRanks self.old.book self.new.book }
        ensures went { IfOk result (λ id. (now : ℕ) → WentOne N.stands
            (nature N.kind_of N.mark_of N.Load.first N.Load.second)
            now (MustMake id node ∷ Wants (Held id) ∷ []) self.old self.new
            (O.events out.old) (O.events out.new)) }
    {
        if self.inner.is_full() {
            return Err(node);
        }
        Ok(self.inner.make(node, out))
    }

    /// Joins two ports. The first that is not open and free is named.
    pub fn plug<O: Outside>(&mut self, upper: Port, lower: Port, out: &mut O) -> Result<(), NotOpen>
        requires upper { (1 ≤ upper.slot) × (upper.slot ≤ 3) }
        requires lower { lower.slot ≡ 0 }
        requires ranks { object_lives self.old.book upper.obj.0 ≡ true → object_lives self.old.book lower.obj.0 ≡
            true
            → rank self.old.book lower.obj.0 < rank self.old.book upper.obj.0 }
        ensures upper { (result ≡ Err (record { port = upper })) ↔
            (port self.old.book upper.obj.0 upper.slot ≢ state.Open) }
        ensures lower { (result ≡ Err (record { port = lower }))
            ↔ ((port self.old.book upper.obj.0 upper.slot ≡ state.Open) ×
            (port self.old.book lower.obj.0 0 ≢ state.Open)) }
        // Only those two are named.
        ensures named { IfErr result (λ e. (e.port ≡ upper) ⊎ (e.port ≡ lower)) }
        ensures refused { OnErr result (StaysSame O.events self.old self.new out.old out.new) }
        ensures ranks { KeepsRanks self.old.book self.new.book }
        ensures went { OnOk result ((now : ℕ) → WentOne N.stands
            (nature N.kind_of N.mark_of N.Load.first N.Load.second)
            now (MustPlug upper lower ∷ []) self.old self.new (O.events out.old)
            (O.events out.new)) }
        ensures nodes { self.new.nodes ≡ self.old.nodes }
    {
        if !self.inner.book.is_free(upper) {
            return Err(NotOpen { port: upper });
        }
        if !self.inner.book.is_free(lower) {
            return Err(NotOpen { port: lower });
        }
        self.inner.book.plug(upper, lower, out);
        Ok(())
    }

    /// Adds a hold. False where the object is dead or has 4,294,967,295 holds.
    pub fn hold<O: Outside>(&mut self, id: ObjId, out: &mut O) -> bool
        ensures may { IsTrue result ↔ ((object_lives self.old.book id.0 ≡ true) ×
            (holds self.old.book id.0 < 2 ^ 32 - 1)) }
        ensures ranks { KeepsRanks self.old.book self.new.book }
        ensures went { OnTrue result ((now : ℕ) → WentOne N.stands
            (nature N.kind_of N.mark_of N.Load.first N.Load.second)
            now (Wants (Held id) ∷ []) self.old self.new (O.events out.old) (O.events out.new)) }
        ensures nodes { self.new.nodes ≡ self.old.nodes }
        ensures not { OnFalse result (StaysSame O.events self.old self.new out.old out.new) }
    {
        if self.inner.book.is_live(id) && self.inner.book.holds(id) < u32::MAX {
            self.inner.book.hold(id, out);
            true
        } else {
            false
        }
    }

    /// Takes a hold away. False where the object is dead or has none.
    pub fn let_go<O: Outside>(&mut self, id: ObjId, out: &mut O) -> bool
        ensures may { IsTrue result ↔ ((object_lives self.old.book id.0 ≡ true) ×
            (0 < holds self.old.book id.0)) }
        ensures ranks { KeepsRanks self.old.book self.new.book }
        ensures went { OnTrue result ((now : ℕ) → WentOne N.stands
            (nature N.kind_of N.mark_of N.Load.first N.Load.second)
            now (Wants (LetGo id) ∷ []) self.old self.new (O.events out.old) (O.events out.new)) }
        ensures one { OnTrue result (LetsOneGo id self.old.book self.new.book (O.events out.old)
            (O.events out.new)) }
        ensures not { OnFalse result (StaysSame O.events self.old self.new out.old out.new) }
    {
        if self.inner.book.is_live(id) && self.inner.book.holds(id) > 0 {
            self.inner.let_go(id, out);
            true
        } else {
            false
        }
    }

    /// The node of a live object.
    pub fn node(&self, id: ObjId) -> Option<&N>
        ensures node { option_copied result ≡ node_of self.now id }
        ensures dead { IsNone result ↔ (object_lives self.now.book id.0 ≡ false) }
        ensures rank { IfSome result (λ n. N.rank_of n.now ≡ rank self.now.book id.0) }
    {
        self.inner.node(id)
    }

    /// What is true of every graph: each live object has a node, of the rank that the book has. It does nothing.
    #[inline(always)]
    pub fn has_nodes(&self)
        ensures { AreNoded N.rank_of self.now }
    {
        let _inner = &self.inner;
    }

    /// What is true of every graph: links lead back, and down to objects of lower rank. It does nothing.
    #[inline(always)]
    pub fn has_links(&self)
        ensures { IsLinked (port self.now.book) (rank self.now.book) }
    {
        let _inner = &self.inner;
    }

    /// How many objects live.
    pub fn live(&self) -> usize
        ensures { result ≡ length self.now.book.objects }
    {
        self.inner.book.len()
    }

    /// The least live serial above `after`.
    pub fn ids(&self, after: u64) -> Option<ObjId>
        ensures none { IfNone result ((x : ℕ) → after < x → object_lives self.now.book x ≡ false) }
        ensures some { IfSome result (IsLeastAbove self.now.book after) }
    {
        self.inner.book.above(after)
    }

    /// Closes a port, and its peer if it is linked. Nothing happens at a closed or dead one.
    pub fn close<O: Outside>(&mut self, at: Port, cause: &Cause, now: u64, out: &mut O)
        ensures ranks { KeepsRanks self.old.book self.new.book }
        ensures went { WentOne N.stands (nature N.kind_of N.mark_of N.Load.first N.Load.second)
            now (Closes at cause.now ∷ []) self.old self.new (O.events out.old) (O.events out.new) }
        ensures one { 0 < open_count (port self.old.book at.obj.0 at.slot)
            → ClosesOnePort cause.now at self.old.book self.new.book (O.events out.old)
            (O.events out.new) }
        ensures shut { open_count (port self.new.book at.obj.0 at.slot) ≡ 0 }
        ensures not { open_count (port self.old.book at.obj.0 at.slot) ≡ 0 → StaysSame O.events
            self.old self.new out.old out.new }
    {
        self.inner.close_port(at, cause, now, out);
    }

    /// A message enters an object from above, by its slot 0, if that is open and free; else it is
    /// dropped.
    pub fn down<O: Outside>(&mut self, to: Port, msg: &Msg<'_>, now: u64, out: &mut O) -> Reach
        requires { to.slot ≡ 0 }
        ensures dropped { (result ≡ reach.Dropped) ↔ (port self.old.book to.obj.0 0 ≢ state.Open) }
        ensures not { result ≡ reach.Dropped → OnlyDrops to self.old self.new (O.events out.old)
            (O.events out.new) }
        ensures ranks { KeepsRanks self.old.book self.new.book }
        ensures went { WentOne N.stands (nature N.kind_of N.mark_of N.Load.first N.Load.second)
            now (Offers to (said msg.now) ∷ []) self.old self.new (O.events out.old)
            (O.events out.new) }
    {
        let place = self.inner.book.seek(to.obj);
        if self.inner.book.is_free_in(to, place) {
            self.inner
                .enter_down(to, place, msg, &mut self.spare, now, out);
            Reach::Entered
        } else {
            out.event(&GraphEvent::Dropped(to).spelled());
            Reach::Dropped
        }
    }

    /// A message enters an object from below, by a slot 1 to 3, if that is open and free; else it
    /// is dropped.
    #[inline(always)]
    pub fn up<O: Outside>(&mut self, to: Port, msg: &Msg<'_>, now: u64, out: &mut O) -> Reach
        requires { (1 ≤ to.slot) × (to.slot ≤ 3) }
        ensures dropped { (result ≡ reach.Dropped) ↔ (port self.old.book to.obj.0 to.slot ≢
            state.Open) }
        ensures not { result ≡ reach.Dropped → OnlyDrops to self.old self.new (O.events out.old)
            (O.events out.new) }
        ensures went { WentOne N.stands (nature N.kind_of N.mark_of N.Load.first N.Load.second)
            now (Offers to (said msg.now) ∷ []) self.old self.new (O.events out.old)
            (O.events out.new) }
    {
        let _length = (msg.first.len(), msg.second.len());
        let place = self.inner.book.seek(to.obj);
        if self.inner.book.is_free_in(to, place) {
            self.inner
                .enter_up(to, place, msg, &mut self.spare, now, out);
            Reach::Entered
        } else {
            out.event(&GraphEvent::Dropped(to).spelled());
            Reach::Dropped
        }
    }

    /// Time has come to `now`, in milliseconds. Dropped where the object is dead, and then nothing
    /// happens.
    pub fn time<O: Outside>(&mut self, id: ObjId, now: u64, out: &mut O) -> Reach
        ensures dropped { (result ≡ reach.Dropped) ↔ (object_lives self.old.book id.0 ≡ false) }
        ensures went { WentOne N.stands (nature N.kind_of N.mark_of N.Load.first N.Load.second)
            now (Ticks id.0 ∷ []) self.old self.new (O.events out.old) (O.events out.new) }
        ensures not { result ≡ reach.Dropped → StaysSame O.events self.old self.new out.old
            out.new }
    {
        if self.inner.book.is_live(id) {
            self.inner.enter_time(id, &mut self.spare, now, out);
            Reach::Entered
        } else {
            Reach::Dropped
        }
    }

    /// What the node of a live object has to hand out. Nothing else changes.
    pub fn harvest(&mut self, id: ObjId) -> Option<N::Load>
        ensures dead { object_lives self.old.book id.0 ≡ false → IsNone result }
        ensures not { object_lives self.old.book id.0 ≡ false → self.new ≡ self.old }
        ensures gives { object_lives self.old.book id.0 ≡ true → Harvests N.harvests self.old self.new id
            result }
        ensures others { (x : ℕ) → x ≢ id.0 → node_at self.new x ≡ node_at self.old x }
        ensures keeps { KeepsTraces N.stands self.old self.new }
        // Every life, hold, rank, port and link.
        ensures book { self.new.book ≡ self.old.book }
    {
        if self.inner.book.is_live(id) {
            self.inner.harvest(id)
        } else {
            None
        }
    }

    /// Closes all ports by rising serial and slot, and lets all holds go. Nothing lives after it.
    pub fn shutdown<O: Outside>(&mut self, cause: &Cause, now: u64, out: &mut O)
        ensures went { WentOne N.stands (nature N.kind_of N.mark_of N.Load.first N.Load.second)
            now (Ends 0 cause.now ∷ LetsAllGo ∷ []) self.old self.new (O.events out.old)
            (O.events out.new) }
        ensures none { length self.new.book.objects ≡ 0 }
        ensures order { EndsInOrder cause.now self.old.book self.new.book (O.events out.old)
            (O.events out.new) }
    {
        self.inner.close_above(0, cause, now, out);
        self.inner.let_above_go(0, out);
    }
}

ghost use Rattle.std.specs.Prelude.{List, Option, ◌++◌};
ghost use Rattle.nb_effects.specs.Hosts.{Stood};
ghost use Rattle.nb_effects.specs.Lived.{ObjectStands};
ghost use Rattle.nb_effects.specs.Trace.{NodeEntry};
ghost use Rattle.nb_effects.specs.Whole.{Objects};
ghost use Rattle.nb_effects.specs.Went.{all_of, GraphCall, Went, WentOne};
ghost use Rattle.nb_ledger.specs.Flat.{Heard};

/// What happens in calls and in those that come then happens in all of them.
pub fn one_after_another<N: Node>()
    ensures { (cs bs : List (GraphCall N N.Load)) (a b c : Objects N) (m n o : Heard)
        → Went N.stands (nature N.kind_of N.mark_of N.Load.first N.Load.second) cs a b m n
        → Went N.stands (nature N.kind_of N.mark_of N.Load.first N.Load.second) bs b c n o
        → Went N.stands (nature N.kind_of N.mark_of N.Load.first N.Load.second) (cs ++ bs) a c m o }
{}

/// Each entry of an object in some calls, also of one that is freed, is one of its node, which
/// stands for its trace so far, and after it for that with the entry.
pub fn entries_are_the_nodes_own<N: Node>()
    ensures { (cs : List (GraphCall N N.Load)) (a b : Objects N) (m n : Heard) (x : ℕ)
        (t : List (NodeEntry N N.Load)) → ObjectStands N.stands a x t
        → (k : Went N.stands (nature N.kind_of N.mark_of N.Load.first N.Load.second) cs a b m n)
        → Stood N.stands x t (all_of k.deeds) }
{}
