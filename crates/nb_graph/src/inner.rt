ghost use Rattle.std.specs.Prelude.{◌≡◌, ◌≢◌, ℕ, ◌+◌, ◌<◌, ◌^◌, true, false, [], ◌∷◌, ◌++◌, length};
ghost use Rattle.nb_effects.specs.Accounts.{KeepsBalance};
ghost use Rattle.nb_effects.specs.Moves.{Mild};
ghost use Rattle.nb_effects.specs.Trace.{NodeEntry, nature};
ghost use Rattle.nb_effects.specs.Lived.{Lived};
ghost use Rattle.std.specs.Vec.{vec_capacity};
ghost use Rattle.nb_ledger.specs.declared.event.GraphEvent.TheVariants.{Made};
ghost use Rattle.nb_ledger.specs.Flat.{Given, Tells, flat};
ghost use Rattle.nb_ledger.specs.Flat as notice;
ghost use Rattle.nb_ledger.specs.GraphRun.{OnStack, IsIdle, Step};
ghost use Rattle.nb_ledger.specs.Ledger.{object_lives, place, run_state};
ghost use Rattle.nb_ledger.specs.Ledger.{unused as is_unused};
ghost use Rattle.nb_ledger.specs.Changes.{Adds};
ghost use Rattle.nb_effects.specs.Order.{LetsOneGo};
ghost use Rattle.nb_effects.specs.Deeds.{MustMake, Wants};
ghost use Rattle.nb_ledger.specs.declared.event.GraphEvent.TheVariants as event;
ghost use Rattle.nb_graph.specs.Lives.{here, Loses, RunFor, SettlesFor, seat};
ghost use Rattle.nb_effects.specs.Whole.{IsManned};
ghost use Rattle.std.specs.Option.{option_copied};
ghost use Rattle.std.specs.Prelude.{slice_get};

use crate::Node;
use nb_ledger::{Book, ObjId, Outside};

/// The book and the nodes of its objects, in the same order.
#[derive(Drop)]
pub(crate) struct Inner<N: Node> {
    pub(crate) book: Book,
    pub(crate) nodes: Vec<N>,
}

impl<N: Node> Inner<N> {
    /// Frees a live object where its count is 0, which `unused` says.
    #[inline(always)]
    pub(crate) fn settle<O: Outside>(&mut self, id: ObjId, unused: bool, out: &mut O)
        requires lives { object_lives self.old.book id.0 ≡ true }
        requires unused { unused ≡ is_unused self.old.book id.0 }
        requires manned { IsManned N.rank_of self.old.book self.old.nodes.items
            (vec_capacity self.old.nodes) }
        ensures settles { SettlesFor N.stands (nature N.kind_of N.mark_of N.Load.first N.Load.second)
            self.old.book
            self.new.book self.old.nodes.items self.new.nodes.items (O.events out.old)
            (O.events out.new) id }
        ensures manned { IsManned N.rank_of self.new.book self.new.nodes.items
            (vec_capacity self.new.nodes) }
    {
        if unused {
            self.free(id, out);
        }
    }

    #[cold]
    #[inline(never)]
    fn free<O: Outside>(&mut self, id: ObjId, out: &mut O)
        requires lives { object_lives self.old.book id.0 ≡ true }
        requires manned { IsManned N.rank_of self.old.book self.old.nodes.items
            (vec_capacity self.old.nodes) }
        ensures told { Tells (O.events out.old) (O.events out.new) (Freed id ∷ []) }
        ensures given { Given (O.events out.old) (O.events out.new) (notice.event (flat
            (Freed id)) ∷ []) }
        ensures step { (st : List OnStack) → Step (run_state self.old.book (MustFree id.0 ∷ st))
            (Freed id) (run_state self.new.book st) }
        ensures len { length self.new.book.objects + 1 ≡ length self.old.book.objects }
        ensures removes { Removes self.old.book self.new.book id.0 }
        ensures loses { Loses (seat self.old.book self.old.nodes.items)
            (seat self.new.book self.new.nodes.items) }
        ensures manned { IsManned N.rank_of self.new.book self.new.nodes.items
            (vec_capacity self.new.nodes) }
    {
        let place = self.book.place(id);
        self.book.free(id, out);
        let _node = self.nodes.remove(place);
    }

    /// Makes an object with this node.
    pub(crate) fn add<O: Outside>(&mut self, node: N, out: &mut O) -> ObjId
        requires room { length self.old.book.objects < self.old.book.room }
        requires serial { self.old.book.made + 1 < 2 ^ 64 }
        requires manned { IsManned N.rank_of self.old.book self.old.nodes.items
            (vec_capacity self.old.nodes) }
        ensures told { Tells (O.events out.old) (O.events out.new)
            (Made result (N.kind_of node) ∷ []) }
        ensures given { Given (O.events out.old) (O.events out.new) (notice.event (flat
            (Made result (N.kind_of node))) ∷ []) }
        ensures serial { result.0 ≡ self.old.book.made + 1 }
        ensures fresh { object_lives self.old.book result.0 ≡ false }
        ensures len { length self.new.book.objects ≡ length self.old.book.objects + 1 }
        ensures small { N.rank_of node < 256 }
        ensures step { (st : List OnStack) → IsIdle st → Step (run_state self.old.book st)
            (Made result (N.kind_of node)) (run_state self.new.book st) }
        ensures adds { Adds self.old.book self.new.book result.0 (N.rank_of node) }
        ensures place { place self.new.book result.0 ≡ length self.old.nodes.items }
        ensures nodes { self.new.nodes.items ≡ self.old.nodes.items ++ node ∷ [] }
        ensures manned { IsManned N.rank_of self.new.book self.new.nodes.items
            (vec_capacity self.new.nodes) }
    {
        let id = self.book.make(node.rank(), node.kind(), out);
        push_last(&mut self.nodes, node);
        id
    }

    /// The node of an object.
    pub(crate) fn node(&self, id: ObjId) -> Option<&N>
        ensures { option_copied result ≡ slice_get self.now.nodes.items (place self.now.book id.0) }
    {
        let place = self.book.place(id);
        self.nodes.get(place)
    }

    /// Makes an object with this node and one hold.
    pub(crate) fn make<O: Outside>(&mut self, node: N, out: &mut O) -> ObjId
        requires room { length self.old.book.objects < self.old.book.room }
        requires serial { self.old.book.made + 1 < 2 ^ 64 }
        requires stands { N.stands node [] }
        requires graph { IsGraph N.rank_of self.old.book self.old.nodes.items
            (vec_capacity self.old.nodes) }
        ensures lived { (now : ℕ) → Lived N.stands (nature N.kind_of N.mark_of N.Load.first N.Load.second) now
            (MustMake result node ∷ Wants (Held result) ∷ [])
            (record { book = self.old.book; nodes = self.old.nodes.items })
            (record { book = self.new.book; nodes = self.new.nodes.items }) (O.events out.old)
            (O.events out.new) }
        ensures made { IsMade (record { book = self.old.book; nodes = self.old.nodes.items })
            (record { book = self.new.book; nodes = self.new.nodes.items }) node (N.rank_of node)
            result }
        ensures ranks { KeepsRanks self.old.book self.new.book }
        ensures graph { IsGraph N.rank_of self.new.book self.new.nodes.items
            (vec_capacity self.new.nodes) }
    {
        let id = self.add(node, out);
        self.book.hold(id, out);
        id
    }

    /// Takes a hold away, and frees the object if that was the last of its count.
    pub(crate) fn let_go<O: Outside>(&mut self, id: ObjId, out: &mut O)
        requires lives { object_lives self.old.book id.0 ≡ true }
        requires held { 0 < holds self.old.book id.0 }
        requires graph { IsGraph N.rank_of self.old.book self.old.nodes.items
            (vec_capacity self.old.nodes) }
        ensures runs { RunFor N.stands (nature N.kind_of N.mark_of N.Load.first N.Load.second) self.old.book
            self.new.book self.old.nodes.items self.new.nodes.items (λ st. Wants
            (event.LetGo id) ∷ st) here (O.events out.old)
            (O.events out.new) }
        ensures one { LetsOneGo id self.old.book self.new.book (O.events out.old)
            (O.events out.new) }
        ensures ranks { KeepsRanks self.old.book self.new.book }
        ensures lets { OnlyLetsGo self.old.book self.new.book }
        ensures falls { holds self.new.book id.0 < holds self.old.book id.0 }
        ensures graph { IsGraph N.rank_of self.new.book self.new.nodes.items
            (vec_capacity self.new.nodes) }
    {
        self.book.let_go(id, out);
        let unused = self.book.is_unused_at(id, self.book.key(id));
        self.settle(id, unused, out);
    }
}

ghost use Rattle.std.specs.Prelude.{Some};
ghost use Rattle.nb_ledger.specs.declared.event.GraphEvent.TheVariants.{Held};
ghost use Rattle.nb_ledger.specs.Ledger.{holds};
ghost use Rattle.nb_graph.specs.Ending.{OnlyLetsGo};
ghost use Rattle.nb_effects.specs.Whole.{IsGraph, IsMade, KeepsRanks, Runs};
ghost use Rattle.std.specs.Prelude.{List, ◌≤◌, vec_len};
ghost use Rattle.nb_ledger.specs.declared.event.GraphEvent.TheVariants.{Freed};
ghost use Rattle.nb_ledger.specs.GraphRun.{MustFree};
ghost use Rattle.nb_ledger.specs.Changes.{Removes};

fn push_last<N: Drop>(nodes: &mut Vec<N>, node: N)
    requires { vec_len nodes.old < vec_capacity nodes.old }
    ensures items { nodes.new.items ≡ nodes.old.items ++ node ∷ [] }
    ensures len { vec_len nodes.new ≡ vec_len nodes.old + 1 }
    ensures capacity { vec_capacity nodes.old ≤ vec_capacity nodes.new }
{
    match nodes.push(node) {
        Ok(()) => {}
        Err(_) => unreachable!(),
    }
}
