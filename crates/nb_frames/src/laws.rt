//! Laws of calls on some objects of a graph, functions that do nothing.

ghost use Rattle.std.specs.Prelude.{◌≡◌, ◌≤◌, ◌∷◌, [], ℕ, Bool, List, true};
ghost use Rattle.nb_frames.specs.Frames.{GoesAlone, graph_of, is_one_of, IsOwnCall, KeepsObject, KeepsOthers};
ghost use Rattle.nb_frames.specs.Within.{AreLinkedWithin, AreStagesWithin, MakesNone};
ghost use Rattle.nb_graph.specs.Deeds.{MustMake, Stage, Wants};
ghost use Rattle.nb_graph.specs.Noded.{AreNoded};
ghost use Rattle.nb_graph.specs.Trace.{nature};
ghost use Rattle.nb_graph.specs.Went.{all_of, WentOne};
ghost use Rattle.nb_graph.specs.Whole.{Objects};
ghost use Rattle.nb_ledger.specs.declared.event.GraphEvent.TheVariants.{Held};
ghost use Rattle.nb_ledger.specs.declared.port.ObjId.{ObjId as TheObjId};
ghost use Rattle.nb_ledger.specs.Flat.{Heard};
ghost use Rattle.nb_ledger.specs.Ledger.{object_lives, port};

use nb_graph::Node;

/// A call on some objects that no link leaves, of which none asks for a make: each other object is as it was, and none
/// is made.
pub fn others_stay<N: Node>()
    ensures { (own : ℕ → Bool) (now : ℕ) (asks : List (Stage N N.Load)) (a b : Objects N) (m n : Heard)
        → AreLinkedWithin own (port a.book) → AreStagesWithin own asks
        → (k : WentOne N.stands (nature N.kind_of N.mark_of N.Load.first N.Load.second) now asks a b m n)
        → ((x : ℕ) → own x ≡ true → MakesNone x (all_of k.deeds)) → KeepsOthers own a b }
{}

/// A make from outside: each object that was made before is as it was.
pub fn makes_change_no_other<N: Node>()
    ensures { (now : ℕ) (x : TheObjId) (node : N) (a b : Objects N) (m n : Heard)
        → WentOne N.stands (nature N.kind_of N.mark_of N.Load.first N.Load.second) now
        (MustMake x node ∷ Wants (Held x) ∷ []) a b m n → (y : ℕ) → y ≤ a.book.made → KeepsObject a b y }
{}

/// A call on some objects does on the graph of these objects alone what it does on the whole graph, and the outside is
/// told the same.
pub fn goes_as_alone<N: Node>()
    ensures { (ids : List ℕ) (now : ℕ) (asks : List (Stage N N.Load)) (a b : Objects N) (m n : Heard)
        → AreNoded N.rank_of a → AreNoded N.rank_of b
        → (k : WentOne N.stands (nature N.kind_of N.mark_of N.Load.first N.Load.second) now asks a b m n)
        → IsOwnCall ids asks a b (all_of k.deeds)
        → GoesAlone N.stands (nature N.kind_of N.mark_of N.Load.first N.Load.second) ids now asks a b m n
        (all_of k.deeds) }
{}

/// Live objects that stay as they are stay the same graph of their own: what is true of it stays true.
pub fn others_stay_a_graph<N: Node>()
    ensures { (ids : List ℕ) (a b : Objects N) → AreNoded N.rank_of b
        → ((x : ℕ) → is_one_of ids x ≡ true → object_lives a.book x ≡ true)
        → ((x : ℕ) → is_one_of ids x ≡ true → KeepsObject a b x) → graph_of ids b ≡ graph_of ids a }
{}
