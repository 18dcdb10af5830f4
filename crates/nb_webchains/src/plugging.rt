//! An object is made below the last of some, and plugged to it.

ghost use Rattle.std.specs.Prelude.{◌≡◌, ◌+◌, ◌-◌, ◌<◌, ◌≤◌, ◌^◌, ℕ, [], ◌∷◌, List, length};
ghost use Rattle.nb_graph.specs.Deeds.{MustMake, MustPlug, Wants};
ghost use Rattle.nb_graph.specs.Went.{WentOne};
ghost use Rattle.nb_graph.specs.Whole.{IsMade};
ghost use Rattle.nb_ledger.specs.declared.event.GraphEvent.TheVariants.{Held};
ghost use Rattle.nb_ledger.specs.declared.port.PortState.TheVariants as state;
ghost use Rattle.nb_ledger.specs.Ledger.{port, rank};
ghost use Rattle.nb_nodes.specs.Objects.{mark_of_obj, obj_nature, rank_of_obj};
ghost use Rattle.nb_nodes.specs.Standing.{ObjStands};
ghost use Rattle.nb_opens.specs.Marks.{IsOfKind};
ghost use Rattle.nb_webchains.specs.Plugs.{Extends, last_from};
ghost use Rattle.nb_webchains.specs.WebChains.{AreReady};

use nb_graph::{Graph, ObjId, Outside, Port};
use nb_nodes::{ABOVE, BELOW, Obj};

/// Makes an object where there is room for it.
pub fn make_object<O: Outside>(graph: &mut Graph<Obj>, node: Obj, out: &mut O) -> ObjId
    requires stands { ObjStands node [] }
    requires room { length graph.old.book.objects < graph.old.book.room }
    requires serials { graph.old.book.made < 2 ^ 64 - 1 }
    ensures made { IsMade graph.old graph.new node (rank_of_obj node) result }
    ensures went { (now : ℕ) → WentOne ObjStands obj_nature now
        (MustMake result node ∷ Wants (Held result) ∷ []) graph.old graph.new (O.events out.old)
        (O.events out.new) }
{
    match graph.make(node, out) {
        Ok(id) => id,
        Err(_) => unreachable!(),
    }
}

/// Plugs two open ports.
fn plug<O: Outside>(graph: &mut Graph<Obj>, upper: Port, lower: Port, out: &mut O)
    requires slots { (upper.slot ≡ 1) × (lower.slot ≡ 0) }
    requires ranks { rank graph.old.book lower.obj.0 < rank graph.old.book upper.obj.0 }
    requires upper { port graph.old.book upper.obj.0 upper.slot ≡ state.Open }
    requires lower { port graph.old.book lower.obj.0 lower.slot ≡ state.Open }
    ensures { (now : ℕ) → WentOne ObjStands obj_nature now (MustPlug upper lower ∷ []) graph.old graph.new
        (O.events out.old) (O.events out.new) }
{
    match graph.plug(upper, lower, out) {
        Ok(()) => {}
        Err(_) => unreachable!(),
    }
}

/// Makes an object, and plugs it below the last of some of which nothing was asked.
pub fn plug_next<O: Outside>(graph: &mut Graph<Obj>, above: ObjId, node: Obj, out: &mut O) -> ObjId
    requires stands { ObjStands node [] }
    requires given { above.0 ≤ graph.old.book.made }
    requires open { port graph.old.book above.0 1 ≡ state.Open }
    requires ranks { rank_of_obj node < rank graph.old.book above.0 }
    requires room { length graph.old.book.objects < graph.old.book.room }
    requires serials { graph.old.book.made < 2 ^ 64 - 1 }
    ensures serial { result.0 ≡ graph.old.book.made + 1 }
    ensures number { length graph.new.book.objects ≡ length graph.old.book.objects + 1 }
    ensures room { graph.new.book.room ≡ graph.old.book.room }
    ensures made { graph.new.book.made ≡ graph.old.book.made + 1 }
    ensures open { port graph.new.book result.0 1 ≡ state.Open }
    ensures ranked { rank graph.new.book result.0 ≡ rank_of_obj node }
    ensures kind { IsOfKind graph.new result.0 (mark_of_obj node) }
    ensures extends { (x : ℕ) (xs : List ℕ) → AreReady graph.old (x ∷ xs) → last_from x xs ≡ above.0
        → Extends (x ∷ xs) above.0 result.0 node graph.old graph.new (O.events out.old) (O.events out.new) }
{
    let id = make_object(graph, node, out);
    let upper = Port {
        obj: above,
        slot: BELOW,
    };
    let lower = Port {
        obj: id,
        slot: ABOVE,
    };
    plug(graph, upper, lower, out);
    id
}
