//! The objects of a chain are made.

ghost use Rattle.std.specs.Prelude.{◌≡◌, ◌+◌, ◌-◌, ◌<◌, ◌≤◌, ◌^◌, ◌++◌, ℕ, [], ◌∷◌, IfOk, OnErr, Option, Some, length};
ghost use Rattle.nb_chains.specs.Chains.{Awaits, GrowsBy, IsFresh, IsReadyChain, completes_notices, own_graph, waits_notices};
ghost use Rattle.nb_chains.specs.Giving.{MakingGives};
ghost use Rattle.nb_chains.specs.Kinds.{IsLowerOf, count_below, top_mark, top_number, top_rank};
ghost use Rattle.nb_graph.specs.Deeds.{MustMake, MustPlug, Wants};
ghost use Rattle.nb_graph.specs.Went.{WentOne};
ghost use Rattle.nb_graph.specs.Whole.{IsMade};
ghost use Rattle.nb_ledger.specs.declared.event.GraphEvent.TheVariants.{Held};
ghost use Rattle.nb_ledger.specs.declared.port.PortState.TheVariants as state;
ghost use Rattle.nb_ledger.specs.Ledger.{port, rank};
ghost use Rattle.nb_nodes.specs.Objects.{kind_of_obj, mark_of_obj, obj_nature, rank_of_obj};
ghost use Rattle.nb_nodes.specs.Standing.{ObjStands};
ghost use Rattle.nb_opens.specs.Notices.{completed_notices, serial};
ghost use Rattle.nb_opens.specs.Pairs.{AreMade, IsNewTftp};

use crate::chain::Chain;
use crate::kind::{ChainKind, lower_node, top_node};
use nb_graph::{Graph, ObjId, Outside, Port};
use nb_nodes::{ABOVE, BELOW, Obj};
use nb_terms::NoMemory;
use std::alloc::Global;

impl Chain {
    /// Makes the top object of such an open alone, which waits for the others. Where memory runs out nothing is made.
    pub fn wait<O: Outside>(
        alloc: Global,
        graph: &mut Graph<Obj>,
        kind: ChainKind,
        out: &mut O,
    ) -> Result<Chain, NoMemory>
        requires room { length graph.old.book.objects < graph.old.book.room }
        requires serials { graph.old.book.made < 2 ^ 64 - 1 }
        ensures serial { IfOk result (λ c. c.top.0 ≡ graph.old.book.made + 1) }
        ensures waits { IfOk result (λ c. Awaits kind c graph.new) }
        ensures grows { IfOk result (λ c. GrowsBy 1 c graph.old graph.new) }
        ensures gives { IfOk result (λ c. MakingGives c graph.old graph.new (O.events out.old) (O.events out.new)
            (waits_notices kind c.top.0)) }
        ensures failed { OnErr result ((graph.new ≡ graph.old) × (out.new ≡ out.old)) }
    {
        let node = top_node(alloc, kind)?;
        Ok(top_with(graph, kind, node, out))
    }

    /// Makes what is missing of such an open below the top object. Where memory runs out nothing is made.
    pub fn complete<O: Outside>(
        self,
        alloc: Global,
        graph: &mut Graph<Obj>,
        kind: ChainKind,
        out: &mut O,
    ) -> Result<Chain, NoMemory>
        requires waits { Awaits kind self graph.old }
        requires room { length graph.old.book.objects + count_below kind ≤ graph.old.book.room }
        requires serials { graph.old.book.made + count_below kind < 2 ^ 64 }
        ensures top { IfOk result (λ c. c.top ≡ self.top) }
        ensures ready { IfOk result (λ c. IsReadyChain kind c graph.new) }
        ensures grows { IfOk result (λ c. GrowsBy (count_below kind) c graph.old graph.new) }
        ensures gives { IfOk result (λ c. MakingGives c graph.old graph.new (O.events out.old) (O.events out.new)
            (completes_notices kind c)) }
        ensures failed { OnErr result ((graph.new ≡ graph.old) × (out.new ≡ out.old)) }
    {
        let lower = lower_node(alloc, kind)?;
        Ok(self.complete_with(graph, kind, lower, out))
    }

    /// Makes all objects of such an open. Where memory runs out nothing is made.
    pub fn make<O: Outside>(
        alloc: Global,
        graph: &mut Graph<Obj>,
        kind: ChainKind,
        out: &mut O,
    ) -> Result<Chain, NoMemory>
        requires room { length graph.old.book.objects + 1 + count_below kind ≤ graph.old.book.room }
        requires serials { graph.old.book.made + 1 + count_below kind < 2 ^ 64 }
        ensures top { IfOk result (λ c. c.top.0 ≡ graph.old.book.made + 1) }
        ensures ready { IfOk result (λ c. IsReadyChain kind c graph.new) }
        ensures grows { IfOk result (λ c. GrowsBy (1 + count_below kind) c graph.old graph.new) }
        ensures gives { IfOk result (λ c. MakingGives c graph.old graph.new (O.events out.old) (O.events out.new)
            (waits_notices kind c.top.0 ++ completes_notices kind c)) }
        ensures failed { OnErr result ((graph.new ≡ graph.old) × (out.new ≡ out.old)) }
    {
        let top = top_node(alloc, kind)?;
        let lower = lower_node(alloc, kind)?;
        let chain = top_with(graph, kind, top, out);
        Ok(chain.complete_with(graph, kind, lower, out))
    }

    /// With this lower object made and plugged, where there is one.
    fn complete_with<O: Outside>(
        self,
        graph: &mut Graph<Obj>,
        kind: ChainKind,
        lower: Option<Obj>,
        out: &mut O,
    ) -> Chain
        requires waits { Awaits kind self graph.old }
        requires lower { IsLowerOf kind lower }
        requires room { length graph.old.book.objects + count_below kind ≤ graph.old.book.room }
        requires serials { graph.old.book.made + count_below kind < 2 ^ 64 }
        ensures top { result.top ≡ self.top }
        ensures ready { IsReadyChain kind result graph.new }
        ensures grows { GrowsBy (count_below kind) result graph.old graph.new }
        ensures gives { MakingGives result graph.old graph.new (O.events out.old) (O.events out.new)
            (completes_notices kind result) }
    {
        match lower {
            None => {
                graph.has_nodes();
                self
            }
            Some(node) => self.plug_below(graph, node, out),
        }
    }

    /// With this Tftp made, and plugged below a Fetch that waits.
    fn plug_below<O: Outside>(self, graph: &mut Graph<Obj>, node: Obj, out: &mut O) -> Chain
        requires fresh { IsFresh graph.old self.top.0 5 0 }
        requires stands { ObjStands node [] }
        requires tftp { IsNewTftp node }
        requires room { length graph.old.book.objects < graph.old.book.room }
        requires serials { graph.old.book.made < 2 ^ 64 - 1 }
        ensures top { result.top ≡ self.top }
        ensures below { result.below ≡ Some (serial (graph.old.book.made + 1)) }
        ensures made { AreMade (own_graph result graph.new) result.top.0 (graph.old.book.made + 1) }
        ensures grows { GrowsBy 1 result graph.old graph.new }
        ensures gives { MakingGives result graph.old graph.new (O.events out.old) (O.events out.new)
            (completed_notices self.top.0 (graph.old.book.made + 1)) }
    {
        let tftp = make_object(graph, node, out);
        let upper = Port {
            obj: self.top,
            slot: BELOW,
        };
        let lower = Port {
            obj: tftp,
            slot: ABOVE,
        };
        plug(graph, upper, lower, out);
        graph.has_nodes();
        Chain {
            top: self.top,
            below: Some(tftp),
        }
    }
}

/// Makes this new top object.
fn top_with<O: Outside>(graph: &mut Graph<Obj>, kind: ChainKind, node: Obj, out: &mut O) -> Chain
    requires stands { ObjStands node [] }
    requires number { kind_of_obj node ≡ top_number kind }
    requires rank { rank_of_obj node ≡ top_rank kind }
    requires mark { mark_of_obj node ≡ top_mark kind }
    requires room { length graph.old.book.objects < graph.old.book.room }
    requires serials { graph.old.book.made < 2 ^ 64 - 1 }
    ensures serial { result.top.0 ≡ graph.old.book.made + 1 }
    ensures waits { Awaits kind result graph.new }
    ensures grows { GrowsBy 1 result graph.old graph.new }
    ensures gives { MakingGives result graph.old graph.new (O.events out.old) (O.events out.new)
        (waits_notices kind result.top.0) }
{
    let top = make_object(graph, node, out);
    Chain { top, below: None }
}

/// Makes an object where there is room for it.
fn make_object<O: Outside>(graph: &mut Graph<Obj>, node: Obj, out: &mut O) -> ObjId
    requires stands { ObjStands node [] }
    requires room { length graph.old.book.objects < graph.old.book.room }
    requires serials { graph.old.book.made < 2 ^ 64 - 1 }
    ensures made { IsMade graph.old graph.new node (rank_of_obj node) result }
    ensures went { (now : ℕ) → WentOne ObjStands obj_nature now
        (MustMake result node ∷ Wants (Held result) ∷ []) graph.old graph.new (O.events out.old)
        (O.events out.new) }
{
    match graph.make(node, out) {
        Ok(id) => id,
        Err(_) => unreachable!(),
    }
}

/// Plugs two open ports.
fn plug<O: Outside>(graph: &mut Graph<Obj>, upper: Port, lower: Port, out: &mut O)
    requires slots { (upper.slot ≡ 1) × (lower.slot ≡ 0) }
    requires ranks { rank graph.old.book lower.obj.0 < rank graph.old.book upper.obj.0 }
    requires upper { port graph.old.book upper.obj.0 upper.slot ≡ state.Open }
    requires lower { port graph.old.book lower.obj.0 lower.slot ≡ state.Open }
    ensures { (now : ℕ) → WentOne ObjStands obj_nature now (MustPlug upper lower ∷ []) graph.old graph.new
        (O.events out.old) (O.events out.new) }
{
    match graph.plug(upper, lower, out) {
        Ok(()) => {}
        Err(_) => unreachable!(),
    }
}
