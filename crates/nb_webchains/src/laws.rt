//! Laws of opens by HTTP beside other objects of a graph, functions that do nothing.

ghost use Rattle.std.specs.Prelude.{ℕ, List};
ghost use Rattle.nb_chains.specs.Chains.{AreChained, AreOthers, Awaits, StaysChained, chain_ids};
ghost use Rattle.nb_chains.specs.declared.chain.Chain.{Chain as TheChain};
ghost use Rattle.nb_chains.specs.declared.kind.ChainKind.{ChainKind as TheKind};
ghost use Rattle.nb_graph.specs.Noded.{AreNoded};
ghost use Rattle.nb_graph.specs.Whole.{Objects};
ghost use Rattle.nb_nodes.specs.declared.obj.Obj.{Obj as TheObj};
ghost use Rattle.nb_nodes.specs.Objects.{rank_of_obj};
ghost use Rattle.nb_webchains.specs.declared.web_chain.WebChain.{WebChain as TheWebChain};
ghost use Rattle.nb_webchains.specs.WebChains.{AreReleased, GrowsTo, IsOpenWeb, IsReadyWeb, web_ids};

/// Where such an open is made or let go, other objects stay, and what is true of these as a graph of their own stays true.
/// Where it goes on they do too, as beside any chain.
pub fn other_objects_stay()
    ensures grows { (count : ℕ) (ids others : List ℕ) (g h : Objects TheObj) → AreNoded rank_of_obj h → AreChained g others
        → AreOthers ids others → GrowsTo count ids g h → StaysChained others g h }
    ensures released { (ids others : List ℕ) (g h : Objects TheObj) → AreNoded rank_of_obj h → AreChained g others
        → AreOthers ids others → AreReleased ids g h → StaysChained others g h }
{}

/// Where the three were made, all ports between the user and the network are open.
pub fn ready_ones_are_open()
    ensures { (c : TheWebChain) (g : Objects TheObj) → IsReadyWeb c g → IsOpenWeb c g }
{}

/// What waits is none of the three of an open that goes on.
pub fn what_waits_is_apart()
    ensures { (kind : TheKind) (w : TheChain) (c : TheWebChain) (g : Objects TheObj) → Awaits kind w g → IsOpenWeb c g
        → AreOthers (web_ids c) (chain_ids w) }
{}
