//! Laws of several chains on one graph, functions that do nothing.

ghost use Rattle.std.specs.Prelude.{◌≡◌, ℕ, List, Option, []};
ghost use Rattle.nb_chains.specs.Calls.{IsChainUnderWay, IsOpenChain};
ghost use Rattle.nb_chains.specs.Chains.{AreChained, AreOthers, Awaits, AreStillChained, GrowsBy, IsReadyChain, IsReleased, StaysChained, chain_ids};
ghost use Rattle.nb_chains.specs.Giving.{CallGives, ChainGives};
ghost use Rattle.nb_chains.specs.Shapes.{HasShape, RunsInOrder, SendsNone};
ghost use Rattle.nb_chains.specs.declared.chain.Chain.{Chain as TheChain};
ghost use Rattle.nb_chains.specs.declared.kind.ChainKind.{ChainKind as TheKind};
ghost use Rattle.nb_frames.specs.Frames.{is_one_of};
ghost use Rattle.nb_frames.specs.Within.{IsEventWithin};
ghost use Rattle.nb_graph.specs.Noded.{AreNoded};
ghost use Rattle.nb_ledger.specs.declared.event.GraphEvent.{GraphEvent as TheEvent};
ghost use Rattle.nb_ledger.specs.Flat.{Heard, Notice};
ghost use Rattle.nb_graph.specs.Whole.{Objects};
ghost use Rattle.nb_nodes.specs.declared.obj.Obj.{Obj as TheObj};
ghost use Rattle.nb_nodes.specs.Objects.{rank_of_obj};

/// Where one chain goes on, is made or is let go, another chain stays, and what is true of its objects as a graph of their
/// own stays true: that is the same graph.
pub fn other_chains_stay()
    ensures goes { (ids others : List ℕ) (g h : Objects TheObj) → AreNoded rank_of_obj h → AreChained g others
        → AreOthers ids others → AreStillChained ids g h → StaysChained others g h }
    ensures grows { (count : ℕ) (c : TheChain) (others : List ℕ) (g h : Objects TheObj) → AreNoded rank_of_obj h
        → AreChained g others → AreOthers (chain_ids c) others → GrowsBy count c g h → StaysChained others g h }
    ensures released { (c : TheChain) (others : List ℕ) (g h : Objects TheObj) → AreNoded rank_of_obj h
        → AreChained g others → AreOthers (chain_ids c) others → IsReleased c g h → StaysChained others g h }
{}

/// Where an open was made or is under way, its ports are open, so it can be closed or shut down.
pub fn chains_are_open()
    ensures ready { (kind : TheKind) (c : TheChain) (g : Objects TheObj) → IsReadyChain kind c g → IsOpenChain c g }
    ensures under_way { (kind : TheKind) (c : TheChain) (g : Objects TheObj) → IsChainUnderWay kind c g
        → IsOpenChain c g }
{}

/// What waits is no object of an open that is under way, of which something was asked.
pub fn waiting_ones_are_apart()
    ensures { (kind other : TheKind) (w c : TheChain) (g : Objects TheObj) → AreNoded rank_of_obj g → Awaits kind w g
        → AreChained g (chain_ids c) → IsChainUnderWay other c g → AreOthers (chain_ids c) (chain_ids w) }
{}

/// The events of a call whose notices have a shape are those before what goes down and those after it, in that order.
pub fn calls_run_in_order()
    ensures shaped { (c : TheChain) (x : ℕ) (g h : Objects TheObj) (m n : Heard) (ns : List Notice)
        → ChainGives c g h m n ns → (entry : Option TheEvent) (s : HasShape x entry ns)
        → RunsInOrder (IsEventWithin (is_one_of (chain_ids c))) x g h s.first s.back }
    ensures above { (c : TheChain) (x : ℕ) (g h : Objects TheObj) (m n : Heard) (ns : List Notice)
        → ChainGives c g h m n ns → SendsNone x ns → RunsInOrder (IsEventWithin (is_one_of (chain_ids c))) x g h [] ns }
    ensures among { (ids : List ℕ) (x : ℕ) (g h : Objects TheObj) (m n : Heard) (ns : List Notice)
        → CallGives (IsEventWithin (is_one_of ids)) g h m n ns → SendsNone x ns
        → RunsInOrder (IsEventWithin (is_one_of ids)) x g h [] ns }
{}
