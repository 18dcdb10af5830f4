//! Laws of opens by HTTP, functions that do nothing.

ghost use Rattle.std.specs.Prelude.{◌≡◌, ℕ, List};
ghost use Rattle.nb_conns.specs.declared.conn_ask.ConnAsk.{ConnAsk as TheAsk};
ghost use Rattle.nb_graph.specs.Whole.{Objects};
ghost use Rattle.nb_nodes.specs.declared.obj.Obj.{Obj as TheObj};
ghost use Rattle.nb_streams.specs.Flows.{TcpCall};
ghost use Rattle.nb_webchains.specs.declared.web_chain.WebChain.{WebChain as TheWebChain};
ghost use Rattle.nb_webchains.specs.WebChains.{web_graph};
ghost use Rattle.nb_webtalks.specs.Calls.{BeginsCome, ClosesCome, SegmentsCome, TimesComeToWeb};
ghost use Rattle.nb_webtalks.specs.TalkStands.{StandsForTalk};

/// Where the three are as they were, they stand for the same calls.
pub fn three_as_they_were()
    ensures { (a : TheAsk) (start : ℕ) (calls : List TcpCall) (c : TheWebChain) (g h : Objects TheObj) → web_graph c h ≡ web_graph c g
        → StandsForTalk a start calls c g → StandsForTalk a start calls c h }
{}

/// A begin sends the SYN, and the three stand for a talk that was given its request.
pub fn begins_come()
    ensures { BeginsCome }
{}

/// A segment puts what its promise says; the three go on, or have brought the response.
pub fn segments_come()
    ensures { SegmentsCome }
{}

/// A time puts what the plan fires that runs; the three go on, or have ended.
pub fn times_come()
    ensures { TimesComeToWeb }
{}

/// Where the user closes them the connection says what a close calls for, once.
pub fn closes_come()
    ensures { ClosesCome }
{}
