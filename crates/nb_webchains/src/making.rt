//! The objects of an open by HTTP are made.

ghost use Rattle.std.specs.Prelude.{◌≡◌, ◌+◌, ◌<◌, ◌≤◌, ◌^◌, ◌++◌, IfOk, OnErr, length};
ghost use Rattle.nb_chains.specs.Chains.{Awaits, waits_notices};
ghost use Rattle.nb_chains.specs.declared.kind.ChainKind.TheVariants.{File};
ghost use Rattle.nb_webchains.specs.Plugs.{IsNewNode, web_notices};
ghost use Rattle.nb_webchains.specs.WebCalls.{WebMakes};
ghost use Rattle.nb_webchains.specs.WebChains.{GrowsTo, IsReadyWeb, web_ids};

use crate::plugging::plug_next;
use crate::web_chain::WebChain;
use nb_chains::{Chain, ChainKind};
use nb_graph::{Graph, Outside};
use nb_nodes::Obj;
use nb_terms::NoMemory;
use std::alloc::Global;

impl WebChain {
    /// Makes what is missing below a Fetch that waits. Where memory runs out nothing is made.
    pub fn complete<O: Outside>(
        waits: Chain,
        alloc: Global,
        graph: &mut Graph<Obj>,
        out: &mut O,
    ) -> Result<WebChain, NoMemory>
        requires waits { Awaits File waits graph.old }
        requires room { length graph.old.book.objects + 2 ≤ graph.old.book.room }
        requires serials { graph.old.book.made + 2 < 2 ^ 64 }
        ensures top { IfOk result (λ c. c.fetch ≡ waits.top) }
        ensures ready { IfOk result (λ c. IsReadyWeb c graph.new) }
        ensures grows { IfOk result (λ c. GrowsTo 2 (web_ids c) graph.old graph.new) }
        ensures gives { IfOk result (λ c. WebMakes c graph.old graph.new (O.events out.old) (O.events out.new)
            (web_notices c)) }
        ensures failed { OnErr result ((graph.new ≡ graph.old) × (out.new ≡ out.old)) }
    {
        let web = Obj::http(alloc)?;
        let conn = Obj::tcp(alloc)?;
        Ok(complete_with(waits, graph, web, conn, out))
    }

    /// Makes all three. Where memory runs out nothing is made.
    pub fn make<O: Outside>(
        alloc: Global,
        graph: &mut Graph<Obj>,
        out: &mut O,
    ) -> Result<WebChain, NoMemory>
        requires room { length graph.old.book.objects + 3 ≤ graph.old.book.room }
        requires serials { graph.old.book.made + 3 < 2 ^ 64 }
        ensures top { IfOk result (λ c. c.fetch.0 ≡ graph.old.book.made + 1) }
        ensures ready { IfOk result (λ c. IsReadyWeb c graph.new) }
        ensures grows { IfOk result (λ c. GrowsTo 3 (web_ids c) graph.old graph.new) }
        ensures gives { IfOk result (λ c. WebMakes c graph.old graph.new (O.events out.old) (O.events out.new)
            (waits_notices File c.fetch.0 ++ web_notices c)) }
        ensures failed { OnErr result ((graph.new ≡ graph.old) × (out.new ≡ out.old)) }
    {
        let web = Obj::http(alloc)?;
        let conn = Obj::tcp(alloc)?;
        let waits = Chain::wait(alloc, graph, ChainKind::File, out)?;
        Ok(complete_with(waits, graph, web, conn, out))
    }
}

/// With these two made, and plugged below a Fetch that waits.
fn complete_with<O: Outside>(
    waits: Chain,
    graph: &mut Graph<Obj>,
    web: Obj,
    conn: Obj,
    out: &mut O,
) -> WebChain
    requires waits { Awaits File waits graph.old }
    requires web { IsNewNode 2 3 2 web }
    requires conn { IsNewNode 3 2 3 conn }
    requires room { length graph.old.book.objects + 2 ≤ graph.old.book.room }
    requires serials { graph.old.book.made + 2 < 2 ^ 64 }
    ensures top { result.fetch ≡ waits.top }
    ensures ready { IsReadyWeb result graph.new }
    ensures grows { GrowsTo 2 (web_ids result) graph.old graph.new }
    ensures gives { WebMakes result graph.old graph.new (O.events out.old) (O.events out.new) (web_notices result) }
{
    let lower = plug_next(graph, waits.top, web, out);
    let last = plug_next(graph, lower, conn, out);
    WebChain {
        fetch: waits.top,
        web: lower,
        conn: last,
    }
}
