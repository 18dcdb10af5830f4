//! The objects of an open are made.

ghost use Rattle.std.specs.Prelude.{◌≡◌, ◌+◌, ◌<◌, ◌≤◌, ◌^◌, IfOk, IsTrue, ◌↔◌, None, Some, length};
ghost use Rattle.nb_chains.specs.Chains.{Awaits};
ghost use Rattle.nb_chains.specs.Kinds.{count_below};
ghost use Rattle.nb_chains.specs.declared.kind.ChainKind.TheVariants.{Drive, File};
ghost use Rattle.nb_open.specs.Begins.{AwaitsFor};
ghost use Rattle.nb_open.specs.Making.{DriveMade, MakesChain, MakesDrive, MakesObjectsOf, MakesWeb, WaitsNew, WebMade};
ghost use Rattle.nb_open.specs.Opening.{chain_kind};
ghost use Rattle.nb_open.specs.Settling.{told_so_far};

use crate::{OpenObjects, Opening};
use nb_chains::{Chain, ChainKind};
use nb_drivechains::DriveChain;
use nb_graph::Graph;
use nb_nodes::Obj;
use nb_teller::Teller;
use nb_terms::NoMemory;
use nb_webchains::WebChain;
use std::alloc::Global;

impl Opening<'_> {
    /// Makes the objects of an open, or what is missing of them below what waits.
    pub(crate) fn make_objects(
        &self,
        alloc: Global,
        graph: &mut Graph<Obj>,
        most: usize,
        waits: Option<Chain>,
        out: &mut Teller<'_>,
    ) -> Result<OpenObjects, NoMemory>
        requires room { graph.old.book.room ≡ most }
        requires serials { graph.old.book.made + 3 < 2 ^ 64 }
        requires waits { AwaitsFor (chain_kind self.now) waits graph.old }
        ensures { IfOk result (λ o. MakesObjectsOf self.now waits o graph.old graph.new (told_so_far out.old)
            (told_so_far out.new)) }
    {
        match self {
            Opening::Web(web) => Ok(OpenObjects::Web {
                port: web.ask.conn.peer_port,
                own: web.ask.conn.own,
                chain: make_web(alloc, graph, most, waits, out)?,
            }),
            Opening::Drive(drive) => Ok(OpenObjects::Drive {
                port: drive.ask.conn.peer_port,
                own: drive.ask.conn.own,
                chain: make_drive(alloc, graph, most, waits, out)?,
            }),
            Opening::File(_) | Opening::Name(_) | Opening::Lease(_) | Opening::Echo(_) => {
                let kind = self.kind();
                Ok(OpenObjects::Chain {
                    kind,
                    chain: make_chain(alloc, graph, most, kind, waits, out)?,
                })
            }
        }
    }
}

/// Makes the objects of a chain, or what is missing of them below what waits.
fn make_chain(
    alloc: Global,
    graph: &mut Graph<Obj>,
    most: usize,
    kind: ChainKind,
    waits: Option<Chain>,
    out: &mut Teller<'_>,
) -> Result<Chain, NoMemory>
    requires room { graph.old.book.room ≡ most }
    requires serials { graph.old.book.made + 2 < 2 ^ 64 }
    requires waits { AwaitsFor kind waits graph.old }
    ensures { IfOk result (λ c. MakesChain kind waits c graph.old graph.new (told_so_far out.old) (told_so_far out.new)) }
{
    match waits {
        None => make_all(alloc, graph, most, kind, out),
        Some(waits) => complete(alloc, graph, most, kind, waits, out),
    }
}

/// Makes the top object of an open alone, which waits.
pub(crate) fn make_waiting(
    alloc: Global,
    graph: &mut Graph<Obj>,
    most: usize,
    kind: ChainKind,
    out: &mut Teller<'_>,
) -> Result<Chain, NoMemory>
    requires room { graph.old.book.room ≡ most }
    requires serials { graph.old.book.made + 3 < 2 ^ 64 }
    ensures { IfOk result (λ c. WaitsNew kind c graph.old graph.new (told_so_far out.old) (told_so_far out.new)) }
{
    if !has_room(graph, most, 1) {
        return Err(NoMemory);
    }
    Chain::wait(alloc, graph, kind, out)
}

/// Makes them all.
fn make_all(
    alloc: Global,
    graph: &mut Graph<Obj>,
    most: usize,
    kind: ChainKind,
    out: &mut Teller<'_>,
) -> Result<Chain, NoMemory>
    requires room { graph.old.book.room ≡ most }
    requires serials { graph.old.book.made + 2 < 2 ^ 64 }
    ensures { IfOk result (λ c. MakesChain kind None c graph.old graph.new (told_so_far out.old) (told_so_far out.new)) }
{
    if !has_room(graph, most, 1 + lower_objects(kind)) {
        return Err(NoMemory);
    }
    let chain = Chain::make(alloc, graph, kind, out)?;
    graph.has_nodes();
    // Nothing lives that was made later.
    let _later = graph.ids(chain.last().0);
    Ok(chain)
}

/// Makes what is missing below what waits.
fn complete(
    alloc: Global,
    graph: &mut Graph<Obj>,
    most: usize,
    kind: ChainKind,
    waits: Chain,
    out: &mut Teller<'_>,
) -> Result<Chain, NoMemory>
    requires room { graph.old.book.room ≡ most }
    requires serials { graph.old.book.made + 2 < 2 ^ 64 }
    requires waits { Awaits kind waits graph.old }
    ensures { IfOk result (λ c. MakesChain kind (Some waits) c graph.old graph.new (told_so_far out.old)
        (told_so_far out.new)) }
{
    if !has_room(graph, most, lower_objects(kind)) {
        return Err(NoMemory);
    }
    let chain = waits.complete(alloc, graph, kind, out)?;
    graph.has_nodes();
    // Nothing lives that was made later.
    let _later = graph.ids(chain.last().0);
    Ok(chain)
}

/// Makes the objects of an open by HTTP, or what is missing of them below a Fetch that waits.
fn make_web(
    alloc: Global,
    graph: &mut Graph<Obj>,
    most: usize,
    waits: Option<Chain>,
    out: &mut Teller<'_>,
) -> Result<WebChain, NoMemory>
    requires room { graph.old.book.room ≡ most }
    requires serials { graph.old.book.made + 3 < 2 ^ 64 }
    requires waits { AwaitsFor File waits graph.old }
    ensures { IfOk result (λ c. MakesWeb waits c graph.old graph.new (told_so_far out.old) (told_so_far out.new)) }
{
    let chain = make_or_complete_web(alloc, graph, most, waits, out)?;
    graph.has_nodes();
    // Nothing lives that was made later.
    let _later = graph.ids(chain.conn.0);
    Ok(chain)
}

/// Makes all three, or the two that are missing.
fn make_or_complete_web(
    alloc: Global,
    graph: &mut Graph<Obj>,
    most: usize,
    waits: Option<Chain>,
    out: &mut Teller<'_>,
) -> Result<WebChain, NoMemory>
    requires room { graph.old.book.room ≡ most }
    requires serials { graph.old.book.made + 3 < 2 ^ 64 }
    requires waits { AwaitsFor File waits graph.old }
    ensures { IfOk result (λ c. WebMade waits c graph.old graph.new (told_so_far out.old) (told_so_far out.new)) }
{
    match waits {
        None => make_all_web(alloc, graph, most, out),
        Some(waits) => complete_web(alloc, graph, most, waits, out),
    }
}

/// Makes all three.
fn make_all_web(
    alloc: Global,
    graph: &mut Graph<Obj>,
    most: usize,
    out: &mut Teller<'_>,
) -> Result<WebChain, NoMemory>
    requires room { graph.old.book.room ≡ most }
    requires serials { graph.old.book.made + 3 < 2 ^ 64 }
    ensures { IfOk result (λ c. WebMade None c graph.old graph.new (told_so_far out.old) (told_so_far out.new)) }
{
    if !has_room(graph, most, 3) {
        return Err(NoMemory);
    }
    WebChain::make(alloc, graph, out)
}

/// Makes the two that are missing below a Fetch that waits.
fn complete_web(
    alloc: Global,
    graph: &mut Graph<Obj>,
    most: usize,
    waits: Chain,
    out: &mut Teller<'_>,
) -> Result<WebChain, NoMemory>
    requires room { graph.old.book.room ≡ most }
    requires serials { graph.old.book.made + 3 < 2 ^ 64 }
    requires waits { Awaits File waits graph.old }
    ensures { IfOk result (λ c. WebMade (Some waits) c graph.old graph.new (told_so_far out.old) (told_so_far out.new)) }
{
    if !has_room(graph, most, 2) {
        return Err(NoMemory);
    }
    WebChain::complete(waits, alloc, graph, out)
}

/// Makes the objects of a drive, or what is missing of them below a unit that waits.
fn make_drive(
    alloc: Global,
    graph: &mut Graph<Obj>,
    most: usize,
    waits: Option<Chain>,
    out: &mut Teller<'_>,
) -> Result<DriveChain, NoMemory>
    requires room { graph.old.book.room ≡ most }
    requires serials { graph.old.book.made + 3 < 2 ^ 64 }
    requires waits { AwaitsFor Drive waits graph.old }
    ensures { IfOk result (λ c. MakesDrive waits c graph.old graph.new (told_so_far out.old) (told_so_far out.new)) }
{
    let chain = make_or_complete_drive(alloc, graph, most, waits, out)?;
    graph.has_nodes();
    // Nothing lives that was made later.
    let _later = graph.ids(chain.conn.0);
    Ok(chain)
}

/// Makes all three, or the two that are missing.
fn make_or_complete_drive(
    alloc: Global,
    graph: &mut Graph<Obj>,
    most: usize,
    waits: Option<Chain>,
    out: &mut Teller<'_>,
) -> Result<DriveChain, NoMemory>
    requires room { graph.old.book.room ≡ most }
    requires serials { graph.old.book.made + 3 < 2 ^ 64 }
    requires waits { AwaitsFor Drive waits graph.old }
    ensures { IfOk result (λ c. DriveMade waits c graph.old graph.new (told_so_far out.old) (told_so_far out.new)) }
{
    match waits {
        None => make_all_drive(alloc, graph, most, out),
        Some(waits) => complete_drive(alloc, graph, most, waits, out),
    }
}

/// Makes all three.
fn make_all_drive(
    alloc: Global,
    graph: &mut Graph<Obj>,
    most: usize,
    out: &mut Teller<'_>,
) -> Result<DriveChain, NoMemory>
    requires room { graph.old.book.room ≡ most }
    requires serials { graph.old.book.made + 3 < 2 ^ 64 }
    ensures { IfOk result (λ c. DriveMade None c graph.old graph.new (told_so_far out.old) (told_so_far out.new)) }
{
    if !has_room(graph, most, 3) {
        return Err(NoMemory);
    }
    DriveChain::make(alloc, graph, out)
}

/// Makes the two that are missing below a unit that waits.
fn complete_drive(
    alloc: Global,
    graph: &mut Graph<Obj>,
    most: usize,
    waits: Chain,
    out: &mut Teller<'_>,
) -> Result<DriveChain, NoMemory>
    requires room { graph.old.book.room ≡ most }
    requires serials { graph.old.book.made + 3 < 2 ^ 64 }
    requires waits { Awaits Drive waits graph.old }
    ensures { IfOk result (λ c. DriveMade (Some waits) c graph.old graph.new (told_so_far out.old) (told_so_far out.new)) }
{
    if !has_room(graph, most, 2) {
        return Err(NoMemory);
    }
    DriveChain::complete(waits.top, alloc, graph, out)
}

/// Whether the graph has room for so many objects more, of the most that it may have.
fn has_room(graph: &Graph<Obj>, most: usize, count: usize) -> bool
    ensures { IsTrue result ↔ (length graph.now.book.objects + count ≤ most) }
{
    count <= most && graph.live() <= most - count
}

/// How many objects such an open has below its top one.
fn lower_objects(kind: ChainKind) -> usize
    ensures { result ≡ count_below kind }
{
    match kind {
        ChainKind::File => 1,
        ChainKind::Name => 0,
        ChainKind::Lease => 0,
        ChainKind::Echo => 0,
        ChainKind::Drive => 0,
    }
}
