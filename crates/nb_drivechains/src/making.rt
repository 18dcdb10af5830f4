//! The objects of a drive are made.

ghost use Rattle.std.specs.Prelude.{◌≡◌, ◌+◌, ◌-◌, ◌<◌, ◌≤◌, ◌^◌, ◌++◌, [], ◌∷◌, IfOk, OnErr, length};
ghost use Rattle.nb_webchains.specs.Plugs.{IsNewNode};
ghost use Rattle.nb_webchains.specs.WebCalls.{WebMakes};
ghost use Rattle.nb_webchains.specs.WebChains.{GrowsTo};
ghost use Rattle.nb_drivechains.specs.DriveChains.{IsReadyDrive, IsWaitingUnit, UnitMakes, drive_ids, drive_notices, three_of, unit_notices};

use crate::drive_chain::DriveChain;
use nb_graph::{Graph, ObjId, Outside};
use nb_nodes::Obj;
use nb_terms::NoMemory;
use nb_webchains::{make_object, plug_next};
use std::alloc::Global;

impl DriveChain {
    /// Makes a unit alone, which waits for its server's address. Where memory runs out nothing is made.
    pub fn wait<O: Outside>(
        alloc: Global,
        graph: &mut Graph<Obj>,
        out: &mut O,
    ) -> Result<ObjId, NoMemory>
        requires room { length graph.old.book.objects < graph.old.book.room }
        requires serials { graph.old.book.made < 2 ^ 64 - 1 }
        ensures serial { IfOk result (λ unit. unit.0 ≡ graph.old.book.made + 1) }
        ensures waits { IfOk result (λ unit. IsWaitingUnit unit graph.new) }
        ensures grows { IfOk result (λ unit. GrowsTo 1 (unit.0 ∷ []) graph.old graph.new) }
        ensures gives { IfOk result (λ unit. UnitMakes unit graph.old graph.new (O.events out.old) (O.events out.new)
            (unit_notices unit)) }
        ensures failed { OnErr result ((graph.new ≡ graph.old) × (out.new ≡ out.old)) }
    {
        let unit = Obj::disk(alloc)?;
        Ok(wait_with(graph, unit, out))
    }

    /// Makes what is missing below a unit that waits. Where memory runs out nothing is made.
    pub fn complete<O: Outside>(
        unit: ObjId,
        alloc: Global,
        graph: &mut Graph<Obj>,
        out: &mut O,
    ) -> Result<DriveChain, NoMemory>
        requires waits { IsWaitingUnit unit graph.old }
        requires room { length graph.old.book.objects + 2 ≤ graph.old.book.room }
        requires serials { graph.old.book.made + 2 < 2 ^ 64 }
        ensures top { IfOk result (λ c. c.unit ≡ unit) }
        ensures ready { IfOk result (λ c. IsReadyDrive c graph.new) }
        ensures grows { IfOk result (λ c. GrowsTo 2 (drive_ids c) graph.old graph.new) }
        ensures gives { IfOk result (λ c. WebMakes (three_of c) graph.old graph.new (O.events out.old)
            (O.events out.new) (drive_notices c)) }
        ensures failed { OnErr result ((graph.new ≡ graph.old) × (out.new ≡ out.old)) }
    {
        let session = Obj::iscsi(alloc)?;
        let conn = Obj::tcp(alloc)?;
        Ok(complete_with(unit, graph, session, conn, out))
    }

    /// Makes all three. Where memory runs out nothing is made.
    pub fn make<O: Outside>(
        alloc: Global,
        graph: &mut Graph<Obj>,
        out: &mut O,
    ) -> Result<DriveChain, NoMemory>
        requires room { length graph.old.book.objects + 3 ≤ graph.old.book.room }
        requires serials { graph.old.book.made + 3 < 2 ^ 64 }
        ensures top { IfOk result (λ c. c.unit.0 ≡ graph.old.book.made + 1) }
        ensures ready { IfOk result (λ c. IsReadyDrive c graph.new) }
        ensures grows { IfOk result (λ c. GrowsTo 3 (drive_ids c) graph.old graph.new) }
        ensures gives { IfOk result (λ c. WebMakes (three_of c) graph.old graph.new (O.events out.old)
            (O.events out.new) (unit_notices c.unit ++ drive_notices c)) }
        ensures failed { OnErr result ((graph.new ≡ graph.old) × (out.new ≡ out.old)) }
    {
        let session = Obj::iscsi(alloc)?;
        let conn = Obj::tcp(alloc)?;
        let unit = DriveChain::wait(alloc, graph, out)?;
        Ok(complete_with(unit, graph, session, conn, out))
    }
}

/// Makes this new unit alone.
fn wait_with<O: Outside>(graph: &mut Graph<Obj>, unit: Obj, out: &mut O) -> ObjId
    requires unit { IsNewNode 9 5 9 unit }
    requires room { length graph.old.book.objects < graph.old.book.room }
    requires serials { graph.old.book.made < 2 ^ 64 - 1 }
    ensures serial { result.0 ≡ graph.old.book.made + 1 }
    ensures waits { IsWaitingUnit result graph.new }
    ensures grows { GrowsTo 1 (result.0 ∷ []) graph.old graph.new }
    ensures gives { UnitMakes result graph.old graph.new (O.events out.old) (O.events out.new) (unit_notices result) }
{
    make_object(graph, unit, out)
}

/// With these two made, and plugged below a unit that waits.
fn complete_with<O: Outside>(
    unit: ObjId,
    graph: &mut Graph<Obj>,
    session: Obj,
    conn: Obj,
    out: &mut O,
) -> DriveChain
    requires waits { IsWaitingUnit unit graph.old }
    requires session { IsNewNode 8 3 8 session }
    requires conn { IsNewNode 3 2 3 conn }
    requires room { length graph.old.book.objects + 2 ≤ graph.old.book.room }
    requires serials { graph.old.book.made + 2 < 2 ^ 64 }
    ensures top { result.unit ≡ unit }
    ensures ready { IsReadyDrive result graph.new }
    ensures grows { GrowsTo 2 (drive_ids result) graph.old graph.new }
    ensures gives { WebMakes (three_of result) graph.old graph.new (O.events out.old) (O.events out.new)
        (drive_notices result) }
{
    let lower = plug_next(graph, unit, session, out);
    let last = plug_next(graph, lower, conn, out);
    DriveChain {
        unit,
        session: lower,
        conn: last,
    }
}
