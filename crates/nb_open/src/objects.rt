ghost use Rattle.std.specs.Prelude.{◌≡◌, ◌≤◌, length, None, IfOk};
ghost use Rattle.std.specs.Option.{option_map};
ghost use Rattle.nb_chains.specs.Chains.{AreChained, AreStillChained, IsShutChain, chain_ids};
ghost use Rattle.nb_open.specs.Objects.{AreObjectsChained, AreObjectsShut, AreObjectsStill, AreDriveObjects, ClosesObjects, DoesMessage, DoesRead, DoesTime, HandsFile, HandsBrought, ReleasesObjects};
ghost use Rattle.nb_open.specs.Settling.{told_so_far};

use nb_chains::{Arrival, Chain, ChainKind};
use nb_drivechains::DriveChain;
use nb_graph::Graph;
use nb_image::Body;
use nb_nodes::Obj;
use nb_runner::copy;
use nb_teller::Teller;
use nb_terms::{Cause, NoMemory};
use nb_webchains::WebChain;
use nb_wire::{Ip4, Text};
use std::alloc::Global;

/// The objects of an open on the graph.
#[derive(Clone, Copy, Debug)]
pub enum OpenObjects {
    /// Those of a chain of this kind.
    Chain {
        kind: ChainKind,
        chain: Chain,
    },
    /// Those of an open by HTTP, which asks at this port of its server, from this address of the client's.
    Web {
        port: u16,
        own: Ip4,
        chain: WebChain,
    },
    /// Those of a drive, which asks at this port of its target, from this address of the client's.
    Drive {
        port: u16,
        own: Ip4,
        chain: DriveChain,
    },
}

/// What an open has brought: a file, or the URI where that is instead.
#[derive(Drop)]
pub(crate) struct Brought {
    pub(crate) body: Option<Body>,
    pub(crate) moved: Option<Text>,
}

impl OpenObjects {
    /// A datagram, an echo reply or a segment comes in the record `rec`, at the time `now` in milliseconds.
    #[inline(always)]
    pub(crate) fn message(
        self,
        graph: &mut Graph<Obj>,
        rec: u32,
        arrival: &Arrival<'_>,
        now: u64,
        out: &mut Teller<'_>,
    )
        requires chained { AreObjectsChained graph.old self }
        requires short { length arrival.now.body.now ≤ 65535 }
        ensures on { AreObjectsStill self graph.old graph.new }
        ensures does { DoesMessage self rec arrival.now now graph.old graph.new (told_so_far out.old) (told_so_far out.new) }
    {
        match self {
            OpenObjects::Chain { chain, .. } => chain.message(graph, rec, arrival, now, out),
            OpenObjects::Web { chain, .. } => chain.message(graph, rec, arrival, now, out),
            OpenObjects::Drive { chain, .. } => chain.message(graph, rec, arrival, now, out),
        }
    }

    /// Time has come to `now`, in milliseconds.
    pub(crate) fn time(self, graph: &mut Graph<Obj>, now: u64, out: &mut Teller<'_>)
        requires chained { AreObjectsChained graph.old self }
        ensures on { AreObjectsStill self graph.old graph.new }
        ensures does { DoesTime self now graph.old graph.new (told_so_far out.old) (told_so_far out.new) }
    {
        match self {
            OpenObjects::Chain { chain, .. } => chain.time(graph, now, out),
            OpenObjects::Web { chain, .. } => chain.time(graph, now, out),
            OpenObjects::Drive { chain, .. } => chain.time(graph, now, out),
        }
    }

    /// The user asks for so many blocks of a drive, from this one on, in the record `rec`.
    pub(crate) fn read(
        self,
        graph: &mut Graph<Obj>,
        rec: u32,
        block: u32,
        count: u16,
        now: u64,
        out: &mut Teller<'_>,
    )
        requires chained { AreObjectsChained graph.old self }
        requires drive { AreDriveObjects self }
        ensures on { AreObjectsStill self graph.old graph.new }
        ensures does { DoesRead self rec block count now graph.old graph.new (told_so_far out.old) (told_so_far out.new) }
    {
        match self {
            OpenObjects::Drive { chain, .. } => chain.read(graph, rec, block, count, now, out),
            OpenObjects::Chain { .. } | OpenObjects::Web { .. } => unreachable!(),
        }
    }

    /// The user closes them with this cause.
    pub(crate) fn close(self, graph: &mut Graph<Obj>, cause: &Cause, now: u64, out: &mut Teller<'_>)
        requires chained { AreObjectsChained graph.old self }
        ensures on { AreObjectsStill self graph.old graph.new }
        ensures closes { ClosesObjects self graph.old graph.new cause.now (told_so_far out.old) (told_so_far out.new) }
    {
        match self {
            OpenObjects::Chain { chain, .. } => chain.close(graph, cause, now, out),
            OpenObjects::Web { chain, .. } => chain.close(graph, cause, now, out),
            OpenObjects::Drive { chain, .. } => chain.close(graph, cause, now, out),
        }
    }

    /// Lets them go, the top one first.
    pub(crate) fn release(self, graph: &mut Graph<Obj>, out: &mut Teller<'_>)
        requires chained { AreObjectsChained graph.old self }
        requires shut { AreObjectsShut self graph.old }
        ensures { ReleasesObjects self graph.old graph.new (told_so_far out.old) (told_so_far out.new) }
    {
        match self {
            OpenObjects::Chain { chain, .. } => chain.release(graph, out),
            OpenObjects::Web { chain, .. } => chain.release(graph, out),
            OpenObjects::Drive { chain, .. } => chain.release(graph, out),
        }
    }

    /// What they have brought, if they have. A file is handed out once.
    pub(crate) fn collect(self, alloc: Global, graph: &mut Graph<Obj>) -> Result<Brought, NoMemory>
        requires chained { AreObjectsChained graph.old self }
        ensures on { AreObjectsStill self graph.old graph.new }
        ensures shut { AreObjectsShut self graph.old → AreObjectsShut self graph.new }
        ensures book { graph.new.book ≡ graph.old.book }
        ensures hands { IfOk result (HandsBrought self graph.old) }
    {
        match self {
            OpenObjects::Chain { chain, .. } => Ok(Brought {
                body: file_of(chain, graph),
                moved: None,
            }),
            OpenObjects::Web { chain, .. } => Ok(Brought {
                moved: copied(alloc, chain.moved(graph))?,
                body: chain.collect(graph),
            }),
            OpenObjects::Drive { .. } => Ok(Brought {
                body: None,
                moved: None,
            }),
        }
    }
}

/// The file that a chain has brought, if it has; one object alone brings none.
fn file_of(chain: Chain, graph: &mut Graph<Obj>) -> Option<Body>
    requires chained { AreChained graph.old (chain_ids chain) }
    ensures on { AreStillChained (chain_ids chain) graph.old graph.new }
    ensures shut { IsShutChain chain graph.old → IsShutChain chain graph.new }
    ensures book { graph.new.book ≡ graph.old.book }
    ensures hands { HandsFile chain result graph.old }
{
    match chain.below {
        Some(_) => chain.collect(graph),
        None => None,
    }
}

/// A copy of these bytes, if there are any.
fn copied(alloc: Global, bytes: Option<&[u8]>) -> Result<Option<Text>, NoMemory>
    ensures { IfOk result (λ copy. copy ≡ option_map (λ b. b.now) bytes.entry) }
{
    match bytes {
        Some(bytes) => Ok(Some(copy(alloc, bytes)?)),
        None => Ok(None),
    }
}
