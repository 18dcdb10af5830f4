ghost use Rattle.std.specs.Prelude.{IfOk};
ghost use Rattle.nb_chains.specs.Chains.{Awaits};
ghost use Rattle.nb_machine.specs.Lives.{Live};
ghost use Rattle.nb_open.specs.Begins.{AwaitsFor};
ghost use Rattle.nb_open.specs.Ends.{ClosesOpen, GivesUp, MayWaitBeside, WaitsApart, ShutsOr, ShutsWith};
ghost use Rattle.nb_open.specs.Objects.{AreObjectsChained, AreObjectsOpen};
ghost use Rattle.nb_open.specs.Open.{IsOpenOf, LivesSome};
ghost use Rattle.nb_open.specs.Settling.{told_so_far};

use crate::{Open, OpenObjects};
use nb_chains::{Chain, ChainKind};
use nb_graph::Graph;
use nb_nodes::Obj;
use nb_stack::Stack;
use nb_teller::{Desk, Speaker, Teller};
use nb_terms::{Cause, NoMemory};

impl Open {
    /// The user closes it with this cause, and its objects are let go. What was told stands on the desk.
    pub fn close(
        &self,
        graph: &mut Graph<Obj>,
        net: &Stack,
        cause: &Cause,
        now: u64,
        desk: Desk,
    ) -> Result<Desk, NoMemory>
        requires open { LivesSome graph.old self.now }
        ensures { IfOk result (λ d. ClosesOpen self.now cause.now net.now graph.old graph.new d.told.value) }
    {
        let Desk {
            mut room,
            made,
            told,
            freed,
        } = desk;
        let mut out = Teller::over(net, &self.speaker, told, &mut room);
        self.objects.close(graph, cause, now, &mut out);
        self.objects.release(graph, &mut out);
        let told = out.finish()?;
        Ok(Desk {
            room,
            made,
            told,
            freed,
        })
    }

    /// The run ends with this cause: all ports of its objects are closed, also those that nothing is plugged to, and its
    /// objects are let go; before them the ports of what waits for its open, of this kind, which is let go too.
    pub fn shut_down(
        &self,
        graph: &mut Graph<Obj>,
        net: &Stack,
        waits: Option<Chain>,
        kind: ChainKind,
        cause: &Cause,
        now: u64,
        desk: Desk,
    ) -> Result<Desk, NoMemory>
        requires chained { AreObjectsChained graph.old self.now.objects }
        requires waits { AwaitsFor kind waits graph.old }
        requires beside { MayWaitBeside waits self.now.objects }
        ensures { IfOk result (λ d. (l : Live) → IsOpenOf graph.old self.now l
            → ShutsWith kind self.now waits cause.now net.now graph.old graph.new d.told.value) }
    {
        let Desk {
            mut room,
            made,
            told,
            freed,
        } = desk;
        graph.has_nodes();
        let mut out = Teller::over(net, &self.speaker, told, &mut room);
        self.shut(graph, waits, kind, cause, now, &mut out);
        let told = out.finish()?;
        Ok(Desk {
            room,
            made,
            told,
            freed,
        })
    }

    /// All ports are closed, and all objects are let go.
    fn shut(
        &self,
        graph: &mut Graph<Obj>,
        waits: Option<Chain>,
        kind: ChainKind,
        cause: &Cause,
        now: u64,
        out: &mut Teller<'_>,
    )
        requires chained { AreObjectsChained graph.old self.now.objects }
        requires waits { AwaitsFor kind waits graph.old }
        requires beside { MayWaitBeside waits self.now.objects }
        ensures { AreObjectsOpen self.now.objects graph.old → WaitsApart waits self.now.objects
            → ShutsOr waits self.now.objects graph.old graph.new cause.now (told_so_far out.old) (told_so_far out.new) }
    {
        match (self.objects, waits) {
            (OpenObjects::Chain { chain, .. }, None) => chain.shut_down(graph, cause, now, out),
            (OpenObjects::Chain { chain, .. }, Some(waits)) => {
                chain.shut_down_beside(waits, kind, graph, cause, now, out)
            }
            // What waits does so beside the look-up of a name alone.
            (OpenObjects::Web { chain, .. }, _) => chain.shut_down(graph, cause, now, out),
            (OpenObjects::Drive { chain, .. }, _) => chain.shut_down(graph, cause, now, out),
        }
    }
}

/// Lets what waits go, since no open comes of it. What was told stands on the desk, under `freed`.
pub fn give_up(
    graph: &mut Graph<Obj>,
    net: &Stack,
    waits: Chain,
    kind: ChainKind,
    desk: Desk,
) -> Result<Desk, NoMemory>
    requires waits { Awaits kind waits graph.old }
    ensures { IfOk result (λ d. GivesUp kind waits graph.old graph.new d.freed.value) }
{
    let Desk {
        mut room,
        made,
        told,
        freed,
    } = desk;
    let who = Speaker::nobody();
    let mut out = Teller::over(net, &who, freed, &mut room);
    waits.give_up(graph, kind, &mut out);
    let freed = out.finish()?;
    Ok(Desk {
        room,
        made,
        told,
        freed,
    })
}
