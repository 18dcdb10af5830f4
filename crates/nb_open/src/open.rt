ghost use Rattle.std.specs.Prelude.{◌≡◌, ◌≤◌, None, Some, length, IfOk, OnOk};
ghost use Rattle.nb_ledger.specs.declared.event.Way.TheVariants as way;
ghost use Rattle.nb_machine.specs.CommandRecords.{no_route};
ghost use Rattle.nb_machine.specs.Lives.{Live, OpenInput, task, time as time_comes};
ghost use Rattle.nb_open.specs.Exchanges.{Exchanges, IsInput};
ghost use Rattle.nb_open.specs.Objects.{AreObjectsChained, AreObjectsShut, AreDriveObjects};
ghost use Rattle.nb_open.specs.Open.{IsOpenOf, LivesSome};
ghost use Rattle.nb_teller.specs.Spelling.{IsWholeSpelling};
ghost use Rattle.nb_open.specs.Settling.{LetsObjectsGo, MaySettle, SettlesOpen, told_so_far};

use crate::objects::Brought;
use crate::{Ended, KeptEnded, OpenObjects};
use nb_chains::Arrival;
use nb_graph::Graph;
use nb_nodes::Obj;
use nb_stack::Stack;
use nb_teller::{Desk, Speaker, Teller};
use nb_terms::{Cause, NoMemory};
use nb_wire::Ip4;
use std::alloc::Global;

/// The code of a cause: there is no way to the server.
const NO_ROUTE: u8 = 9;

/// An open that lives: who speaks for it, and its objects on the graph.
#[derive(Clone, Copy, Debug)]
pub struct Open {
    /// Its number and server, and the client's port.
    pub speaker: Speaker,
    /// Its objects.
    pub objects: OpenObjects,
}

impl Open {
    /// A datagram, an echo reply or a segment comes for it in the record `rec`, at the time `now` in milliseconds. Where it
    /// ends, its objects are let go, and what it has found stands on the desk. All that was told stands there, spelled.
    #[inline(always)]
    pub fn receive(
        &self,
        alloc: Global,
        graph: &mut Graph<Obj>,
        net: &Stack,
        rec: u32,
        arrival: &Arrival<'_>,
        now: u64,
        desk: Desk,
    ) -> Result<(Option<KeptEnded>, Desk), NoMemory>
        requires open { LivesSome graph.old self.now }
        requires short { length arrival.now.body.now ≤ 65535 }
        ensures { IfOk result (λ r. (l : Live) (came : OpenInput) → IsOpenOf graph.old self.now l → IsInput self.now l rec arrival.now now came
            → Exchanges self.now l came net.now (Some way.Up) graph.old graph.new r.1.told.value r.0) }
    {
        let Desk {
            mut room,
            made,
            told,
            freed,
        } = desk;
        let mut out = Teller::over(net, &self.speaker, told, &mut room);
        let _port = arrival.port;
        self.objects.message(graph, rec, arrival, now, &mut out);
        let ended = self.settle(alloc, graph, now, &mut out)?;
        let told = out.into_told();
        let desk = Desk {
            room,
            made,
            told,
            freed,
        };
        Ok((ended, desk))
    }

    /// Time has come to `now`, in milliseconds.
    pub fn pass_time(
        &self,
        alloc: Global,
        graph: &mut Graph<Obj>,
        net: &Stack,
        now: u64,
        desk: Desk,
    ) -> Result<(Option<KeptEnded>, Desk), NoMemory>
        requires open { LivesSome graph.old self.now }
        ensures { IfOk result (λ r. (l : Live) → IsOpenOf graph.old self.now l
            → Exchanges self.now l (time_comes now) net.now (Some way.Time) graph.old graph.new r.1.told.value r.0) }
    {
        let Desk {
            mut room,
            made,
            told,
            freed,
        } = desk;
        let mut out = Teller::over(net, &self.speaker, told, &mut room);
        self.objects.time(graph, now, &mut out);
        let ended = self.settle(alloc, graph, now, &mut out)?;
        let told = out.into_told();
        let desk = Desk {
            room,
            made,
            told,
            freed,
        };
        Ok((ended, desk))
    }

    /// The user asks this drive for so many blocks, from this one on, in the record `rec`. It does so only within the unit, at
    /// most 64 at once, while nothing else is asked of it.
    pub fn ask(
        &self,
        alloc: Global,
        graph: &mut Graph<Obj>,
        net: &Stack,
        rec: u32,
        block: u32,
        count: u16,
        now: u64,
        desk: Desk,
    ) -> Result<(Option<KeptEnded>, Desk), NoMemory>
        requires open { LivesSome graph.old self.now }
        requires drive { AreDriveObjects self.now.objects }
        ensures { IfOk result (λ r. (l : Live) → IsOpenOf graph.old self.now l
            → Exchanges self.now l (task (record { lba = block; blocks = count }) now) net.now None graph.old graph.new r.1.told.value r.0) }
    {
        let Desk {
            mut room,
            made,
            told,
            freed,
        } = desk;
        let mut out = Teller::over(net, &self.speaker, told, &mut room);
        self.objects.read(graph, rec, block, count, now, &mut out);
        let ended = self.settle(alloc, graph, now, &mut out)?;
        let told = out.into_told();
        let desk = Desk {
            room,
            made,
            told,
            freed,
        };
        Ok((ended, desk))
    }

    /// Lets its objects go where it has ended, or where a message found no route.
    #[inline(always)]
    pub(crate) fn settle(
        &self,
        alloc: Global,
        graph: &mut Graph<Obj>,
        now: u64,
        out: &mut Teller<'_>,
    ) -> Result<Option<KeptEnded>, NoMemory>
        requires chained { AreObjectsChained graph.old self.now.objects }
        requires may { MaySettle self.now out.old.told.value graph.old }
        ensures settles { IfOk result (SettlesOpen self.now out.old.told.value graph.old graph.new (told_so_far out.old)
            (told_so_far out.new)) }
        ensures whole { OnOk result (IsWholeSpelling out.new.told.value) }
    {
        match out.told.first_close()? {
            Some(cause) => Ok(Some(self.end(alloc, graph, cause, out)?)),
            None if out.told.is_stuck() => {
                let cause = no_route(self.speaker.server);
                self.objects.close(graph, &cause, now, out);
                Ok(Some(self.end(alloc, graph, cause, out)?))
            }
            None => Ok(None),
        }
    }

    /// Takes what it has brought out of its objects, and lets them go.
    #[inline(never)]
    fn end(
        &self,
        alloc: Global,
        graph: &mut Graph<Obj>,
        cause: Cause,
        out: &mut Teller<'_>,
    ) -> Result<KeptEnded, NoMemory>
        requires chained { AreObjectsChained graph.old self.now.objects }
        requires shut { AreObjectsShut self.now.objects graph.old }
        ensures cause { IfOk result (λ e. e.cause ≡ cause) }
        ensures lets { IfOk result (λ e. LetsObjectsGo self.now.objects e graph.old graph.new (told_so_far out.old) (told_so_far out.new)) }
        ensures whole { OnOk result (IsWholeSpelling out.new.told.value) }
    {
        let Brought { body, moved } = self.objects.collect(alloc, graph)?;
        self.objects.release(graph, out);
        out.check()?;
        let ended = KeptEnded::of(alloc, Ended { cause, body, moved })?;
        Ok(ended)
    }
}

/// There is no way to this server.
fn no_route(server: Ip4) -> Cause
    ensures { result ≡ no_route server.0 }
{
    Cause {
        code: NO_ROUTE,
        a: server.0,
        b: 0,
    }
}
