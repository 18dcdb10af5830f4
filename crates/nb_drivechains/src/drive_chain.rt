ghost use Rattle.std.specs.Prelude.{◌≡◌, ◌++◌, Some, None};
ghost use Rattle.nb_chains.specs.Chains.{AreChained, AreStillChained};
ghost use Rattle.nb_ledger.specs.declared.event.GraphEvent.TheVariants.{Entered};
ghost use Rattle.nb_ledger.specs.declared.event.Way.TheVariants as way;
ghost use Rattle.nb_graph.specs.Whole.{port_at};
ghost use Rattle.nb_webchains.specs.WebCalls.{ClosesWeb, DoesWeb, ReleasesEach, ShutsWeb, begins_web, receives_web, ticks_web};
ghost use Rattle.nb_webchains.specs.WebChains.{IsOpenWeb, IsShutWeb};
ghost use Rattle.nb_drivechains.specs.DriveCalls.{reads_drive};
ghost use Rattle.nb_drivechains.specs.DriveChains.{AreOfDrive, drive_ids, three_of};

use nb_chains::Arrival;
use nb_drivenodes::DriveTag;
use nb_graph::{Graph, Msg, ObjId, Outside, Port};
use nb_nodes::{ABOVE, Obj};
use nb_terms::Cause;
use nb_webchains::WebChain;

/// The objects of a drive on a graph: a logical unit, a session plugged below it, and a connection below that. The user
/// is above the unit's slot 0, the network below the connection's slot 1.
#[derive(Clone, Copy, Debug, PartialEq, Eq)]
pub struct DriveChain {
    pub unit: ObjId,
    pub session: ObjId,
    pub conn: ObjId,
}

impl DriveChain {
    /// The three as any three of which each is plugged to the next.
    fn three(self) -> WebChain
        ensures { result ≡ three_of self }
    {
        WebChain {
            fetch: self.unit,
            web: self.session,
            conn: self.conn,
        }
    }

    /// The user begins the drive in the record `rec`, at the time `now` in milliseconds, by these bytes in two parts:
    /// those of a `DriveAsk`.
    pub fn begin<O: Outside>(
        self,
        graph: &mut Graph<Obj>,
        rec: u32,
        first: &[u8],
        second: &[u8],
        now: u64,
        out: &mut O,
    )
        requires { AreChained graph.old (drive_ids self) }
        ensures on { AreStillChained (drive_ids self) graph.old graph.new }
        ensures does { DoesWeb (three_of self) now (begins_web (three_of self) rec 0 (first.now ++ second.now)) None
            graph.old graph.new (O.events out.old) (O.events out.new) }
        ensures kinds { AreOfDrive self graph.old → AreOfDrive self graph.new }
    {
        self.three().begin(graph, rec, 0, first, second, now, out);
    }

    /// The user asks for so many blocks, from this one on, in the record `rec`.
    pub fn read<O: Outside>(
        self,
        graph: &mut Graph<Obj>,
        rec: u32,
        block: u32,
        count: u16,
        now: u64,
        out: &mut O,
    )
        requires { AreChained graph.old (drive_ids self) }
        ensures on { AreStillChained (drive_ids self) graph.old graph.new }
        ensures does { DoesWeb (three_of self) now (reads_drive self rec block count) None graph.old graph.new
            (O.events out.old) (O.events out.new) }
        ensures kinds { AreOfDrive self graph.old → AreOfDrive self graph.new }
    {
        let msg = Msg {
            tag: u8::from(DriveTag::Read),
            rec,
            a: block,
            b: u32::from(count),
            first: &[],
            second: &[],
        };
        graph.has_nodes();
        graph.has_links();
        let _reach = graph.down(self.user(), &msg, now, out);
        graph.has_nodes();
    }

    /// A segment comes in the record `rec`, at the time `now` in milliseconds. Its checksum is right between the two
    /// addresses.
    pub fn message<O: Outside>(
        self,
        graph: &mut Graph<Obj>,
        rec: u32,
        arrival: &Arrival<'_>,
        now: u64,
        out: &mut O,
    )
        requires { AreChained graph.old (drive_ids self) }
        ensures on { AreStillChained (drive_ids self) graph.old graph.new }
        ensures does { DoesWeb (three_of self) now (receives_web (three_of self) rec arrival.now)
            (Some (Entered (port_at self.conn.0 1) way.Up)) graph.old graph.new (O.events out.old) (O.events out.new) }
        ensures kinds { AreOfDrive self graph.old → AreOfDrive self graph.new }
    {
        self.three().message(graph, rec, arrival, now, out);
    }

    /// Time has come to `now`, in milliseconds.
    pub fn time<O: Outside>(self, graph: &mut Graph<Obj>, now: u64, out: &mut O)
        requires { AreChained graph.old (drive_ids self) }
        ensures on { AreStillChained (drive_ids self) graph.old graph.new }
        ensures does { DoesWeb (three_of self) now (ticks_web (three_of self))
            (Some (Entered (port_at self.conn.0 4) way.Time)) graph.old graph.new (O.events out.old) (O.events out.new) }
        ensures kinds { AreOfDrive self graph.old → AreOfDrive self graph.new }
    {
        self.three().time(graph, now, out);
    }

    /// The user closes the drive with this cause: both ports of the unit.
    pub fn close<O: Outside>(self, graph: &mut Graph<Obj>, cause: &Cause, now: u64, out: &mut O)
        requires { AreChained graph.old (drive_ids self) }
        ensures on { AreStillChained (drive_ids self) graph.old graph.new }
        ensures closes { ClosesWeb (three_of self) graph.old graph.new cause.now (O.events out.old) (O.events out.new) }
        ensures kinds { AreOfDrive self graph.old → AreOfDrive self graph.new }
    {
        self.three().close(graph, cause, now, out);
    }

    /// Lets its objects go, the top one first: none of them lives any more.
    pub fn release<O: Outside>(self, graph: &mut Graph<Obj>, out: &mut O)
        requires chained { AreChained graph.old (drive_ids self) }
        requires shut { IsShutWeb (three_of self) graph.old }
        ensures { ReleasesEach (drive_ids self) graph.old graph.new (O.events out.old) (O.events out.new) }
    {
        self.three().release(graph, out);
    }

    /// The end of a run: all ports of its objects are closed with this cause, by rising serial and slot, also those that
    /// nothing is plugged to, and its objects are let go as they were made.
    pub fn shut_down<O: Outside>(self, graph: &mut Graph<Obj>, cause: &Cause, now: u64, out: &mut O)
        requires { AreChained graph.old (drive_ids self) }
        ensures { IsOpenWeb (three_of self) graph.old → ShutsWeb (three_of self) graph.old graph.new cause.now
            (O.events out.old) (O.events out.new) }
    {
        self.three().shut_down(graph, cause, now, out);
    }

    /// The port to the user.
    fn user(self) -> Port
        ensures { result ≡ port_at self.unit.0 0 }
    {
        Port {
            obj: self.unit,
            slot: ABOVE,
        }
    }
}
