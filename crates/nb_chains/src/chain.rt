ghost use Rattle.std.specs.Prelude.{◌≡◌, ◌+◌, ◌<◌, ◌≤◌, ◌^◌, ◌++◌, ◌∷◌, [], ℕ, List, Option, Some, true, length};
ghost use Rattle.nb_chains.specs.Calls.{arrival_said, BeginsChain, ClosesChain, ClosesPorts, IsOpenChain, ReceivesChain, ReleasesChain, ShutsChain, ShutsChainBeside, TicksChain};
ghost use Rattle.nb_chains.specs.Chains.{AreChained, AreOthers, Awaits, AreStillChained, IsShutChain, chain_ids, last_serial, own_graph, source_for};
ghost use Rattle.nb_chains.specs.Ends.{AreUnlinked, FreesSlots, HasNoLinks};
ghost use Rattle.nb_frames.specs.Frames.{is_one_of};
ghost use Rattle.nb_graph.specs.Deeds.{Wants};
ghost use Rattle.nb_graph.specs.Went.{WentOne};
ghost use Rattle.nb_graph.specs.Whole.{port_at};
ghost use Rattle.nb_ledger.specs.Ledger.{holds, object_lives};
ghost use Rattle.nb_ledger.specs.declared.event.GraphEvent.TheVariants.{LetGo};
ghost use Rattle.nb_ledger.specs.declared.port.ObjId.{ObjId as TheObjId};
ghost use Rattle.nb_nodes.specs.Objects.{obj_nature};
ghost use Rattle.nb_nodes.specs.Standing.{ObjStands};
ghost use Rattle.nb_opens.specs.Pairs.{HasHandedOut, body_in};
ghost use Rattle.nb_tftp.specs.History.{came, ticked};
ghost use Rattle.nb_tftp.specs.Received.{received};

use crate::arrival::Arrival;
use crate::kind::ChainKind;
use nb_graph::{Graph, Msg, ObjId, Outside, Port};
use nb_image::Body;
use nb_nodes::{ABOVE, BELOW, Load, Obj, Tag};
use nb_terms::Cause;
use nb_wire::Ip4;

/// The objects of an open on a graph, the top one first: one that stands alone, or one with another plugged below it. The
/// user is above the top one's slot 0, the network below the last one's slot 1.
#[derive(Clone, Copy, Debug, PartialEq, Eq)]
pub struct Chain {
    pub top: ObjId,
    pub below: Option<ObjId>,
}

impl Chain {
    /// The user begins the open in the record `rec`, at the time `now` in milliseconds, by these bytes in two parts.
    pub fn begin<O: Outside>(
        self,
        graph: &mut Graph<Obj>,
        rec: u32,
        first: &[u8],
        second: &[u8],
        now: u64,
        out: &mut O,
    )
        requires chained { AreChained graph.old (chain_ids self) }
        requires short { length first.now + length second.now < 2 ^ 32 }
        ensures on { AreStillChained (chain_ids self) graph.old graph.new }
        ensures begins { BeginsChain self graph.old graph.new (first.now ++ second.now) now rec (O.events out.old)
            (O.events out.new) }
    {
        let msg = Msg {
            tag: u8::from(Tag::Begin),
            rec,
            a: 0,
            b: 0,
            first,
            second,
        };
        graph.has_nodes();
        let _reach = graph.down(self.user(), &msg, now, out);
        graph.has_nodes();
    }

    /// A datagram or an echo reply comes in the record `rec`, at the time `now` in milliseconds.
    #[inline(always)]
    pub fn message<O: Outside>(
        self,
        graph: &mut Graph<Obj>,
        rec: u32,
        arrival: &Arrival<'_>,
        now: u64,
        out: &mut O,
    )
        requires chained { AreChained graph.old (chain_ids self) }
        requires short { length arrival.now.body.now ≤ 65535 }
        ensures on { AreStillChained (chain_ids self) graph.old graph.new }
        ensures receives { ReceivesChain self graph.old graph.new rec
            (came (received rec arrival.now.port arrival.now.body.now) now) (arrival_said rec arrival.now) now
            (O.events out.old) (O.events out.new) }
    {
        let msg = Msg {
            tag: u8::from(Tag::Datagram),
            rec,
            a: u32::from(arrival.port),
            b: self.source_for(arrival.source),
            first: arrival.body,
            second: &[],
        };
        graph.has_nodes();
        let _reach = graph.up(self.network(), &msg, now, out);
        graph.has_nodes();
    }

    /// Time has come to `now`, in milliseconds.
    pub fn time<O: Outside>(self, graph: &mut Graph<Obj>, now: u64, out: &mut O)
        requires { AreChained graph.old (chain_ids self) }
        ensures on { AreStillChained (chain_ids self) graph.old graph.new }
        ensures ticks { TicksChain self graph.old graph.new (ticked now) now (O.events out.old) (O.events out.new) }
    {
        graph.has_nodes();
        let _reach = graph.time(self.last(), now, out);
        graph.has_nodes();
    }

    /// The user closes the open with this cause: both ports of the top object.
    pub fn close<O: Outside>(self, graph: &mut Graph<Obj>, cause: &Cause, now: u64, out: &mut O)
        requires { AreChained graph.old (chain_ids self) }
        ensures on { AreStillChained (chain_ids self) graph.old graph.new }
        ensures closes { ClosesChain self graph.old graph.new cause.now (O.events out.old) (O.events out.new) }
    {
        graph.has_nodes();
        graph.close(self.user(), cause, now, out);
        graph.has_nodes();
        let lower = Port {
            obj: self.top,
            slot: BELOW,
        };
        graph.close(lower, cause, now, out);
        graph.has_nodes();
    }

    /// The bytes of the file that it has brought, if it has. They are handed out once.
    pub fn collect(self, graph: &mut Graph<Obj>) -> Option<Body>
        requires { AreChained graph.old (chain_ids self) }
        ensures on { AreStillChained (chain_ids self) graph.old graph.new }
        ensures body { (t : TheObjId) (body : Option (List ℕ)) → HasHandedOut (own_graph self graph.old) self.top.0 t.0 body
            → result ≡ body }
        ensures shut { IsShutChain self graph.old → IsShutChain self graph.new }
        // Every life, hold, rank, port and link.
        ensures book { graph.new.book ≡ graph.old.book }
    {
        graph.has_nodes();
        let load = graph.harvest(self.top);
        graph.has_nodes();
        body_in(load)
    }

    /// Lets its objects go, the top one first: none of them lives any more.
    pub fn release<O: Outside>(self, graph: &mut Graph<Obj>, out: &mut O)
        requires chained { AreChained graph.old (chain_ids self) }
        requires shut { IsShutChain self graph.old }
        ensures { ReleasesChain self graph.old graph.new (O.events out.old) (O.events out.new) }
    {
        graph.has_nodes();
        self.let_all_go(graph, out);
    }

    /// Lets its one object go, of which nothing was asked.
    pub fn give_up<O: Outside>(self, graph: &mut Graph<Obj>, kind: ChainKind, out: &mut O)
        requires waits { Awaits kind self graph.old }
        ensures { ReleasesChain self graph.old graph.new (O.events out.old) (O.events out.new) }
    {
        let _kind = kind;
        let_go(graph, self.top, out);
    }

    /// The end of a run: all ports of its objects are closed with this cause, by rising serial and slot, also those that
    /// nothing is plugged to, and its objects are let go as they were made.
    pub fn shut_down<O: Outside>(self, graph: &mut Graph<Obj>, cause: &Cause, now: u64, out: &mut O)
        requires { AreChained graph.old (chain_ids self) }
        ensures { IsOpenChain self graph.old → ShutsChain self graph.old graph.new cause.now (O.events out.old)
            (O.events out.new) }
    {
        self.close_ports(graph, cause, now, out);
        self.let_all_go(graph, out);
    }

    /// The end of a run where another chain waits beside this one: all ports are closed with this cause, first those of
    /// what waits; what waits is let go, and then the objects of this one.
    pub fn shut_down_beside<O: Outside>(
        self,
        waits: Chain,
        kind: ChainKind,
        graph: &mut Graph<Obj>,
        cause: &Cause,
        now: u64,
        out: &mut O,
    )
        requires chained { AreChained graph.old (chain_ids self) }
        requires waits { Awaits kind waits graph.old }
        ensures { AreOthers (chain_ids self) (chain_ids waits) → IsOpenChain self graph.old
            → ShutsChainBeside self waits graph.old graph.new cause.now (O.events out.old) (O.events out.new) }
    {
        let _kind = kind;
        graph.has_nodes();
        waits.close_ports(graph, cause, now, out);
        graph.has_nodes();
        self.close_ports(graph, cause, now, out);
        waits.let_all_go(graph, out);
        self.let_all_go(graph, out);
    }

    /// Closes all ports of its objects, the free ones last.
    fn close_ports<O: Outside>(self, graph: &mut Graph<Obj>, cause: &Cause, now: u64, out: &mut O)
        requires { AreChained graph.old (chain_ids self) }
        ensures on { AreStillChained (chain_ids self) graph.old graph.new }
        ensures closes { IsOpenChain self graph.old → ClosesPorts self graph.old graph.new cause.now (O.events out.old)
            (O.events out.new) }
    {
        self.close(graph, cause, now, out);
        graph.has_nodes();
        close_free(graph, self.top, cause, now, out);
        match self.below {
            None => {}
            Some(below) => close_free(graph, below, cause, now, out),
        }
    }

    /// Lets its objects go, the top one first, where they have no link.
    fn let_all_go<O: Outside>(self, graph: &mut Graph<Obj>, out: &mut O)
        ensures { HasNoLinks self.below self.top.0 graph.old → ReleasesChain self graph.old graph.new
            (O.events out.old) (O.events out.new) }
    {
        match self.below {
            None => let_go(graph, self.top, out),
            Some(below) => let_both_go(graph, self.top, below, out),
        }
    }

    /// The port to the user.
    fn user(self) -> Port
        ensures { result ≡ port_at self.top.0 0 }
    {
        Port {
            obj: self.top,
            slot: ABOVE,
        }
    }

    /// The port to the network.
    fn network(self) -> Port
        ensures { result ≡ port_at (last_serial self) 1 }
    {
        Port {
            obj: self.last(),
            slot: BELOW,
        }
    }

    /// The last object, which talks to the network.
    pub fn last(self) -> ObjId
        ensures { result.0 ≡ last_serial self }
    {
        match self.below {
            None => self.top,
            Some(below) => below,
        }
    }

    /// The address that the last object gets with a message: a Tftp needs none, as its server's is known.
    fn source_for(self, source: Ip4) -> u32
        ensures { result ≡ source_for self.below source.0 }
    {
        match self.below {
            None => source.0,
            Some(_) => 0,
        }
    }
}

/// The body in what was handed out.
fn body_in(load: Option<Load>) -> Option<Body>
    ensures { result ≡ body_in load }
{
    match load {
        Some(Load::Body(body)) => Some(body),
        Some(Load::Datagram(_)) => None,
        Some(Load::Conn(_)) => None,
        Some(Load::Text(_)) => None,
        None => None,
    }
}

/// Closes the two slots of an object that nothing is plugged to.
fn close_free<O: Outside>(graph: &mut Graph<Obj>, id: ObjId, cause: &Cause, now: u64, out: &mut O)
    ensures { (ids : List ℕ) → AreChained graph.old ids → is_one_of ids id.0 ≡ true
        → FreesSlots ids graph.old graph.new (O.events out.old) (O.events out.new) id.0 cause.now }
{
    graph.has_nodes();
    let first = Port { obj: id, slot: 2 };
    graph.close(first, cause, now, out);
    graph.has_nodes();
    let other = Port { obj: id, slot: 3 };
    graph.close(other, cause, now, out);
    graph.has_nodes();
}

/// Lets two objects go that have no link.
fn let_both_go<O: Outside>(graph: &mut Graph<Obj>, top: ObjId, below: ObjId, out: &mut O)
    ensures { AreUnlinked graph.old top.0 below.0
        → ReleasesChain (record { top = top; below = Some below }) graph.old graph.new (O.events out.old)
        (O.events out.new) }
{
    let_go(graph, top, out);
    let_go(graph, below, out);
}

/// Lets the hold of an object go that lives and has one.
fn let_go<O: Outside>(graph: &mut Graph<Obj>, id: ObjId, out: &mut O)
    ensures { object_lives graph.old.book id.0 ≡ true → 0 < holds graph.old.book id.0 → (now : ℕ)
        → WentOne ObjStands obj_nature now (Wants (LetGo id) ∷ []) graph.old graph.new (O.events out.old)
        (O.events out.new) }
{
    let _held = graph.let_go(id, out);
}
