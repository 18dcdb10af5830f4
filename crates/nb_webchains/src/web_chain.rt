ghost use Rattle.std.specs.Prelude.{◌≡◌, ◌<◌, ◌++◌, [], ◌∷◌, ℕ, List, Option, Some, None, true};
ghost use Rattle.std.specs.Option.{option_map};
ghost use Rattle.nb_chains.specs.Chains.{AreChained, AreStillChained};
ghost use Rattle.nb_frames.specs.Frames.{is_one_of};
ghost use Rattle.nb_graph.specs.Deeds.{Closes, Wants};
ghost use Rattle.nb_graph.specs.Lived.{ObjectStands};
ghost use Rattle.nb_graph.specs.Trace.{NodeEntry};
ghost use Rattle.nb_graph.specs.Went.{WentOne};
ghost use Rattle.nb_graph.specs.Whole.{port_at};
ghost use Rattle.nb_ledger.specs.declared.event.GraphEvent.TheVariants.{Entered, LetGo};
ghost use Rattle.nb_ledger.specs.declared.event.Way.TheVariants as way;
ghost use Rattle.nb_ledger.specs.Ledger.{holds, object_lives};
ghost use Rattle.nb_nodes.specs.declared.load.Load.{Load as TheLoad};
ghost use Rattle.nb_nodes.specs.declared.obj.Obj.{Obj as TheObj};
ghost use Rattle.nb_nodes.specs.Fetches.{moved_in};
ghost use Rattle.nb_nodes.specs.Objects.{obj_nature};
ghost use Rattle.nb_nodes.specs.Standing.{ObjStands};
ghost use Rattle.nb_opens.specs.Pairs.{body_in};
ghost use Rattle.nb_webchains.specs.Releases.{AreLoose, GoesLoose};
ghost use Rattle.nb_webchains.specs.WebCalls.{ClosesWeb, DoesWeb, ReleasesEach, ShutsWeb, begins_web, file_brought, receives_web, text_of_obj, ticks_web};
ghost use Rattle.nb_webchains.specs.WebChains.{AreOfWeb, IsInOrder, IsOpenWeb, IsShutWeb, KeepKinds, web_ids};

use nb_chains::Arrival;
use nb_conns::StreamTag;
use nb_graph::{Graph, Msg, ObjId, Outside, Port};
use nb_image::Body;
use nb_nodes::{ABOVE, BELOW, Load, Obj};
use nb_terms::Cause;

/// The objects of an open by HTTP on a graph: a Fetch, a fetch by HTTP plugged below it, and a connection below that. The
/// user is above the Fetch's slot 0, the network below the connection's slot 1.
#[derive(Clone, Copy, Debug, PartialEq, Eq)]
pub struct WebChain {
    pub fetch: ObjId,
    pub web: ObjId,
    pub conn: ObjId,
}

impl WebChain {
    /// The user begins the open in the record `rec`, at the time `now` in milliseconds, by these bytes in two parts: those
    /// of a `ConnAsk`, then the host, which has so many, and the path.
    pub fn begin<O: Outside>(
        self,
        graph: &mut Graph<Obj>,
        rec: u32,
        host: u32,
        first: &[u8],
        second: &[u8],
        now: u64,
        out: &mut O,
    )
        requires { AreChained graph.old (web_ids self) }
        ensures on { AreStillChained (web_ids self) graph.old graph.new }
        ensures does { DoesWeb self now (begins_web self rec host (first.now ++ second.now)) None graph.old graph.new
            (O.events out.old) (O.events out.new) }
        ensures kinds { KeepKinds (web_ids self) graph.old graph.new }
    {
        let msg = Msg {
            tag: u8::from(StreamTag::Begin),
            rec,
            a: host,
            b: 0,
            first,
            second,
        };
        graph.has_nodes();
        graph.has_links();
        let _reach = graph.down(self.user(), &msg, now, out);
        graph.has_nodes();
    }

    /// A segment comes in the record `rec`, at the time `now` in milliseconds. Its checksum is right between the two
    /// addresses.
    #[inline(always)]
    pub fn message<O: Outside>(
        self,
        graph: &mut Graph<Obj>,
        rec: u32,
        arrival: &Arrival<'_>,
        now: u64,
        out: &mut O,
    )
        requires { AreChained graph.old (web_ids self) }
        ensures on { AreStillChained (web_ids self) graph.old graph.new }
        ensures does { DoesWeb self now (receives_web self rec arrival.now)
            (Some (Entered (port_at self.conn.0 1) way.Up)) graph.old graph.new (O.events out.old) (O.events out.new) }
        ensures kinds { KeepKinds (web_ids self) graph.old graph.new }
    {
        let msg = Msg {
            tag: u8::from(StreamTag::Segment),
            rec,
            a: u32::from(arrival.port),
            b: arrival.source.0,
            first: arrival.body,
            second: &[],
        };
        graph.has_nodes();
        graph.has_links();
        let _reach = graph.up(self.network(), &msg, now, out);
        graph.has_nodes();
    }

    /// Time has come to `now`, in milliseconds.
    pub fn time<O: Outside>(self, graph: &mut Graph<Obj>, now: u64, out: &mut O)
        requires { AreChained graph.old (web_ids self) }
        ensures on { AreStillChained (web_ids self) graph.old graph.new }
        ensures does { DoesWeb self now (ticks_web self) (Some (Entered (port_at self.conn.0 4) way.Time)) graph.old
            graph.new (O.events out.old) (O.events out.new) }
        ensures kinds { KeepKinds (web_ids self) graph.old graph.new }
    {
        graph.has_nodes();
        graph.has_links();
        let _reach = graph.time(self.conn, now, out);
        graph.has_nodes();
    }

    /// The user closes the open with this cause: both ports of the Fetch.
    pub fn close<O: Outside>(self, graph: &mut Graph<Obj>, cause: &Cause, now: u64, out: &mut O)
        requires { AreChained graph.old (web_ids self) }
        ensures on { AreStillChained (web_ids self) graph.old graph.new }
        ensures closes { ClosesWeb self graph.old graph.new cause.now (O.events out.old) (O.events out.new) }
        ensures kinds { KeepKinds (web_ids self) graph.old graph.new }
    {
        graph.has_nodes();
        graph.has_links();
        graph.close(self.user(), cause, now, out);
        graph.has_nodes();
        let lower = Port {
            obj: self.fetch,
            slot: BELOW,
        };
        graph.close(lower, cause, now, out);
        graph.has_nodes();
    }

    /// The bytes of the file that it has brought, if it has. They are handed out once.
    pub fn collect(self, graph: &mut Graph<Obj>) -> Option<Body>
        requires { AreChained graph.old (web_ids self) }
        ensures on { AreStillChained (web_ids self) graph.old graph.new }
        ensures body { AreOfWeb self graph.old → (t : List (NodeEntry TheObj TheLoad))
            → ObjectStands ObjStands graph.old self.fetch.0 t → result ≡ file_brought t }
        ensures shut { IsShutWeb self graph.old → IsShutWeb self graph.new }
        // Every life, hold, rank, port and link.
        ensures book { graph.new.book ≡ graph.old.book }
    {
        graph.has_nodes();
        let load = graph.harvest(self.fetch);
        body_in(load)
    }

    /// The URI that the file is at instead, where a move has ended the open.
    pub fn moved(self, graph: &Graph<Obj>) -> Option<&[u8]>
        ensures { AreOfWeb self graph.now → (t : List (NodeEntry TheObj TheLoad))
            → ObjectStands ObjStands graph.now self.fetch.0 t → object_lives graph.now.book self.fetch.0 ≡ true
            → option_map (λ text. text.now) result ≡ moved_in t }
    {
        match graph.node(self.fetch) {
            Some(node) => text_of(node),
            None => None,
        }
    }

    /// Lets its objects go, the top one first: none of them lives any more.
    pub fn release<O: Outside>(self, graph: &mut Graph<Obj>, out: &mut O)
        requires chained { AreChained graph.old (web_ids self) }
        requires shut { IsShutWeb self graph.old }
        ensures { ReleasesEach (web_ids self) graph.old graph.new (O.events out.old) (O.events out.new) }
    {
        self.let_all_go(graph, out);
    }

    /// The end of a run: all ports of its objects are closed with this cause, by rising serial and slot, also those that
    /// nothing is plugged to, and its objects are let go as they were made.
    pub fn shut_down<O: Outside>(self, graph: &mut Graph<Obj>, cause: &Cause, now: u64, out: &mut O)
        requires { AreChained graph.old (web_ids self) }
        ensures { IsOpenWeb self graph.old → ShutsWeb self graph.old graph.new cause.now (O.events out.old)
            (O.events out.new) }
    {
        self.close(graph, cause, now, out);
        close_free(graph, self.fetch, cause, now, out);
        close_free(graph, self.web, cause, now, out);
        close_free(graph, self.conn, cause, now, out);
        self.let_all_go(graph, out);
    }

    /// Lets its objects go, the top one first, where they have no link.
    fn let_all_go<O: Outside>(self, graph: &mut Graph<Obj>, out: &mut O)
        ensures { IsInOrder self → AreLoose (web_ids self) graph.old
            → ReleasesEach (web_ids self) graph.old graph.new (O.events out.old) (O.events out.new) }
    {
        let_go(graph, self.fetch, out);
        let_go(graph, self.web, out);
        let_go(graph, self.conn, out);
    }

    /// The port to the user.
    fn user(self) -> Port
        ensures { result ≡ port_at self.fetch.0 0 }
    {
        Port {
            obj: self.fetch,
            slot: ABOVE,
        }
    }

    /// The port to the network.
    fn network(self) -> Port
        ensures { result ≡ port_at self.conn.0 1 }
    {
        Port {
            obj: self.conn,
            slot: BELOW,
        }
    }
}

/// The body in what was handed out.
fn body_in(load: Option<Load>) -> Option<Body>
    ensures { result ≡ body_in load }
{
    match load {
        Some(Load::Body(body)) => Some(body),
        Some(Load::Datagram(_)) => None,
        Some(Load::Conn(_)) => None,
        Some(Load::Text(_)) => None,
        None => None,
    }
}

/// The text of the move that has ended a Fetch.
fn text_of(node: &Obj) -> Option<&[u8]>
    ensures { option_map (λ text. text.now) result ≡ text_of_obj node.now }
{
    match node {
        Obj::Fetch(fetch) => fetch.moved(),
        Obj::Http(_) => None,
        Obj::Tcp(_) => None,
        Obj::Iscsi(_) => None,
        Obj::Disk(_) => None,
        Obj::Tftp(_) => None,
        Obj::Resolver(_) => None,
        Obj::Dhcp(_) => None,
        Obj::Ping(_) => None,
    }
}

/// Closes the two slots of an object that nothing is plugged to.
fn close_free<O: Outside>(graph: &mut Graph<Obj>, id: ObjId, cause: &Cause, now: u64, out: &mut O)
    ensures { (ids : List ℕ) → AreChained graph.old ids → is_one_of ids id.0 ≡ true
        → GoesLoose ids id.0 graph.old graph.new (O.events out.old) (O.events out.new) }
{
    graph.has_nodes();
    let first = Port { obj: id, slot: 2 };
    graph.close(first, cause, now, out);
    graph.has_nodes();
    let other = Port { obj: id, slot: 3 };
    graph.close(other, cause, now, out);
    graph.has_nodes();
}

/// Lets the hold of an object go that lives and has one.
fn let_go<O: Outside>(graph: &mut Graph<Obj>, id: ObjId, out: &mut O)
    ensures { object_lives graph.old.book id.0 ≡ true → 0 < holds graph.old.book id.0 → (now : ℕ)
        → WentOne ObjStands obj_nature now (Wants (LetGo id) ∷ []) graph.old graph.new (O.events out.old)
        (O.events out.new) }
{
    let _held = graph.let_go(id, out);
}
