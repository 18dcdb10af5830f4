ghost use Rattle.std.specs.Prelude.{◌≡◌, ◌+◌, ◌<◌, ◌^◌, ◌++◌, IfOk, OnOk, List, Some, length, true, false, ℕ};
ghost use Rattle.std.specs.Option.{option_map};
ghost use Rattle.nb_chains.specs.Chains.{AreChained, AreStillChained, chain_ids};
ghost use Rattle.nb_open.specs.Begins.{AwaitsFor, BeginsBeside, BeginsOpen};
ghost use Rattle.nb_open.specs.Making.{AsksChain, AsksDrive, AsksObjects, AsksWeb, StartsOpen};
ghost use Rattle.nb_open.specs.Objects.{AreObjectsChained, AreObjectsReady, AreObjectsStill};
ghost use Rattle.nb_open.specs.Opening.{CanOpen, chain_kind, is_drive_opening, is_joined, is_web, speaker_for};
ghost use Rattle.nb_open.specs.Settling.{told_so_far};
ghost use Rattle.nb_drivechains.specs.DriveChains.{drive_ids};
ghost use Rattle.nb_webchains.specs.WebChains.{web_ids};
ghost use Rattle.nb_webnodes.specs.WebAsks.{web_ask_in};

use crate::drive_bytes::drive_bytes;
use crate::making::make_waiting;
use crate::{KeptEnded, Open, OpenObjects, Opening};
use nb_chains::{Chain, ChainKind};
use nb_conns::ConnAsk;
use nb_drivechains::DriveChain;
use nb_graph::Graph;
use nb_nodes::Obj;
use nb_stack::Stack;
use nb_teller::{Desk, Room, Spelled, Teller};
use nb_terms::{Cause, NoMemory};
use nb_webchains::WebChain;
use nb_webnodes::WebAsk;
use std::alloc::Global;

/// The most bytes of a host and a path: with the 16 of a `ConnAsk` they have room in one message.
const MAX_ASK: usize = 0xffff_ffef;

/// An open that was begun.
#[derive(Drop)]
pub struct Begun {
    pub open: Open,
    /// Why it has ended at once, where there is no way to its server. Its objects are gone then.
    pub ended: Option<Cause>,
}

impl Opening<'_> {
    /// Makes the objects of the open of this number, or what is missing of them below what waits for it, and begins it in
    /// the record `rec`, at the time `now` in milliseconds. What was told of their making stands on the desk under `made`,
    /// and what was told since under `told`. An error where memory runs out, or the graph, which has room for `most`
    /// objects, has none for them.
    pub fn begin(
        &self,
        alloc: Global,
        graph: &mut Graph<Obj>,
        net: &Stack,
        most: usize,
        number: u16,
        waits: Option<Chain>,
        rec: u32,
        now: u64,
        desk: Desk,
    ) -> Result<(Begun, Desk), NoMemory>
        requires can { CanOpen self.now }
        requires room { graph.old.book.room ≡ most }
        requires serials { graph.old.book.made + 3 < 2 ^ 64 }
        requires waits { AwaitsFor (chain_kind self.now) waits graph.old }
        ensures { IfOk result (λ r. BeginsOpen self.now number now waits net.now graph.old graph.new r.1.made.value
            r.1.told.value r.0) }
    {
        let Desk {
            mut room,
            made,
            told,
            freed,
        } = desk;
        let speaker = self.speaker(number);
        let mut out = Teller::over(net, &speaker, made, &mut room);
        let objects = self.make_objects(alloc, graph, most, waits, &mut out)?;
        let made = out.finish()?;
        let open = Open { speaker, objects };
        let (ended, told) = self.set_out(alloc, &open, graph, net, rec, now, told, &mut room)?;
        let desk = Desk {
            room,
            made,
            told,
            freed,
        };
        Ok((Begun { open, ended }, desk))
    }

    /// The same, after the top object of another open, of this kind, was made, which waits for that.
    pub fn begin_beside(
        &self,
        alloc: Global,
        graph: &mut Graph<Obj>,
        net: &Stack,
        most: usize,
        kind: ChainKind,
        number: u16,
        rec: u32,
        now: u64,
        desk: Desk,
    ) -> Result<(Chain, Begun, Desk), NoMemory>
        requires can { CanOpen self.now }
        requires room { graph.old.book.room ≡ most }
        requires serials { graph.old.book.made + 4 < 2 ^ 64 }
        ensures { IfOk result (λ b. BeginsBeside kind self.now number now net.now graph.old graph.new b.2.made.value
            b.2.told.value b.0 b.1) }
    {
        let Desk {
            mut room,
            made,
            told,
            freed,
        } = desk;
        let speaker = self.speaker(number);
        let mut out = Teller::over(net, &speaker, made, &mut room);
        let waits = make_waiting(alloc, graph, most, kind, &mut out)?;
        let objects = self.make_objects(alloc, graph, most, None, &mut out)?;
        let made = out.finish()?;
        let open = Open { speaker, objects };
        let (ended, told) = self.set_out(alloc, &open, graph, net, rec, now, told, &mut room)?;
        let desk = Desk {
            room,
            made,
            told,
            freed,
        };
        Ok((waits, Begun { open, ended }, desk))
    }

    /// The user asks, of objects of which nothing was asked. Where there is no way to the server it is turned back.
    fn set_out(
        &self,
        alloc: Global,
        opened: &Open,
        graph: &mut Graph<Obj>,
        net: &Stack,
        rec: u32,
        now: u64,
        told: Box<Spelled>,
        room: &mut Room,
    ) -> Result<(Option<Cause>, Box<Spelled>), NoMemory>
        requires can { CanOpen self.now }
        requires chained { AreObjectsChained graph.old opened.now.objects }
        requires ready { AreObjectsReady self.now opened.now.objects graph.old }
        ensures { IfOk result (λ r. (number : ℕ) → opened.now.speaker ≡ speaker_for self.now number
            → StartsOpen self.now number now net.now opened.now graph.old graph.new r.1.value r.0) }
    {
        let mut out = Teller::over(net, &opened.speaker, told, room);
        graph.has_nodes();
        self.ask(alloc, opened.objects, graph, rec, now, &mut out)?;
        graph.has_nodes();
        let ended = opened.settle(alloc, graph, now, &mut out)?;
        let told = out.finish()?;
        Ok((cause_of(ended), told))
    }

    /// The user asks this of the objects.
    fn ask(
        &self,
        alloc: Global,
        objects: OpenObjects,
        graph: &mut Graph<Obj>,
        rec: u32,
        now: u64,
        out: &mut Teller<'_>,
    ) -> Result<(), NoMemory>
        requires can { CanOpen self.now }
        requires chained { AreObjectsChained graph.old objects }
        requires ready { AreObjectsReady self.now objects graph.old }
        ensures on { OnOk result (AreObjectsStill objects graph.old graph.new) }
        ensures asks { OnOk result (AsksObjects self.now objects graph.old graph.new now rec (told_so_far out.old) (told_so_far out.new)) }
    {
        match objects {
            OpenObjects::Chain { chain, .. } => {
                self.ask_chain(chain, graph, rec, now, out);
                Ok(())
            }
            OpenObjects::Web { chain, .. } => self.ask_web(alloc, chain, graph, rec, now, out),
            OpenObjects::Drive { chain, .. } => self.ask_drive(alloc, chain, graph, rec, now, out),
        }
    }

    /// The user asks this of a chain.
    fn ask_chain(
        &self,
        chain: Chain,
        graph: &mut Graph<Obj>,
        rec: u32,
        now: u64,
        out: &mut Teller<'_>,
    )
        requires other { is_joined self.now ≡ false }
        requires can { CanOpen self.now }
        requires chained { AreChained graph.old (chain_ids chain) }
        ensures on { AreStillChained (chain_ids chain) graph.old graph.new }
        ensures asks { AsksChain self.now chain graph.old graph.new now rec (told_so_far out.old) (told_so_far out.new) }
    {
        match self {
            Opening::File(ask) => chain.begin(graph, rec, &ask.head(), ask.path, now, out),
            Opening::Name(ask) => chain.begin(graph, rec, &ask.head(), ask.name, now, out),
            Opening::Lease(ask) => {
                let bytes = ask.bytes();
                chain.begin(graph, rec, bytes.as_slice(), &[], now, out)
            }
            Opening::Echo(ask) => {
                let bytes = ask.bytes();
                chain.begin(graph, rec, &bytes, &[], now, out)
            }
            Opening::Web(_) | Opening::Drive(_) => unreachable!(),
        }
    }

    /// The user asks this of the objects of an open by HTTP.
    fn ask_web(
        &self,
        alloc: Global,
        chain: WebChain,
        graph: &mut Graph<Obj>,
        rec: u32,
        now: u64,
        out: &mut Teller<'_>,
    ) -> Result<(), NoMemory>
        requires web { is_web self.now ≡ true }
        requires chained { AreChained graph.old (web_ids chain) }
        ensures on { OnOk result (AreStillChained (web_ids chain) graph.old graph.new) }
        ensures asks { OnOk result (AsksWeb self.now chain graph.old graph.new now rec (told_so_far out.old) (told_so_far out.new)) }
    {
        let Opening::Web(web) = self else {
            unreachable!();
        };
        let host = host_len(&web.ask)?;
        let first = head_of(alloc, web.ask.conn, web.ask.host)?;
        chain.begin(graph, rec, host, first.as_slice(), web.ask.path, now, out);
        Ok(())
    }

    /// The user asks this of the objects of a drive.
    fn ask_drive(
        &self,
        alloc: Global,
        chain: DriveChain,
        graph: &mut Graph<Obj>,
        rec: u32,
        now: u64,
        out: &mut Teller<'_>,
    ) -> Result<(), NoMemory>
        requires drive { is_drive_opening self.now ≡ true }
        requires can { CanOpen self.now }
        requires chained { AreChained graph.old (drive_ids chain) }
        ensures on { OnOk result (AreStillChained (drive_ids chain) graph.old graph.new) }
        ensures asks { OnOk result (AsksDrive self.now chain graph.old graph.new now rec (told_so_far out.old) (told_so_far out.new)) }
    {
        let Opening::Drive(drive) = self else {
            unreachable!();
        };
        let bytes = drive_bytes(alloc, &drive.ask)?;
        chain.begin(graph, rec, bytes.as_slice(), &[], now, out);
        Ok(())
    }
}

/// How many bytes the host has. An error where host and path have no room in one message.
fn host_len(ask: &WebAsk<'_>) -> Result<u32, NoMemory>
    ensures host { IfOk result (λ n. n ≡ length ask.now.host.now) }
    ensures short { IfOk result (λ n. 16 + (length ask.now.host.now + length ask.now.path.now) < 2 ^ 32) }
{
    let count = ask.host.len();
    if MAX_ASK < count || MAX_ASK - count < ask.path.len() {
        return Err(NoMemory);
    }
    Ok(count as u32)
}

/// The bytes that ask for a file by HTTP, up to its path: which connection, and the host.
fn head_of(alloc: Global, conn: ConnAsk, host: &[u8]) -> Result<Vec<u8>, NoMemory>
    // With a path after them they are read back.
    ensures readable { IfOk result (λ v. (path : List ℕ) → web_ask_in (length host.now) (v.items ++ path)
        ≡ Some (record { conn = conn; host = host.now; path = path })) }
    ensures len { IfOk result (λ v. length v.items ≡ 16 + length host.now) }
{
    let mut bytes = Vec::from_slice(alloc, &conn.bytes())?;
    bytes.extend_from_slice(host)?;
    Ok(bytes)
}

/// Why it has ended.
fn cause_of(ended: Option<KeptEnded>) -> Option<Cause>
    ensures { result ≡ option_map (λ e. e.cause) ended }
{
    match ended {
        Some(ended) => Some(ended.cause()),
        None => None,
    }
}
