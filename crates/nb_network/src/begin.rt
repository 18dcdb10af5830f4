ghost use Rattle.std.specs.Prelude.{◌≡◌, ◌+◌, ◌<◌, ◌≤◌, ◌^◌, ◌++◌, ◌∷◌, ℕ, List, [], IfOk, OnOk, Some};
ghost use Rattle.nb_chains.specs.declared.chain.Chain.{Chain as TheChain};
ghost use Rattle.nb_chains.specs.declared.kind.ChainKind.TheVariants as chain;
ghost use Rattle.nb_defs.specs.Records.{Out, out_texts};
ghost use Rattle.nb_ledger.specs.declared.event.GraphEvent.{GraphEvent};
ghost use Rattle.nb_network.specs.Many.{AreSound, HasNoneTied, IsNewestBut, WaitsBeside, port_for};
ghost use Rattle.nb_machine.specs.Lives.{open_record};
ghost use Rattle.nb_network.specs.Openings.{EntersBy, OpensOne, begun_records, bound_for, number_by};
ghost use Rattle.nb_network.specs.Takes.{KeepsWaiting};
ghost use Rattle.nb_open.specs.Begins.{IsLatest, AwaitsFor, waiting_pieces};
ghost use Rattle.nb_open.specs.Open.{pieces_of};
ghost use Rattle.nb_open.specs.Opening.{CanOpen, chain_kind, live_by, own_by};
ghost use Rattle.nb_record.specs.Logged.{Puts};
ghost use Rattle.nb_traced.specs.Pieces.{event_records};

use crate::opens::OBJECTS;
use crate::{Living, Opens};
use nb_chains::{Chain, ChainKind};
use nb_open::{Begun, Opening};
use nb_record::{Log, OutRec};
use nb_stack::Stack;
use nb_teller::{Desk, put_over};
use nb_terms::{Cause, NoMemory};
use std::alloc::Global;

/// The kinds of opens, as OPEN has them.
const TFTP: u8 = 1;

const HTTP: u8 = 2;

const ISCSI: u8 = 3;

const DNS: u8 = 4;

const DHCP: u8 = 5;

const ECHO: u8 = 6;

impl Opens {
    /// Begins the open of this number in the record `rec`, at the time `now` in milliseconds: its first message leaves, and
    /// its port is bound. What has waited for it, of its kind, is its top object. Returns why it has ended at once, where there
    /// is no way to its server. What was told stands on the desk: `put_begun` puts it.
    pub fn begin(
        &mut self,
        alloc: Global,
        net: &mut Stack,
        opening: &Opening<'_>,
        number: u16,
        waits: Option<Chain>,
        rec: u32,
        now: u64,
        desk: Desk,
    ) -> Result<(Option<Cause>, Desk), NoMemory>
        requires can { CanOpen opening.now }
        requires sound { (w : ℕ) × AreSound w number net.old self.old }
        requires serials { self.old.graph.book.made < 2 ^ 63 }
        requires waits { AwaitsFor (chain_kind opening.now) waits self.old.graph }
        requires latest { IsLatest waits self.old.graph }
        requires beside { (c : TheChain) → waits ≡ Some c → WaitsBeside (chain_kind opening.now) c self.old }
        ensures opens { IfOk result (λ r. (w : ℕ) → AreSound w number net.old self.old
            → OpensOne self.old net.old now number opening.now (waiting_pieces (chain_kind opening.now) waits) [] self.new
            net.new r.0 r.1.made.value.text r.1.told.value.text) }
        ensures sound { OnOk result ((w : ℕ) → AreSound w number net.old self.old → number < 16384
            → own_by opening.now ≡ port_for (chain_kind opening.now) w number
            → (chain_kind opening.now ≡ chain.Lease → HasNoneTied self.old) → AreSound w (number + 1) net.new self.new) }
        ensures serials { OnOk result (self.new.graph.book.made ≤ self.old.graph.book.made + 3) }
        ensures mac { net.new.mac ≡ net.old.mac }
        ensures address { net.new.address ≡ net.old.address }
        ensures up { net.new.up ≡ net.old.up }
        ensures near { net.new.near ≡ net.old.near }
    {
        let (begun, desk) = opening.begin(
            alloc,
            &mut self.graph,
            net,
            OBJECTS,
            number,
            waits,
            rec,
            now,
            desk,
        )?;
        self.graph.has_nodes();
        let Begun { open, ended } = begun;
        let fresh = Living::of(alloc, open, opening)?;
        let ended = self.enter(net, fresh, ended)?;
        Ok((ended, desk))
    }

    /// The same of an open beside which the top object of another, of this kind, waits for that.
    pub fn begin_beside(
        &mut self,
        alloc: Global,
        net: &mut Stack,
        opening: &Opening<'_>,
        kind: ChainKind,
        number: u16,
        rec: u32,
        now: u64,
        desk: Desk,
    ) -> Result<(Chain, Option<Cause>, Desk), NoMemory>
        requires can { CanOpen opening.now }
        requires sound { (w : ℕ) × AreSound w number net.old self.old }
        requires serials { self.old.graph.book.made < 2 ^ 63 }
        ensures opens { IfOk result (λ b. (w : ℕ) → AreSound w number net.old self.old
            → OpensOne self.old net.old now number opening.now [] (pieces_of kind b.0) self.new net.new b.1
            b.2.made.value.text b.2.told.value.text) }
        ensures waits { IfOk result (λ b. WaitsBeside kind b.0 self.new) }
        ensures newest { IfOk result (λ b. IsNewestBut (number_by b.1 number) b.0 self.new) }
        ensures sound { OnOk result ((w : ℕ) → AreSound w number net.old self.old → number < 16384
            → own_by opening.now ≡ port_for (chain_kind opening.now) w number
            → (chain_kind opening.now ≡ chain.Lease → HasNoneTied self.old) → AreSound w (number + 1) net.new self.new) }
        ensures serials { OnOk result (self.new.graph.book.made ≤ self.old.graph.book.made + 4) }
        ensures mac { net.new.mac ≡ net.old.mac }
        ensures address { net.new.address ≡ net.old.address }
        ensures up { net.new.up ≡ net.old.up }
        ensures near { net.new.near ≡ net.old.near }
    {
        let (waits, begun, desk) = opening.begin_beside(
            alloc,
            &mut self.graph,
            net,
            OBJECTS,
            kind,
            number,
            rec,
            now,
            desk,
        )?;
        self.graph.has_nodes();
        let Begun { open, ended } = begun;
        let fresh = Living::of(alloc, open, opening)?;
        let ended = self.enter(net, fresh, ended)?;
        Ok((waits, ended, desk))
    }

    /// An open that was begun lives from now on, and its port is bound, unless it has ended.
    fn enter(
        &mut self,
        net: &mut Stack,
        fresh: Living,
        ended: Option<Cause>,
    ) -> Result<Option<Cause>, NoMemory>
        ensures graph { self.new.graph ≡ self.old.graph }
        ensures enters { IfOk result (λ r. (r ≡ ended) × EntersBy r fresh self.old.list net.old self.new.list net.new) }
        ensures mac { net.new.mac ≡ net.old.mac }
        ensures address { net.new.address ≡ net.old.address }
        ensures up { net.new.up ≡ net.old.up }
        ensures near { net.new.near ≡ net.old.near }
    {
        if ended.is_none() {
            self.live_on(net, fresh)?;
        }
        Ok(ended)
    }

    /// This open lives from now on, and its port is bound.
    fn live_on(&mut self, net: &mut Stack, fresh: Living) -> Result<(), NoMemory>
        ensures graph { self.new.graph ≡ self.old.graph }
        ensures list { OnOk result (self.new.list ≡ self.old.list ++ fresh ∷ []) }
        ensures net { OnOk result (net.new ≡ bound_for net.old fresh) }
        ensures mac { net.new.mac ≡ net.old.mac }
        ensures address { net.new.address ≡ net.old.address }
        ensures up { net.new.up ≡ net.old.up }
        ensures near { net.new.near ≡ net.old.near }
    {
        let (proto, port) = (fresh.speaker.carrier.number(), fresh.speaker.own_port);
        if net.is_bound(proto, port) {
            return Err(NoMemory);
        }
        if net
            .bind(proto, port, u64::from(fresh.speaker.number))
            .is_err()
        {
            return Err(NoMemory);
        }
        self.list.push(fresh)?;
        Ok(())
    }
}

/// Puts what was told of an open that was begun: its objects, its OPEN, its first message, and its end.
pub fn put_begun(
    opening: &Opening<'_>,
    number: u16,
    ended: Option<Cause>,
    desk: &Desk,
    log: &mut Log,
)
    requires can { CanOpen opening.now }
    ensures { (made : List GraphEvent) (told : List Out) (since : ℕ) → desk.now.made.value.text ≡ out_texts (event_records made)
        → desk.now.told.value.text ≡ out_texts told
        → Puts log.old log.new (out_texts (begun_records made (live_by opening.now number since) told ended)) }
{
    log.append(desk.made.text());
    put_opened(opening, number, log);
    log.append(desk.told.text());
    if let Some(cause) = ended {
        put_over(number, cause, log);
    }
}

/// Puts the open.
fn put_opened(opening: &Opening<'_>, number: u16, log: &mut Log)
    requires can { CanOpen opening.now }
    ensures { (since : ℕ) → Puts log.old log.new (out_texts (open_record (live_by opening.now number since) ∷ [])) }
{
    let who = opening.speaker(number);
    let (kind, port, target): (u8, u16, &[u8]) = match opening {
        Opening::File(ask) => (TFTP, ask.port, ask.path),
        Opening::Web(web) => (HTTP, web.ask.conn.peer_port, web.url),
        Opening::Drive(drive) => (ISCSI, drive.ask.conn.peer_port, drive.target),
        Opening::Name(ask) => (DNS, 53, ask.name),
        Opening::Lease(_) => (DHCP, 67, b""),
        Opening::Echo(_) => (ECHO, 0, b""),
    };
    log.put(&OutRec::Opened {
        number,
        kind,
        server: who.server,
        port,
        own: who.own_port,
        target,
    });
}
