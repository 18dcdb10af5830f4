ghost use Rattle.std.specs.Prelude.{◌≡◌, ◌+◌, ◌<◌, ◌≤◌, ◌*◌, ◌++◌, ◌∷◌, ℕ, List, [], None, IfOk, OnOk, Some};
ghost use Rattle.std.specs.Option.{option_copied};
ghost use Rattle.nb_chains.specs.declared.chain.Chain.{Chain as TheChain};
ghost use Rattle.nb_chains.specs.declared.kind.ChainKind.{ChainKind as TheKind};
ghost use Rattle.nb_defs.specs.Records.{Out, out_texts};
ghost use Rattle.nb_defs.specs.Records as defs;
ghost use Rattle.nb_traced.specs.Pieces.{event_records};
ghost use Rattle.nb_ledger.specs.declared.event.GraphEvent.{GraphEvent};
ghost use Rattle.nb_record.specs.Logged.{Puts};
ghost use Rattle.nb_runner.specs.World.{IsLinkOfState, with_ended_open};
ghost use Rattle.nb_machine.specs.Running.{with_result};
ghost use Rattle.nb_network.specs.Many.{AreSound, HasNoneTied, WaitsBeside, port_for};
ghost use Rattle.nb_network.specs.Openings.{AsksFrom, begun_records};
ghost use Rattle.nb_open.specs.Begins.{waiting_pieces};
ghost use Rattle.nb_open.specs.Opening.{CanOpen, chain_kind, live_by, own_by};
ghost use Rattle.nb_client.specs.Asked.{beside_kind, errand_kind};
ghost use Rattle.nb_client.specs.Beginnings.{BeginsNext, IsKindBeside, DropsWaiting, OpensOwn, asked_kind};
ghost use Rattle.nb_client.specs.Openings.{IsShownWell, Opened, begun_script, front_records};
ghost use Rattle.nb_client.specs.Soundness.{FitsAsked, HasRoomFor, HasWaiting, IsBacked, IsSound, snapshot_at};
ghost use Rattle.nb_client.specs.declared.pending.Expected.TheVariants as expected;
ghost use Rattle.nb_client.specs.declared.stage.Stage.TheVariants as stage;

use crate::next_open::opening_of;
use crate::site::Site;
use crate::{Asked, Expected, KeptPending, Pending, Stage};
use nb_chains::{Chain, ChainKind};
use nb_network::put_begun;
use nb_open::Opening;
use nb_record::{Cause, Log, NoMemory};
use nb_runner::{Errand, Query, RunningScript};
use nb_teller::{Desk, lent, put_result, put_told};
use nb_wire::Word;

/// An open that was begun for a command.
#[derive(Drop)]
pub struct NewOpen {
    /// Why it has ended at once, where there is no way to its server.
    ended: Option<Cause>,
    /// What waits beside it.
    waits: Option<Chain>,
    /// What was told of it.
    desk: Desk,
}

/// The kind of what waits beside an open for this, if anything does: of the look-up of a server's name alone.
fn beside(asked: &Asked) -> Option<ChainKind>
    ensures { IsKindBeside result asked.now }
{
    match asked {
        Asked::Query(Query::Host { errand, .. }) => Some(errand_kind(errand)),
        Asked::Query(Query::Lease | Query::Echo(_) | Query::Address { .. })
        | Asked::File(_)
        | Asked::Disk(_)
        | Asked::Block(_) => None,
    }
}

/// The kind of what waits beside an open for this; else no matter which.
pub(crate) fn kind_beside(asked: &Asked) -> ChainKind
    ensures { result ≡ beside_kind asked.now }
{
    match asked {
        Asked::Query(Query::Host { errand, .. }) => errand_kind(errand),
        Asked::Query(Query::Echo(_)) => ChainKind::Echo,
        Asked::Query(Query::Lease | Query::Address { .. })
        | Asked::File(_)
        | Asked::Disk(_)
        | Asked::Block(_) => ChainKind::File,
    }
}

/// The kind of the open that is next.
fn errand_kind(errand: &Errand) -> ChainKind
    ensures { result ≡ errand_kind errand.now }
{
    match errand {
        Errand::File(_) => ChainKind::File,
        Errand::Echo => ChainKind::Echo,
        Errand::Disk(_) => ChainKind::Drive,
    }
}

/// The script, once its command has begun, where COMMAND is put.
fn entered(mut script: RunningScript, shown: Option<&[Word]>) -> RunningScript
    requires { IsShownWell (option_copied shown) script }
    ensures { result ≡ begun_script (option_copied shown.entry) script }
{
    if shown.is_some() {
        script.enter();
    }
    script
}

/// Puts COMMAND, where these words are shown, and what was told of an open that was begun.
fn put_opened(
    script: &RunningScript,
    shown: Option<&[Word]>,
    number: u16,
    opening: &Opening<'_>,
    made: &NewOpen,
    log: &mut Log,
)
    requires shown { IsShownWell (option_copied shown) script.now }
    requires can { CanOpen opening.now }
    ensures { (events : List GraphEvent) (told : List Out) (since : ℕ) → made.now.desk.made.value.text ≡ out_texts (event_records events)
        → made.now.desk.told.value.text ≡ out_texts told
        → Puts log.old log.new (out_texts (front_records (option_copied shown.entry) script.now
        ++ begun_records events (live_by opening.now number since) told made.now.ended)) }
{
    if let Some(words) = shown {
        script.put_begun(true, words, log);
    }
    put_begun(opening, number, made.ended, &made.desk, log);
}

impl Site {
    /// Begins an open for what a command asks; of what has waited for it, it has its top object. The command waits for it, unless
    /// there is no way to its server. COMMAND is put where words are shown: where the command begins with the open. Where
    /// memory runs out, what was put counts for nothing.
    pub(crate) fn open(
        &mut self,
        script: RunningScript,
        shown: Option<&[Word]>,
        asked: Asked,
        waits: Option<Chain>,
        out: &mut Log,
    ) -> Result<Stage, NoMemory>
        requires sound { IsSound self.old.used self.old.world self.old.opens (stage.Running script) }
        requires shown { IsShownWell (option_copied shown) script }
        requires few { self.old.world.opens < 16384 }
        requires fits { FitsAsked asked }
        requires opens { OpensOwn asked }
        requires room { HasRoomFor asked self.old.world.state.drives }
        requires waiting { HasWaiting (asked_kind asked) waits None self.old.opens }
        requires lone { (c : TheChain) → IsBacked asked (Some c) → waits ≡ None }
        ensures { IfOk result (λ st. Opened asked (waiting_pieces (asked_kind asked) waits) (option_copied shown.entry) script self.old
            (snapshot_at self.new st) out.old out.new) }
    {
        let number = self.world.opens;
        let pending = KeptPending::of(
            self.alloc,
            Pending {
                number,
                asked,
                waits: None,
            },
        )?;
        let kind = kind_beside(&pending.get().asked);
        let opening = opening_of(&self.world, &pending.get().asked);
        let made = self.begin(&pending.get().asked, &opening, waits)?;
        put_opened(&script, shown, number, &opening, &made, out);
        let script = entered(script, shown);
        match made.ended {
            None => Ok(self.wait_for(script, pending, made)),
            Some(cause) => self.turn_back(script, cause, kind, made, out),
        }
    }

    /// The open's first message leaves, if there is a way. What waits for the open that is next is made before it.
    fn begin(
        &mut self,
        asked: &Asked,
        opening: &Opening<'_>,
        waits: Option<Chain>,
    ) -> Result<NewOpen, NoMemory>
        requires can { CanOpen opening.now }
        requires own { own_by opening.now ≡ port_for (chain_kind opening.now) self.old.world.w self.old.world.opens }
        requires address { AsksFrom self.old.world.net.address opening.now }
        requires few { self.old.world.opens < 16384 }
        requires sound { AreSound self.old.world.w self.old.world.opens self.old.world.net self.old.opens }
        requires serials { self.old.opens.graph.book.made ≤ 4 * self.old.world.opens }
        requires tied { HasNoneTied self.old.opens }
        requires linked { IsLinkOfState self.old.world }
        requires waiting { HasWaiting (chain_kind opening.now) waits None self.old.opens }
        requires lone { (c : TheChain) → IsBacked asked.now (Some c) → waits ≡ None }
        ensures begins { IfOk result (λ o. BeginsNext opening.now (beside_kind asked.now) waits self.old self.new o) }
        ensures backed { IfOk result (λ o. IsBacked asked.now o.waits) }
    {
        let desk = lent(self.alloc, self.desk.take())?;
        match beside(asked) {
            Some(kind) => self.begin_beside(opening, kind, desk),
            None => self.begin_alone(opening, waits, desk),
        }
    }

    /// The same, beside which nothing waits.
    fn begin_alone(
        &mut self,
        opening: &Opening<'_>,
        waits: Option<Chain>,
        desk: Desk,
    ) -> Result<NewOpen, NoMemory>
        requires can { CanOpen opening.now }
        requires own { own_by opening.now ≡ port_for (chain_kind opening.now) self.old.world.w self.old.world.opens }
        requires address { AsksFrom self.old.world.net.address opening.now }
        requires few { self.old.world.opens < 16384 }
        requires sound { AreSound self.old.world.w self.old.world.opens self.old.world.net self.old.opens }
        requires serials { self.old.opens.graph.book.made ≤ 4 * self.old.world.opens }
        requires tied { HasNoneTied self.old.opens }
        requires linked { IsLinkOfState self.old.world }
        requires waiting { HasWaiting (chain_kind opening.now) waits None self.old.opens }
        ensures begins { IfOk result (λ o. (kind : TheKind) → BeginsNext opening.now kind waits self.old self.new o) }
        ensures waits { IfOk result (λ o. o.waits ≡ None) }
    {
        let (alloc, number, rec, now) = (self.alloc, self.world.opens, self.used, self.world.time);
        let net = &mut self.world.net;
        let (ended, desk) = self
            .opens
            .begin(alloc, net, opening, number, waits, rec, now, desk)?;
        Ok(NewOpen {
            ended,
            waits: None,
            desk,
        })
    }

    /// The same, beside which what is next waits, of this kind.
    fn begin_beside(
        &mut self,
        opening: &Opening<'_>,
        kind: ChainKind,
        desk: Desk,
    ) -> Result<NewOpen, NoMemory>
        requires can { CanOpen opening.now }
        requires own { own_by opening.now ≡ port_for (chain_kind opening.now) self.old.world.w self.old.world.opens }
        requires address { AsksFrom self.old.world.net.address opening.now }
        requires few { self.old.world.opens < 16384 }
        requires sound { AreSound self.old.world.w self.old.world.opens self.old.world.net self.old.opens }
        requires serials { self.old.opens.graph.book.made ≤ 4 * self.old.world.opens }
        requires tied { HasNoneTied self.old.opens }
        requires linked { IsLinkOfState self.old.world }
        ensures begins { IfOk result (λ o. BeginsNext opening.now kind None self.old self.new o) }
        ensures waits { IfOk result (λ o. (c : TheChain) × (o.waits ≡ Some c)) }
    {
        let (alloc, number, rec, now) = (self.alloc, self.world.opens, self.used, self.world.time);
        let net = &mut self.world.net;
        let (chain, ended, desk) = self
            .opens
            .begin_beside(alloc, net, opening, kind, number, rec, now, desk)?;
        Ok(NewOpen {
            ended,
            waits: Some(chain),
            desk,
        })
    }

    /// The open was begun: its command waits for it.
    fn wait_for(&mut self, script: RunningScript, mut pending: KeptPending, made: NewOpen) -> Stage
        requires { self.old.world.opens < 16384 }
        ensures stage { result ≡ stage.Waiting script (expected.Open (record pending { waits = made.waits })) }
        ensures used { self.new.used ≡ self.old.used }
        ensures world { self.new.world ≡ with_ended_open self.old.world }
        ensures opens { self.new.opens ≡ self.old.opens }
    {
        self.desk = Some(made.desk);
        self.world.opens += 1;
        pending.set_waits(made.waits);
        Stage::Waiting(script, Expected::Open(pending))
    }

    /// There is no way to the open's server, and it has ended with this cause: what was to wait beside it is let go.
    fn turn_back(
        &mut self,
        mut script: RunningScript,
        cause: Cause,
        kind: ChainKind,
        made: NewOpen,
        out: &mut Log,
    ) -> Result<Stage, NoMemory>
        requires few { self.old.world.opens < 16384 }
        requires sound { AreSound self.old.world.w (self.old.world.opens + 1) self.old.world.net self.old.opens }
        requires waits { (c : TheChain) → made.waits ≡ Some c → WaitsBeside kind c self.old.opens }
        ensures stage { IfOk result (λ st. st ≡ stage.Running (with_result script cause)) }
        ensures used { OnOk result (self.new.used ≡ self.old.used) }
        ensures world { OnOk result (self.new.world ≡ with_ended_open self.old.world) }
        ensures lets { OnOk result (DropsWaiting kind made.waits (self.old.world.opens + 1) self.old self.new (defs.result cause ∷ []) out.old out.new) }
    {
        self.world.opens += 1;
        self.let_go(kind, made.waits, made.desk, out)?;
        put_result(cause, out);
        script.end_with(cause);
        Ok(Stage::Running(script))
    }

    /// What waits is let go, of this kind, if anything does.
    pub(crate) fn let_go(
        &mut self,
        kind: ChainKind,
        waits: Option<Chain>,
        desk: Desk,
        out: &mut Log,
    ) -> Result<(), NoMemory>
        requires sound { AreSound self.old.world.w self.old.world.opens self.old.world.net self.old.opens }
        requires waits { (c : TheChain) → waits ≡ Some c → WaitsBeside kind c self.old.opens }
        ensures used { OnOk result (self.new.used ≡ self.old.used) }
        ensures world { OnOk result (self.new.world ≡ self.old.world) }
        ensures lets { OnOk result (DropsWaiting kind waits self.old.world.opens self.old self.new [] out.old out.new) }
    {
        let Some(chain) = waits else {
            self.desk = Some(desk);
            return Ok(());
        };
        let net = &self.world.net;
        let desk = self.opens.give_up(net, chain, kind, desk)?;
        put_told(&desk.freed, out);
        self.desk = Some(desk);
        Ok(())
    }
}
