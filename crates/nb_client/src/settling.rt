ghost use Rattle.std.specs.Prelude.{◌≡◌, Ok, None, Some, IfOk, OnErr};
ghost use Rattle.std.specs.Option.{option_copied, option_map_or};
ghost use Rattle.nb_command.specs.Addresses.{address_table};
ghost use Rattle.nb_machine.specs.Findings.{lease_change, settled_by};
ghost use Rattle.nb_open.specs.Exchanges.{IsLeaseMessage};
ghost use Rattle.nb_machine.specs.Errands.{Errand as TheErrand, onward};
ghost use Rattle.nb_runner.specs.CommandWords.{FitsOnward, onward_hooks, onward_of};
ghost use Rattle.nb_runner.specs.Intents.{CanAsk, query_hooks, query_of};
ghost use Rattle.nb_chains.specs.declared.chain.Chain.{Chain as TheChain};
ghost use Rattle.nb_client.specs.Asked.{beside_kind};
ghost use Rattle.nb_client.specs.Concluding.{FindsServer, IsHostOf, ReachesAt, SettlesAt, settled_so};
ghost use Rattle.nb_client.specs.Serving.{ConcludesEnd};
ghost use Rattle.nb_client.specs.Soundness.{HasRoomFor, HasWaiting, IsBacked, IsSound, snapshot_at};
ghost use Rattle.nb_client.specs.declared.asked.Asked.TheVariants as asked;
ghost use Rattle.nb_client.specs.declared.pending.Pending.{Pending as ThePending};
ghost use Rattle.nb_client.specs.declared.stage.Stage.TheVariants as stage;

use crate::concluding::go_on_with;
use crate::site::Site;
use crate::{KeptNext, Next, Stage};
use nb_chains::{Chain, ChainKind};
use nb_command::{ApplyError, put_address};
use nb_network::HasEnded;
use nb_record::{Cause, Log, NoMemory};
use nb_runner::{Onward, Query, RunningScript};
use nb_settings::{SetError, Table};
use nb_teller::lent;
use nb_terms::Plain;
use nb_wire::{Ip4, Text};
use std::alloc::Global;

/// The block of a lease's settings.
const LEASE: &[u8] = b"net0.dhcp";

/// The result of a command whose open has ended so. Where memory runs out the settings stay.
fn settle(
    alloc: Global,
    table: &mut Table,
    query: &Query,
    ended: &HasEnded,
) -> Result<Cause, NoMemory>
    requires { IsLeaseMessage ended.now.bytes }
    ensures settles { IfOk result (λ c. settled_so ended.now (query_of query.now) table.old ≡ record { cause = c; table = table.new }) }
    ensures same { OnErr result (table.new ≡ table.old) }
{
    if ended.cause.code != 0 {
        return Ok(ended.cause);
    }
    match query {
        Query::Lease => settle_lease(alloc, table, ended.bytes.as_ref()),
        Query::Echo(_) | Query::Host { .. } => Ok(Plain::Ok.cause()),
        Query::Address { setting, .. } => {
            settle_address(alloc, table, setting.as_slice(), ended.address)
        }
    }
}

/// The settings of a lease's acknowledgement, all or none.
fn settle_lease(alloc: Global, table: &mut Table, ack: Option<&Text>) -> Result<Cause, NoMemory>
    requires { IsLeaseMessage (option_copied ack) }
    ensures settles { IfOk result (λ c. settled_by table.old (option_map_or (lease_change table.old) (option_copied ack.entry) (Ok table.old))
        ≡ record { cause = c; table = table.new }) }
    ensures same { OnErr result (table.new ≡ table.old) }
{
    let Some(ack) = ack else {
        return Ok(Plain::Ok.cause());
    };
    match table.lease(alloc, LEASE, ack.as_slice()) {
        Ok(()) => Ok(Plain::Ok.cause()),
        Err(SetError::NoMemory) => Err(NoMemory),
        Err(why) => Ok(ApplyError::from(why).cause()),
    }
}

/// An address as the value of a setting.
fn settle_address(
    alloc: Global,
    table: &mut Table,
    setting: &[u8],
    address: Option<Ip4>,
) -> Result<Cause, NoMemory>
    ensures settles { IfOk result (λ c. settled_by table.old (option_map_or (λ a. address_table setting.now a.0 table.old) address (Ok table.old))
        ≡ record { cause = c; table = table.new }) }
    ensures same { OnErr result (table.new ≡ table.old) }
{
    let Some(address) = address else {
        return Ok(Plain::Ok.cause());
    };
    match put_address(alloc, setting, address, table) {
        Ok(()) => Ok(Plain::Ok.cause()),
        Err(ApplyError::NoMemory) => Err(NoMemory),
        Err(why) => Ok(why.cause()),
    }
}

/// The address that was found of a server whose name was looked up, where its open has ended well.
fn found_host(query: &Query, ended: &HasEnded) -> Option<Ip4>
    ensures { FindsServer result ended.now (query_of query.now) }
{
    if ended.cause.code != 0 {
        return None;
    }
    match query {
        Query::Host { .. } => ended.address,
        Query::Lease | Query::Echo(_) | Query::Address { .. } => None,
    }
}

/// What is asked of a server that was found. The query is the look-up of its name.
fn onward_of(query: Query, server: Ip4) -> Onward
    requires { (errand : TheErrand) × IsHostOf (query_of query) errand }
    ensures value { (errand : TheErrand) → IsHostOf (query_of query) errand → onward_of result ≡ onward errand server.0 }
    ensures fits { CanAsk query → FitsOnward result }
    ensures hooks { onward_hooks result ≡ query_hooks query }
{
    match query {
        Query::Host { errand, .. } => errand.at(server),
        Query::Lease | Query::Echo(_) | Query::Address { .. } => unreachable!(),
    }
}

impl Site {
    /// What comes of a lease, an echo or an address whose open has ended, beside which this waits, of this kind.
    pub(crate) fn take_found(
        &mut self,
        script: RunningScript,
        query: Query,
        kind: ChainKind,
        waits: Option<Chain>,
        ended: HasEnded,
        out: &mut Log,
    ) -> Result<Stage, NoMemory>
        requires sound { IsSound self.old.used self.old.world self.old.opens (stage.Running script) }
        requires fits { CanAsk query }
        requires backed { IsBacked (asked.Query query) waits }
        requires waiting { HasWaiting kind waits None self.old.opens }
        requires kind { kind ≡ beside_kind (asked.Query query) }
        requires message { IsLeaseMessage ended.bytes }
        requires room { HasRoomFor (asked.Query query) self.old.world.state.drives }
        ensures { IfOk result (λ st. (p : ThePending) → p.asked ≡ asked.Query query → p.waits ≡ waits
            → ConcludesEnd p ended script self.old (snapshot_at self.new st) out.old out.new) }
    {
        match found_host(&query, &ended) {
            Some(server) => self.reach(script, query, server, waits),
            None => self.settle(script, &query, kind, waits, &ended, out),
        }
    }

    /// The server was found, and its own open is next.
    fn reach(
        &mut self,
        script: RunningScript,
        query: Query,
        server: Ip4,
        waits: Option<Chain>,
    ) -> Result<Stage, NoMemory>
        requires fits { CanAsk query }
        requires host { (errand : TheErrand) × IsHostOf (query_of query) errand }
        requires backed { IsBacked (asked.Query query) waits }
        ensures reaches { IfOk result (λ st. (c : TheChain) → waits ≡ Some c → ReachesAt script query server c st) }
        ensures same { self.new ≡ self.old }
    {
        let onward = onward_of(query, server);
        let next = KeptNext::of(self.alloc, Next { onward, waits })?;
        Ok(Stage::Reaching(script, next))
    }

    /// The command has its result, with which its settings are put, and the device follows them; what has waited is let go.
    fn settle(
        &mut self,
        script: RunningScript,
        query: &Query,
        kind: ChainKind,
        waits: Option<Chain>,
        ended: &HasEnded,
        out: &mut Log,
    ) -> Result<Stage, NoMemory>
        requires sound { IsSound self.old.used self.old.world self.old.opens (stage.Running script) }
        requires waiting { HasWaiting kind waits None self.old.opens }
        requires message { IsLeaseMessage ended.now.bytes }
        ensures { IfOk result (λ st. SettlesAt script kind waits (settled_so ended.now (query_of query.now) self.old.world.state.table)
            self.old self.new st out.old out.new) }
    {
        let cause = settle(self.alloc, &mut self.world.state.table, query, ended)?;
        self.world.follow();
        let desk = lent(self.alloc, self.desk.take())?;
        self.let_go(kind, waits, desk, out)?;
        Ok(go_on_with(script, cause, out))
    }
}
