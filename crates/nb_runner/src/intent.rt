//! What a command comes to that asks for a lease, an echo, a name's address, a file or a drive.

ghost use Rattle.std.specs.Prelude.{◌≡◌, ◌<◌, ◌≤◌, ◌==◌, ◌++◌, ◌∷◌, ℕ, List, length, true, false, Some, None, Ok, IfOk, OnOk, OnErr};
ghost use Rattle.nb_settings.specs.Tables.{look};
ghost use Rattle.nb_settings.specs.declared.setting.OwnedKey.TheVariants.{Tag};
ghost use Rattle.nb_runner.specs.CommandWords.{IsAskedWell, IsForInquiry, IsForLease};
ghost use Rattle.nb_machine.specs.Effects.{Surroundings, asked_effect, inquires, looked_up_effect, name_effect, plan_effect, plan_table, plan_up, unless_full};
ghost use Rattle.nb_runner.specs.Intents.{query_of, intent_effect, looked_up_table, query_hooks, CanAsk, IsAskable};
ghost use Rattle.nb_machine.specs.Queries.{dns_in, with_domain, domain_bytes};
ghost use Rattle.nb_runner.specs.World.{IsLinkOfState, state_of, with_state, world_with};

use crate::World;
use crate::command::{MAX_OPENS, full_opens};
use crate::errand::{Errand, Wanted};
use crate::following::{next_at_host, next_file};
use crate::query::Query;
use crate::settings::DNS;
use crate::texts::copy;
use nb_command::{
    ApplyError, CommandPlan, State, apply, nonzero, put_address, refuses_address, setting_address,
};
use nb_dns::is_name;
use nb_drivecmd::Hooking;
use nb_imagecmd::Asking;
use nb_record::{Cause, NoMemory};
use nb_settings::{Key, Table};
use nb_terms::Plain;
use nb_uri::number;
use nb_wire::{Ip4, Text};
use std::alloc::Global;

/// The option of RFC 2132 that is the domain's name.
const DOMAIN: Key<'static> = Key::Tag(15);

/// What such a command comes to.
#[derive(Drop)]
pub enum Intent {
    /// It is over with this cause.
    Over(Cause),
    /// It asks this.
    Asks(Query),
    /// It fetches this.
    Fetches(Wanted),
    /// It hooks this disk, once the drive of its number is closed.
    Hooks(Hooking),
    /// The drive of this number is closed, if one is hooked, and it is over with this cause.
    LetsGo(u8, Cause),
    /// The drive of this number, which is hooked, is booted.
    Boots(u8),
}

/// The bytes of `domain`, none where it isn't set.
fn domain(table: &Table) -> &[u8]
    ensures { result.now ≡ domain_bytes (look None (Tag 15) table.now) }
{
    match table.find(None, &DOMAIN) {
        Some(value) => value.bytes,
        None => b"",
    }
}

/// A host's name, with `domain` after it where it has no dot.
pub(crate) fn with_domain(alloc: Global, table: &Table, text: &[u8]) -> Result<Text, NoMemory>
    ensures { IfOk result (λ name. name ≡ with_domain table.now text.now) }
{
    let mut name = Vec::from_slice(alloc, text)?;
    let domain = domain(table);
    if !text.contains(&b'.') && !domain.is_empty() {
        name.push(b'.')?;
        name.extend_from_slice(domain)?;
    }
    Ok(Text::from_vec(name))
}

/// The name server, if one is known.
pub(crate) fn dns_in(table: &Table) -> Option<Ip4>
    ensures { result ≡ dns_in table.now }
{
    nonzero(setting_address(table, None, &DNS))
}

/// A query, where one more open may be made.
fn unless_full(opens: u16, query: Query) -> Intent
    requires few { opens ≤ 16384 }
    requires can { CanAsk query }
    requires plain { query_hooks query ≡ false }
    ensures value { intent_effect result ≡ unless_full opens (inquires (query_of query)) }
    ensures may { IsAskable opens result }
{
    if opens == MAX_OPENS {
        return Intent::Over(full_opens());
    }
    Intent::Asks(query)
}

/// The address of a host's name for a setting.
fn intend_name(
    alloc: Global,
    opens: u16,
    table: &Table,
    setting: &[u8],
    text: &[u8],
) -> Result<Intent, NoMemory>
    requires { opens ≤ 16384 }
    ensures value { IfOk result (λ i. intent_effect i ≡ name_effect opens table.now setting.now (with_domain table.now text.now)) }
    ensures may { IfOk result (λ i. IsAskable opens i) }
{
    let name = with_domain(alloc, table, text)?;
    if !is_name(name.as_slice()) {
        return Ok(Intent::Over(Plain::BadName.cause()));
    }
    if opens == MAX_OPENS {
        return Ok(Intent::Over(full_opens()));
    }
    match dns_in(table) {
        Some(by) => Ok(Intent::Asks(Query::Address {
            setting: copy(alloc, setting)?,
            name,
            by,
        })),
        None => Ok(Intent::Over(Plain::NoServer.cause())),
    }
}

/// Sets the device up, which is to get a lease.
fn intend_lease(
    alloc: Global,
    opens: u16,
    plan: &CommandPlan,
    state: &mut State,
) -> Result<Intent, NoMemory>
    requires lease { IsForLease plan.now }
    requires few { opens ≤ 16384 }
    ensures value { IfOk result (λ i. plan_effect opens state.old.table plan.now ≡ intent_effect i) }
    ensures may { IfOk result (λ i. IsAskable opens i) }
    ensures after { OnOk result (state.new ≡ state_of (plan_table plan.now state.old.table) state.old.images state.old.drives (plan_up plan.now state.old.up)) }
    ensures same { OnErr result (state.new ≡ state.old) }
{
    match apply(alloc, plan, None, state) {
        Ok(_) => Ok(unless_full(opens, Query::Lease)),
        Err(cause) if cause == Plain::NoMemory.cause() => Err(NoMemory),
        Err(cause) => Ok(Intent::Over(cause)),
    }
}

/// The address of a host for a setting: four decimals are it, and a name is looked up.
fn intend_address(
    alloc: Global,
    opens: u16,
    table: &mut Table,
    setting: &[u8],
    text: &[u8],
) -> Result<Intent, NoMemory>
    requires { opens ≤ 16384 }
    ensures value { IfOk result (λ i. intent_effect i ≡ looked_up_effect opens table.old setting.now text.now) }
    ensures may { IfOk result (λ i. IsAskable opens i) }
    ensures after { OnOk result (table.new ≡ looked_up_table setting.now text.now table.old) }
    ensures same { OnErr result (table.new ≡ table.old) }
{
    if let Some(why) = refuses_address(setting, table) {
        return Ok(Intent::Over(why.cause()));
    }
    let Some(address) = number(text) else {
        return intend_name(alloc, opens, table, setting, text);
    };
    match put_address(alloc, setting, address, table) {
        Ok(()) => Ok(Intent::Over(Plain::Ok.cause())),
        Err(ApplyError::NoMemory) => Err(NoMemory),
        Err(_) => unreachable!(),
    }
}

/// What a command comes to that asks for a file.
pub(crate) fn intend_file(
    alloc: Global,
    opens: u16,
    table: &Table,
    asking: Asking,
) -> Result<Intent, NoMemory>
    requires few { opens ≤ 16384 }
    requires fits { IsAskedWell asking }
    ensures value { (x : Surroundings) → x.opens ≡ opens → x.table ≡ table.now → IfOk result (λ i. intent_effect i ≡ asked_effect asking.target x asking) }
    ensures may { IfOk result (λ i. IsAskable opens i) }
{
    Ok(next_file(alloc, opens, table, asking)?.intent())
}

impl World {
    /// What a command comes to that asks for something by one exchange. What it does at once is done, and the link follows.
    pub fn intend(&mut self, alloc: Global, plan: &CommandPlan) -> Result<Intent, NoMemory>
        requires inquiring { IsForInquiry plan.now }
        requires linked { IsLinkOfState self.old }
        requires few { self.old.opens ≤ 16384 }
        ensures value { IfOk result (λ i. plan_effect self.old.opens self.old.state.table plan.now ≡ intent_effect i) }
        ensures may { IfOk result (λ i. IsAskable self.old.opens i) }
        ensures after { OnOk result
            (self.new ≡ world_with self.old (plan_table plan.now self.old.state.table) (plan_up plan.now self.old.state.up)) }
        ensures linked { IsLinkOfState self.new }
        ensures same { OnErr result (self.new ≡ self.old) }
    {
        let intent = self.intended(alloc, plan)?;
        self.follow();
        Ok(intent)
    }

    /// The same, before the link follows.
    fn intended(&mut self, alloc: Global, plan: &CommandPlan) -> Result<Intent, NoMemory>
        requires inquiring { IsForInquiry plan.now }
        requires few { self.old.opens ≤ 16384 }
        ensures value { IfOk result (λ i. plan_effect self.old.opens self.old.state.table plan.now ≡ intent_effect i) }
        ensures may { IfOk result (λ i. IsAskable self.old.opens i) }
        ensures after { OnOk result (self.new ≡ with_state self.old (state_of (plan_table plan.now self.old.state.table) self.old.state.images self.old.state.drives (plan_up plan.now self.old.state.up))) }
        ensures same { OnErr result (self.new ≡ self.old) }
    {
        let opens = self.opens;
        match plan {
            CommandPlan::Dhcp(_) => intend_lease(alloc, opens, plan, &mut self.state),
            CommandPlan::Ping { host } => {
                let table = &self.state.table;
                let next = next_at_host(alloc, opens, table, host.as_slice(), Errand::Echo)?;
                Ok(next.intent())
            }
            CommandPlan::Nslookup { name, host } => {
                let table = &mut self.state.table;
                intend_address(alloc, opens, table, name.as_slice(), host.as_slice())
            }
            _ => unreachable!(),
        }
    }
}
