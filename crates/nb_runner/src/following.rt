//! What a command asks for next: of a server whose address is known, or for the address of its name.

ghost use Rattle.std.specs.Prelude.{◌≡◌, ◌<◌, ◌≤◌, ℕ, false, IfOk};
ghost use Rattle.nb_imagecmd.specs.Moving.{moved_file};
ghost use Rattle.nb_machine.specs.Effects.{next_at_host, next_by_name, next_effect, next_moved, next_open};
ghost use Rattle.nb_machine.specs.Errands.{fetches_then};
ghost use Rattle.nb_machine.specs.Queries.{with_domain};
ghost use Rattle.nb_imagecmd.specs.Asking.{target_host};
ghost use Rattle.nb_runner.specs.CommandWords.{errand_of, errand_hooks, onward_of, onward_hooks, FitsErrand, FitsOnward, IsAskedWell};
ghost use Rattle.nb_runner.specs.Following.{following_of, following_hooks, CanFollow};
ghost use Rattle.nb_runner.specs.Intents.{intent_effect, IsAskable};

use crate::World;
use crate::command::{MAX_OPENS, full_opens};
use crate::errand::{Errand, Onward, host_of};
use crate::intent::{Intent, dns_in, with_domain};
use crate::query::Query;
use crate::texts::copy;
use nb_dns::is_name;
use nb_imagecmd::{Asking, ImageFailure, moved_file};
use nb_record::{Cause, NoMemory};
use nb_settings::Table;
use nb_terms::Plain;
use nb_uri::number;
use std::alloc::Global;

/// What a command asks for next, if anything.
#[derive(Drop)]
pub enum Following {
    /// Nothing: it is over with this cause.
    Over(Cause),
    /// This.
    Next(Onward),
}

impl Following {
    /// The same as what a command comes to.
    pub(crate) fn intent(self) -> Intent
        ensures value { intent_effect result ≡ next_effect (following_of self) }
        ensures may { (opens : ℕ) → CanFollow opens self → following_hooks self ≡ false → IsAskable opens result }
    {
        match self {
            Following::Over(cause) => Intent::Over(cause),
            Following::Next(Onward::File(wanted)) => Intent::Fetches(wanted),
            Following::Next(Onward::Echo(server)) => Intent::Asks(Query::Echo(server)),
            Following::Next(Onward::Disk { hooking, .. }) => Intent::Hooks(hooking),
            Following::Next(Onward::Name { errand, name, by }) => {
                Intent::Asks(Query::Host { errand, name, by })
            }
        }
    }
}

/// What is asked of a server whose address is known, where one more open may be made.
fn next_open(opens: u16, onward: Onward) -> Following
    requires few { opens ≤ 16384 }
    requires fits { FitsOnward onward }
    ensures value { following_of result ≡ next_open opens (onward_of onward) }
    ensures can { CanFollow opens result }
    ensures plain { onward_hooks onward ≡ false → following_hooks result ≡ false }
{
    if opens == MAX_OPENS {
        return Following::Over(full_opens());
    }
    Following::Next(onward)
}

/// A name server is asked for the address of a host's name.
fn next_by_name(
    alloc: Global,
    opens: u16,
    table: &Table,
    text: &[u8],
    errand: Errand,
) -> Result<Following, NoMemory>
    requires few { opens ≤ 16384 }
    requires fits { FitsErrand errand }
    ensures value { IfOk result (λ f. following_of f ≡ next_by_name opens table.now (errand_of errand) (with_domain table.now text.now)) }
    ensures can { IfOk result (λ f. CanFollow opens f) }
    ensures plain { errand_hooks errand ≡ false → IfOk result (λ f. following_hooks f ≡ false) }
{
    let name = with_domain(alloc, table, text)?;
    if !is_name(name.as_slice()) {
        return Ok(Following::Over(Plain::BadName.cause()));
    }
    if opens == MAX_OPENS {
        return Ok(Following::Over(full_opens()));
    }
    match dns_in(table) {
        Some(by) => Ok(Following::Next(Onward::Name { errand, name, by })),
        None => Ok(Following::Over(Plain::NoServer.cause())),
    }
}

/// What is asked of a host: four decimals are its address, and a name is looked up.
pub(crate) fn next_at_host(
    alloc: Global,
    opens: u16,
    table: &Table,
    text: &[u8],
    errand: Errand,
) -> Result<Following, NoMemory>
    requires few { opens ≤ 16384 }
    requires fits { FitsErrand errand }
    ensures value { IfOk result (λ f. following_of f ≡ next_at_host opens table.now text.now (errand_of errand)) }
    ensures can { IfOk result (λ f. CanFollow opens f) }
    ensures plain { errand_hooks errand ≡ false → IfOk result (λ f. following_hooks f ≡ false) }
{
    match number(text) {
        Some(server) => Ok(next_open(opens, errand.at(server))),
        None => next_by_name(alloc, opens, table, text, errand),
    }
}

/// What is asked for next of a file.
pub(crate) fn next_file(
    alloc: Global,
    opens: u16,
    table: &Table,
    asking: Asking,
) -> Result<Following, NoMemory>
    requires few { opens ≤ 16384 }
    requires fits { IsAskedWell asking }
    ensures value { IfOk result (λ f. following_of f ≡ next_at_host opens table.now (target_host asking.target) (fetches_then asking)) }
    ensures can { IfOk result (λ f. CanFollow opens f) }
    ensures plain { IfOk result (λ f. following_hooks f ≡ false) }
{
    let host = copy(alloc, host_of(&asking.target))?;
    next_at_host(alloc, opens, table, host.as_slice(), Errand::File(asking))
}

impl World {
    /// What a fetch comes to whose server has moved its file: this text, joined to its URI, names the place.
    pub fn move_file(
        &self,
        alloc: Global,
        asking: Asking,
        text: &[u8],
    ) -> Result<Following, NoMemory>
        requires few { self.now.opens ≤ 16384 }
        requires fits { IsAskedWell asking }
        ensures value { IfOk result (λ f. following_of f ≡ next_moved self.now.opens self.now.state.table (moved_file asking text.now)) }
        ensures can { IfOk result (λ f. CanFollow self.now.opens f) }
        ensures plain { IfOk result (λ f. following_hooks f ≡ false) }
    {
        match moved_file(alloc, asking, text) {
            Ok(asking) => next_file(alloc, self.opens, &self.state.table, asking),
            Err(ImageFailure::NoMemory) => Err(NoMemory),
            Err(why) => Ok(Following::Over(why.cause())),
        }
    }
}
