ghost use Rattle.std.specs.Prelude.{◌≡◌, ◌+◌, ◌<◌, ◌≤◌, ◌++◌, ℕ, List, ◌^◌, length, Option, Some, None, IfOk, OnErr, OnOk};
ghost use Rattle.std.specs.Option.{option_or};
ghost use Rattle.nb_defs.specs.Records.{IsTick};
ghost use Rattle.nb_defs.specs.Records as defs;
ghost use Rattle.nb_ledger.specs.declared.event.Way.TheVariants as way;
ghost use Rattle.nb_machine.specs.Lives.{Live, time as time_comes};
ghost use Rattle.nb_machine.specs.States.{State};
ghost use Rattle.nb_network.specs.Many.{AreSound, IsStateOf};
ghost use Rattle.nb_network.specs.Steps.{ComesAt, IsOpenAt, TimesCome, place_after};
ghost use Rattle.nb_network.specs.Takes.{TakesRecord};
ghost use Rattle.nb_open.specs.declared.ended.Ended.{Ended as TheEnded};
ghost use Rattle.nb_network.specs.declared.living.Living.{Living as TheLiving};

use crate::{KeptEnd, Opens};
use nb_open::KeptEnded;
use nb_record::Log;
use nb_stack::Stack;
use nb_teller::{Desk, put_step};
use nb_terms::NoMemory;
use std::alloc::Global;

/// How many bytes of records there is room for at first: more than a time mostly gives.
const GATHERED: usize = 4096;

impl Opens {
    /// So many milliseconds pass in the record `rec`, after which the time is `now`: it comes to each open, by rising number.
    /// Returns the open of the number that is awaited, where it has ended. Where memory runs out nothing is put.
    pub fn pass_time(
        &mut self,
        alloc: Global,
        net: &mut Stack,
        rec: u32,
        ms: u16,
        now: u64,
        awaited: Option<u16>,
        desk: Desk,
        log: &mut Log,
    ) -> Result<(Option<KeptEnd>, Desk), NoMemory>
        requires valid { IsTick ms }
        requires sound { (w : ℕ) × (opens : ℕ) × AreSound w opens net.old self.old }
        ensures takes { IfOk result (λ r. (w opens before : ℕ) → now ≡ before + ms → AreSound w opens net.old self.old → (s : State)
            → IsStateOf self.old net.old before s
            → TakesRecord self.old net.old before opens rec (defs.tick ms) self.new net.new now awaited r.0 log.old log.new s) }
        ensures sound { OnOk result ((w opens : ℕ) → AreSound w opens net.old self.old → AreSound w opens net.new self.new) }
        ensures nothing { OnErr result (log.new ≡ log.old) }
        ensures mac { net.new.mac ≡ net.old.mac }
        ensures address { net.new.address ≡ net.old.address }
        ensures up { net.new.up ≡ net.old.up }
    {
        let mut gathered = Log::new(alloc, GATHERED)?;
        let (answer, desk) = self.pass_from(alloc, net, 0, now, awaited, desk, &mut gathered)?;
        if gathered.short() {
            return Err(NoMemory);
        }
        put_step(rec, log);
        log.append(&gathered);
        Ok((answer, desk))
    }

    /// The time comes to each open from this place on.
    fn pass_from(
        &mut self,
        alloc: Global,
        net: &mut Stack,
        place: usize,
        now: u64,
        awaited: Option<u16>,
        desk: Desk,
        gathered: &mut Log,
    ) -> Result<(Option<KeptEnd>, Desk), NoMemory>
        requires sound { (w : ℕ) × (opens : ℕ) × AreSound w opens net.old self.old }
        requires place { place ≤ length self.old.list }
        ensures times { IfOk result (λ r. (w opens : ℕ) → AreSound w opens net.old self.old → (done rest : List TheLiving)
            → self.old.list ≡ done ++ rest → length done ≡ place
            → TimesCome self.old net.old opens now done rest awaited r.0 self.new net.new gathered.old gathered.new) }
        ensures mac { net.new.mac ≡ net.old.mac }
        ensures address { net.new.address ≡ net.old.address }
        ensures up { net.new.up ≡ net.old.up }
    {
        if place == self.list.len() {
            return Ok((None, desk));
        }
        let (found, next, desk) = self.pass_at(alloc, net, place, now, awaited, desk, gathered)?;
        let (later, desk) = self.pass_from(alloc, net, next, now, awaited, desk, gathered)?;
        Ok((first_found(found, later), desk))
    }

    /// The time comes to the open at this place. Returns where the next one stands.
    fn pass_at(
        &mut self,
        alloc: Global,
        net: &mut Stack,
        place: usize,
        now: u64,
        awaited: Option<u16>,
        desk: Desk,
        gathered: &mut Log,
    ) -> Result<(Option<KeptEnd>, usize, Desk), NoMemory>
        requires sound { (w : ℕ) × (opens : ℕ) × AreSound w opens net.old self.old }
        requires place { place < length self.old.list }
        ensures comes { IfOk result (λ r. (ended : Option TheEnded) × (r.1 ≡ place_after ended place) × ((o : TheLiving)
            → (at : IsOpenAt self.old.list place o) → ComesAt (λ (l : Live). Unit {0}) (time_comes now) (Some way.Time) None self.old net.old at.before o
            at.behind awaited ended r.0 self.new net.new gathered.old gathered.new)) }
        ensures mac { net.new.mac ≡ net.old.mac }
        ensures address { net.new.address ≡ net.old.address }
        ensures up { net.new.up ≡ net.old.up }
    {
        let open = self.list[place].bare();
        let (ended, desk) = open.pass_time(alloc, &mut self.graph, net, now, desk)?;
        self.graph.has_nodes();
        let next = next_place(&ended, place);
        let found = self.settle(
            alloc, net, place, None, ended, awaited, None, &desk, gathered,
        )?;
        Ok((found, next, desk))
    }
}

/// Where the next open stands after one at this place, which may have ended.
fn next_place(ended: &Option<KeptEnded>, place: usize) -> usize
    requires { place + 1 < 2 ^ 64 }
    ensures { result ≡ place_after ended.now place }
{
    match ended {
        Some(_) => place,
        None => place + 1,
    }
}

/// The first of two that was found.
fn first_found(found: Option<KeptEnd>, later: Option<KeptEnd>) -> Option<KeptEnd>
    ensures { result ≡ option_or found later }
{
    match found {
        Some(first) => Some(first),
        None => later,
    }
}
