//! What the user does to one open that lives, by its number, beside the others.

ghost use Rattle.std.specs.Prelude.{◌≡◌, ◌==◌, ◌<◌, ℕ, true, length, IfOk, IfSome, OnErr, OnOk, Option, None, Some};
ghost use Rattle.std.specs.List.{list_any};
ghost use Rattle.nb_machine.specs.Lives.{Live, task};
ghost use Rattle.nb_machine.specs.States.{State};
ghost use Rattle.nb_network.specs.Many.{AreSound, IsStateOf};
ghost use Rattle.nb_network.specs.Ones.{AsksOne, ClosesAt, ClosesOne, HasDrive, HasOpen};
ghost use Rattle.nb_network.specs.Steps.{ComesAt, IsOpenAt};
ghost use Rattle.nb_open.specs.declared.ended.Ended.{Ended as TheEnded};
ghost use Rattle.nb_network.specs.declared.living.Living.{Living as TheLiving};
ghost use Rattle.nb_open.specs.Objects.{AreDriveObjects};

use crate::living::BlocksAsked;
use crate::{KeptEnd, Opens};
use nb_record::Log;
use nb_stack::Stack;
use nb_teller::{Desk, put_over, put_told};
use nb_terms::{Cause, NoMemory};
use std::alloc::Global;

impl Opens {
    /// Whether an open of this number lives.
    pub fn lives(&self, number: u16) -> bool
        ensures value { result ≡ list_any (λ o. o.speaker.number == number) self.now.list }
        ensures some { result ≡ true → HasOpen number self.now.list }
    {
        match self.place_of(u64::from(number)) {
            Some(_) => true,
            None => false,
        }
    }

    /// The user asks the drive of this number for so many blocks, from this one on, in the record `rec`. What is told of it is
    /// put. Returns the open of the number that is awaited, where it has ended. Where memory runs out nothing is put.
    pub fn ask(
        &mut self,
        alloc: Global,
        net: &mut Stack,
        number: u16,
        rec: u32,
        block: u32,
        count: u16,
        now: u64,
        awaited: Option<u16>,
        desk: Desk,
        log: &mut Log,
    ) -> Result<(Option<KeptEnd>, Desk), NoMemory>
        requires sound { (w : ℕ) × (opens : ℕ) × AreSound w opens net.old self.old }
        requires drive { HasDrive number self.old.list }
        ensures asks { IfOk result (λ r. (w opens : ℕ) → AreSound w opens net.old self.old → (s : State) → IsStateOf self.old net.old now s
            → AsksOne (record { lba = block; blocks = count }) number self.old net.old now opens awaited r.0 self.new net.new log.old log.new s) }
        ensures sound { OnOk result ((w opens : ℕ) → AreSound w opens net.old self.old → AreSound w opens net.new self.new) }
        ensures nothing { OnErr result (log.new ≡ log.old) }
        ensures mac { net.new.mac ≡ net.old.mac }
        ensures address { net.new.address ≡ net.old.address }
        ensures up { net.new.up ≡ net.old.up }
    {
        match self.place_of(u64::from(number)) {
            Some(place) => self.ask_at(
                alloc, net, place, rec, block, count, now, awaited, desk, log,
            ),
            None => unreachable!(),
        }
    }

    /// So it asks the drive at this place.
    fn ask_at(
        &mut self,
        alloc: Global,
        net: &mut Stack,
        place: usize,
        rec: u32,
        block: u32,
        count: u16,
        now: u64,
        awaited: Option<u16>,
        desk: Desk,
        log: &mut Log,
    ) -> Result<(Option<KeptEnd>, Desk), NoMemory>
        requires sound { (w : ℕ) × (opens : ℕ) × AreSound w opens net.old self.old }
        requires place { place < length self.old.list }
        requires drive { (o : TheLiving) → IsOpenAt self.old.list place o → AreDriveObjects o.objects }
        ensures comes { IfOk result (λ r. (ended : Option TheEnded) × ((o : TheLiving) → (at : IsOpenAt self.old.list place o)
            → ComesAt (λ (l : Live). Unit {0}) (task (record { lba = block; blocks = count }) now) None None self.old net.old at.before o
            at.behind awaited ended r.0 self.new net.new log.old log.new)) }
        ensures nothing { OnErr result (log.new ≡ log.old) }
        ensures mac { net.new.mac ≡ net.old.mac }
        ensures address { net.new.address ≡ net.old.address }
        ensures up { net.new.up ≡ net.old.up }
    {
        let open = self.list[place].bare();
        let (ended, desk) = open.ask(alloc, &mut self.graph, net, rec, block, count, now, desk)?;
        self.graph.has_nodes();
        // What it answers to that comes later.
        let asked = Some(BlocksAsked { block, count });
        let found = self.settle(alloc, net, place, None, ended, awaited, asked, &desk, log)?;
        Ok((found, desk))
    }

    /// The user closes the open of this number with this cause, and frees its port; the others stay as they are. What is told
    /// is gathered.
    pub fn close_one(
        &mut self,
        net: &mut Stack,
        number: u16,
        cause: &Cause,
        now: u64,
        desk: Desk,
        gathered: &mut Log,
    ) -> Result<Desk, NoMemory>
        requires sound { (w : ℕ) × (opens : ℕ) × AreSound w opens net.old self.old }
        requires lives { HasOpen number self.old.list }
        ensures closes { OnOk result ((w opens : ℕ) → AreSound w opens net.old self.old
            → ClosesOne number cause.now self.old net.old now opens self.new net.new gathered.old gathered.new) }
        ensures sound { OnOk result ((w opens : ℕ) → AreSound w opens net.old self.old → AreSound w opens net.new self.new) }
        ensures net { OnOk result (net.new ≡ record net.old { ports = net.new.ports }) }
        ensures serials { OnOk result (self.new.graph.book.made ≡ self.old.graph.book.made) }
    {
        match self.place_of(u64::from(number)) {
            Some(place) => self.close_at(net, place, cause, now, desk, gathered),
            None => unreachable!(),
        }
    }

    /// So it closes the open at this place.
    fn close_at(
        &mut self,
        net: &mut Stack,
        place: usize,
        cause: &Cause,
        now: u64,
        desk: Desk,
        gathered: &mut Log,
    ) -> Result<Desk, NoMemory>
        requires sound { (w : ℕ) × (opens : ℕ) × AreSound w opens net.old self.old }
        requires place { place < length self.old.list }
        ensures closes { OnOk result ((o : TheLiving) → (at : IsOpenAt self.old.list place o)
            → ClosesAt self.old net.old at.before o at.behind cause.now self.new net.new gathered.old gathered.new) }
    {
        let open = self.list.remove(place).bare();
        let desk = open.close(&mut self.graph, net, cause, now, desk)?;
        self.graph.has_nodes();
        net.unbind(open.speaker.carrier.number(), open.speaker.own_port);
        put_told(&desk.told, gathered);
        put_over(open.speaker.number, *cause, gathered);
        Ok(desk)
    }
}
