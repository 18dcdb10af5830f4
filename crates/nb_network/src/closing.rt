ghost use Rattle.std.specs.Prelude.{◌≡◌, ◌==◌, ◌∷◌, ℕ, List, [], IfOk, OnOk, Some, length, ◌<◌};
ghost use Rattle.nb_chains.specs.declared.chain.Chain.{Chain as TheChain};
ghost use Rattle.nb_network.specs.Closings.{ClosesMany, GivesUpWaiting};
ghost use Rattle.nb_network.specs.Many.{AreSound, WaitsBeside};
ghost use Rattle.nb_network.specs.Shutting.{LetsWaitingGo, ShutsFirst, ends_beside, parted_by};
ghost use Rattle.nb_network.specs.Steps.{FirstCloses};
ghost use Rattle.nb_network.specs.Takes.{KeepsWaiting};
ghost use Rattle.nb_open.specs.Begins.{waiting_pieces};
ghost use Rattle.nb_network.specs.declared.living.Living.{Living as TheLiving};

use crate::Opens;
use nb_chains::{Chain, ChainKind};
use nb_open::{Open, OpenObjects, give_up};
use nb_record::Log;
use nb_stack::Stack;
use nb_teller::{Desk, put_over, put_told};
use nb_terms::{Cause, NoMemory};

impl Opens {
    /// Closes each open with this cause, by rising number, and frees its port. What is told is gathered.
    pub fn close_all(
        &mut self,
        net: &mut Stack,
        cause: &Cause,
        now: u64,
        desk: Desk,
        gathered: &mut Log,
    ) -> Result<Desk, NoMemory>
        requires sound { (w : ℕ) × (opens : ℕ) × AreSound w opens net.old self.old }
        ensures closes { OnOk result ((w opens : ℕ) → AreSound w opens net.old self.old
            → ClosesMany self.old net.old now opens cause.now [] [] self.new gathered.old gathered.new) }
        ensures sound { OnOk result ((w opens : ℕ) → AreSound w opens net.old self.old → AreSound w opens net.new self.new) }
        ensures net { OnOk result (net.new ≡ record net.old { ports = [] }) }
        ensures serials { OnOk result (self.new.graph.book.made ≡ self.old.graph.book.made) }
    {
        if self.list.is_empty() {
            return Ok(desk);
        }
        let desk = self.close_first(net, cause, now, desk, gathered)?;
        self.close_all(net, cause, now, desk, gathered)
    }

    /// The user closes the first of them with this cause, and frees its port.
    fn close_first(
        &mut self,
        net: &mut Stack,
        cause: &Cause,
        now: u64,
        desk: Desk,
        gathered: &mut Log,
    ) -> Result<Desk, NoMemory>
        requires sound { (w : ℕ) × (opens : ℕ) × AreSound w opens net.old self.old }
        requires some { 0 < length self.old.list }
        ensures closes { OnOk result ((o : TheLiving) (rest : List TheLiving) → self.old.list ≡ o ∷ rest
            → FirstCloses self.old net.old o rest cause.now self.new net.new gathered.old gathered.new) }
    {
        let open = self.list.remove(0).bare();
        let desk = open.close(&mut self.graph, net, cause, now, desk)?;
        self.graph.has_nodes();
        net.unbind(open.speaker.carrier.number(), open.speaker.own_port);
        put_told(&desk.told, gathered);
        put_over(open.speaker.number, *cause, gathered);
        Ok(desk)
    }

    /// The run ends with this cause: each open is closed, by rising number, with all ports of its objects, and what waits, of
    /// this kind, beside the open of that number. What is told is gathered.
    pub fn shut_all(
        &mut self,
        net: &mut Stack,
        waits: Option<Chain>,
        kind: ChainKind,
        beside: u16,
        cause: &Cause,
        now: u64,
        desk: Desk,
        gathered: &mut Log,
    ) -> Result<Desk, NoMemory>
        requires sound { (w : ℕ) × (opens : ℕ) × AreSound w opens net.old self.old }
        requires waits { (c : TheChain) → waits ≡ Some c → WaitsBeside kind c self.old }
        ensures closes { OnOk result ((w opens : ℕ) → AreSound w opens net.old self.old
            → ClosesMany self.old net.old now opens cause.now (waiting_pieces kind waits) [] self.new gathered.old gathered.new) }
        ensures sound { OnOk result ((w opens : ℕ) → AreSound w opens net.old self.old → AreSound w opens net.new self.new) }
        ensures net { OnOk result (net.new ≡ record net.old { ports = [] }) }
        ensures serials { OnOk result (self.new.graph.book.made ≡ self.old.graph.book.made) }
    {
        if self.list.is_empty() {
            return self.let_go(net, waits, kind, desk, gathered);
        }
        let (left, desk) = self.shut_first(net, waits, kind, beside, cause, now, desk, gathered)?;
        self.shut_all(net, left, kind, beside, cause, now, desk, gathered)
    }

    /// The first of them is closed with all ports of its objects, and what waits beside it, if it has that number. Returns what
    /// waits on.
    fn shut_first(
        &mut self,
        net: &mut Stack,
        waits: Option<Chain>,
        kind: ChainKind,
        beside: u16,
        cause: &Cause,
        now: u64,
        desk: Desk,
        gathered: &mut Log,
    ) -> Result<(Option<Chain>, Desk), NoMemory>
        requires sound { (w : ℕ) × (opens : ℕ) × AreSound w opens net.old self.old }
        requires waits { (c : TheChain) → waits ≡ Some c → WaitsBeside kind c self.old }
        requires some { 0 < length self.old.list }
        ensures shuts { IfOk result (λ r. (o : TheLiving) (rest : List TheLiving) → self.old.list ≡ o ∷ rest
            → ShutsFirst kind self.old net.old o rest cause.now waits r.0 self.new net.new gathered.old gathered.new) }
    {
        let open = self.list.remove(0).bare();
        let (with, left) = parted(ends_with(&open, beside), waits);
        let desk = open.shut_down(&mut self.graph, net, with, kind, cause, now, desk)?;
        self.graph.has_nodes();
        net.unbind(open.speaker.carrier.number(), open.speaker.own_port);
        put_told(&desk.told, gathered);
        put_over(open.speaker.number, *cause, gathered);
        Ok((left, desk))
    }

    /// What waits is let go, where no open is left beside which it waits.
    fn let_go(
        &mut self,
        net: &Stack,
        waits: Option<Chain>,
        kind: ChainKind,
        desk: Desk,
        gathered: &mut Log,
    ) -> Result<Desk, NoMemory>
        requires sound { (w : ℕ) × (opens : ℕ) × AreSound w opens net.now self.old }
        requires waits { (c : TheChain) → waits ≡ Some c → WaitsBeside kind c self.old }
        ensures lets { OnOk result (LetsWaitingGo kind waits self.old net.now self.new gathered.old gathered.new) }
        ensures serials { OnOk result (self.new.graph.book.made ≡ self.old.graph.book.made) }
    {
        match waits {
            None => Ok(desk),
            Some(chain) => {
                let desk = self.give_up(net, chain, kind, desk)?;
                gathered.append(desk.freed.text());
                Ok(desk)
            }
        }
    }

    /// Lets what waits go, of this kind, since no open comes of it. What is told stands on the desk under `freed`.
    pub fn give_up(
        &mut self,
        net: &Stack,
        waits: Chain,
        kind: ChainKind,
        desk: Desk,
    ) -> Result<Desk, NoMemory>
        requires sound { (w : ℕ) × (opens : ℕ) × AreSound w opens net.now self.old }
        requires waits { WaitsBeside kind waits self.old }
        ensures gives_up { IfOk result (λ d. (w opens : ℕ) → AreSound w opens net.now self.old
            → GivesUpWaiting kind waits self.old opens self.new d.freed.value.text) }
        ensures sound { OnOk result ((w opens : ℕ) → AreSound w opens net.now self.old → AreSound w opens net.now self.new) }
        ensures serials { OnOk result (self.new.graph.book.made ≡ self.old.graph.book.made) }
    {
        let desk = give_up(&mut self.graph, net, waits, kind, desk)?;
        self.graph.has_nodes();
        Ok(desk)
    }
}

/// Whether what waits beside the open of that number ends with this one. Nothing waits beside a connection.
fn ends_with(first: &Open, beside: u16) -> bool
    ensures { result ≡ ends_beside first.now.objects (first.now.speaker.number == beside) }
{
    match first.objects {
        OpenObjects::Chain { .. } => first.speaker.number == beside,
        OpenObjects::Web { .. } | OpenObjects::Drive { .. } => false,
    }
}

/// What waits, divided into what ends now and what waits on.
fn parted(now: bool, waits: Option<Chain>) -> (Option<Chain>, Option<Chain>)
    ensures { result ≡ parted_by now waits }
{
    if now { (waits, None) } else { (None, waits) }
}
