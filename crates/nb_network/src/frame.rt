ghost use Rattle.std.specs.Prelude.{◌≡◌, ◌<◌, ◌≤◌, ℕ, ◌∷◌, ◌++◌, [], length, IfOk, IfSome, None, OnErr, OnOk};
ghost use Rattle.std.specs.List.{AllByRecursion};
ghost use Rattle.nb_defs.specs.Records.{IsFrameRecord, out_texts, step};
ghost use Rattle.nb_defs.specs.Records as defs;
ghost use Rattle.nb_machine.specs.CommandRecords.{reply_records};
ghost use Rattle.nb_machine.specs.States.{State};
ghost use Rattle.nb_network.specs.Many.{AreSound, IsStateOf};
ghost use Rattle.nb_network.specs.Receiving.{GoesTo, NoneTakes, ReceivesAt, port_from};
ghost use Rattle.nb_network.specs.Steps.{IsOpenAt, counts_by, counts_by_kind};
ghost use Rattle.nb_network.specs.Takes.{TakesRecord};
ghost use Rattle.nb_network.specs.declared.living.Living.{Living as TheLiving};
ghost use Rattle.nb_record.specs.Logged.{Puts};
ghost use Rattle.nb_stack.specs.Takes.{outcome};
ghost use Rattle.nb_teller.specs.Put.{IsFrameOrNothing};

use crate::{KeptEnd, Living, Opens};
use nb_chains::{Arrival, ChainKind};
use nb_open::OpenObjects;
use nb_record::Log;
use nb_stack::{Stack, Taken};
use nb_teller::{Carrier, Desk, put_reply, put_step};
use nb_terms::NoMemory;
use nb_wire::Ip4;
use std::alloc::Global;

/// A name server's port (RFC 1035, section 4.2.1).
const DNS_SERVER: u16 = 53;

/// A DHCP server's port (RFC 2131, section 4.1).
const DHCP_SERVER: u16 = 67;

impl Opens {
    /// A frame arrives in the record `rec`, at the time `now` in milliseconds. What it brings to an open, that takes; else it
    /// may change the neighbours and be replied to. Returns the open of the number that is awaited, where it has ended. Where
    /// memory runs out nothing is put.
    #[inline(always)]
    pub fn take_frame(
        &mut self,
        alloc: Global,
        net: &mut Stack,
        rec: u32,
        now: u64,
        bytes: &[u8],
        awaited: Option<u16>,
        mut desk: Desk,
        log: &mut Log,
    ) -> Result<(Option<KeptEnd>, Desk), NoMemory>
        requires valid { IsFrameRecord bytes.now }
        requires sound { (w : ℕ) × (opens : ℕ) × AreSound w opens net.old self.old }
        ensures takes { IfOk result (λ r. (w opens : ℕ) → AreSound w opens net.old self.old → (s : State)
            → IsStateOf self.old net.old now s
            → TakesRecord self.old net.old now opens rec (defs.frame bytes.now) self.new net.new now awaited r.0 log.old log.new s) }
        ensures sound { OnOk result ((w opens : ℕ) → AreSound w opens net.old self.old → AreSound w opens net.new self.new) }
        ensures nothing { OnErr result (log.new ≡ log.old) }
        ensures mac { net.new.mac ≡ net.old.mac }
        ensures address { net.new.address ≡ net.old.address }
        ensures up { net.new.up ≡ net.old.up }
    {
        let mut reply = desk.room.out();
        let taken = net.take(bytes, &mut reply);
        match self.taker(taken) {
            Some((place, arrival)) => {
                self.receive(alloc, net, place, &arrival, rec, now, awaited, desk, log)
            }
            None => {
                put_passed(rec, reply.written(), log);
                Ok((None, desk))
            }
        }
    }

    /// The place in the list of the open that takes this message, and what comes to it.
    #[inline(always)]
    fn taker<'a>(&self, taken: Taken<'a>) -> Option<(usize, Arrival<'a>)>
        ensures found { IfSome result (λ r. GoesTo self.now.list (outcome taken.entry) r.0 r.1) }
        ensures none { result ≡ None → NoneTakes self.now.list (outcome taken.entry) }
    {
        match taken {
            Taken::To {
                to,
                src,
                src_port,
                body,
                ..
            } => {
                let place = self.place_of(to)?;
                let open = &self.list[place];
                if counts_for(open, src, src_port) {
                    let port = arrival_port(open, src_port);
                    let source = src;
                    Some((place, Arrival { port, source, body }))
                } else {
                    None
                }
            }
            Taken::Drop | Taken::Reply => None,
        }
    }

    /// The place in the list of the open of this number.
    #[inline(always)]
    pub(crate) fn place_of(&self, number: u64) -> Option<usize>
        ensures found { IfSome result (λ i. (o : TheLiving) × IsOpenAt self.now.list i o × (o.speaker.number ≡ number)) }
        ensures none { result ≡ None → AllByRecursion (λ o. o.speaker.number ≡ number → ⊥) self.now.list }
    {
        for (place, open) in self.list.iter().enumerate() {
            if u64::from(open.speaker.number) == number {
                return Some(place);
            }
        }
        None
    }

    /// This comes to the open at this place.
    #[inline(always)]
    fn receive(
        &mut self,
        alloc: Global,
        net: &mut Stack,
        place: usize,
        arrival: &Arrival<'_>,
        rec: u32,
        now: u64,
        awaited: Option<u16>,
        desk: Desk,
        log: &mut Log,
    ) -> Result<(Option<KeptEnd>, Desk), NoMemory>
        requires sound { (w : ℕ) × (opens : ℕ) × AreSound w opens net.old self.old }
        requires place { place < length self.old.list }
        requires short { length arrival.now.body.now ≤ 65535 }
        ensures receives { IfOk result (λ r. (o : TheLiving) → (at : IsOpenAt self.old.list place o) → ReceivesAt self.old net.old at.before o
            at.behind rec arrival.now now awaited r.0 self.new net.new log.old log.new) }
        ensures nothing { OnErr result (log.new ≡ log.old) }
        ensures mac { net.new.mac ≡ net.old.mac }
        ensures address { net.new.address ≡ net.old.address }
        ensures up { net.new.up ≡ net.old.up }
    {
        let open = self.list[place].bare();
        let (ended, desk) = open.receive(alloc, &mut self.graph, net, rec, arrival, now, desk)?;
        self.graph.has_nodes();
        let begun = Some(rec);
        let found = self.settle(alloc, net, place, begun, ended, awaited, None, &desk, log)?;
        Ok((found, desk))
    }
}

/// A frame brings no open anything: its STEP is put, and the reply to it, if there is one.
#[inline(never)]
fn put_passed(rec: u32, reply: &[u8], log: &mut Log)
    requires reply { IsFrameOrNothing reply.now }
    ensures { Puts log.old log.new (out_texts (step rec ∷ reply_records reply.now)) }
{
    put_step(rec, log);
    put_reply(reply, log);
}

/// Whether a message from this host and port counts for this open.
#[inline(always)]
fn counts_for(taker: &Living, source: Ip4, port: u16) -> bool
    ensures { result ≡ counts_by taker.now.objects taker.now.speaker.server source port }
{
    let is_server = source.0 == taker.speaker.server.0;
    match taker.objects {
        OpenObjects::Chain { kind, .. } => counts_by_kind(kind, is_server, port),
        OpenObjects::Web { port: asked, .. } | OpenObjects::Drive { port: asked, .. } => {
            is_server && port == asked
        }
    }
}

/// The same for a chain, by its kind.
#[inline(always)]
fn counts_by_kind(kind: ChainKind, is_server: bool, port: u16) -> bool
    ensures { result ≡ counts_by_kind kind is_server port }
{
    match kind {
        ChainKind::File | ChainKind::Echo => is_server,
        ChainKind::Name => is_server && port == DNS_SERVER,
        ChainKind::Lease => port == DHCP_SERVER,
        ChainKind::Drive => false,
    }
}

/// From which port a message comes to this open: that of an echo reply is its identifier.
#[inline(always)]
fn arrival_port(taker: &Living, port: u16) -> u16
    ensures { result ≡ port_from taker.now port }
{
    match taker.speaker.carrier {
        Carrier::Udp | Carrier::Tcp => port,
        Carrier::Icmp => taker.speaker.own_port,
    }
}
