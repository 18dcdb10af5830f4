ghost use Rattle.std.specs.Prelude.{◌≡◌, ◌==◌, ◌++◌, [], ℕ, List, false, not, None, Some, IfOk, OnOk};
ghost use Rattle.nb_nodes.specs.Tags.{tag_number};
ghost use Rattle.nb_nodes.specs.declared.tag.Tag.TheVariants as tag;
ghost use Rattle.nb_stack.specs.Client.{Client};
ghost use Rattle.nb_teller.specs.declared.speaker.Speaker.{Speaker as TheSpeaker};
ghost use Rattle.nb_machine.specs.Sendings.{has_route, send_records};
ghost use Rattle.nb_teller.specs.Spelling.{heard_by, IsBlank, IsWholeSpelling, SpellsMessage};
ghost use Rattle.nb_teller.specs.Tellings.{is_delivery, message_lacks_route, message_records, try_by};
ghost use Rattle.nb_conns.specs.StreamTags.{stream_tag_number};
ghost use Rattle.nb_conns.specs.declared.stream_tag.StreamTag.TheVariants as stream_tag;
ghost use Rattle.nb_teller.specs.Speakers.{datagram_of};

use crate::desk::Room;
use crate::put::can_carry;
use crate::speaker::Speaker;
use crate::spelled::Spelled;
use nb_conns::StreamTag;
use nb_drivechains::DriveAnswer;
use nb_graph::{Msg, Outside, Port};
use nb_nodes::Tag;
use nb_record::{Event, NoMemory};
use nb_stack::Stack;
use nb_wire::Ip4;

/// What lies outside the graph: the records of what an open's objects tell are spelled at once.
#[derive(Drop)]
pub struct Teller<'a> {
    /// The client's link.
    pub net: &'a Stack,
    /// Whose messages leave.
    pub who: &'a Speaker,
    /// Where frames are put together.
    pub room: &'a mut Room,
    /// What was told.
    pub told: Box<Spelled>,
}

impl<'a> Teller<'a> {
    /// One that was told nothing.
    #[inline(always)]
    pub fn over(
        net: &'a Stack,
        who: &'a Speaker,
        mut told: Box<Spelled>,
        room: &'a mut Room,
    ) -> Teller<'a>
        ensures net { result.net.now ≡ net.now }
        ensures who { result.who.now ≡ who.now }
        ensures blank { IsBlank result.told.value }
    {
        told.clear();
        Teller {
            net,
            who,
            room,
            told,
        }
    }

    /// One that was told this before.
    #[inline(always)]
    pub fn after(
        net: &'a Stack,
        who: &'a Speaker,
        told: Box<Spelled>,
        room: &'a mut Room,
    ) -> Teller<'a>
        ensures net { result.net.now ≡ net.now }
        ensures who { result.who.now ≡ who.now }
        ensures told { result.told.value ≡ told.value }
    {
        Teller {
            net,
            who,
            room,
            told,
        }
    }

    /// An error where memory ran out, in the graph or here.
    #[inline(always)]
    pub fn check(&self) -> Result<(), NoMemory>
        ensures { OnOk result (IsWholeSpelling self.now.told.value) }
    {
        match self.told.first_close() {
            Ok(_) => Ok(()),
            Err(NoMemory) => Err(NoMemory),
        }
    }

    /// What was told.
    #[inline(always)]
    pub fn into_told(self) -> Box<Spelled>
        ensures { result.value ≡ self.entry.told.value }
    {
        self.told
    }

    /// What was told. An error where memory ran out, in the graph or here.
    #[inline(always)]
    pub fn finish(self) -> Result<Box<Spelled>, NoMemory>
        ensures told { IfOk result (λ told. told.value ≡ self.entry.told.value) }
        ensures whole { IfOk result (λ told. IsWholeSpelling told.value) }
    {
        self.check()?;
        Ok(self.told)
    }
}

/// A message leaves that is a datagram, which may be a try.
fn send_datagram(
    told: &mut Spelled,
    net: &Stack,
    who: &Speaker,
    room: &mut Room,
    tried: Option<u8>,
    msg: &Msg<'_>,
)
    requires sends { (b : ℕ) (bytes : List ℕ) → message_records net.now who.now msg.now.tag msg.now.a b bytes
        ≡ send_records net.now who.now.number tried (datagram_of who.now b bytes) }
    requires lacks { (b : ℕ) (bytes : List ℕ) → message_lacks_route net.now who.now msg.now.tag b bytes
        ≡ not (has_route net.now (datagram_of who.now b bytes)) }
    requires tag { is_delivery msg.now.tag ≡ false }
    ensures { SpellsMessage net.now who.now told.old told.new msg.now.tag msg.now.a msg.now.b
        (msg.now.first.now ++ msg.now.second.now) }
{
    match u16::try_from(msg.b) {
        Ok(port) if can_carry(who, msg.first) && msg.second.is_empty() => {
            told.put_datagram(net, who, tried, port, msg.first, room)
        }
        _ => told.lose(),
    }
}

/// A message leaves that is a try.
#[inline(always)]
fn send_try(told: &mut Spelled, net: &Stack, who: &Speaker, room: &mut Room, msg: &Msg<'_>)
    requires sends { (b : ℕ) (bytes : List ℕ) → message_records net.now who.now msg.now.tag msg.now.a b bytes
        ≡ send_records net.now who.now.number (Some msg.now.a) (datagram_of who.now b bytes) }
    requires lacks { (b : ℕ) (bytes : List ℕ) → message_lacks_route net.now who.now msg.now.tag b bytes
        ≡ not (has_route net.now (datagram_of who.now b bytes)) }
    requires tag { is_delivery msg.now.tag ≡ false }
    ensures { SpellsMessage net.now who.now told.old told.new msg.now.tag msg.now.a msg.now.b
        (msg.now.first.now ++ msg.now.second.now) }
{
    match u8::try_from(msg.a) {
        Ok(number) => send_datagram(told, net, who, room, Some(number), msg),
        Err(_) => told.lose(),
    }
}

/// Two segments leave, of which the second may be a try.
#[inline(never)]
fn send_two(told: &mut Spelled, net: &Stack, who: &Speaker, room: &mut Room, msg: &Msg<'_>)
    requires tag { msg.now.tag ≡ stream_tag_number stream_tag.TwoSegments }
    ensures { SpellsMessage net.now who.now told.old told.new msg.now.tag msg.now.a msg.now.b
        (msg.now.first.now ++ msg.now.second.now) }
{
    let are_segments = can_carry(who, msg.first) && can_carry(who, msg.second);
    match u8::try_from(msg.a) {
        Ok(number) if are_segments && msg.first.len() == msg.b as usize => {
            told.put_datagram(net, who, None, 0, msg.first, room);
            told.put_datagram(net, who, try_of(number), 0, msg.second, room);
        }
        _ => told.lose(),
    }
}

/// Of which number it is a try; none where that is 0.
fn try_of(number: u8) -> Option<u8>
    ensures { result ≡ try_by number }
{
    if number == 0 { None } else { Some(number) }
}

/// Bytes are delivered.
fn send_bytes(told: &mut Spelled, msg: &Msg<'_>)
    requires tag { msg.now.tag ≡ tag_number tag.Bytes }
    ensures { (net : Client) (who : TheSpeaker) → SpellsMessage net who told.old told.new msg.now.tag msg.now.a msg.now.b
        (msg.now.first.now ++ msg.now.second.now) }
{
    if msg.second.is_empty() {
        told.put_bytes(msg.first)
    } else {
        told.lose()
    }
}

/// A drive answers, if the message says so.
fn send_answer(told: &mut Spelled, msg: &Msg<'_>)
    ensures { (net : Client) (who : TheSpeaker) → SpellsMessage net who told.old told.new msg.now.tag msg.now.a msg.now.b
        (msg.now.first.now ++ msg.now.second.now) }
{
    match DriveAnswer::read(msg) {
        Some(answer) => told.put_answer(answer),
        None => told.lose(),
    }
}

/// A place is told.
#[inline(always)]
fn send_place(told: &mut Spelled, who: &Speaker, msg: &Msg<'_>)
    requires tag { msg.now.tag ≡ tag_number tag.Advance }
    ensures { (net : Client) → SpellsMessage net who.now told.old told.new msg.now.tag msg.now.a msg.now.b
        (msg.now.first.now ++ msg.now.second.now) }
{
    told.put_advance(who.number, msg.a);
}

/// A message leaves that isn't a place. Most of these are datagrams.
#[inline(always)]
fn send_more(told: &mut Spelled, net: &Stack, who: &Speaker, room: &mut Room, msg: &Msg<'_>)
    ensures { SpellsMessage net.now who.now told.old told.new msg.now.tag msg.now.a msg.now.b
        (msg.now.first.now ++ msg.now.second.now) }
{
    if msg.tag == u8::from(Tag::Datagram) {
        send_datagram(told, net, who, room, None, msg);
    } else {
        send_late(told, net, who, room, msg);
    }
}

/// A message leaves that is neither. Not inlined, so that places and datagrams cost little.
#[inline(never)]
fn send_late(told: &mut Spelled, net: &Stack, who: &Speaker, room: &mut Room, msg: &Msg<'_>)
    ensures { SpellsMessage net.now who.now told.old told.new msg.now.tag msg.now.a msg.now.b
        (msg.now.first.now ++ msg.now.second.now) }
{
    if msg.tag == u8::from(Tag::Try) {
        send_try(told, net, who, room, msg);
    } else {
        send_rare(told, net, who, room, msg);
    }
}

/// A message of any kind leaves.
#[inline(never)]
fn send_rare(told: &mut Spelled, net: &Stack, who: &Speaker, room: &mut Room, msg: &Msg<'_>)
    ensures { SpellsMessage net.now who.now told.old told.new msg.now.tag msg.now.a msg.now.b
        (msg.now.first.now ++ msg.now.second.now) }
{
    match Tag::try_from(msg.tag) {
        Ok(Tag::Advance) => send_place(told, who, msg),
        Ok(Tag::Datagram) => send_datagram(told, net, who, room, None, msg),
        Ok(Tag::Try) => send_try(told, net, who, room, msg),
        Ok(Tag::Bytes) => send_bytes(told, msg),
        Ok(Tag::Address) => send_address(told, msg),
        Err(_) if msg.tag == u8::from(StreamTag::TwoSegments) => {
            send_two(told, net, who, room, msg)
        }
        Err(_) => send_answer(told, msg),
        Ok(Tag::Begin) => told.lose(),
    }
}

/// An address is told.
fn send_address(told: &mut Spelled, msg: &Msg<'_>)
    requires tag { msg.now.tag ≡ tag_number tag.Address }
    ensures { (net : Client) (who : TheSpeaker) → SpellsMessage net who told.old told.new msg.now.tag msg.now.a msg.now.b
        (msg.now.first.now ++ msg.now.second.now) }
{
    told.put_address(Ip4(msg.a));
}

impl<'a> Outside for Teller<'a> {
    ghost events = { λ t. heard_by t.net.now t.who.now t.told.value };

    fn event(&mut self, e: &Event) {
        self.told.put_event(e);
    }

    #[inline(always)]
    fn send(&mut self, _from: Port, msg: &Msg<'_>) {
        if msg.tag == u8::from(Tag::Advance) {
            send_place(&mut self.told, self.who, msg);
        } else {
            let copy = *msg;
            send_more(&mut self.told, self.net, self.who, self.room, &copy);
        }
    }
}
