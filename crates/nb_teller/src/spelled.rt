ghost use Rattle.std.specs.Prelude.{◌≡◌, ◌≤◌, ◌∷◌, ◌++◌, ◌||◌, [], length, not, true, false, None, Some, IfOk};
ghost use Rattle.std.specs.Option.{option_copied};
ghost use Rattle.nb_defs.specs.Records.{advanced, graph};
ghost use Rattle.nb_ledger.specs.Flat as notice;
ghost use Rattle.nb_opens.specs.Notices.{close_of, or_else};
ghost use Rattle.nb_machine.specs.Sendings.{send_records, has_route};
ghost use Rattle.nb_teller.specs.Spelling.{first_there, FindsNothing, HasSpelled, IsBlank, SpellsMore};
ghost use Rattle.nb_teller.specs.Speakers.{datagram_of, CanCarry};

use crate::desk::Room;
use crate::put::put_datagram;
use crate::speaker::Speaker;
use nb_drivechains::DriveAnswer;
use nb_record::{Cause, Event, Log, NoMemory, OutRec};
use nb_runner::copy;
use nb_stack::Stack;
use nb_wire::{Ip4, Text};
use std::alloc::Global;
use std::marker::Model;

/// How many bytes of records there is room for at first: more than a call of the graph spells.
const TEXT: usize = 4096;

/// The number of an event that closes a port.
const CLOSED: u8 = 8;

/// The code of a cause: memory ran out.
const OUT_OF_MEMORY: u8 = 23;

/// The records of what a graph told since this was cleared, what was delivered, and whether a message found no
/// route. Where memory ran out, or a message isn't one of an open's, in one part, all of it is lost.
#[derive(Drop)]
pub struct Spelled {
    alloc: Global,
    text: Log,
    closed: Option<Cause>,
    bytes: Option<Text>,
    address: Option<Ip4>,
    blocks: Vec<u8>,
    answer: Option<DriveAnswer>,
    stuck: bool,
    lost: bool,
}

impl Model for Spelled {
    ghost use Rattle.std.specs.Prelude.{◌||◌};
    ghost use Rattle.nb_teller.specs.Spelling.{Spelling};

    ghost Value = { Spelling };

    ghost view = { λ s. record {
      text = s.text.bytes;
      closed = s.closed;
      bytes = s.bytes;
      address = s.address;
      blocks = s.blocks.items;
      answer = s.answer;
      is_stuck = s.stuck;
      is_lost = s.lost || s.text.is_short;
    } };
}

impl Spelled {
    /// One that was told nothing.
    fn new(alloc: Global) -> Result<Spelled, NoMemory> {
        Ok(Spelled {
            alloc,
            text: Log::new(alloc, TEXT)?,
            closed: None,
            bytes: None,
            address: None,
            blocks: Vec::new(alloc),
            answer: None,
            stuck: false,
            lost: false,
        })
    }

    /// One that was told nothing, in its place.
    pub fn boxed(alloc: Global) -> Result<Box<Spelled>, NoMemory> {
        Ok(Box::new(alloc, Spelled::new(alloc)?)?)
    }

    /// Forgets what was told. The room for its records stays.
    #[inline(always)]
    pub fn clear(&mut self)
        ensures { IsBlank self.new }
    {
        self.text.clear();
        self.closed = None;
        self.bytes = None;
        self.address = None;
        self.blocks.clear();
        self.answer = None;
        self.stuck = false;
        self.lost = false;
    }

    /// The cause of the first close that was told. An error where memory ran out, in the graph or here.
    #[inline(always)]
    pub fn first_close(&self) -> Result<Option<Cause>, NoMemory>
        ensures { IfOk result (HasSpelled self.now) }
    {
        if self.lost || self.text.short() {
            return Err(NoMemory);
        }
        match self.closed {
            Some(cause) if cause.code == OUT_OF_MEMORY => Err(NoMemory),
            closed => Ok(closed),
        }
    }

    /// The records.
    pub fn text(&self) -> &Log
        ensures { result.now.bytes ≡ self.now.text }
    {
        &self.text
    }

    /// The first bytes that were delivered.
    pub fn bytes(&self) -> Option<&Text>
        ensures { option_copied result ≡ self.now.bytes }
    {
        self.bytes.as_ref()
    }

    /// The first address that was delivered.
    pub fn address(&self) -> Option<Ip4>
        ensures { result ≡ self.now.address }
    {
        self.address
    }

    /// All bytes that were delivered, in order.
    pub fn blocks(&self) -> &[u8]
        ensures { result.now ≡ self.now.blocks }
    {
        self.blocks.as_slice()
    }

    /// What a drive answered first.
    pub fn answer(&self) -> Option<DriveAnswer>
        ensures { result ≡ self.now.answer }
    {
        self.answer
    }

    /// Whether some message found no route: it has no record.
    pub fn is_stuck(&self) -> bool
        ensures { result ≡ self.now.is_stuck }
    {
        self.stuck
    }

    /// An event is told.
    pub fn put_event(&mut self, e: &Event)
        ensures closed { self.new.closed ≡ or_else self.old.closed (close_of (notice.event e.now)) }
        ensures found { FindsNothing self.old self.new }
        ensures stuck { self.new.is_stuck ≡ self.old.is_stuck }
        ensures more { SpellsMore self.old self.new (graph e.now ∷ []) }
    {
        self.text.put(&OutRec::Graph(*e));
        self.closed = first_of(self.closed, e);
    }

    /// The open of this number has come to this place.
    #[inline(always)]
    pub fn put_advance(&mut self, number: u16, place: u32)
        ensures closed { self.new.closed ≡ self.old.closed }
        ensures found { FindsNothing self.old self.new }
        ensures stuck { self.new.is_stuck ≡ self.old.is_stuck }
        ensures more { SpellsMore self.old self.new (advanced number place ∷ []) }
    {
        self.text.put(&OutRec::Advance { number, place });
    }

    /// A datagram is sent, which may be a try, to this port of the server.
    pub fn put_datagram(
        &mut self,
        net: &Stack,
        who: &Speaker,
        tried: Option<u8>,
        port: u16,
        body: &[u8],
        room: &mut Room,
    )
        requires can { CanCarry who.now body.now }
        ensures closed { self.new.closed ≡ self.old.closed }
        ensures found { FindsNothing self.old self.new }
        ensures stuck { self.new.is_stuck
            ≡ (self.old.is_stuck || not (has_route net.now (datagram_of who.now port body.now))) }
        ensures more { SpellsMore self.old self.new
            (send_records net.now who.now.number tried (datagram_of who.now port body.now)) }
    {
        if !put_datagram(net, who, tried, port, body, room, &mut self.text) {
            self.stuck = true;
        }
    }

    /// These bytes are delivered.
    pub fn put_bytes(&mut self, bytes: &[u8])
        ensures closed { self.new.closed ≡ self.old.closed }
        ensures address { self.new.address ≡ self.old.address }
        ensures found { self.new.is_lost ≡ false → self.new.bytes ≡ first_there self.old.bytes (Some bytes.now) }
        ensures blocks { self.new.is_lost ≡ false → self.new.blocks ≡ self.old.blocks ++ bytes.now }
        ensures answer { self.new.answer ≡ self.old.answer }
        ensures stuck { self.new.is_stuck ≡ self.old.is_stuck }
        ensures more { SpellsMore self.old self.new [] }
    {
        if self.bytes.is_none() {
            match copy(self.alloc, bytes) {
                Ok(copied) => self.bytes = Some(copied),
                Err(NoMemory) => self.lost = true,
            }
        }
        if self.blocks.extend_from_slice(bytes).is_err() {
            self.lost = true;
        }
    }

    /// A drive answers this.
    pub fn put_answer(&mut self, answer: DriveAnswer)
        ensures closed { self.new.closed ≡ self.old.closed }
        ensures bytes { self.new.bytes ≡ self.old.bytes }
        ensures address { self.new.address ≡ self.old.address }
        ensures blocks { self.new.blocks ≡ self.old.blocks }
        ensures found { self.new.answer ≡ first_there self.old.answer (Some answer) }
        ensures stuck { self.new.is_stuck ≡ self.old.is_stuck }
        ensures more { SpellsMore self.old self.new [] }
    {
        if self.answer.is_none() {
            self.answer = Some(answer);
        }
    }

    /// This address is delivered.
    pub fn put_address(&mut self, address: Ip4)
        ensures closed { self.new.closed ≡ self.old.closed }
        ensures bytes { self.new.bytes ≡ self.old.bytes }
        ensures blocks { self.new.blocks ≡ self.old.blocks }
        ensures answer { self.new.answer ≡ self.old.answer }
        ensures found { self.new.address ≡ first_there self.old.address (Some address) }
        ensures stuck { self.new.is_stuck ≡ self.old.is_stuck }
        ensures more { SpellsMore self.old self.new [] }
    {
        if self.address.is_none() {
            self.address = Some(address);
        }
    }

    /// A message can't be spelled: all is lost.
    pub fn lose(&mut self)
        ensures closed { self.new.closed ≡ self.old.closed }
        ensures lost { self.new.is_lost ≡ true }
    {
        self.lost = true;
    }
}

/// The cause of the first close, after this event.
fn first_of(closed: Option<Cause>, e: &Event) -> Option<Cause>
    ensures { result ≡ or_else closed (close_of (notice.event e.now)) }
{
    match closed {
        None if e.event == CLOSED => Some(e.cause),
        closed => closed,
    }
}
