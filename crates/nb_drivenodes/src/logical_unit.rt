//! The object of a logical unit.

ghost use Rattle.std.specs.Prelude.{◌≡◌, ◌+◌, ◌≤◌, ◌++◌, ◌∷◌, ℕ, List, [], length, None, true, false, OnOk, if◌then◌else◌};
ghost use Rattle.std.specs.Result.{is_ok};
ghost use Rattle.std.specs.Option.{is_some};
ghost use Rattle.nb_graph.specs.Trace.{Said, said, NodeEntry, up, down, closed, time, regain};
ghost use Rattle.nb_graph.specs.Effects.{IsNothing, TakesSome};
ghost use Rattle.nb_drivenodes.specs.declared.unit_stage.UnitStage.TheVariants as stage;
ghost use Rattle.nb_conns.specs.ConnEffects.{ConnWithin, SaysNothing, TookAll};
ghost use Rattle.nb_drivenodes.specs.UnitTalks.{UnitStands, UnitOn, IsUnaskedUnit, UnitDowns, UnitUps, AsksUnit, session_asked_emit, blocks_emit, answered_emit, tagged_below, stage_is_working};
ghost use Rattle.nb_drivenodes.specs.DriveEffects.{OnlyFirst};

use crate::asking::{ABOVE, BELOW, all_of, ask_close, joined, send};
use crate::drive_tag::DriveTag;
use crate::session_note::SessionNote;
use crate::text_load::CarriesText;
use crate::unit_answer::{UnitAnswer, serve_end, serve_pdu, start_unit};
use crate::unit_stage::UnitStage;
use nb_conns::StreamTag;
use nb_disk::ReadRefusal;
use nb_graph::{Emit, Few, Fx, Msg};
use nb_iscsipdu::{HEAD_LEN, Pdu};
use nb_terms::{Acts, Cause, NoMemory};
use nb_wire::Text;
use std::alloc::Global;

/// The most blocks of one read.
const MOST_BLOCKS: u32 = 64;

/// One logical unit of an iSCSI target, as a drive that is read: its user is plugged to slot 0, the session lies below
/// slot 1.
///
/// A `Begin` from above asks for it, and is handed down as it is. Once the session is open, the unit is made ready and
/// its size is read; that this was answered goes up as `Answered`. A `Read` from above then asks for blocks: their bytes
/// go up as `Received`, and after the last of them `Answered`. A read that goes beyond the unit, of no block or more
/// than 64, or while a command is at work, asks for nothing. Where the session ends it closes slots 0 and 1 with the
/// cause, the one above first. Where one of both is closed, it closes the other.
#[derive(Drop)]
pub struct LogicalUnit {
    alloc: Global,
    pub(crate) stage: UnitStage,
    /// What its core fills at each call.
    acts: Acts,
}

impl LogicalUnit {
    /// One that waits for what to ask for.
    pub fn new(alloc: Global) -> LogicalUnit
        ensures { IsUnaskedUnit result }
    {
        LogicalUnit {
            alloc,
            stage: UnitStage::Unasked,
            acts: Acts::none(),
        }
    }

    /// A message from below. It takes all of it.
    pub fn on_up<N, L: CarriesText>(
        &mut self,
        slot: u8,
        msg: &Msg<'_>,
        fx: &mut Fx<N, L>,
    ) -> Result<(), NoMemory>
        requires { IsNothing fx.old }
        ensures within { ConnWithin (length msg.now.first.now + length msg.now.second.now) fx.new }
        ensures took { fx.new.took ≤ length msg.now.first.now + length msg.now.second.now }
        ensures takes { OnOk result (TakesSome slot (length msg.now.first.now + length msg.now.second.now) fx.new) }
        ensures stands { (t : List (NodeEntry N L)) (now : ℕ) → UnitStands L.texts self.old t
            → UnitStands L.texts self.new (t ++ up slot (said msg.now) now (is_ok result) fx.new ∷ []) }
    {
        fx.took = all_of(msg);
        if slot != BELOW {
            return Ok(());
        }
        if msg.second.is_empty() {
            return self.receive(msg, msg.first, fx);
        }
        match joined(self.alloc, msg) {
            Ok(bytes) => self.receive(msg, bytes.as_slice(), fx),
            Err(_) => self.give_up(),
        }
    }

    /// A message from below, which has these bytes.
    fn receive<N, L: CarriesText>(
        &mut self,
        msg: &Msg<'_>,
        bytes: &[u8],
        fx: &mut Fx<N, L>,
    ) -> Result<(), NoMemory>
        requires blank { SaysNothing fx.old × (fx.old.closes.items ≡ []) }
        requires bytes { bytes.now ≡ msg.now.first.now ++ msg.now.second.now }
        ensures leads { (slot now : ℕ) → slot ≡ 1 → TookAll (said msg.now) fx.old
            → UnitOn L.texts self.old.stage self.new.stage (up slot (said msg.now) now (is_ok result) fx.new) }
        ensures within { ConnWithin (length bytes.now) fx.new }
        ensures took { fx.new.took ≡ fx.old.took }
    {
        match &self.stage {
            UnitStage::Waiting => {
                if msg.tag == u8::from(DriveTag::Opened) {
                    return self.open(msg.a, msg.b, bytes, fx);
                }
                Ok(())
            }
            UnitStage::Working(_, _) => {
                if msg.tag == u8::from(DriveTag::Pdu) {
                    return self.serve(msg.rec, bytes, fx);
                }
                if msg.tag == u8::from(StreamTag::End) {
                    self.finish(msg.rec, fx);
                }
                Ok(())
            }
            UnitStage::Unasked => Ok(()),
            UnitStage::Ended => Ok(()),
        }
    }

    /// The session is open, if these bytes say so.
    fn open<N, L: CarriesText>(
        &mut self,
        exp_stat_sn: u32,
        chap: u32,
        bytes: &[u8],
        fx: &mut Fx<N, L>,
    ) -> Result<(), NoMemory>
        requires blank { SaysNothing fx.old × (fx.old.closes.items ≡ []) }
        requires waits { self.old.stage ≡ stage.Waiting }
        ensures leads { (m : Said) (slot now : ℕ) → tagged_below 11 slot m ≡ true → m.a ≡ exp_stat_sn → m.b ≡ chap → m.bytes ≡ bytes.now → TookAll m fx.old
            → UnitOn L.texts self.old.stage self.new.stage (up slot m now (is_ok result) fx.new) }
        ensures within { (len : ℕ) → ConnWithin len fx.new }
        ensures took { fx.new.took ≡ fx.old.took }
    {
        let Some(note) = SessionNote::read(bytes) else {
            return Ok(());
        };
        match start_unit(self.alloc, note, exp_stat_sn) {
            Ok((disk, text)) => {
                self.stage = UnitStage::Working(disk, chap);
                send(text, &mut fx.downs);
                Ok(())
            }
            Err(_) => self.give_up(),
        }
    }

    /// These bytes are a PDU of the session, if they are one. More than 4,294,967,295 end it as if memory ran out.
    fn serve<N, L: CarriesText>(
        &mut self,
        rec: u32,
        bytes: &[u8],
        fx: &mut Fx<N, L>,
    ) -> Result<(), NoMemory>
        requires blank { SaysNothing fx.old × (fx.old.closes.items ≡ []) }
        ensures leads { (m : Said) (slot now : ℕ) → tagged_below 12 slot m ≡ true → m.rec ≡ rec → m.bytes ≡ bytes.now → TookAll m fx.old
            → UnitOn L.texts self.old.stage self.new.stage (up slot m now (is_ok result) fx.new) }
        ensures within { ConnWithin (length bytes.now) fx.new }
        ensures took { fx.new.took ≡ fx.old.took }
    {
        let UnitStage::Working(disk, chap) = &mut self.stage else {
            return Ok(());
        };
        let Some((head, seg)) = bytes.split_first_chunk::<48>() else {
            return Ok(());
        };
        if bytes.len() > u32::MAX as usize {
            return self.give_up();
        }
        let chap = *chap;
        let pdu = Pdu { head: *head, seg };
        match serve_pdu(self.alloc, disk, rec, &pdu, &mut self.acts) {
            Ok(answer) => {
                self.carry_out(answer, bytes.len() as u32, chap, fx);
                Ok(())
            }
            Err(_) => self.give_up(),
        }
    }

    /// No further PDU comes.
    fn finish<N, L: CarriesText>(&mut self, rec: u32, fx: &mut Fx<N, L>)
        requires { SaysNothing fx.old × (fx.old.closes.items ≡ []) }
        ensures leads { (m : Said) (slot now : ℕ) → tagged_below 8 slot m ≡ true → m.rec ≡ rec → TookAll m fx.old
            → UnitOn L.texts self.old.stage self.new.stage (up slot m now true fx.new) }
        ensures within { (len : ℕ) → ConnWithin len fx.new }
        ensures took { fx.new.took ≡ fx.old.took }
    {
        let UnitStage::Working(disk, _) = &mut self.stage else {
            return;
        };
        let answer = serve_end(disk, rec, &mut self.acts);
        ask_close(answer.over, fx);
        self.stage.end_if(answer.over.is_some());
    }

    /// Asks for what an answer to a message of so many bytes says. It has ended where the session has.
    fn carry_out<N, L: CarriesText>(
        &mut self,
        answer: UnitAnswer,
        len: u32,
        chap: u32,
        fx: &mut Fx<N, L>,
    )
        requires blank { SaysNothing fx.old × (fx.old.closes.items ≡ []) }
        requires head { 48 ≤ len }
        ensures stage { self.new.stage ≡ (if is_some answer.over then stage.Ended else self.old.stage) }
        ensures effects { AsksUnit L.texts len chap answer fx.new }
        ensures within { ConnWithin len fx.new }
        ensures took { fx.new.took ≡ fx.old.took }
    {
        let UnitAnswer {
            text,
            gives,
            answered,
            over,
        } = answer;
        send_some(text, &mut fx.downs);
        hand_up_answer(gives, answered, len, chap, &mut fx.ups);
        ask_close(over, fx);
        self.stage.end_if(over.is_some());
    }

    /// A message from above: a `Begin` asks for the session, and a `Read` for blocks.
    pub fn on_down<N, L: CarriesText>(
        &mut self,
        msg: &Msg<'_>,
        fx: &mut Fx<N, L>,
    ) -> Result<(), NoMemory>
        requires { IsNothing fx.old }
        ensures within { ConnWithin (length msg.now.first.now + length msg.now.second.now) fx.new }
        ensures ups { (fx.new.ups.first ≡ None) × (fx.new.ups.second ≡ None) }
        ensures stands { (t : List (NodeEntry N L)) (now : ℕ) → UnitStands L.texts self.old t
            → UnitStands L.texts self.new (t ++ down (said msg.now) now (is_ok result) fx.new ∷ []) }
    {
        match &self.stage {
            UnitStage::Unasked => self.begin(msg, fx),
            UnitStage::Working(_, _) => self.ask(msg, fx),
            UnitStage::Waiting => Ok(()),
            UnitStage::Ended => Ok(()),
        }
    }

    /// Asks for the session, if the message does. More than 4,294,967,295 bytes end it as if memory ran out.
    fn begin<N, L: CarriesText>(&mut self, msg: &Msg<'_>, fx: &mut Fx<N, L>) -> Result<(), NoMemory>
        requires nothing { IsNothing fx.old }
        requires unasked { self.old.stage ≡ stage.Unasked }
        ensures leads { (now : ℕ) → UnitOn L.texts self.old.stage self.new.stage (down (said msg.now) now (is_ok result) fx.new) }
        ensures within { ConnWithin (length msg.now.first.now + length msg.now.second.now) fx.new }
        ensures ups { (fx.new.ups.first ≡ None) × (fx.new.ups.second ≡ None) }
    {
        if msg.tag != u8::from(StreamTag::Begin) {
            return Ok(());
        }
        let count = msg.first.len() + msg.second.len();
        if count > u32::MAX as usize {
            return self.give_up();
        }
        self.stage = UnitStage::Waiting;
        ask_session(msg.a, msg.b, count as u32, &mut fx.downs);
        Ok(())
    }

    /// Asks for blocks, if the message does and they may be asked for.
    fn ask<N, L: CarriesText>(&mut self, msg: &Msg<'_>, fx: &mut Fx<N, L>) -> Result<(), NoMemory>
        requires nothing { IsNothing fx.old }
        requires works { stage_is_working self.old.stage ≡ true }
        ensures leads { (now : ℕ) → UnitOn L.texts self.old.stage self.new.stage (down (said msg.now) now (is_ok result) fx.new) }
        ensures within { (len : ℕ) → ConnWithin len fx.new }
        ensures ups { (fx.new.ups.first ≡ None) × (fx.new.ups.second ≡ None) }
    {
        if msg.tag != u8::from(DriveTag::Read) || msg.b == 0 || msg.b > MOST_BLOCKS {
            return Ok(());
        }
        self.read(msg.a, msg.b as u16, fx)
    }

    /// Asks for so many blocks, if they may be asked for.
    fn read<N, L: CarriesText>(
        &mut self,
        lba: u32,
        n: u16,
        fx: &mut Fx<N, L>,
    ) -> Result<(), NoMemory>
        requires nothing { IsNothing fx.old }
        requires some { 1 ≤ n }
        requires few { n ≤ 64 }
        ensures leads { (m : Said) (now : ℕ) → m.tag ≡ 13 → m.a ≡ lba → m.b ≡ n
            → UnitOn L.texts self.old.stage self.new.stage (down m now (is_ok result) fx.new) }
        ensures within { (len : ℕ) → ConnWithin len fx.new }
        ensures ups { (fx.new.ups.first ≡ None) × (fx.new.ups.second ≡ None) }
    {
        let UnitStage::Working(disk, _) = &mut self.stage else {
            return Ok(());
        };
        if disk.has_ended() {
            return Ok(());
        }
        match disk.read(self.alloc, lba, n) {
            Ok(text) => {
                send(text, &mut fx.downs);
                Ok(())
            }
            Err(ReadRefusal::NoMemory) => self.give_up(),
            Err(ReadRefusal::OutOfDisk) => Ok(()),
            Err(ReadRefusal::Busy) => Ok(()),
        }
    }

    /// The port of this slot was closed from its other end: the one on the other side is closed too.
    pub fn on_close<N, L: CarriesText>(&mut self, slot: u8, cause: &Cause, fx: &mut Fx<N, L>)
        requires { IsNothing fx.old }
        ensures within { ConnWithin 0 fx.new }
        ensures ups { (fx.new.ups.first ≡ None) × (fx.new.ups.second ≡ None) }
        ensures stands { (t : List (NodeEntry N L)) (now : ℕ) → UnitStands L.texts self.old t
            → UnitStands L.texts self.new (t ++ closed slot cause.now now fx.new ∷ []) }
    {
        if slot > BELOW || self.stage.is_ended() {
            return;
        }
        self.stage = UnitStage::Ended;
        fx.closes.push((BELOW - slot, *cause));
    }

    /// Time passes: nothing is asked for.
    pub fn on_time<N, L: CarriesText>(&self, fx: &Fx<N, L>)
        requires { IsNothing fx.now }
        ensures within { ConnWithin 0 fx.now }
        ensures stands { (t : List (NodeEntry N L)) (now : ℕ) → UnitStands L.texts self.now t
            → UnitStands L.texts self.now (t ++ time now true fx.now ∷ []) }
    {}

    /// What was lent comes back: it isn't used again.
    pub fn regain<N, L: CarriesText>(&self, load: L)
        ensures { (t : List (NodeEntry N L)) → UnitStands L.texts self.now t
            → UnitStands L.texts self.now (t ++ regain load ∷ []) }
    {
        let _dropped = load;
    }

    /// Memory ran out in an entry: nothing is asked for any more.
    fn give_up(&mut self) -> Result<(), NoMemory>
        ensures err { is_ok result ≡ false }
        ensures ended { self.new.stage ≡ stage.Ended }
    {
        self.stage = UnitStage::Ended;
        Err(NoMemory)
    }
}

/// Sends a text, if there is one.
fn send_some<L: CarriesText>(text: Option<Text>, downs: &mut Few<Emit<L>>)
    requires blank { (downs.old.first ≡ None) × (downs.old.second ≡ None) }
    ensures { UnitDowns L.texts text downs.new }
{
    if let Some(text) = text {
        send(text, downs);
    }
}

/// Hands up the data of a PDU of so many bytes, and then that a command was answered.
fn hand_up_answer<L: CarriesText>(
    gives: bool,
    answered: Option<u32>,
    len: u32,
    chap: u32,
    ups: &mut Few<Emit<L>>,
)
    requires blank { (ups.old.first ≡ None) × (ups.old.second ≡ None) }
    ensures { UnitUps len chap gives answered ups.new }
{
    match (gives, answered) {
        (true, Some(capacity)) => {
            ups.first.put(blocks_up(len));
            ups.second.put(answered_up(capacity, chap));
        }
        (true, None) => ups.first.put(blocks_up(len)),
        (false, Some(capacity)) => ups.first.put(answered_up(capacity, chap)),
        (false, None) => {}
    }
}

/// Bytes of blocks: the data of a PDU of so many bytes.
fn blocks_up<L>(len: u32) -> Emit<L>
    ensures { result ≡ blocks_emit len }
{
    Emit {
        slot: ABOVE,
        tag: u8::from(StreamTag::Received),
        a: 0,
        b: 0,
        from: HEAD_LEN as u32,
        to: len,
        load: None,
    }
}

/// The command at work was answered, of a unit of so many blocks.
fn answered_up<L>(capacity: u32, chap: u32) -> Emit<L>
    ensures { result ≡ answered_emit capacity chap }
{
    Emit {
        slot: ABOVE,
        tag: u8::from(DriveTag::Answered),
        a: capacity,
        b: chap,
        from: 0,
        to: 0,
        load: None,
    }
}

/// Asks for the session by a message of so many bytes, with these numbers.
fn ask_session<L: CarriesText>(a: u32, b: u32, len: u32, downs: &mut Few<Emit<L>>)
    requires blank { (downs.old.first ≡ None) × (downs.old.second ≡ None) }
    ensures { OnlyFirst (session_asked_emit a b len) downs.new }
{
    downs.first.put(Emit {
        slot: BELOW,
        tag: u8::from(StreamTag::Begin),
        a,
        b,
        from: 0,
        to: len,
        load: None,
    });
}
