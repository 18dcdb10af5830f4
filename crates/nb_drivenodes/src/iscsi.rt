//! The object of a session.

ghost use Rattle.std.specs.Prelude.{◌≡◌, ◌+◌, ◌<◌, ◌≤◌, ◌++◌, ◌∷◌, ℕ, List, [], length, min, None, Some, true, false, IfOk, OnOk};
ghost use Rattle.std.specs.Result.{is_ok};
ghost use Rattle.nb_iscsipdu.specs.PduTexts.{PduParts, pdu_parts};
ghost use Rattle.nb_iscsipdu.specs.Streams.{whole_pdu};
ghost use Rattle.nb_graph.specs.Trace.{Said, said, NodeEntry, up, down, closed, time, regain};
ghost use Rattle.nb_graph.specs.Effects.{IsNothing, TakesSome};
ghost use Rattle.nb_drivenodes.specs.declared.session_stage.SessionStage.TheVariants as stage;
ghost use Rattle.nb_conns.specs.declared.stream_tag.StreamTag.TheVariants as stream;
ghost use Rattle.nb_conns.specs.ConnEffects.{ConnWithin, SaysNothing, TookAll};
ghost use Rattle.nb_login.specs.LoginStands.{LoginStands};
ghost use Rattle.nb_drivenodes.specs.StreamCuts.{FeedsSo, cuts_one, cuts_off};
ghost use Rattle.nb_drivenodes.specs.SessionTalks.{IscsiStands, SessionOn, IsUnaskedSession, stage_reads, stage_takes_session, AnsweredBy, stage_by, StartsLogin};
ghost use Rattle.nb_drivenodes.specs.DriveAsks.{info_of};

use crate::asking::{
    ABOVE, BELOW, all_of, ask_close, ask_conn, hand_up, joined, pass_down, send, tell_end,
    tell_open,
};
use crate::drive_ask::DriveAsk;
use crate::login_answer::{LoginAnswer, answer_to};
use crate::session_stage::SessionStage;
use crate::text_load::CarriesText;
use nb_conns::StreamTag;
use nb_graph::{Fx, Msg};
use nb_iscsipdu::{Pdu, PduState, Pdus};
use nb_login::{Login, LoginRefusal};
use nb_terms::{Acts, Cause, NoMemory, Reason};
use nb_wire::Text;
use std::alloc::Global;
use std::mem;

/// One session with an iSCSI target (RFC 7143): its user is plugged to slot 0, a connection lies below slot 1.
///
/// A `Begin` from above asks for it: the connection is begun, and given the first request of the login. What comes by
/// slot 1 as `Received` is cut into PDUs, of which a message's first is taken; the rest comes again. The login answers
/// them until the session is open, which goes up as `Opened`. From then on each PDU goes up, and a text that comes from
/// above is sent. Where no further PDU can be cut, or the stream ends, that goes up as `End`; before the session is open
/// it closes slots 0 and 1 as broken, the one above first, and so it does where the login fails. Where one of both is
/// closed, it closes the other.
#[derive(Drop)]
pub struct Iscsi {
    alloc: Global,
    pub(crate) stage: SessionStage,
    pub(crate) pdus: Pdus,
    /// What the login fills at each call.
    acts: Acts,
    /// What a PDU is copied to. Empty while it is lent.
    room: Vec<u8>,
}

impl Iscsi {
    /// One that waits for what to ask for. It takes the memory for a PDU.
    pub fn new(alloc: Global) -> Result<Iscsi, NoMemory>
        ensures { IfOk result IsUnaskedSession }
    {
        let pdus = Pdus::new(alloc)?;
        Ok(Iscsi {
            alloc,
            stage: SessionStage::Unasked,
            pdus,
            acts: Acts::none(),
            room: Vec::new(alloc),
        })
    }

    /// A message from below. Of the stream's bytes it takes those of one PDU at most, and of others all.
    pub fn on_up<N, L: CarriesText>(
        &mut self,
        slot: u8,
        msg: &Msg<'_>,
        fx: &mut Fx<N, L>,
    ) -> Result<(), NoMemory>
        requires { IsNothing fx.old }
        ensures within { ConnWithin (length msg.now.first.now + length msg.now.second.now) fx.new }
        ensures took { fx.new.took ≤ length msg.now.first.now + length msg.now.second.now }
        ensures takes { OnOk result (TakesSome slot (length msg.now.first.now + length msg.now.second.now) fx.new) }
        ensures stands { (t : List (NodeEntry N L)) (now : ℕ) → IscsiStands L.texts self.old t
            → IscsiStands L.texts self.new (t ++ up slot (said msg.now) now (is_ok result) fx.new ∷ []) }
    {
        if self.takes(StreamTag::Received, slot, msg) {
            return self.read(msg, fx);
        }
        fx.took = all_of(msg);
        if self.takes(StreamTag::End, slot, msg) {
            self.finish(msg.rec, fx);
        }
        Ok(())
    }

    /// Whether a message from below is one of these of the stream that is read.
    fn takes(&self, tag: StreamTag, slot: u8, msg: &Msg<'_>) -> bool
        ensures { result ≡ stage_takes_session self.now.stage tag slot (said msg.now) }
    {
        self.reads() && slot == BELOW && msg.tag == u8::from(tag)
    }

    /// Whether the stream is read.
    fn reads(&self) -> bool
        ensures { result ≡ stage_reads self.now.stage }
    {
        match &self.stage {
            SessionStage::Unasked => false,
            SessionStage::LoggingIn(_) => true,
            SessionStage::Open => true,
            SessionStage::Drained => false,
            SessionStage::Ended => false,
        }
    }

    /// The next bytes of the stream. More than 4,294,967,295 at once end it as if memory ran out.
    fn read<N, L: CarriesText>(&mut self, msg: &Msg<'_>, fx: &mut Fx<N, L>) -> Result<(), NoMemory>
        requires { IsNothing fx.old }
        ensures leads { (slot now : ℕ) → stage_takes_session self.old.stage stream.Received slot (said msg.now) ≡ true
            → SessionOn L.texts self.old.stage self.old.pdus self.new.stage self.new.pdus (up slot (said msg.now) now (is_ok result) fx.new) }
        ensures within { ConnWithin (length msg.now.first.now + length msg.now.second.now) fx.new }
        ensures took { fx.new.took ≤ length msg.now.first.now + length msg.now.second.now }
        ensures some { OnOk result (0 < length msg.now.first.now + length msg.now.second.now → 0 < fx.new.took) }
    {
        let count = msg.first.len() + msg.second.len();
        if count > u32::MAX as usize {
            return self.give_up();
        }
        let (took, state) = self.pdus.feed(msg.first, msg.second);
        // A reader that goes on takes some of the bytes, so that the guard always holds.
        if took == 0 && count > 0 {
            return self.give_up();
        }
        fx.took = took;
        match state {
            PduState::More => Ok(()),
            PduState::One => self.receive(msg.rec, fx),
            PduState::Broken => {
                self.finish(msg.rec, fx);
                Ok(())
            }
        }
    }

    /// A PDU is whole.
    fn receive<N, L: CarriesText>(&mut self, rec: u32, fx: &mut Fx<N, L>) -> Result<(), NoMemory>
        requires { SaysNothing fx.old × (fx.old.closes.items ≡ []) }
        ensures leads { (m : Said) (slot now : ℕ) (p : PduParts) (before : List ℕ) → stage_takes_session self.old.stage stream.Received slot m ≡ true → m.rec ≡ rec
            → whole_pdu self.old.pdus ≡ Some p → FeedsSo before self.old.pdus m.bytes fx.old.took (cuts_one p)
            → SessionOn L.texts self.old.stage before self.new.stage self.new.pdus (up slot m now (is_ok result) fx.new) }
        ensures within { (len : ℕ) → ConnWithin len fx.new }
        ensures took { fx.new.took ≡ fx.old.took }
    {
        let Some(pdu) = self.pdus.pdu() else {
            return Ok(());
        };
        match &mut self.stage {
            SessionStage::LoggingIn(login) => {
                match answer_to(self.alloc, login, rec, &pdu, &mut self.acts) {
                    Ok(answer) => {
                        self.carry_out(answer, fx);
                        Ok(())
                    }
                    Err(_) => self.give_up(),
                }
            }
            SessionStage::Open => match copied(self.alloc, &pdu, &mut self.room) {
                Ok(text) => {
                    hand_up(text, &mut fx.ups);
                    Ok(())
                }
                Err(_) => self.give_up(),
            },
            SessionStage::Unasked => Ok(()),
            SessionStage::Drained => Ok(()),
            SessionStage::Ended => Ok(()),
        }
    }

    /// Does what a login's answer says.
    fn carry_out<N, L: CarriesText>(&mut self, answer: LoginAnswer, fx: &mut Fx<N, L>)
        requires { SaysNothing fx.old × (fx.old.closes.items ≡ []) }
        ensures stage { self.new.stage ≡ stage_by answer self.old.stage }
        ensures effects { AnsweredBy L.texts answer fx.new }
        ensures within { (len : ℕ) → ConnWithin len fx.new }
        ensures took { fx.new.took ≡ fx.old.took }
        ensures pdus { self.new.pdus ≡ self.old.pdus }
    {
        match answer {
            LoginAnswer::Asks(text) => send(text, &mut fx.downs),
            LoginAnswer::Opens(note, exp_stat_sn, chap) => {
                self.stage = SessionStage::Open;
                tell_open(note, exp_stat_sn, chap, &mut fx.ups);
            }
            LoginAnswer::Fails(over) => {
                self.stage = SessionStage::Ended;
                ask_close(over, fx);
            }
        }
    }

    /// No further PDU comes: an open session says so, and a login has failed.
    fn finish<N, L: CarriesText>(&mut self, rec: u32, fx: &mut Fx<N, L>)
        requires { SaysNothing fx.old × (fx.old.closes.items ≡ []) }
        ensures broken { (m : Said) (slot now : ℕ) (before : List ℕ) → stage_takes_session self.old.stage stream.Received slot m ≡ true → m.rec ≡ rec
            → FeedsSo before self.old.pdus m.bytes fx.old.took cuts_off
            → SessionOn L.texts self.old.stage before self.new.stage self.new.pdus (up slot m now true fx.new) }
        ensures ended { (m : Said) (slot now : ℕ) → stage_takes_session self.old.stage stream.End slot m ≡ true → m.rec ≡ rec → TookAll m fx.old
            → SessionOn L.texts self.old.stage self.old.pdus self.new.stage self.new.pdus (up slot m now true fx.new) }
        ensures within { (len : ℕ) → ConnWithin len fx.new }
        ensures took { fx.new.took ≡ fx.old.took }
    {
        match &self.stage {
            SessionStage::LoggingIn(_) => {
                self.stage = SessionStage::Ended;
                ask_close(Some(Cause::from(Reason::Broken { rec })), fx);
            }
            SessionStage::Open => {
                self.stage = SessionStage::Drained;
                tell_end(&mut fx.ups);
            }
            SessionStage::Unasked => {}
            SessionStage::Drained => {}
            SessionStage::Ended => {}
        }
    }

    /// A message from above: a `Begin` asks for the session, and of an open one a `Send` is sent.
    pub fn on_down<N, L: CarriesText>(
        &mut self,
        msg: &Msg<'_>,
        fx: &mut Fx<N, L>,
    ) -> Result<(), NoMemory>
        requires { IsNothing fx.old }
        ensures within { ConnWithin (length msg.now.first.now + length msg.now.second.now) fx.new }
        ensures ups { (fx.new.ups.first ≡ None) × (fx.new.ups.second ≡ None) }
        ensures stands { (t : List (NodeEntry N L)) (now : ℕ) → IscsiStands L.texts self.old t
            → IscsiStands L.texts self.new (t ++ down (said msg.now) now (is_ok result) fx.new ∷ []) }
    {
        match &self.stage {
            SessionStage::Unasked => self.begin(msg, fx),
            SessionStage::Open => self.pass(msg, fx),
            SessionStage::LoggingIn(_) => Ok(()),
            SessionStage::Drained => Ok(()),
            SessionStage::Ended => Ok(()),
        }
    }

    /// A text is sent, where this is one. More than 4,294,967,295 bytes at once end it as if memory ran out.
    fn pass<N, L: CarriesText>(&mut self, msg: &Msg<'_>, fx: &mut Fx<N, L>) -> Result<(), NoMemory>
        requires nothing { IsNothing fx.old }
        requires open { self.old.stage ≡ stage.Open }
        ensures leads { (now : ℕ) → SessionOn L.texts self.old.stage self.old.pdus self.new.stage self.new.pdus (down (said msg.now) now (is_ok result) fx.new) }
        ensures within { ConnWithin (length msg.now.first.now + length msg.now.second.now) fx.new }
        ensures ups { (fx.new.ups.first ≡ None) × (fx.new.ups.second ≡ None) }
    {
        if msg.tag != u8::from(StreamTag::Send) {
            return Ok(());
        }
        let count = msg.first.len() + msg.second.len();
        if count > u32::MAX as usize {
            return self.give_up();
        }
        pass_down(count as u32, &mut fx.downs);
        Ok(())
    }

    /// Asks for what a message asks for, if it is one that asks.
    fn begin<N, L: CarriesText>(&mut self, msg: &Msg<'_>, fx: &mut Fx<N, L>) -> Result<(), NoMemory>
        requires nothing { IsNothing fx.old }
        requires unasked { self.old.stage ≡ stage.Unasked }
        ensures leads { (now : ℕ) → SessionOn L.texts self.old.stage self.old.pdus self.new.stage self.new.pdus (down (said msg.now) now (is_ok result) fx.new) }
        ensures within { ConnWithin (length msg.now.first.now + length msg.now.second.now) fx.new }
        ensures ups { (fx.new.ups.first ≡ None) × (fx.new.ups.second ≡ None) }
    {
        if msg.tag != u8::from(StreamTag::Begin) {
            return Ok(());
        }
        match joined(self.alloc, msg) {
            Ok(bytes) => self.ask(bytes.as_slice(), fx),
            Err(_) => self.give_up(),
        }
    }

    /// Asks for what these bytes ask for, if they do.
    fn ask<N, L: CarriesText>(&mut self, bytes: &[u8], fx: &mut Fx<N, L>) -> Result<(), NoMemory>
        requires nothing { SaysNothing fx.old × (fx.old.closes.items ≡ []) }
        requires unasked { self.old.stage ≡ stage.Unasked }
        ensures leads { (m : Said) (now : ℕ) → m.tag ≡ 1 → m.bytes ≡ bytes.now
            → SessionOn L.texts self.old.stage self.old.pdus self.new.stage self.new.pdus (down m now (is_ok result) fx.new) }
        ensures within { ConnWithin (length bytes.now) fx.new }
        ensures ups { (fx.new.ups.first ≡ None) × (fx.new.ups.second ≡ None) }
    {
        let Some(ask) = DriveAsk::read(bytes) else {
            return Ok(());
        };
        match start(self.alloc, &ask) {
            Ok((login, text)) => {
                self.stage = SessionStage::LoggingIn(login);
                ask_conn(text, &mut fx.downs);
                Ok(())
            }
            Err(LoginRefusal::NoMemory) => self.give_up(),
            Err(LoginRefusal::ZeroByte(name)) => {
                self.stage = SessionStage::Ended;
                ask_close(Some(LoginRefusal::ZeroByte(name).cause()), fx);
                Ok(())
            }
        }
    }

    /// The port of this slot was closed from its other end: the one on the other side is closed too.
    pub fn on_close<N, L: CarriesText>(&mut self, slot: u8, cause: &Cause, fx: &mut Fx<N, L>)
        requires { IsNothing fx.old }
        ensures within { ConnWithin 0 fx.new }
        ensures ups { (fx.new.ups.first ≡ None) × (fx.new.ups.second ≡ None) }
        ensures stands { (t : List (NodeEntry N L)) (now : ℕ) → IscsiStands L.texts self.old t
            → IscsiStands L.texts self.new (t ++ closed slot cause.now now fx.new ∷ []) }
    {
        if slot > BELOW || self.stage.is_ended() {
            return;
        }
        self.stage = SessionStage::Ended;
        fx.closes.push((BELOW - slot, *cause));
    }

    /// Time passes: nothing is asked for.
    pub fn on_time<N, L: CarriesText>(&self, fx: &Fx<N, L>)
        requires { IsNothing fx.now }
        ensures within { ConnWithin 0 fx.now }
        ensures stands { (t : List (NodeEntry N L)) (now : ℕ) → IscsiStands L.texts self.now t
            → IscsiStands L.texts self.now (t ++ time now true fx.now ∷ []) }
    {}

    /// What was lent comes back: its room is used again.
    pub fn regain<N, L: CarriesText>(&mut self, load: L)
        ensures { (t : List (NodeEntry N L)) → IscsiStands L.texts self.old t
            → IscsiStands L.texts self.new (t ++ regain load ∷ []) }
    {
        if let Some(text) = load.text_of() {
            self.room = text.into_vec();
        }
    }

    /// Memory ran out in an entry: nothing is asked for any more.
    fn give_up(&mut self) -> Result<(), NoMemory>
        ensures err { is_ok result ≡ false }
        ensures ended { self.new.stage ≡ stage.Ended }
    {
        self.stage = SessionStage::Ended;
        Err(NoMemory)
    }
}

/// A PDU's head, and its data without padding. The room is where they are copied to.
fn copied(alloc: Global, pdu: &Pdu<'_>, room: &mut Vec<u8>) -> Result<Text, NoMemory>
    ensures { IfOk result (λ text. text ≡ (pdu_parts pdu.now).head ++ (pdu_parts pdu.now).seg) }
{
    let mut bytes = mem::replace(room, Vec::new(alloc));
    bytes.clear();
    bytes.extend_from_slice(&pdu.head)?;
    bytes.extend_from_slice(pdu.seg)?;
    Ok(Text::from_vec(bytes))
}

/// Begins a login.
fn start(alloc: Global, ask: &DriveAsk<'_>) -> Result<(Login, Text), LoginRefusal>
    ensures { StartsLogin (info_of ask.now) (λ l. LoginStands (info_of ask.now) l []) result }
{
    let info = ask.info(alloc)?;
    Login::start(alloc, info)
}
