//! The object of a connection.

ghost use Rattle.std.specs.Prelude.{◌≡◌, ◌+◌, ◌<◌, ◌≤◌, ◌^◌, ◌++◌, ◌∷◌, ℕ, List, [], length, min, None, true, false, IfOk, OnOk, if◌then◌else◌};
ghost use Rattle.std.specs.Result.{is_ok};
ghost use Rattle.std.specs.Option.{is_some};
ghost use Rattle.nb_graph.specs.Trace.{Said, said, NodeEntry, up, down, closed, time, regain, IsSettled, LacksLoad, in_list, silence, bytes_between};
ghost use Rattle.nb_graph.specs.Effects.{IsNothing};
ghost use Rattle.nb_tcpseg.specs.SegmentText.{segment_parts, IsLaidOut};
ghost use Rattle.nb_conns.specs.declared.stage.ConnStage.TheVariants as stage;
ghost use Rattle.nb_conns.specs.ConnEffects.{ConnEffects, ConnWithin, SaysNothing, received_says, ups_for, closes_for, boxed};
ghost use Rattle.nb_conns.specs.Dialogues.{TcpStands, CarriesOn, CarriesOnHome, IsUnopened, TakesHere, TakesBack, comes_from_peer, lent_out, stage_takes, stage_asks, conn_stage_is_over, conn_stage_is_waiting};

use crate::ConnAsk;
use crate::asking::{ABOVE, BELOW, all_of, ask_close, ask_down, ask_up, range_up};
use crate::conn_load::{CarriesConn, ConnLoad, Lent};
use crate::stage::{ConnStage, Running};
use crate::stream_tag::{StreamTag, is_stream_tag};
use nb_graph::{Fx, Msg};
use nb_tcpseg::Segment;
use nb_terms::{Acts, Cause, NoMemory};
use std::alloc::Global;
use std::mem;

/// One TCP connection (RFC 9293): its user is plugged to slot 0, the network lies below slot 1.
///
/// A `Begin` from above asks for it, and `Send` gives text to send, also before it is established. A `Segment` by slot
/// 1 goes to the core where it comes from the peer, and so does each time. What has come in order goes up as
/// `Received`, lent with the window that holds it, and after it the `End`. At its end it closes slots 0 and 1 with the
/// cause, the one above first. Where the port above is closed, the connection is, by a FIN or a reset.
#[derive(Drop)]
pub struct Tcp {
    alloc: Global,
    pub(crate) stage: ConnStage,
    /// What its core fills at each call. None while its segments are lent.
    acts: Option<Box<Acts>>,
    /// What a window is lent in. None while it is lent.
    lent: Option<Box<Lent>>,
}

impl Tcp {
    /// One that waits for what to ask for.
    pub fn new(alloc: Global) -> Result<Tcp, NoMemory>
        ensures { IfOk result IsUnopened }
    {
        Ok(Tcp {
            alloc,
            stage: ConnStage::Waiting,
            acts: Some(Box::new(alloc, Acts::none())?),
            lent: Some(Box::new(alloc, Lent::none())?),
        })
    }

    /// A message from below, of which all bytes are taken.
    #[inline(always)]
    pub fn on_up<N, L: CarriesConn>(
        &mut self,
        slot: u8,
        msg: &Msg<'_>,
        now: u64,
        fx: &mut Fx<N, L>,
    ) -> Result<(), NoMemory>
        requires { IsNothing fx.old }
        ensures within { ConnWithin (length msg.now.first.now + length msg.now.second.now) fx.new }
        ensures took { fx.new.took ≡ min (length msg.now.first.now + length msg.now.second.now) 4294967295 }
        ensures stands { (t : List (NodeEntry N L)) → TcpStands L.carrier self.old t → IsSettled t
            → TcpStands L.carrier self.new (t ++ up slot (said msg.now) now (is_ok result) fx.new ∷ []) }
    {
        fx.took = all_of(msg);
        self.pass_in(slot, msg, now, fx)
    }

    /// The same once all of it is taken.
    #[inline(always)]
    fn pass_in<N, L: CarriesConn>(
        &mut self,
        slot: u8,
        msg: &Msg<'_>,
        now: u64,
        fx: &mut Fx<N, L>,
    ) -> Result<(), NoMemory>
        requires blank { SaysNothing fx.old × (fx.old.closes.items ≡ []) }
        requires took { fx.old.took ≡ min (length (said msg.now).bytes) 4294967295 }
        ensures leads { CarriesOnHome L.carrier self.old.stage self.new.stage (up slot (said msg.now) now (is_ok result) fx.new) }
        ensures within { ConnWithin (length msg.now.first.now + length msg.now.second.now) fx.new }
        ensures took { fx.new.took ≡ fx.old.took }
    {
        if !self.takes(slot, msg) {
            return Ok(());
        }
        if msg.second.is_empty() {
            return self.receive(msg.rec, msg.first, now, fx);
        }
        match joined(self.alloc, msg) {
            Ok(bytes) => self.receive(msg.rec, bytes.as_slice(), now, fx),
            Err(_) => self.give_up(),
        }
    }

    /// Whether a message from below comes from the peer.
    #[inline(always)]
    fn takes(&self, slot: u8, msg: &Msg<'_>) -> bool
        ensures { result ≡ stage_takes self.now.stage slot (said msg.now) }
    {
        match &self.stage {
            ConnStage::Waiting => false,
            ConnStage::Running(running) => comes_from(&running.ask, slot, msg),
            ConnStage::Over => false,
        }
    }

    /// These bytes come from the peer, as a segment or not. The network below has checked their sum.
    #[inline(always)]
    fn receive<N, L: CarriesConn>(
        &mut self,
        rec: u32,
        bytes: &[u8],
        now: u64,
        fx: &mut Fx<N, L>,
    ) -> Result<(), NoMemory>
        requires blank { SaysNothing fx.old × (fx.old.closes.items ≡ []) }
        requires took { fx.old.took ≡ min (length bytes.now) 4294967295 }
        ensures leads { (slot : ℕ) (m : Said) → stage_takes self.old.stage slot m ≡ true → m.rec ≡ rec → m.bytes ≡ bytes.now
            → CarriesOnHome L.carrier self.old.stage self.new.stage (up slot m now (is_ok result) fx.new) }
        ensures within { ConnWithin (length bytes.now) fx.new }
        ensures took { fx.new.took ≡ fx.old.took }
    {
        let ConnStage::Running(_) = &self.stage else {
            return Ok(());
        };
        match Segment::parse(bytes) {
            Some(segment) => self.take_segment(rec, &segment, bytes.len(), now, fx),
            None => Ok(()),
        }
    }

    /// A segment comes from the peer, in a message of `len` bytes.
    #[inline(always)]
    fn take_segment<N, L: CarriesConn>(
        &mut self,
        rec: u32,
        segment: &Segment<'_>,
        len: usize,
        now: u64,
        fx: &mut Fx<N, L>,
    ) -> Result<(), NoMemory>
        requires blank { SaysNothing fx.old × (fx.old.closes.items ≡ []) }
        requires body { length segment.now.body.now ≤ len }
        requires short { len < 2 ^ 16 }
        ensures leads { (slot : ℕ) (m : Said) → TakesHere self.old.stage slot m (segment_parts segment.now) → m.rec ≡ rec
            → fx.old.took ≡ min (length m.bytes) 4294967295 → length m.bytes ≡ len
            → CarriesOnHome L.carrier self.old.stage self.new.stage (up slot m now (is_ok result) fx.new) }
        ensures within { ConnWithin len fx.new }
        ensures took { fx.new.took ≡ fx.old.took }
    {
        let ConnStage::Running(running) = &mut self.stage else {
            return Ok(());
        };
        let Some(mut acts) = self.acts.take() else {
            return self.give_up();
        };
        if !running.has_delivered() {
            return self.give_up();
        }
        if running.hand_on(rec, segment, now, &mut acts) {
            let from = (len - segment.body.len()) as u32;
            self.pass_on(acts, from, len as u32, fx);
            return Ok(());
        }
        let Some(mut lent) = self.lent.take() else {
            return self.give_up();
        };
        // A copy, so that where a segment is handed on it needs no place in memory.
        let own = *segment;
        let ends = running.take(rec, &own, now, &mut acts, &mut lent);
        let window = self.keep(lent);
        self.carry_out(acts, window, ends, fx);
        Ok(())
    }

    /// Asks for what a call asks for. Bytes `from` to `to` of the message go up.
    #[inline(always)]
    fn pass_on<N, L: CarriesConn>(&mut self, acts: Box<Acts>, from: u32, to: u32, fx: &mut Fx<N, L>)
        requires { SaysNothing fx.old × (fx.old.closes.items ≡ []) }
        ensures stage { self.new.stage ≡ self.old.stage }
        ensures effects { (m : Said) → ConnEffects L.carrier m acts.value (received_says m.rec (bytes_between m.bytes from to) ∷ []) [] [] fx.new }
        ensures within { (len : ℕ) → from ≤ to → to ≤ len → ConnWithin len fx.new }
        ensures took { fx.new.took ≡ fx.old.took }
    {
        self.acts = ask_down(acts, &mut fx.downs);
        fx.ups.first.put(range_up(from, to));
    }

    /// Keeps what has no window, and gives back what has one.
    #[inline(always)]
    fn keep(&mut self, lent: Box<Lent>) -> Option<Box<Lent>>
        ensures window { boxed result ≡ lent_out lent.value }
        ensures stage { self.new.stage ≡ self.old.stage }
    {
        if lent.held.is_some() {
            return Some(lent);
        }
        self.lent = Some(lent);
        None
    }

    /// A message from above: a `Begin` asks for the connection, and a `Send` gives text.
    pub fn on_down<N, L: CarriesConn>(
        &mut self,
        msg: &Msg<'_>,
        now: u64,
        fx: &mut Fx<N, L>,
    ) -> Result<(), NoMemory>
        requires { IsNothing fx.old }
        ensures within { ConnWithin 0 fx.new }
        ensures ups { (fx.new.ups.first ≡ None) × (fx.new.ups.second ≡ None) }
        ensures stands { (t : List (NodeEntry N L)) → TcpStands L.carrier self.old t
            → TcpStands L.carrier self.new (t ++ down (said msg.now) now (is_ok result) fx.new ∷ []) }
    {
        self.pass_down(msg, now, fx)
    }

    fn pass_down<N, L: CarriesConn>(
        &mut self,
        msg: &Msg<'_>,
        now: u64,
        fx: &mut Fx<N, L>,
    ) -> Result<(), NoMemory>
        requires { SaysNothing fx.old × (fx.old.closes.items ≡ []) }
        ensures leads { CarriesOn L.carrier self.old.stage self.new.stage (down (said msg.now) now (is_ok result) fx.new) }
        ensures within { (len : ℕ) → ConnWithin len fx.new }
        ensures ups { (fx.new.ups.first ≡ None) × (fx.new.ups.second ≡ None) }
    {
        if !self.asks(msg) {
            return Ok(());
        }
        if msg.second.is_empty() {
            return self.ask(msg.first, now, fx);
        }
        match joined(self.alloc, msg) {
            Ok(bytes) => self.ask(bytes.as_slice(), now, fx),
            Err(_) => self.give_up(),
        }
    }

    /// Whether a message from above is one that may count.
    fn asks(&self, msg: &Msg<'_>) -> bool
        ensures { result ≡ stage_asks self.now.stage (said msg.now) }
    {
        match &self.stage {
            ConnStage::Waiting => is_stream_tag(msg.tag, StreamTag::Begin),
            ConnStage::Running(_) => is_stream_tag(msg.tag, StreamTag::Send),
            ConnStage::Over => false,
        }
    }

    /// These bytes ask for the connection, or are text for it.
    fn ask<N, L: CarriesConn>(
        &mut self,
        bytes: &[u8],
        now: u64,
        fx: &mut Fx<N, L>,
    ) -> Result<(), NoMemory>
        requires { SaysNothing fx.old × (fx.old.closes.items ≡ []) }
        ensures leads { (m : Said) → stage_asks self.old.stage m ≡ true → m.bytes ≡ bytes.now
            → CarriesOn L.carrier self.old.stage self.new.stage (down m now (is_ok result) fx.new) }
        ensures within { (len : ℕ) → ConnWithin len fx.new }
        ensures ups { (fx.new.ups.first ≡ None) × (fx.new.ups.second ≡ None) }
    {
        match &self.stage {
            ConnStage::Waiting => self.begin(bytes, now, fx),
            ConnStage::Running(_) => self.send(bytes, now, fx),
            ConnStage::Over => Ok(()),
        }
    }

    /// Asks for the connection that these bytes ask for, if they do.
    fn begin<N, L: CarriesConn>(
        &mut self,
        bytes: &[u8],
        now: u64,
        fx: &mut Fx<N, L>,
    ) -> Result<(), NoMemory>
        requires blank { SaysNothing fx.old × (fx.old.closes.items ≡ []) }
        requires waits { self.old.stage ≡ stage.Waiting }
        ensures leads { (m : Said) → m.tag ≡ 1 → m.bytes ≡ bytes.now
            → CarriesOn L.carrier self.old.stage self.new.stage (down m now (is_ok result) fx.new) }
        ensures within { (len : ℕ) → ConnWithin len fx.new }
        ensures ups { (fx.new.ups.first ≡ None) × (fx.new.ups.second ≡ None) }
    {
        let Some(ask) = ConnAsk::read(bytes) else {
            return Ok(());
        };
        let Some(mut acts) = self.acts.take() else {
            return self.give_up();
        };
        match Running::open(self.alloc, ask, now, &mut acts) {
            Ok(running) => {
                self.stage = ConnStage::Running(running);
                self.carry_out(acts, None, false, fx);
                Ok(())
            }
            Err(_) => self.give_up(),
        }
    }

    /// Sends these bytes after those that were given before. Too much of them fails as if memory ran out.
    fn send<N, L: CarriesConn>(
        &mut self,
        bytes: &[u8],
        now: u64,
        fx: &mut Fx<N, L>,
    ) -> Result<(), NoMemory>
        requires { SaysNothing fx.old × (fx.old.closes.items ≡ []) }
        ensures leads { (m : Said) → stage_asks self.old.stage m ≡ true → conn_stage_is_waiting self.old.stage ≡ false → m.bytes ≡ bytes.now
            → CarriesOn L.carrier self.old.stage self.new.stage (down m now (is_ok result) fx.new) }
        ensures within { (len : ℕ) → ConnWithin len fx.new }
        ensures ups { (fx.new.ups.first ≡ None) × (fx.new.ups.second ≡ None) }
    {
        let ConnStage::Running(running) = &mut self.stage else {
            return Ok(());
        };
        let Some(mut acts) = self.acts.take() else {
            return self.give_up();
        };
        match running.send(bytes, now, &mut acts) {
            Ok(()) => {
                self.carry_out(acts, None, false, fx);
                Ok(())
            }
            Err(_) => self.give_up(),
        }
    }

    /// The port of this slot was closed from its other end: the one on the other side is closed too, and where the one
    /// above was, the connection is.
    pub fn on_close<N, L: CarriesConn>(&mut self, slot: u8, cause: &Cause, fx: &mut Fx<N, L>)
        requires { IsNothing fx.old }
        ensures within { ConnWithin 0 fx.new }
        ensures ups { (fx.new.ups.first ≡ None) × (fx.new.ups.second ≡ None) }
        ensures stands { (t : List (NodeEntry N L)) (now : ℕ) → TcpStands L.carrier self.old t
            → TcpStands L.carrier self.new (t ++ closed slot cause.now now fx.new ∷ []) }
    {
        if slot > BELOW || self.stage.is_over() {
            return;
        }
        self.close(slot, *cause, fx);
    }

    fn close<N, L: CarriesConn>(&mut self, slot: u8, cause: Cause, fx: &mut Fx<N, L>)
        requires blank { SaysNothing fx.old × (fx.old.closes.items ≡ []) }
        requires slot { slot ≤ 1 }
        requires live { conn_stage_is_over self.old.stage ≡ false }
        ensures leads { (now : ℕ) → CarriesOn L.carrier self.old.stage self.new.stage (closed slot cause now fx.new) }
        ensures within { (len : ℕ) → ConnWithin len fx.new }
        ensures ups { (fx.new.ups.first ≡ None) × (fx.new.ups.second ≡ None) }
    {
        if slot == ABOVE {
            self.close_above(cause, fx);
        } else {
            self.stage = ConnStage::Over;
            fx.closes.push((ABOVE, cause));
        }
    }

    /// The port above was closed.
    fn close_above<N, L: CarriesConn>(&mut self, cause: Cause, fx: &mut Fx<N, L>)
        requires blank { SaysNothing fx.old × (fx.old.closes.items ≡ []) }
        requires live { conn_stage_is_over self.old.stage ≡ false }
        ensures leads { (now : ℕ) → CarriesOn L.carrier self.old.stage self.new.stage (closed 0 cause now fx.new) }
        ensures within { (len : ℕ) → ConnWithin len fx.new }
        ensures ups { (fx.new.ups.first ≡ None) × (fx.new.ups.second ≡ None) }
    {
        match mem::replace(&mut self.stage, ConnStage::Over) {
            ConnStage::Running(running) => shut(running, cause, fx),
            _ => fx.closes.push((BELOW, cause)),
        }
    }

    /// It is this time, in milliseconds.
    pub fn on_time<N, L: CarriesConn>(
        &mut self,
        now: u64,
        fx: &mut Fx<N, L>,
    ) -> Result<(), NoMemory>
        requires { IsNothing fx.old }
        ensures within { ConnWithin 0 fx.new }
        ensures stands { (t : List (NodeEntry N L)) → TcpStands L.carrier self.old t
            → TcpStands L.carrier self.new (t ++ time now (is_ok result) fx.new ∷ []) }
    {
        self.tick(now, fx)
    }

    fn tick<N, L: CarriesConn>(&mut self, now: u64, fx: &mut Fx<N, L>) -> Result<(), NoMemory>
        requires { SaysNothing fx.old × (fx.old.closes.items ≡ []) }
        ensures leads { CarriesOn L.carrier self.old.stage self.new.stage (time now (is_ok result) fx.new) }
        ensures within { (len : ℕ) → ConnWithin len fx.new }
    {
        let ConnStage::Running(running) = &mut self.stage else {
            return Ok(());
        };
        let Some(mut acts) = self.acts.take() else {
            return self.give_up();
        };
        running.pass_time(now, &mut acts);
        self.carry_out(acts, None, false, fx);
        Ok(())
    }

    /// What was lent comes back.
    #[inline(always)]
    pub fn regain<N, L: CarriesConn>(&mut self, load: L)
        ensures { (t : List (NodeEntry N L)) → TcpStands L.carrier self.old t → LacksLoad t load
            → TcpStands L.carrier self.new (t ++ regain load ∷ []) }
    {
        match load.conn_load() {
            // While it was lent, nothing stood here that is to be dropped.
            Some(ConnLoad::Segments(acts)) => {
                mem::forget(mem::replace(&mut self.acts, Some(acts)));
            }
            Some(ConnLoad::Window(lent)) => self.take_back(lent),
            None => {}
        }
    }

    /// A window comes back.
    #[inline(always)]
    fn take_back(&mut self, lent: Box<Lent>)
        ensures { TakesBack self.old.stage self.new.stage lent.value }
    {
        let mut lent = lent;
        self.stage.take_lent(&mut lent);
        mem::forget(mem::replace(&mut self.lent, Some(lent)));
    }

    /// Asks for what a call asks for, for what is lent, and for the end. It is over where the call says so.
    #[inline(always)]
    fn carry_out<N, L: CarriesConn>(
        &mut self,
        acts: Box<Acts>,
        window: Option<Box<Lent>>,
        ends: bool,
        fx: &mut Fx<N, L>,
    )
        requires { SaysNothing fx.old × (fx.old.closes.items ≡ []) }
        ensures stage { self.new.stage ≡ (if is_some acts.value.over then stage.Over else self.old.stage) }
        ensures effects { (m : Said) → ConnEffects L.carrier m acts.value (ups_for m.rec (boxed window) ends) (closes_for acts.value.over) (in_list (boxed window)) fx.new }
        ensures within { (len : ℕ) → ConnWithin len fx.new }
        ensures took { fx.new.took ≡ fx.old.took }
        ensures ups { boxed window ≡ None → ends ≡ false → (fx.new.ups.first ≡ None) × (fx.new.ups.second ≡ None) }
    {
        let over = acts.over;
        self.acts = ask_down(acts, &mut fx.downs);
        ask_up(window, ends, &mut fx.ups);
        ask_close(over, fx);
        self.stage.end_if(over.is_some());
    }

    /// Memory ran out in an entry: nothing is asked for any more.
    fn give_up(&mut self) -> Result<(), NoMemory>
        ensures err { is_ok result ≡ false }
        ensures over { self.new.stage ≡ stage.Over }
    {
        self.stage = ConnStage::Over;
        Err(NoMemory)
    }
}

/// Whether a message by this slot is one of the peer's.
#[inline(always)]
fn comes_from(ask: &ConnAsk, slot: u8, msg: &Msg<'_>) -> bool
    ensures { result ≡ comes_from_peer ask.now slot (said msg.now) }
{
    slot == BELOW
        && is_stream_tag(msg.tag, StreamTag::Segment)
        && msg.a == u32::from(ask.peer_port)
        && msg.b == ask.peer.0
}

/// Closes the connection from above, and then the port below.
fn shut<N, L: CarriesConn>(running: Running, cause: Cause, fx: &mut Fx<N, L>)
    requires { SaysNothing fx.old × (fx.old.closes.items ≡ []) }
    ensures leads { (now : ℕ) → CarriesOn L.carrier (stage.Running running) stage.Over (closed 0 cause now fx.new) }
    ensures within { (len : ℕ) → ConnWithin len fx.new }
    ensures ups { (fx.new.ups.first ≡ None) × (fx.new.ups.second ≡ None) }
{
    let mut conn = running.conn;
    let mut acts = running.closing;
    conn.shut(&mut acts);
    let _ = ask_down(acts, &mut fx.downs);
    fx.closes.push((BELOW, cause));
}

/// The bytes of a message in one piece.
fn joined(alloc: Global, msg: &Msg<'_>) -> Result<Vec<u8>, NoMemory>
    ensures { IfOk result (λ v. v.items ≡ msg.now.first.now ++ msg.now.second.now) }
{
    let mut bytes = Vec::from_slice(alloc, msg.first)?;
    bytes.extend_from_slice(msg.second)?;
    Ok(bytes)
}
