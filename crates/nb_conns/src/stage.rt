//! How far a connection's object is.

ghost use Rattle.std.specs.Prelude.{◌≡◌, ◌-◌, ◌<◌, ◌^◌, ◌&&◌, not, unwrap_or, ℕ, List, Some, None, true, false, length, IfOk, OnOk, MatchBool, [], if◌then◌else◌};
ghost use Rattle.nb_conns.specs.declared.stage.ConnStage.TheVariants as stage;
ghost use Rattle.nb_reasm.specs.declared.held.Held.{Held as Window};
ghost use Rattle.nb_reasm.specs.HeldWindows.{window};
ghost use Rattle.nb_streams.specs.Flows.{time_came, text_came};
ghost use Rattle.nb_conns.specs.declared.conn_load.Lent.{Lent};
ghost use Rattle.nb_tcpseg.specs.SegmentText.{segment_parts};
ghost use Rattle.nb_tcp.specs.ConnHistory.{ConnEntry, calls_in};
ghost use Rattle.nb_tcp.specs.ConnPromises.{starting_acts};
ghost use Rattle.nb_tcp.specs.ConnStanding.{HasDelivered, KeepsWindow};
ghost use Rattle.nb_conns.specs.ConnAsks.{link_of};
ghost use Rattle.nb_conns.specs.Dialogues.{TalksSo, TookSegment, HandedOn, TakesBack, ReturnsTo, CallsConn, LentFrom, with_segment_call, conn_stage_is_over};

use crate::ConnAsk;
use crate::conn_load::Lent;
use nb_reasm::Held;
use nb_tcp::{Conn, SendError};
use nb_tcpseg::Segment;
use nb_terms::{Acts, NoMemory};
use std::alloc::Global;

/// A connection that was asked for and hasn't ended.
#[derive(Drop)]
pub(crate) struct Running {
    pub(crate) conn: Conn,
    pub(crate) ask: ConnAsk,
    /// What its core fills at a close from above, which comes at most once, and maybe while its segments are lent.
    pub(crate) closing: Box<Acts>,
}

/// How far a connection's object is.
#[derive(Drop)]
pub(crate) enum ConnStage {
    /// Nothing is asked for yet.
    Waiting,
    Running(Running),
    /// The connection has ended, or a port was closed before it was asked for.
    Over,
}

impl ConnStage {
    pub(crate) fn is_over(&self) -> bool
        ensures { result ≡ conn_stage_is_over self.now }
    {
        match self {
            ConnStage::Waiting => false,
            ConnStage::Running(_) => false,
            ConnStage::Over => true,
        }
    }

    /// What was lent comes back.
    #[inline(always)]
    pub(crate) fn take_lent(&mut self, lent: &mut Lent)
        ensures { TakesBack self.old self.new lent.old }
    {
        match lent.held.take() {
            Some(held) => self.take_back(held),
            None => {}
        }
    }

    /// A window comes back.
    fn take_back(&mut self, held: Held)
        ensures { (l : Lent) → l.held ≡ Some held → TakesBack self.old self.new l }
    {
        match self {
            ConnStage::Waiting => {}
            ConnStage::Running(running) => running.take_back(held),
            ConnStage::Over => {}
        }
    }

    /// It is over where the connection has ended.
    #[inline(always)]
    pub(crate) fn end_if(&mut self, has_ended: bool)
        ensures { self.new ≡ (if has_ended then stage.Over else self.old) }
    {
        if has_ended {
            *self = ConnStage::Over;
        }
    }
}

impl Running {
    /// Asks for a connection: its SYN is sent.
    pub(crate) fn open(
        alloc: Global,
        ask: ConnAsk,
        now: u64,
        acts: &mut Acts,
    ) -> Result<Running, NoMemory>
        ensures talks { IfOk result (λ r. TalksSo r ask now [] None) }
        ensures syn { IfOk result (λ r. acts.new ≡ starting_acts (link_of ask)) }
    {
        let closing = Box::new(alloc, Acts::none())?;
        let conn = Conn::start(
            alloc,
            0,
            ask.own_port,
            ask.peer,
            ask.peer_port,
            ask.isn,
            now,
            acts,
        )?;
        Ok(Running { conn, ask, closing })
    }

    /// Whether the next segment may come.
    #[inline(always)]
    pub(crate) fn has_delivered(&self) -> bool
        ensures { MatchBool result (HasDelivered self.now.conn) (HasDelivered self.now.conn → ⊥) }
    {
        self.conn.has_delivered()
    }

    /// Takes a segment whose body can go up as it stands. Else nothing is called.
    #[inline(always)]
    pub(crate) fn hand_on(
        &mut self,
        rec: u32,
        segment: &Segment<'_>,
        now: u64,
        acts: &mut Acts,
    ) -> bool
        requires delivered { HasDelivered self.old.conn }
        requires body { length segment.now.body.now < 2 ^ 16 }
        ensures on { result ≡ true → (a : ConnAsk) (start : ℕ) (calls : List ConnEntry) → TalksSo self.old a start calls None
            → HandedOn a start calls (with_segment_call calls rec (segment_parts segment.now) now acts.new) segment.now.body.now acts.new self.new }
        ensures same { result ≡ false → self.new ≡ self.old }
    {
        self.conn.hand_on(rec, segment, now, acts)
    }

    /// Takes a segment. What waits then is lent. Whether all of the stream has come by it.
    pub(crate) fn take(
        &mut self,
        rec: u32,
        segment: &Segment<'_>,
        now: u64,
        acts: &mut Acts,
        lent: &mut Lent,
    ) -> bool
        requires delivered { HasDelivered self.old.conn }
        requires body { length segment.now.body.now < 2 ^ 16 }
        ensures { (a : ConnAsk) (start : ℕ) (calls : List ConnEntry) → TalksSo self.old a start calls None
            → TookSegment a start calls (with_segment_call calls rec (segment_parts segment.now) now acts.new) acts.new lent.new self.new result }
    {
        let had_ended = self.conn.at_end();
        self.conn.segment(rec, segment, now, acts);
        self.lend(acts, lent);
        turns(had_ended, self.conn.at_end())
    }

    /// Gives text to send.
    pub(crate) fn send(&mut self, bytes: &[u8], now: u64, acts: &mut Acts) -> Result<(), SendError>
        ensures same { self.new.ask ≡ self.old.ask }
        ensures calls { OnOk result (CallsConn self.old.conn self.new.conn (calls_in (text_came bytes.now now)) acts.new) }
        ensures held { KeepsWindow self.old.conn self.new.conn }
    {
        self.conn.send(bytes, now, acts)
    }

    /// It is this time, in milliseconds.
    pub(crate) fn pass_time(&mut self, now: u64, acts: &mut Acts)
        ensures same { self.new.ask ≡ self.old.ask }
        ensures calls { CallsConn self.old.conn self.new.conn (calls_in (time_came now)) acts.new }
        ensures held { KeepsWindow self.old.conn self.new.conn }
    {
        self.conn.time(now, acts);
    }

    /// A window comes back.
    fn take_back(&mut self, held: Held)
        ensures { (l : Lent) → l.held ≡ Some held → ReturnsTo self.old self.new l }
    {
        self.conn.regain(held);
    }

    /// Lends what waits, where something does. Its bytes below the new place go up.
    fn lend(&mut self, acts: &Acts, lent: &mut Lent)
        ensures { LentFrom self.old self.new acts.now lent.new }
    {
        if !acts.ready {
            lent.held = None;
            return;
        }
        let held = self.conn.lend();
        lent.count = count_below(&held, acts.advance);
        lent.held = held;
    }
}

/// How many bytes of a window's front lie below a place.
fn count_below(held: &Option<Held>, place: Option<u32>) -> usize
    ensures { (w : Window) → held.now ≡ Some w → result ≡ unwrap_or place 0 - (window w).base }
{
    match held {
        Some(held) => place.unwrap_or(0).saturating_sub(held.base()) as usize,
        None => 0,
    }
}

/// Whether what wasn't so is so now.
fn turns(was: bool, is: bool) -> bool
    ensures { result ≡ (not was && is) }
{
    !was && is
}
