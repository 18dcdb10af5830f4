ghost use Rattle.std.specs.Prelude.{◌≡◌, ◌+◌, ◌≤◌, ◌++◌, ℕ, [], length, min, None, Some, IfOk, IfSome, IfNone};
ghost use Rattle.std.specs.Prelude.{true, false, is_ok, is_some, if◌then◌else◌};
ghost use Rattle.nb_tftp.specs.Sound.{IsRange};
ghost use Rattle.nb_graph.specs.Trace.{Said, said, up, down, closed, time};
ghost use Rattle.nb_nodes.specs.declared.tftp.Work.TheVariants as work;
ghost use Rattle.nb_nodes.specs.Carried.{AsksNone, AsksWithin, EffectsOf};
ghost use Rattle.nb_nodes.specs.Conversations.{TftpStands, is_datagram, ContinuesAs, is_waiting, talk_is_done};

use crate::carrying::{BELOW, Effects, ask, ask_on, joined, length_of, source_port};
use crate::tag::{Tag, is_tag};
use crate::{Ask, Load};
use nb_graph::Msg;
use nb_terms::{Acts, Cause, NoMemory};
use nb_tftp::Transfer;
use std::alloc::Global;
use std::mem;

/// How far a Tftp is.
#[derive(Drop)]
pub(crate) enum Work {
    /// Nothing is asked for yet.
    Waiting,
    Running(Transfer),
    /// The transfer has ended, or a port was closed before it began.
    Over,
}

/// The transfer of one file by TFTP (RFC 1350): its user is plugged to slot 0, the network lies below
/// slot 1.
///
/// A `Begin` from above starts it and says what to ask for. So the request leaves by an entry after
/// the OPEN, when the user says so and not at the next TICK, and the trace alone says what was asked
/// for. A `Datagram` by slot 1, and each time, go to the transfer. At its end it closes slots 0 and 1
/// with the cause, the one above first.
#[derive(Drop)]
pub struct Tftp {
    alloc: Global,
    pub(crate) work: Work,
    /// What the transfer fills at each call. None while its datagram is lent.
    acts: Option<Box<Acts>>,
}

impl Tftp {
    /// A Tftp that waits for what to ask for.
    pub fn new(alloc: Global) -> Result<Tftp, NoMemory>
        ensures { IfOk result (λ p. TftpStands p []) }
    {
        Ok(Tftp {
            alloc,
            work: Work::Waiting,
            acts: Some(Box::new(alloc, Acts::none())?),
        })
    }

    /// A message from below, of which all bytes are taken.
    #[inline(always)]
    pub(crate) fn on_up(
        &mut self,
        slot: u8,
        msg: &Msg<'_>,
        now: u64,
        fx: &mut Effects,
    ) -> Result<(), NoMemory>
        requires { AsksNone fx.old }
        ensures leads { ContinuesAs self.old.work self.new.work (up slot (said msg.now) now (is_ok result) fx.new) }
        ensures within { AsksWithin (length msg.now.first.now + length msg.now.second.now) fx.new }
        ensures took { fx.new.took ≡ min (length msg.now.first.now + length msg.now.second.now) 4294967295 }
    {
        fx.took = length_of(msg);
        match source_port(slot, msg) {
            Some(port) => self.receive(port, msg, now, fx),
            None => Ok(()),
        }
    }

    /// A datagram comes from this port of the server.
    #[inline(always)]
    fn receive(
        &mut self,
        port: u16,
        msg: &Msg<'_>,
        now: u64,
        fx: &mut Effects,
    ) -> Result<(), NoMemory>
        requires { AsksNone fx.old }
        ensures leads { (slot : ℕ) → is_datagram slot (said msg.now) ≡ true → msg.now.a ≡ port
            → fx.old.took ≡ min (length msg.now.first.now + length msg.now.second.now) 4294967295
            → ContinuesAs self.old.work self.new.work (up slot (said msg.now) now (is_ok result) fx.new) }
        ensures within { AsksWithin (length msg.now.first.now + length msg.now.second.now) fx.new }
        ensures took { fx.new.took ≡ fx.old.took }
    {
        if msg.second.is_empty() {
            return self.message(msg.rec, port, msg.first, now, fx);
        }
        self.receive_parts(port, msg, now, fx)
    }

    /// The same of one in two parts. Not inlined, as it is rare.
    #[cold]
    #[inline(never)]
    fn receive_parts(
        &mut self,
        port: u16,
        msg: &Msg<'_>,
        now: u64,
        fx: &mut Effects,
    ) -> Result<(), NoMemory>
        requires { AsksNone fx.old }
        ensures leads { (slot : ℕ) → is_datagram slot (said msg.now) ≡ true → msg.now.a ≡ port
            → fx.old.took ≡ min (length msg.now.first.now + length msg.now.second.now) 4294967295
            → ContinuesAs self.old.work self.new.work (up slot (said msg.now) now (is_ok result) fx.new) }
        ensures within { AsksWithin (length msg.now.first.now + length msg.now.second.now) fx.new }
        ensures took { fx.new.took ≡ fx.old.took }
    {
        match joined(self.alloc, msg) {
            Ok(body) => self.message(msg.rec, port, body.as_slice(), now, fx),
            Err(_) => self.give_up(),
        }
    }

    /// The transfer is handed a datagram of these bytes.
    #[inline(always)]
    fn message(
        &mut self,
        rec: u32,
        port: u16,
        body: &[u8],
        now: u64,
        fx: &mut Effects,
    ) -> Result<(), NoMemory>
        requires { AsksNone fx.old }
        ensures leads { (slot : ℕ) (m : Said) → is_datagram slot m ≡ true → m.rec ≡ rec → m.a ≡ port
            → m.bytes ≡ body.now → fx.old.took ≡ min (length m.bytes) 4294967295
            → ContinuesAs self.old.work self.new.work (up slot m now (is_ok result) fx.new) }
        ensures within { AsksWithin (length body.now) fx.new }
        ensures took { fx.new.took ≡ fx.old.took }
    {
        let Work::Running(transfer) = &mut self.work else {
            return Ok(());
        };
        let Some(mut acts) = self.acts.take() else {
            return self.give_up();
        };
        transfer.message(rec, port, body, now, &mut acts);
        self.carry_out(acts, fx);
        Ok(())
    }

    /// A message from above: a `Begin` begins the transfer.
    pub(crate) fn on_down(
        &mut self,
        msg: &Msg<'_>,
        now: u64,
        fx: &mut Effects,
    ) -> Result<(), NoMemory>
        requires { AsksNone fx.old }
        ensures leads { ContinuesAs self.old.work self.new.work (down (said msg.now) now (is_ok result) fx.new) }
        ensures within { AsksWithin 0 fx.new }
        ensures ups { (fx.new.ups.first ≡ None) × (fx.new.ups.second ≡ None) }
    {
        if !self.is_waiting() || !is_tag(msg.tag, Tag::Begin) {
            return Ok(());
        }
        if msg.second.is_empty() {
            return self.begin(msg.first, now, fx);
        }
        match joined(self.alloc, msg) {
            Ok(bytes) => self.begin(bytes.as_slice(), now, fx),
            Err(_) => self.give_up(),
        }
    }

    /// Whether nothing is asked for yet.
    fn is_waiting(&self) -> bool
        ensures { result ≡ is_waiting self.now.work }
    {
        match self.work {
            Work::Waiting => true,
            Work::Running(_) => false,
            Work::Over => false,
        }
    }

    /// Begins the transfer that these bytes ask for, if they are an `Ask`: its request is sent as try 1.
    fn begin(&mut self, bytes: &[u8], now: u64, fx: &mut Effects) -> Result<(), NoMemory>
        requires blank { AsksNone fx.old }
        requires waits { self.old.work ≡ work.Waiting }
        ensures leads { (m : Said) → m.tag ≡ 1 → m.bytes ≡ bytes.now
            → ContinuesAs self.old.work self.new.work (down m now (is_ok result) fx.new) }
        ensures within { AsksWithin 0 fx.new }
        ensures ups { (fx.new.ups.first ≡ None) × (fx.new.ups.second ≡ None) }
    {
        let Some(wanted) = Ask::read(bytes) else {
            return Ok(());
        };
        let Some(mut acts) = self.acts.take() else {
            return self.give_up();
        };
        let Ask {
            server,
            port,
            own_port,
            path,
        } = wanted;
        match Transfer::start(0, server, port, own_port, path, now, &mut acts) {
            Ok(transfer) => {
                self.work = Work::Running(transfer);
                self.carry_out(acts, fx);
                Ok(())
            }
            Err(_) => unreachable!(),
        }
    }

    /// The port of this slot was closed from its other end: the one on the other side is closed too.
    pub(crate) fn on_close(&mut self, slot: u8, cause: &Cause, fx: &mut Effects)
        requires { AsksNone fx.old }
        ensures leads { (now : ℕ) → ContinuesAs self.old.work self.new.work (closed slot cause.now now fx.new) }
        ensures within { AsksWithin 0 fx.new }
        ensures ups { (fx.new.ups.first ≡ None) × (fx.new.ups.second ≡ None) }
    {
        if slot > BELOW || self.is_over() {
            return;
        }
        self.work = Work::Over;
        fx.closes.push((BELOW - slot, *cause));
    }

    fn is_over(&self) -> bool
        ensures { result ≡ talk_is_done self.now.work }
    {
        match self.work {
            Work::Waiting => false,
            Work::Running(_) => false,
            Work::Over => true,
        }
    }

    /// It is this time, in milliseconds.
    pub(crate) fn on_time(&mut self, now: u64, fx: &mut Effects) -> Result<(), NoMemory>
        requires { AsksNone fx.old }
        ensures leads { ContinuesAs self.old.work self.new.work (time now (is_ok result) fx.new) }
        ensures within { AsksWithin 0 fx.new }
    {
        let Work::Running(transfer) = &mut self.work else {
            return Ok(());
        };
        let Some(mut acts) = self.acts.take() else {
            return self.give_up();
        };
        transfer.time(now, &mut acts);
        self.carry_out(acts, fx);
        Ok(())
    }

    /// What was lent comes back.
    #[inline(always)]
    pub(crate) fn regain(&mut self, load: Load)
        ensures { self.new.work ≡ self.old.work }
    {
        match load {
            // While it was lent, nothing stood here that is to be dropped.
            Load::Datagram(acts) => mem::forget(mem::replace(&mut self.acts, Some(acts))),
            Load::Body(_) => {}
            Load::Conn(_) => {}
            Load::Text(_) => {}
        }
    }

    /// Asks for what the transfer's call asks for, and has ended where that says so.
    #[inline(always)]
    fn carry_out(&mut self, acts: Box<Acts>, fx: &mut Effects)
        requires blank { AsksNone fx.old }
        requires few { length acts.value.sends.items ≤ 1 }
        ensures work { self.new.work ≡ (if is_some acts.value.over then work.Over else self.old.work) }
        ensures effects { (m : Said) → EffectsOf m acts.value fx.new }
        ensures within { (len : ℕ) → IsRange acts.value.give len → AsksWithin len fx.new }
        ensures took { fx.new.took ≡ fx.old.took }
    {
        if acts.over.is_some() {
            self.end(acts, fx);
        } else {
            self.go_on(acts, fx);
        }
    }

    /// The same where it hasn't ended.
    #[inline(always)]
    fn go_on(&mut self, acts: Box<Acts>, fx: &mut Effects)
        requires blank { AsksNone fx.old }
        requires few { length acts.value.sends.items ≤ 1 }
        requires goes { is_some acts.value.over ≡ false }
        ensures work { self.new.work ≡ self.old.work }
        ensures effects { (m : Said) → EffectsOf m acts.value fx.new }
        ensures within { (len : ℕ) → IsRange acts.value.give len → AsksWithin len fx.new }
        ensures took { fx.new.took ≡ fx.old.took }
    {
        let kept = ask_on(acts, fx);
        self.keep(kept);
    }

    /// Keeps what wasn't lent.
    #[inline(always)]
    fn keep(&mut self, acts: Option<Box<Acts>>)
        ensures { self.new.work ≡ self.old.work }
    {
        if acts.is_some() {
            self.acts = acts;
        }
    }

    /// The same where it has ended. Not inlined, as it is rare.
    #[cold]
    #[inline(never)]
    fn end(&mut self, acts: Box<Acts>, fx: &mut Effects)
        requires blank { AsksNone fx.old }
        requires few { length acts.value.sends.items ≤ 1 }
        ensures work { self.new.work ≡ work.Over }
        ensures effects { (m : Said) → EffectsOf m acts.value fx.new }
        ensures within { (len : ℕ) → IsRange acts.value.give len → AsksWithin len fx.new }
        ensures took { fx.new.took ≡ fx.old.took }
    {
        self.work = Work::Over;
        self.acts = ask(acts, fx);
    }

    /// Memory ran out in an entry: nothing is asked for any more.
    fn give_up(&mut self) -> Result<(), NoMemory>
        ensures err { is_ok result ≡ false }
        ensures over { self.new.work ≡ work.Over }
    {
        self.work = Work::Over;
        Err(NoMemory)
    }
}
