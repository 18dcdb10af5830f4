ghost use Rattle.std.specs.Prelude.{◌≡◌, ◌+◌, ◌≤◌, ℕ, [], length, min, None, IfOk};
ghost use Rattle.std.specs.Prelude.{true, false, is_ok, is_some, if◌then◌else◌};
ghost use Rattle.nb_graph.specs.Trace.{Said, said, up, down, closed, time};
ghost use Rattle.nb_nodes.specs.declared.stage.Stage.TheVariants as stage;
ghost use Rattle.nb_nodes.specs.Carried.{AsksNone, AsksWithin};
ghost use Rattle.nb_nodes.specs.Conversations.{TakesWhole};
ghost use Rattle.nb_nodes.specs.Exchanges.{AsksAndGives, GivesOnly, GoesOnAs, StandsBy, said_up};

use crate::Load;
use crate::carrying::{BELOW, Effects, ask_giving, joined, length_of};
use crate::cores::Core;
use crate::stage::Stage;
use crate::tag::{Tag, is_tag};
use nb_graph::{Emit, Msg};
use nb_terms::{Acts, Cause, NoMemory};
use std::alloc::Global;
use std::mem;

/// What asks once and is answered, by a core: its user is plugged to slot 0, the network lies below slot 1.
///
/// A `Begin` from above starts the core, which reads its bytes. A `Datagram` by slot 1 that the core takes goes to it,
/// and so does each time. At its end it gives up what the core does, and closes slots 0 and 1 with the cause, the one
/// above first.
#[derive(Drop)]
pub struct Asker<C> {
    alloc: Global,
    pub(crate) stage: Stage<C>,
    /// What the core fills at each call. None while its message is lent.
    acts: Option<Box<Acts>>,
}

impl<C: Core> Asker<C> {
    /// One that waits for what to ask for.
    pub fn new(alloc: Global) -> Result<Asker<C>, NoMemory>
        ensures { IfOk result (λ a. StandsBy C.service a.stage []) }
    {
        Ok(Asker {
            alloc,
            stage: Stage::Waiting,
            acts: Some(Box::new(alloc, Acts::none())?),
        })
    }

    /// A message from below, of which all bytes are taken.
    pub(crate) fn on_up(
        &mut self,
        slot: u8,
        msg: &Msg<'_>,
        now: u64,
        fx: &mut Effects,
    ) -> Result<(), NoMemory>
        requires { AsksNone fx.old }
        ensures leads { GoesOnAs C.service self.old.stage self.new.stage (up slot (said msg.now) now (is_ok result) fx.new) }
        ensures within { AsksWithin (length msg.now.first.now + length msg.now.second.now) fx.new }
        ensures took { fx.new.took ≡ min (length msg.now.first.now + length msg.now.second.now) 4294967295 }
    {
        fx.took = length_of(msg);
        if !C::takes(slot, msg) {
            return Ok(());
        }
        if msg.second.is_empty() {
            return self.receive(msg, msg.first, now, fx);
        }
        match joined(self.alloc, msg) {
            Ok(body) => self.receive(msg, body.as_slice(), now, fx),
            Err(_) => self.give_up(),
        }
    }

    /// A message of these bytes comes, which the core takes.
    fn receive(
        &mut self,
        msg: &Msg<'_>,
        body: &[u8],
        now: u64,
        fx: &mut Effects,
    ) -> Result<(), NoMemory>
        requires blank { AsksNone fx.old }
        requires taken { (slot : ℕ) × (C.service.takes slot (said msg.now) ≡ true) }
        requires bytes { body.now ≡ (said msg.now).bytes }
        ensures leads { (slot : ℕ) → C.service.takes slot (said msg.now) ≡ true → TakesWhole (said msg.now) fx.old
            → GoesOnAs C.service self.old.stage self.new.stage (up slot (said msg.now) now (is_ok result) fx.new) }
        ensures within { (len : ℕ) → length body.now ≤ len → AsksWithin len fx.new }
        ensures took { fx.new.took ≡ fx.old.took }
    {
        let Stage::Running(core) = &mut self.stage else {
            return Ok(());
        };
        let Some(mut acts) = self.acts.take() else {
            return self.give_up();
        };
        let given = core.receive(msg, body, now, &mut acts);
        self.carry_out(acts, given, fx);
        Ok(())
    }

    /// A message from above: a `Begin` starts the core.
    pub(crate) fn on_down(
        &mut self,
        msg: &Msg<'_>,
        now: u64,
        fx: &mut Effects,
    ) -> Result<(), NoMemory>
        requires { AsksNone fx.old }
        ensures leads { GoesOnAs C.service self.old.stage self.new.stage (down (said msg.now) now (is_ok result) fx.new) }
        ensures within { AsksWithin 0 fx.new }
        ensures ups { (fx.new.ups.first ≡ None) × (fx.new.ups.second ≡ None) }
    {
        if !self.stage.is_waiting() || !is_tag(msg.tag, Tag::Begin) {
            return Ok(());
        }
        if msg.second.is_empty() {
            return self.begin(msg.first, now, fx);
        }
        match joined(self.alloc, msg) {
            Ok(bytes) => self.begin(bytes.as_slice(), now, fx),
            Err(_) => self.give_up(),
        }
    }

    /// Asks for what these bytes ask for, if they ask for anything: it is sent as try 1.
    fn begin(&mut self, bytes: &[u8], now: u64, fx: &mut Effects) -> Result<(), NoMemory>
        requires blank { AsksNone fx.old }
        requires waits { self.old.stage ≡ stage.Waiting }
        ensures leads { (m : Said) → m.tag ≡ 1 → m.bytes ≡ bytes.now
            → GoesOnAs C.service self.old.stage self.new.stage (down m now (is_ok result) fx.new) }
        ensures within { AsksWithin 0 fx.new }
        ensures ups { (fx.new.ups.first ≡ None) × (fx.new.ups.second ≡ None) }
    {
        let Some(mut acts) = self.acts.take() else {
            return self.give_up();
        };
        match C::begin(bytes, now, &mut acts) {
            Some(core) => {
                self.stage = Stage::Running(core);
                self.carry_out(acts, None, fx);
            }
            None => self.acts = Some(acts),
        }
        Ok(())
    }

    /// The port of this slot was closed from its other end: the one on the other side is closed too.
    pub(crate) fn on_close(&mut self, slot: u8, cause: &Cause, fx: &mut Effects)
        requires { AsksNone fx.old }
        ensures leads { (now : ℕ) → GoesOnAs C.service self.old.stage self.new.stage (closed slot cause.now now fx.new) }
        ensures within { AsksWithin 0 fx.new }
        ensures ups { (fx.new.ups.first ≡ None) × (fx.new.ups.second ≡ None) }
    {
        if slot > BELOW || self.stage.is_over() {
            return;
        }
        self.stage = Stage::Over;
        fx.closes.push((BELOW - slot, *cause));
    }

    /// It is this time, in milliseconds.
    pub(crate) fn on_time(&mut self, now: u64, fx: &mut Effects) -> Result<(), NoMemory>
        requires { AsksNone fx.old }
        ensures leads { GoesOnAs C.service self.old.stage self.new.stage (time now (is_ok result) fx.new) }
        ensures within { AsksWithin 0 fx.new }
    {
        let Stage::Running(core) = &mut self.stage else {
            return Ok(());
        };
        let Some(mut acts) = self.acts.take() else {
            return self.give_up();
        };
        let given = core.pass_time(now, &mut acts);
        self.carry_out(acts, given, fx);
        Ok(())
    }

    /// What was lent comes back.
    pub(crate) fn regain(&mut self, load: Load)
        ensures { self.new.stage ≡ self.old.stage }
    {
        match load {
            // While it was lent, nothing stood here that is to be dropped.
            Load::Datagram(acts) => mem::forget(mem::replace(&mut self.acts, Some(acts))),
            Load::Body(_) => {}
            Load::Conn(_) => {}
            Load::Text(_) => {}
        }
    }

    /// Asks for what the core's call asks for, and gives this up; it has ended where that says so.
    fn carry_out(&mut self, acts: Box<Acts>, given: Option<Emit<Load>>, fx: &mut Effects)
        requires blank { AsksNone fx.old }
        requires simple { (len : ℕ) × GivesOnly len acts.value given }
        ensures stage { self.new.stage ≡ (if is_some acts.value.over then stage.Over else self.old.stage) }
        ensures effects { (m : Said) → AsksAndGives m acts.value (said_up m given) fx.new }
        ensures within { (len : ℕ) → GivesOnly len acts.value given → AsksWithin len fx.new }
        ensures ups { fx.new.ups ≡ record { first = given; second = None } }
        ensures took { fx.new.took ≡ fx.old.took }
    {
        let has_ended = acts.over.is_some();
        self.acts = ask_giving(acts, given, fx);
        self.stage.end_if(has_ended);
    }

    /// Memory ran out in an entry: nothing is asked for any more.
    fn give_up(&mut self) -> Result<(), NoMemory>
        ensures err { is_ok result ≡ false }
        ensures over { self.new.stage ≡ stage.Over }
    {
        self.stage = Stage::Over;
        Err(NoMemory)
    }
}
