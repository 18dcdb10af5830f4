//! The object of a fetch.

ghost use Rattle.std.specs.Prelude.{◌≡◌, ◌+◌, ◌<◌, ◌≤◌, ◌++◌, ◌∷◌, ℕ, List, [], length, min, None, true, false, IfOk, OnOk, if◌then◌else◌};
ghost use Rattle.std.specs.Result.{is_ok};
ghost use Rattle.std.specs.Option.{is_some};
ghost use Rattle.nb_graph.specs.Trace.{Said, said, NodeEntry, up, down, closed, time, regain};
ghost use Rattle.nb_graph.specs.Effects.{IsNothing, TakesSome};
ghost use Rattle.nb_webnodes.specs.declared.stage.WebStage.TheVariants as stage;
ghost use Rattle.nb_conns.specs.ConnEffects.{ConnWithin, SaysNothing, closes_for};
ghost use Rattle.nb_webnodes.specs.WebEffects.{AnswersUp};
ghost use Rattle.nb_webnodes.specs.WebTalks.{WebStands, FetchesOn, IsUnaskedWeb, stage_takes_web, stage_asks_web, stage_is_fetching};

use crate::asking::{
    ABOVE, Answer, BELOW, Body, all_of, ask_below, ask_close, ask_up, body_up, gather_answer,
};
use crate::stage::WebStage;
use crate::starting::start;
use crate::web_ask::WebAsk;
use crate::web_load::CarriesWeb;
use nb_conns::StreamTag;
use nb_graph::{Fx, Msg};
use nb_terms::{Acts, Cause, NoMemory};
use std::alloc::Global;

/// One fetch by HTTP (RFC 9112): its user is plugged to slot 0, a connection lies below slot 1.
///
/// A `Begin` from above asks for it: the connection is begun, and given the request. What comes by slot 1 as
/// `Received` goes to the core, of which just so many bytes are taken as it took, and the `End` ends it. Bytes of the
/// body go up as `Received`, and the text of a move as `MOVED`. Once the response is decided it closes slots 0 and 1
/// with the cause, the one above first. Where one of both is closed, it closes the other.
#[derive(Drop)]
pub struct Web {
    alloc: Global,
    pub(crate) stage: WebStage,
    /// What its core fills at each call.
    acts: Acts,
    /// What bytes that the core gathered are copied to. Empty while it is lent.
    room: Vec<u8>,
}

impl Web {
    /// One that waits for what to ask for.
    pub fn new(alloc: Global) -> Result<Web, NoMemory>
        ensures { IfOk result IsUnaskedWeb }
    {
        Ok(Web {
            alloc,
            stage: WebStage::Unasked,
            acts: Acts::none(),
            room: Vec::new(alloc),
        })
    }

    /// A message from below. Of the stream's bytes it takes what its core took, and of others all.
    pub fn on_up<N, L: CarriesWeb>(
        &mut self,
        slot: u8,
        msg: &Msg<'_>,
        fx: &mut Fx<N, L>,
    ) -> Result<(), NoMemory>
        requires { IsNothing fx.old }
        ensures within { ConnWithin (length msg.now.first.now + length msg.now.second.now) fx.new }
        ensures took { fx.new.took ≤ length msg.now.first.now + length msg.now.second.now }
        ensures takes { OnOk result (TakesSome slot (length msg.now.first.now + length msg.now.second.now) fx.new) }
        ensures stands { (t : List (NodeEntry N L)) (now : ℕ) → WebStands L.web self.old t
            → WebStands L.web self.new (t ++ up slot (said msg.now) now (is_ok result) fx.new ∷ []) }
    {
        if self.takes(slot, msg) {
            return self.read(msg, fx);
        }
        fx.took = all_of(msg);
        if self.takes_end(slot, msg) {
            self.finish(msg.rec, fx);
        }
        Ok(())
    }

    /// Whether a message from below has bytes of the stream.
    fn takes(&self, slot: u8, msg: &Msg<'_>) -> bool
        ensures { result ≡ stage_takes_web self.now.stage 5 slot (said msg.now) }
    {
        self.is_fetching() && slot == BELOW && msg.tag == u8::from(StreamTag::Received)
    }

    /// Whether a message from below is the stream's end.
    fn takes_end(&self, slot: u8, msg: &Msg<'_>) -> bool
        ensures { result ≡ stage_takes_web self.now.stage 8 slot (said msg.now) }
    {
        self.is_fetching() && slot == BELOW && msg.tag == u8::from(StreamTag::End)
    }

    fn is_fetching(&self) -> bool
        ensures { result ≡ stage_is_fetching self.now.stage }
    {
        match &self.stage {
            WebStage::Unasked => false,
            WebStage::Fetching(_) => true,
            WebStage::Ended => false,
        }
    }

    /// The next bytes of the stream. More than 4,294,967,295 at once end it as if memory ran out.
    fn read<N, L: CarriesWeb>(&mut self, msg: &Msg<'_>, fx: &mut Fx<N, L>) -> Result<(), NoMemory>
        requires { IsNothing fx.old }
        ensures leads { (slot now : ℕ) → stage_takes_web self.old.stage 5 slot (said msg.now) ≡ true
            → FetchesOn L.web self.old.stage self.new.stage (up slot (said msg.now) now (is_ok result) fx.new) }
        ensures within { ConnWithin (length msg.now.first.now + length msg.now.second.now) fx.new }
        ensures took { fx.new.took ≤ length msg.now.first.now + length msg.now.second.now }
        ensures some { OnOk result (stage_is_fetching self.old.stage ≡ true → 0 < length msg.now.first.now + length msg.now.second.now → 0 < fx.new.took) }
    {
        let count = msg.first.len() + msg.second.len();
        let WebStage::Fetching(http) = &mut self.stage else {
            return Ok(());
        };
        if count > u32::MAX as usize {
            return self.give_up();
        }
        fx.took = http.bytes(msg.rec, msg.first, msg.second, &mut self.acts);
        if let (Some((from, to)), None) = (self.acts.give, self.acts.over) {
            fx.ups.first.put(body_up(Body::Range(from, to)));
            return Ok(());
        }
        // A core that goes on takes some of the bytes, so that the guard always holds.
        match gather_answer(self.alloc, http, &self.acts, &mut self.room) {
            Ok(given) if fx.took > 0 || count == 0 => {
                self.carry_out(given, fx);
                Ok(())
            }
            _ => self.give_up(),
        }
    }

    /// Asks for what goes up, and for the closes. It has ended where the response is decided.
    #[inline(never)]
    fn carry_out<N, L: CarriesWeb>(&mut self, given: Answer, fx: &mut Fx<N, L>)
        requires { SaysNothing fx.old × (fx.old.closes.items ≡ []) }
        ensures stage { self.new.stage ≡ (if is_some self.old.acts.over then stage.Ended else self.old.stage) }
        ensures ups { AnswersUp L.web given.body given.moved fx.new.ups }
        ensures same { fx.new ≡ record fx.old { ups = fx.new.ups; closes = record { items = closes_for self.old.acts.over } } }
    {
        let over = self.acts.over;
        ask_up(given, &mut fx.ups);
        ask_close(over, fx);
        self.stage.end_if(over.is_some());
    }

    /// The stream has ended: so has the response.
    fn finish<N, L: CarriesWeb>(&mut self, rec: u32, fx: &mut Fx<N, L>)
        requires { SaysNothing fx.old × (fx.old.closes.items ≡ []) }
        ensures leads { (slot now : ℕ) (m : Said) → stage_takes_web self.old.stage 8 slot m ≡ true → m.rec ≡ rec
            → fx.old.took ≡ min (length m.bytes) 4294967295
            → FetchesOn L.web self.old.stage self.new.stage (up slot m now true fx.new) }
        ensures within { (len : ℕ) → ConnWithin len fx.new }
        ensures took { fx.new.took ≡ fx.old.took }
    {
        let WebStage::Fetching(http) = &mut self.stage else {
            return;
        };
        http.finish(rec, &mut self.acts);
        let over = self.acts.over;
        self.stage = WebStage::Ended;
        ask_close(over, fx);
    }

    /// A message from above: a `Begin` asks for the fetch.
    pub fn on_down<N, L: CarriesWeb>(
        &mut self,
        msg: &Msg<'_>,
        fx: &mut Fx<N, L>,
    ) -> Result<(), NoMemory>
        requires { IsNothing fx.old }
        ensures within { ConnWithin (length msg.now.first.now + length msg.now.second.now) fx.new }
        ensures ups { (fx.new.ups.first ≡ None) × (fx.new.ups.second ≡ None) }
        ensures stands { (t : List (NodeEntry N L)) (now : ℕ) → WebStands L.web self.old t
            → WebStands L.web self.new (t ++ down (said msg.now) now (is_ok result) fx.new ∷ []) }
    {
        if !self.asks(msg) {
            return Ok(());
        }
        match joined(self.alloc, msg) {
            Ok(bytes) => self.ask(bytes.as_slice(), msg.a, fx),
            Err(_) => self.give_up(),
        }
    }

    /// Whether a message from above is one that may count.
    fn asks(&self, msg: &Msg<'_>) -> bool
        ensures { result ≡ stage_asks_web self.now.stage (said msg.now) }
    {
        match &self.stage {
            WebStage::Unasked => msg.tag == u8::from(StreamTag::Begin),
            WebStage::Fetching(_) => false,
            WebStage::Ended => false,
        }
    }

    /// Asks for what these bytes ask for, if they do.
    fn ask<N, L: CarriesWeb>(
        &mut self,
        bytes: &[u8],
        host: u32,
        fx: &mut Fx<N, L>,
    ) -> Result<(), NoMemory>
        requires { SaysNothing fx.old × (fx.old.closes.items ≡ []) }
        ensures leads { (m : Said) (now : ℕ) → stage_asks_web self.old.stage m ≡ true → m.a ≡ host → m.bytes ≡ bytes.now
            → FetchesOn L.web self.old.stage self.new.stage (down m now (is_ok result) fx.new) }
        ensures within { ConnWithin (length bytes.now) fx.new }
        ensures ups { (fx.new.ups.first ≡ None) × (fx.new.ups.second ≡ None) }
    {
        let Some(ask) = WebAsk::read(bytes, host) else {
            return Ok(());
        };
        match start(self.alloc, &ask) {
            Ok((http, text)) => {
                self.stage = WebStage::Fetching(http);
                ask_below(text, &mut fx.downs);
                Ok(())
            }
            Err(_) => self.give_up(),
        }
    }

    /// The port of this slot was closed from its other end: the one on the other side is closed too.
    pub fn on_close<N, L: CarriesWeb>(&mut self, slot: u8, cause: &Cause, fx: &mut Fx<N, L>)
        requires { IsNothing fx.old }
        ensures within { ConnWithin 0 fx.new }
        ensures ups { (fx.new.ups.first ≡ None) × (fx.new.ups.second ≡ None) }
        ensures stands { (t : List (NodeEntry N L)) (now : ℕ) → WebStands L.web self.old t
            → WebStands L.web self.new (t ++ closed slot cause.now now fx.new ∷ []) }
    {
        if slot > BELOW || self.stage.is_ended() {
            return;
        }
        self.stage = WebStage::Ended;
        fx.closes.push((BELOW - slot, *cause));
    }

    /// Time passes: nothing is asked for.
    pub fn on_time<N, L: CarriesWeb>(&self, fx: &Fx<N, L>)
        requires { IsNothing fx.now }
        ensures within { ConnWithin 0 fx.now }
        ensures stands { (t : List (NodeEntry N L)) (now : ℕ) → WebStands L.web self.now t
            → WebStands L.web self.now (t ++ time now true fx.now ∷ []) }
    {}

    /// What was lent comes back: its room is used again.
    pub fn regain<N, L: CarriesWeb>(&mut self, load: L)
        ensures { (t : List (NodeEntry N L)) → WebStands L.web self.old t
            → WebStands L.web self.new (t ++ regain load ∷ []) }
    {
        if let Some(text) = load.into_text() {
            self.room = text.into_vec();
        }
    }

    /// Memory ran out in an entry: nothing is asked for any more.
    fn give_up(&mut self) -> Result<(), NoMemory>
        ensures err { is_ok result ≡ false }
        ensures ended { self.new.stage ≡ stage.Ended }
    {
        self.stage = WebStage::Ended;
        Err(NoMemory)
    }
}

/// The bytes of a message in one piece.
fn joined(alloc: Global, msg: &Msg<'_>) -> Result<Vec<u8>, NoMemory>
    ensures { IfOk result (λ v. v.items ≡ msg.now.first.now ++ msg.now.second.now) }
{
    let mut bytes = Vec::from_slice(alloc, msg.first)?;
    bytes.extend_from_slice(msg.second)?;
    Ok(bytes)
}
