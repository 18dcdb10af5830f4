ghost use Rattle.std.specs.Prelude.{◌≡◌, ◌+◌, ◌++◌, ◌<◌, ◌≤◌, ◌==◌, ◌&&◌, ℕ, [], length, OnOk, OnErr, IfOk, IsErrOf, is_none};
ghost use Rattle.std.specs.Option.{option_map};
ghost use Rattle.std.specs.Prelude.{true, false, nat_lt};
ghost use Rattle.nb_graph.specs.Trace.{said};
ghost use Rattle.nb_graph.specs.Effects.{IsNothing};
ghost use Rattle.nb_nodes.specs.declared.fetch.Fetch.TheVariants as fetch;
ghost use Rattle.nb_nodes.specs.Carried.{AsksNone, CarriesNothing, AsksWithin};
ghost use Rattle.nb_nodes.specs.Fetches.{FetchStands, FetchHarvests, is_gathering};
ghost use Rattle.nb_nodes.specs.Fetches.{after_closing, passed_close, gathered_len};
ghost use Rattle.nb_nodes.specs.Fetches.{AsksHandDown, is_handed_down, ended_fetch, GathersBytes};
ghost use Rattle.nb_nodes.specs.Fetches.{body_too_large, stop_cause, moved_cause, move_closes};
ghost use Rattle.nb_nodes.specs.Fetches.{AsksMove, AsksOfUp, after_move, after_up, brings_move, moved_uri};
ghost use Rattle.nb_nodes.specs.Carried.{both_closes};
ghost use Rattle.nb_image.specs.declared.error.PushError.TheVariants as PushError;
ghost use Rattle.std.specs.Prelude.{◌∷◌};

use crate::Load;
use crate::carrying::{BELOW, Effects, close_both, joined, length_of};
use crate::tag::{Tag, is_tag};
use nb_graph::{Emit, Msg};
use nb_image::{Body, PushError};
use nb_terms::{Cause, Large, NoMemory, Plain, Reason};
use nb_webnodes::MOVED;
use nb_wire::Text;
use std::alloc::Global;
use std::mem;

/// The code of Ok.
const OK: u8 = 0;

/// A file that comes up by slot 1, gathered for the user above slot 0, or the URI where it is instead.
#[derive(Drop)]
pub enum Fetch {
    /// These bytes have come. A move's text takes its memory from the allocator.
    Gathering(Body, Global),
    /// The port below was closed with Ok: they are all.
    Whole(Body),
    /// They were all, and are handed out.
    HandedOut,
    /// A move came: the file is at this URI.
    Moved(Text),
    /// A port was closed otherwise, the body is too large, or memory ran out.
    Failed,
}

/// What became of a message from below.
pub(crate) enum Gathered {
    Taken(u32),
    TooLarge,
    /// Nothing is gathered any more.
    Ended,
    NoMemory,
}

impl Fetch {
    /// A Fetch of which nothing has come.
    pub fn new(alloc: Global) -> Fetch
        ensures stands { FetchStands result [] }
        ensures value { result ≡ fetch.Gathering [] alloc }
    {
        Fetch::Gathering(Body::new(alloc), alloc)
    }

    /// Whether more may come.
    fn is_gathering(&self) -> bool
        ensures { result ≡ is_gathering self.now }
    {
        match self {
            Fetch::Gathering(_, _) => true,
            Fetch::Whole(_) => false,
            Fetch::HandedOut => false,
            Fetch::Moved(_) => false,
            Fetch::Failed => false,
        }
    }

    /// The URI that the file is at instead, where a move ended it.
    pub fn moved(&self) -> Option<&[u8]>
        ensures { option_map (λ text. text.now) result ≡ moved_uri self.now }
    {
        match self {
            Fetch::Gathering(_, _) => None,
            Fetch::Whole(_) => None,
            Fetch::HandedOut => None,
            Fetch::Moved(text) => Some(text.as_slice()),
            Fetch::Failed => None,
        }
    }

    /// A message from below: by slot 1 its bytes are the file's, or a move. A body of more than 268,435,456 bytes
    /// closes both ports with TooLarge, and a move with Ok.
    #[inline(always)]
    pub(crate) fn on_up(
        &mut self,
        slot: u8,
        msg: &Msg<'_>,
        fx: &mut Effects,
    ) -> Result<(), NoMemory>
        requires { IsNothing fx.old }
        ensures asks { OnOk result (AsksOfUp (brings_move slot (said msg.now)) (is_gathering self.old) (gathered_len self.old) slot (said msg.now) fx.new) }
        ensures after { OnOk result (self.new ≡ after_up self.old slot (said msg.now)) }
        ensures failed { OnErr result ((is_gathering self.old ≡ true) × (self.new ≡ fetch.Failed)) }
        ensures silent { CarriesNothing fx.new }
        ensures within { (len : ℕ) → AsksWithin len fx.new }
        ensures took { fx.new.took ≤ length msg.now.first.now + length msg.now.second.now }
    {
        if slot != BELOW {
            fx.took = length_of(msg);
            return Ok(());
        }
        if msg.tag == MOVED {
            return self.go_elsewhere(msg, fx);
        }
        match self.gather(msg) {
            Gathered::Taken(length) => {
                fx.took = length;
                Ok(())
            }
            Gathered::TooLarge => {
                refuse(fx);
                Ok(())
            }
            Gathered::Ended => {
                stop(fx);
                Ok(())
            }
            Gathered::NoMemory => Err(NoMemory),
        }
    }

    /// A move comes. Not inlined, as it is rare.
    #[cold]
    #[inline(never)]
    fn go_elsewhere(&mut self, msg: &Msg<'_>, fx: &mut Effects) -> Result<(), NoMemory>
        requires { IsNothing fx.old }
        ensures asks { OnOk result (AsksMove (is_gathering self.old) (length (said msg.now).bytes) fx.new) }
        ensures after { OnOk result (self.new ≡ after_move self.old (said msg.now).bytes) }
        ensures failed { OnErr result ((is_gathering self.old ≡ true) × (self.new ≡ fetch.Failed)) }
        ensures silent { CarriesNothing fx.new }
        ensures within { (len : ℕ) → AsksWithin len fx.new }
        ensures took { fx.new.took ≤ length msg.now.first.now + length msg.now.second.now }
    {
        let Fetch::Gathering(_, alloc) = self else {
            stop(fx);
            return Ok(());
        };
        match text_of(*alloc, msg) {
            Ok(text) => {
                fx.took = length_of(msg);
                close_both(Cause::from(Reason::Plain(Plain::Ok)), fx);
                *self = Fetch::Moved(text);
                Ok(())
            }
            Err(_) => {
                *self = Fetch::Failed;
                Err(NoMemory)
            }
        }
    }

    /// Appends the bytes of a message.
    #[inline(always)]
    fn gather(&mut self, msg: &Msg<'_>) -> Gathered
        ensures { GathersBytes self.old (said msg.now).bytes result self.new }
    {
        let Fetch::Gathering(body, _) = self else {
            return Gathered::Ended;
        };
        match push_both(body, msg.first, msg.second) {
            Ok(()) => Gathered::Taken((msg.first.len() + msg.second.len()) as u32),
            Err(PushError::TooLarge) => {
                *self = Fetch::Failed;
                Gathered::TooLarge
            }
            Err(PushError::NoMemory) => {
                *self = Fetch::Failed;
                Gathered::NoMemory
            }
        }
    }

    /// A message from above: a `Begin` is handed down.
    pub(crate) fn on_down(&self, msg: &Msg<'_>, fx: &mut Effects)
        requires { AsksNone fx.old }
        ensures { AsksHandDown (is_gathering self.now) (said msg.now) fx.new }
    {
        if self.is_gathering() && is_handed_down(msg) {
            fx.downs.first.put(Emit {
                slot: BELOW,
                tag: msg.tag,
                a: msg.a,
                b: msg.b,
                from: 0,
                to: length_of(msg),
                load: None,
            });
        }
    }

    /// The port of this slot was closed from its other end: the one on the other side is closed too.
    /// Where the one below was closed with Ok, the body is whole.
    pub(crate) fn on_close(&mut self, slot: u8, cause: &Cause, fx: &mut Effects)
        requires { AsksNone fx.old }
        ensures closes { fx.new.closes.items ≡ passed_close (is_gathering self.old) slot cause.now }
        ensures after { self.new ≡ after_closing self.old slot cause.now }
        ensures silent { CarriesNothing fx.new }
    {
        if slot > BELOW || !self.is_gathering() {
            return;
        }
        fx.closes.push((BELOW - slot, *cause));
        self.end(slot == BELOW && cause.code == OK);
    }

    /// Nothing more is gathered.
    fn end(&mut self, well: bool)
        ensures { self.new ≡ ended_fetch self.old well }
    {
        match mem::replace(self, Fetch::Failed) {
            Fetch::Gathering(body, _) if well => *self = Fetch::Whole(body),
            _ => {}
        }
    }

    /// The body, at the first call at which it is whole.
    pub(crate) fn harvest(&mut self) -> Option<Load>
        ensures { FetchHarvests self.old result self.new }
    {
        match mem::replace(self, Fetch::HandedOut) {
            Fetch::Whole(body) => Some(Load::Body(body)),
            was => {
                *self = was;
                None
            }
        }
    }
}

/// Closes both ports, since the body would be too large. Not inlined, as it is rare.
#[cold]
#[inline(never)]
fn refuse(fx: &mut Effects)
    requires { fx.old.closes.items ≡ [] }
    ensures { fx.new ≡ record fx.old { closes = record { items = both_closes body_too_large } } }
{
    close_both(Cause::from(Reason::TooLarge(Large::Image)), fx);
}

/// Closes the port below, since nothing is gathered any more. Not inlined, as it is rare.
#[cold]
#[inline(never)]
fn stop(fx: &mut Effects)
    requires { fx.old.closes.items ≡ [] }
    ensures { fx.new ≡ record fx.old { closes = record { items = (1, stop_cause) ∷ [] } } }
{
    fx.closes
        .push((BELOW, Cause::from(Reason::Plain(Plain::Stopped))));
}

/// The bytes of a message, as a text. More than 4,294,967,295 of them are refused as if memory ran out.
fn text_of(alloc: Global, msg: &Msg<'_>) -> Result<Text, NoMemory>
    ensures value { IfOk result (λ text. text ≡ (said msg.now).bytes) }
    ensures fits { IfOk result (λ _. length msg.now.first.now + length msg.now.second.now ≤ 4294967295) }
{
    if msg.first.len() + msg.second.len() > u32::MAX as usize {
        return Err(NoMemory);
    }
    Ok(Text::from_vec(joined(alloc, msg)?))
}

/// Appends both parts, or stops at the first that isn't taken.
#[inline(always)]
fn push_both(body: &mut Body, first: &[u8], second: &[u8]) -> Result<(), PushError>
    ensures ok { OnOk result (body.new ≡ body.old ++ (first.now ++ second.now)) }
    ensures fits { OnOk result (length body.old + (length first.now + length second.now) ≤ 268435456) }
    ensures too_large { IsErrOf result PushError.TooLarge
        → 268435456 < length body.old + (length first.now + length second.now) }
{
    body.push(first)?;
    if second.is_empty() {
        return Ok(());
    }
    body.push(second)
}

/// Whether a message is a `Begin` that can be handed down whole.
fn is_handed_down(msg: &Msg<'_>) -> bool
    ensures { result ≡ is_handed_down (said msg.now) }
{
    is_tag(msg.tag, Tag::Begin) && msg.first.len() + msg.second.len() <= u32::MAX as usize
}
