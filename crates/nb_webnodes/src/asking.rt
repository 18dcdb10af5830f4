//! What a call of a fetch asks for, as the effects of an entry.

ghost use Rattle.std.specs.Prelude.{◌≡◌, ◌+◌, ◌≤◌, ◌++◌, [], length, min, take, None, IfOk};
ghost use Rattle.nb_graph.specs.Trace.{said};
ghost use Rattle.nb_conns.specs.ConnEffects.{closes_for};
ghost use Rattle.nb_webnodes.specs.WebEffects.{begin_emit, send_emit, body_emit, moved_emit, body_for, block_body, moved_at_end, AnswersUp, AsksBelow};

use crate::CarriesWeb;
use nb_conns::StreamTag;
use nb_graph::{Emit, Few, Fx, Msg};
use nb_http::Http;
use nb_terms::{Acts, Cause, NoMemory};
use nb_wire::Text;
use std::alloc::Global;
use std::mem;

/// The slot that faces the user above.
pub(crate) const ABOVE: u8 = 0;

/// The slot that faces the connection below.
pub(crate) const BELOW: u8 = 1;

/// The tag of the message that goes up with the text of a move.
pub const MOVED: u8 = 10;

/// How many bytes of a message are taken where all are: at most 4,294,967,295 at once.
pub(crate) fn all_of(msg: &Msg<'_>) -> u32
    ensures { result ≡ min (length msg.now.first.now + length msg.now.second.now) 4294967295 }
{
    (msg.first.len() + msg.second.len()).min(u32::MAX as usize) as u32
}

/// What of a body goes up by a call: a range of the bytes that came, or what was gathered.
#[derive(Drop)]
pub(crate) enum Body {
    Range(u32, u32),
    Block(Text),
}

/// What goes up by a call: bytes of the body, and the text of the move that ended it.
#[derive(Drop)]
pub(crate) struct Answer {
    pub(crate) body: Option<Body>,
    pub(crate) moved: Option<Text>,
}

/// What waits in the core's block. The room is where it is copied to.
fn block_of(alloc: Global, http: &Http, room: &mut Vec<u8>) -> Result<Option<Body>, NoMemory>
    ensures { IfOk result (λ r. r ≡ block_body (take http.now.waiting http.now.core.chunks.block)) }
{
    let block = http.block();
    if block.is_empty() {
        return Ok(None);
    }
    let mut bytes = mem::replace(room, Vec::new(alloc));
    bytes.clear();
    bytes.extend_from_slice(block)?;
    Ok(Some(Body::Block(Text::from_vec(bytes))))
}

/// What of the body goes up.
fn body_of(
    alloc: Global,
    http: &Http,
    acts: &Acts,
    room: &mut Vec<u8>,
) -> Result<Option<Body>, NoMemory>
    ensures { IfOk result (λ r. r ≡ body_for acts.now.give (take http.now.waiting http.now.core.chunks.block)) }
{
    match acts.give {
        Some((from, to)) => Ok(Some(Body::Range(from, to))),
        None => block_of(alloc, http, room),
    }
}

/// The text of the move that ended it.
fn moved_of(alloc: Global, http: &Http, over: Option<Cause>) -> Result<Option<Text>, NoMemory>
    ensures { IfOk result (λ r. r ≡ moved_at_end over http.now.core) }
{
    if over.is_none() {
        return Ok(None);
    }
    match http.moved() {
        Some(bytes) => Ok(Some(Text::from_vec(Vec::from_slice(alloc, bytes)?))),
        None => Ok(None),
    }
}

/// What goes up by a call of the core that asked for this.
#[inline(never)]
pub(crate) fn gather_answer(
    alloc: Global,
    http: &Http,
    acts: &Acts,
    room: &mut Vec<u8>,
) -> Result<Answer, NoMemory>
    ensures body { IfOk result (λ r. r.body ≡ body_for acts.now.give (take http.now.waiting http.now.core.chunks.block)) }
    ensures moved { IfOk result (λ r. r.moved ≡ moved_at_end acts.now.over http.now.core) }
{
    let body = body_of(alloc, http, acts, room)?;
    let moved = moved_of(alloc, http, acts.over)?;
    Ok(Answer { body, moved })
}

/// The next bytes of the body.
#[inline(always)]
pub(crate) fn body_up<L: CarriesWeb>(body: Body) -> Emit<L>
    ensures { result ≡ body_emit L.web body }
{
    let (from, to, load) = match body {
        Body::Range(from, to) => (from, to, None),
        Body::Block(text) => (0, 0, Some(L::carry_text(text))),
    };
    Emit {
        slot: ABOVE,
        tag: u8::from(StreamTag::Received),
        a: 0,
        b: 0,
        from,
        to,
        load,
    }
}

/// The text of a move.
fn moved_up<L: CarriesWeb>(text: Text) -> Emit<L>
    ensures { result ≡ moved_emit L.web text }
{
    Emit {
        slot: ABOVE,
        tag: MOVED,
        a: 0,
        b: 0,
        from: 0,
        to: 0,
        load: Some(L::carry_text(text)),
    }
}

/// Asks for what goes up: bytes of the body, and then a move.
pub(crate) fn ask_up<L: CarriesWeb>(answer: Answer, ups: &mut Few<Emit<L>>)
    requires blank { (ups.old.first ≡ None) × (ups.old.second ≡ None) }
    ensures { AnswersUp L.web answer.body answer.moved ups.new }
{
    let Answer { body, moved } = answer;
    match (body, moved) {
        (Some(body), Some(text)) => {
            ups.first.put(body_up(body));
            ups.second.put(moved_up(text));
        }
        (Some(body), None) => ups.first.put(body_up(body)),
        (None, Some(text)) => ups.first.put(moved_up(text)),
        (None, None) => {}
    }
}

/// The connection is asked for.
fn begin_down<L>() -> Emit<L>
    ensures { result ≡ begin_emit }
{
    Emit {
        slot: BELOW,
        tag: u8::from(StreamTag::Begin),
        a: 0,
        b: 0,
        from: 0,
        to: 16,
        load: None,
    }
}

/// The request's text is given.
fn send_down<L: CarriesWeb>(text: Text) -> Emit<L>
    ensures { result ≡ send_emit L.web text }
{
    Emit {
        slot: BELOW,
        tag: u8::from(StreamTag::Send),
        a: 0,
        b: 0,
        from: 0,
        to: 0,
        load: Some(L::carry_text(text)),
    }
}

/// Asks for the connection, and gives it the request's text.
pub(crate) fn ask_below<L: CarriesWeb>(text: Text, downs: &mut Few<Emit<L>>)
    requires blank { (downs.old.first ≡ None) × (downs.old.second ≡ None) }
    ensures { AsksBelow L.web text downs.new }
{
    downs.first.put(begin_down());
    downs.second.put(send_down(text));
}

/// Closes both ports at an end, the one above first.
pub(crate) fn ask_close<N, L>(over: Option<Cause>, fx: &mut Fx<N, L>)
    requires { fx.old.closes.items ≡ [] }
    ensures { fx.new ≡ record fx.old { closes = record { items = closes_for over } } }
{
    if let Some(cause) = over {
        fx.closes.push((ABOVE, cause));
        fx.closes.push((BELOW, cause));
    }
}
