//! What a call of a drive's objects asks for, as the effects of an entry.

ghost use Rattle.std.specs.Prelude.{◌≡◌, ◌+◌, ◌++◌, [], length, min, None, IfOk};
ghost use Rattle.nb_conns.specs.ConnEffects.{closes_for};
ghost use Rattle.nb_drivenodes.specs.DriveEffects.{conn_asked_emit, text_emit, passed_emit, opened_emit, pdu_emit, stream_end_emit, AsksConn, OnlyFirst};

use crate::{CarriesText, DriveTag};
use nb_conns::StreamTag;
use nb_graph::{Emit, Few, Fx, Msg};
use nb_terms::{Cause, NoMemory};
use nb_wire::Text;
use std::alloc::Global;

/// The slot that faces the user above.
pub(crate) const ABOVE: u8 = 0;

/// The slot that faces what lies below.
pub(crate) const BELOW: u8 = 1;

/// The bytes of a message that asks for a connection.
const CONN_LEN: u32 = 16;

/// How many bytes of a message are taken where all are: at most 4,294,967,295 at once.
pub(crate) fn all_of(msg: &Msg<'_>) -> u32
    ensures { result ≡ min (length msg.now.first.now + length msg.now.second.now) 4294967295 }
{
    (msg.first.len() + msg.second.len()).min(u32::MAX as usize) as u32
}

/// The connection is asked for: the first bytes of the message say which.
fn conn_asked<L>() -> Emit<L>
    ensures { result ≡ conn_asked_emit }
{
    Emit {
        slot: BELOW,
        tag: u8::from(StreamTag::Begin),
        a: 0,
        b: 0,
        from: 0,
        to: CONN_LEN,
        load: None,
    }
}

/// A text is sent.
fn text_sent<L: CarriesText>(text: Text) -> Emit<L>
    ensures { result ≡ text_emit L.texts text }
{
    Emit {
        slot: BELOW,
        tag: u8::from(StreamTag::Send),
        a: 0,
        b: 0,
        from: 0,
        to: 0,
        load: Some(L::load_of(text)),
    }
}

/// Asks for the connection, and gives it the first text.
pub(crate) fn ask_conn<L: CarriesText>(text: Text, downs: &mut Few<Emit<L>>)
    requires blank { (downs.old.first ≡ None) × (downs.old.second ≡ None) }
    ensures { AsksConn L.texts text downs.new }
{
    downs.first.put(conn_asked());
    downs.second.put(text_sent(text));
}

/// Sends a text.
pub(crate) fn send<L: CarriesText>(text: Text, downs: &mut Few<Emit<L>>)
    requires blank { (downs.old.first ≡ None) × (downs.old.second ≡ None) }
    ensures { OnlyFirst (text_emit L.texts text) downs.new }
{
    downs.first.put(text_sent(text));
}

/// Sends the bytes of the message, of which there are so many.
pub(crate) fn pass_down<L: CarriesText>(len: u32, downs: &mut Few<Emit<L>>)
    requires blank { (downs.old.first ≡ None) × (downs.old.second ≡ None) }
    ensures { OnlyFirst (passed_emit len) downs.new }
{
    downs.first.put(Emit {
        slot: BELOW,
        tag: u8::from(StreamTag::Send),
        a: 0,
        b: 0,
        from: 0,
        to: len,
        load: None,
    });
}

/// The session is open.
pub(crate) fn tell_open<L: CarriesText>(
    note: Text,
    exp_stat_sn: u32,
    chap: u8,
    ups: &mut Few<Emit<L>>,
)
    requires blank { (ups.old.first ≡ None) × (ups.old.second ≡ None) }
    ensures { OnlyFirst (opened_emit L.texts note exp_stat_sn chap) ups.new }
{
    ups.first.put(Emit {
        slot: ABOVE,
        tag: u8::from(DriveTag::Opened),
        a: exp_stat_sn,
        b: u32::from(chap),
        from: 0,
        to: 0,
        load: Some(L::load_of(note)),
    });
}

/// A PDU goes up.
pub(crate) fn hand_up<L: CarriesText>(pdu: Text, ups: &mut Few<Emit<L>>)
    requires blank { (ups.old.first ≡ None) × (ups.old.second ≡ None) }
    ensures { OnlyFirst (pdu_emit L.texts pdu) ups.new }
{
    ups.first.put(Emit {
        slot: ABOVE,
        tag: u8::from(DriveTag::Pdu),
        a: 0,
        b: 0,
        from: 0,
        to: 0,
        load: Some(L::load_of(pdu)),
    });
}

/// No PDU comes any more.
pub(crate) fn tell_end<L: CarriesText>(ups: &mut Few<Emit<L>>)
    requires blank { (ups.old.first ≡ None) × (ups.old.second ≡ None) }
    ensures { OnlyFirst stream_end_emit ups.new }
{
    ups.first.put(Emit {
        slot: ABOVE,
        tag: u8::from(StreamTag::End),
        a: 0,
        b: 0,
        from: 0,
        to: 0,
        load: None,
    });
}

/// Closes both ports at an end, the one above first.
pub(crate) fn ask_close<N, L>(over: Option<Cause>, fx: &mut Fx<N, L>)
    requires { fx.old.closes.items ≡ [] }
    ensures { fx.new ≡ record fx.old { closes = record { items = closes_for over } } }
{
    if let Some(cause) = over {
        fx.closes.push((ABOVE, cause));
        fx.closes.push((BELOW, cause));
    }
}

/// The bytes of a message in one piece.
pub(crate) fn joined(alloc: Global, msg: &Msg<'_>) -> Result<Vec<u8>, NoMemory>
    ensures { IfOk result (λ v. v.items ≡ msg.now.first.now ++ msg.now.second.now) }
{
    let mut bytes = Vec::from_slice(alloc, msg.first)?;
    bytes.extend_from_slice(msg.second)?;
    Ok(bytes)
}
