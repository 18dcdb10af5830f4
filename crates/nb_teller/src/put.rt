ghost use Rattle.std.specs.Prelude.{◌≡◌, ◌≤◌, ℕ, List, [], ◌∷◌, ◌++◌, length, MatchBool, IfSome};
ghost use Rattle.nb_defs.specs.Records.{IsFrameRecord, out_texts, sent, step, ended, result as result_record};
ghost use Rattle.nb_record.specs.Logged.{Puts};
ghost use Rattle.nb_ledger.specs.Flat.{Notice};
ghost use Rattle.nb_stack.specs.Acks.{LeavesIn};
ghost use Rattle.nb_stack.specs.Client.{Client};
ghost use Rattle.nb_teller.specs.declared.speaker.Speaker.{Speaker as TheSpeaker};
ghost use Rattle.nb_teller.specs.declared.speaker.Carrier.TheVariants.{Udp, Tcp};
ghost use Rattle.nb_teller.specs.Spelling.{IsSpelled};
ghost use Rattle.nb_machine.specs.Sendings.{try_records, send_records, has_route};
ghost use Rattle.nb_machine.specs.CommandRecords.{reply_records};
ghost use Rattle.nb_teller.specs.Put.{IsFrameOrNothing, LeavesByRoute};
ghost use Rattle.nb_teller.specs.Tellings.{told_records};
ghost use Rattle.nb_teller.specs.Speakers.{carrier_number, datagram_of, least_body, CanCarry};

use crate::desk::Room;
use crate::speaker::{Carrier, Speaker};
use crate::spelled::Spelled;
use nb_nodes::MAX_BODY;
use nb_record::{Cause, Log, OutRec};
use nb_stack::{Envelope, Fate, Stack};

/// The bytes of a segment's header without options (RFC 9293, section 3.1).
const SEGMENT_HEAD: usize = 20;

/// Puts that the step of this record begins.
#[inline(always)]
pub fn put_step(number: u32, log: &mut Log)
    ensures { Puts log.old log.new (out_texts (step number ∷ [])) }
{
    log.put(&OutRec::Step(number));
}

/// Puts the result of a command.
pub fn put_result(cause: Cause, log: &mut Log)
    ensures { Puts log.old log.new (out_texts (result_record cause ∷ [])) }
{
    log.put(&OutRec::Result(cause));
}

/// Puts that an open has ended.
pub fn put_over(number: u16, cause: Cause, log: &mut Log)
    ensures { Puts log.old log.new (out_texts (ended number cause ∷ [])) }
{
    log.put(&OutRec::Over { number, cause });
}

/// Puts a reply to a frame, if there is one.
pub fn put_reply(reply: &[u8], log: &mut Log)
    requires { IsFrameOrNothing reply.now }
    ensures { Puts log.old log.new (out_texts (reply_records reply.now)) }
{
    if !reply.is_empty() {
        log.put(&OutRec::Frame(reply));
    }
}

/// The envelope of a datagram to this port of the server.
#[inline(always)]
fn envelope(who: &Speaker, port: u16) -> Envelope
    ensures { result ≡ record { proto = carrier_number who.now.carrier; to = who.now.server; to_port = port; own_port = who.now.own_port } }
{
    Envelope {
        proto: who.carrier.number(),
        to: who.server,
        to_port: port,
        own_port: who.own_port,
    }
}

/// How much of a message's body has to lie in its first part: a segment's header without options (RFC 9293).
#[inline(always)]
fn head_len(who: &Speaker) -> usize
    ensures { result ≡ least_body who.now.carrier }
{
    match who.carrier {
        Carrier::Udp => 0,
        Carrier::Icmp => 0,
        Carrier::Tcp => SEGMENT_HEAD,
    }
}

/// Whether a message of this speaker may have this body.
#[inline(always)]
pub(crate) fn can_carry(who: &Speaker, body: &[u8]) -> bool
    ensures { MatchBool result (CanCarry who.now body.now) (CanCarry who.now body.now → ⊥) }
{
    head_len(who) <= body.len() && body.len() <= MAX_BODY
}

/// Puts a message's frame, or the ARP request for its next hop, after its try. Returns whether it was put: nothing is
/// where it finds no route.
#[inline(always)]
pub(crate) fn put_datagram(
    net: &Stack,
    who: &Speaker,
    tried: Option<u8>,
    port: u16,
    body: &[u8],
    room: &mut Room,
    log: &mut Log,
) -> bool
    requires can { CanCarry who.now body.now }
    ensures put { result ≡ has_route net.now (datagram_of who.now port body.now) }
    ensures records { Puts log.old log.new (out_texts (send_records net.now who.now.number tried (datagram_of who.now port body.now))) }
{
    put_ack(net, who, tried, port, body, log) || put_any(net, who, tried, port, body, room, log)
}

/// Puts a message that has the length of an acknowledgement, if its next hop is known. Returns whether it was put.
#[inline(always)]
fn put_ack(
    net: &Stack,
    who: &Speaker,
    tried: Option<u8>,
    port: u16,
    body: &[u8],
    log: &mut Log,
) -> bool
    ensures { MatchBool result (LeavesByRoute net.now who.now tried port body.now log.old log.new) (log.new ≡ log.old) }
{
    match who.carrier {
        Carrier::Udp => match short_datagram(net, who, port, body) {
            Some(frame) => {
                put_frame(who.number, tried, &frame, log);
                true
            }
            None => false,
        },
        Carrier::Tcp => match short_segment(net, who, port, body) {
            Some(frame) => {
                put_frame(who.number, tried, &frame, log);
                true
            }
            None => false,
        },
        Carrier::Icmp => false,
    }
}

/// The frame of a datagram of four bytes, if its next hop is known.
#[inline(always)]
fn short_datagram(net: &Stack, who: &Speaker, port: u16, body: &[u8]) -> Option<[u8; 46]>
    requires { who.now.carrier ≡ Udp }
    ensures { IfSome result (LeavesIn net.now (datagram_of who.now port body.now)) }
{
    let body = body.as_array::<4>()?;
    net.short_datagram(&envelope(who, port), *body)
}

/// The frame of a segment that is a header alone, if its next hop is known.
#[inline(always)]
fn short_segment(net: &Stack, who: &Speaker, port: u16, body: &[u8]) -> Option<[u8; 54]>
    requires { who.now.carrier ≡ Tcp }
    ensures { IfSome result (LeavesIn net.now (datagram_of who.now port body.now)) }
{
    let header = body.as_array::<20>()?;
    net.short_segment(&envelope(who, port), *header)
}

/// Puts a frame after its try.
#[inline(always)]
fn put_frame(number: u16, tried: Option<u8>, frame: &[u8], log: &mut Log)
    requires { IsFrameRecord frame.now }
    ensures { Puts log.old log.new (out_texts (try_records number tried ++ (sent frame.now ∷ []))) }
{
    match tried {
        Some(n) => log.put_tried(number, n, frame),
        None => log.put(&OutRec::Frame(frame)),
    }
}

/// Puts a message of any length, or the ARP request for its next hop, as `put_datagram` does.
#[inline(never)]
fn put_any(
    net: &Stack,
    who: &Speaker,
    tried: Option<u8>,
    port: u16,
    body: &[u8],
    room: &mut Room,
    log: &mut Log,
) -> bool
    requires can { CanCarry who.now body.now }
    ensures put { result ≡ has_route net.now (datagram_of who.now port body.now) }
    ensures records { Puts log.old log.new (out_texts (send_records net.now who.now.number tried (datagram_of who.now port body.now))) }
{
    let mut out = room.out();
    let (first, second) = body.split_at(head_len(who));
    if let Fate::NoRoute = net.send_parts(&envelope(who, port), first, second, &mut out) {
        return false;
    }
    put_frame(who.number, tried, out.written(), log);
    true
}

/// Puts what the graph told of an open.
#[inline(always)]
pub fn put_told(told: &Spelled, log: &mut Log)
    ensures text { Puts log.old log.new told.now.text }
    ensures told { (net : Client) (who : TheSpeaker) (ns : List Notice) → IsSpelled net who told.now ns
        → Puts log.old log.new (out_texts (told_records net who ns)) }
{
    log.append(told.text());
}
