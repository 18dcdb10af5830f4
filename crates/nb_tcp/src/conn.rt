//! The connection.

ghost use Rattle.std.specs.Prelude.{◌≡◌, ℕ, ◌+◌, ◌<◌, ◌≤◌, ◌^◌, ◌↔◌, List, [], ◌∷◌, ◌++◌, length, IfOk, IfSome, IsNone, IsOk, OnOk, OnErr, IfErr, Ok, Err, MatchBool, true, false};
ghost use Rattle.std.specs.Option.{is_some};
ghost use Rattle.nb_reasm.specs.HeldWindows.{window};
ghost use Rattle.nb_streams.specs.Streams.{has_ended};
ghost use Rattle.nb_streams.specs.Flows.{conn_phase, held_after, segment_came, time_came, text_came};
ghost use Rattle.nb_tcp.specs.declared.link.Link.{Link};
ghost use Rattle.nb_tcp.specs.declared.conn.SendError.TheVariants as SendError;
ghost use Rattle.nb_tcp.specs.Arriving.{incoming};
ghost use Rattle.nb_tcp.specs.Replies.{only_ready};
ghost use Rattle.nb_tcp.specs.ConnHistory.{ConnEntry, conn_entry, calls_in, lends_out, comes_back, closes_from_above, tcp_calls, is_waiting_after, is_lent_after, has_ended_after};
ghost use Rattle.nb_tcp.specs.ConnPromises.{starting_acts, text_in};
ghost use Rattle.nb_tcp.specs.ConnStanding.{WindowStands, HasDelivered, has_window, KeepsWindow, IsLent, IsConnAsking, ConnStands};

use crate::link::Link;
use crate::receiving::passed_over;
use crate::variables::Variables;
use nb_reasm::Held;
use nb_retry::{Plan, Retry};
use nb_tcpseg::Segment;
use nb_terms::{Acts, NoMemory};
use nb_wire::Ip4;
use std::alloc::Global;

/// The places of the window: as many bytes as its field can say.
const CAPACITY: u32 = 65_535;

/// How far a connection is.
#[derive(Clone, Copy, Debug, PartialEq, Eq, Drop)]
pub(crate) enum ConnState {
    /// The SYN is out.
    SynSent,
    /// Both SYNs have come.
    Established(Variables),
    /// It has ended, and all of the peer's stream has come or not.
    Ended { at_end: bool },
}

/// One TCP connection, as the client that asked for it. Contracts see it by the calls that it stands for.
#[derive(Drop)]
pub struct Conn {
    pub(crate) link: Link,
    pub(crate) state: ConnState,
    /// The bytes to be sent that aren't acknowledged.
    pub(crate) unacked: Vec<u8>,
    /// How many bytes were given to be sent, in all.
    pub(crate) given: u32,
    /// What has come and wasn't delivered. None while it is lent.
    pub(crate) held: Option<Held>,
    pub(crate) retry: Retry,
}

/// Why what was given isn't sent.
#[derive(Clone, Copy, Debug, PartialEq, Eq, Drop)]
pub enum SendError {
    /// Memory ran out.
    NoMemory,
    /// All that was given would be more than 2^31 - 1 bytes.
    TooLong,
}

impl Conn {
    /// Asks the peer for a connection. The open's number isn't needed here; `isn` is the number of our SYN.
    pub fn start(
        alloc: Global,
        _number: u16,
        own_port: u16,
        peer: Ip4,
        peer_port: u16,
        isn: u32,
        now: u64,
        acts: &mut Acts,
    ) -> Result<Conn, NoMemory>
        // The SYN is sent, under a timer, and no call stands after it.
        ensures syn { OnOk result (acts.new ≡ starting_acts (record { own_port = own_port; peer = peer; peer_port = peer_port; isn = isn })) }
        ensures stands { IfOk result (λ c. ConnStands (record { own_port = own_port; peer = peer; peer_port = peer_port; isn = isn }) now c []) }
        ensures delivered { IfOk result (λ c. HasDelivered c) }
        ensures window { IfOk result (λ c. has_window c ≡ true) }
        ensures refused { OnErr result (acts.new ≡ only_ready false) }
    {
        acts.clear();
        let held = Held::new(alloc, CAPACITY)?;
        let link = Link {
            own_port,
            peer,
            peer_port,
            isn,
        };
        link.send(&link.syn(), acts);
        acts.tried = Some(1);
        Ok(Conn::asking(alloc, link, held, now))
    }

    /// A segment of the connection's port, from its peer's, which an IPv4 packet can carry; `rec` is its
    /// record's number. What waits was lent and given back before. Where `ready` is asked, it is to be lent
    /// now.
    #[inline(always)]
    pub fn segment(&mut self, rec: u32, segment: &Segment<'_>, now: u64, acts: &mut Acts)
        requires delivered { HasDelivered self.old }
        requires body { length segment.now.body.now < 2 ^ 16 }
        // With this call and what it asks, the connection stands for one call more. `ConnKeeps` has what it
        // promises of all of them.
        ensures stands { (l : Link) (start : ℕ) (h : List ConnEntry) → ConnStands l start self.old h → has_ended_after h ≡ false
            → ConnStands l start self.new (h ++ conn_entry (calls_in (segment_came (record { rec = rec; segment = incoming segment.now }) now)) acts.new ∷ []) }
        // After its end it ignores every call.
        ensures ended { (l : Link) (start : ℕ) (h : List ConnEntry) → ConnStands l start self.old h → has_ended_after h ≡ true → ConnStands l start self.new h × (acts.new ≡ only_ready false) }
        // Exactly where it doesn't ask `ready` all was delivered, and the next segment may come. Else what
        // waits can be lent, and once that came back the next one may come.
        ensures waits { (l : Link) (start : ℕ) (h : List ConnEntry) → ConnStands l start self.old h → MatchBool acts.new.ready (HasDelivered self.new → ⊥) (HasDelivered self.new) }
        ensures window { has_window self.new ≡ true }
    {
        acts.clear();
        self.come(rec, segment, now, acts);
    }

    /// Takes a segment whose bytes come next, has nothing else that is new, and finds nothing held: its body goes
    /// up at once, out of its message. So it does what `segment`, `lend` and `regain` would do one after another.
    /// Else it does nothing, and says so.
    #[inline(always)]
    pub fn hand_on(&mut self, _rec: u32, segment: &Segment<'_>, now: u64, acts: &mut Acts) -> bool
        requires delivered { HasDelivered self.old }
        requires body { length segment.now.body.now < 2 ^ 16 }
        // With this call and what it asks, the connection stands for three calls more: the segment, the delivery of
        // its body, and the window's return.
        ensures stands { MatchBool result ((l : Link) (start : ℕ) (h : List ConnEntry) → ConnStands l start self.old h
            → ConnStands l start self.new ((h ++ conn_entry (calls_in (segment_came (record { rec = _rec; segment = incoming segment.now }) now)) acts.new ∷ [])
            ++ conn_entry (lends_out segment.now.body.now) (only_ready false) ∷ conn_entry comes_back (only_ready false) ∷ [])) (self.new ≡ self.old) }
        ensures taken { result ≡ true → (0 < length segment.now.body.now) × (acts.new.over ≡ None) × (acts.new.ready ≡ true) }
        // It hadn't ended before, and the peer's stream hadn't and hasn't.
        ensures going { result ≡ true → (l : Link) (start : ℕ) (h : List ConnEntry) → ConnStands l start self.old h
            → (has_ended_after h ≡ false) × (has_ended (held_after l.isn (tcp_calls h)) ≡ false)
            × (has_ended (held_after l.isn (tcp_calls (h ++ conn_entry (calls_in (segment_came (record { rec = _rec; segment = incoming segment.now }) now)) acts.new ∷ []))) ≡ false) }
        ensures delivered { HasDelivered self.new }
        ensures window { has_window self.new ≡ true }
    {
        self.pass_on(segment, now, acts)
    }

    /// It is this time, in milliseconds since the start of the run.
    pub fn time(&mut self, now: u64, acts: &mut Acts)
        ensures stands { (l : Link) (start : ℕ) (h : List ConnEntry) → ConnStands l start self.old h → has_ended_after h ≡ false
            → ConnStands l start self.new (h ++ conn_entry (calls_in (time_came now)) acts.new ∷ []) }
        ensures ended { (l : Link) (start : ℕ) (h : List ConnEntry) → ConnStands l start self.old h → has_ended_after h ≡ true → ConnStands l start self.new h × (acts.new ≡ only_ready (is_waiting_after h)) }
        ensures held { KeepsWindow self.old self.new }
    {
        acts.clear();
        self.tick(now, acts);
    }

    /// Sends these bytes after those that were given before. An error changes nothing. What has ended takes
    /// them and sends nothing.
    pub fn send(&mut self, bytes: &[u8], now: u64, acts: &mut Acts) -> Result<(), SendError>
        ensures stands { OnOk result ((l : Link) (start : ℕ) (h : List ConnEntry) → ConnStands l start self.old h → has_ended_after h ≡ false
            → ConnStands l start self.new (h ++ conn_entry (calls_in (text_came bytes.now now)) acts.new ∷ [])) }
        ensures ended { (l : Link) (start : ℕ) (h : List ConnEntry) → ConnStands l start self.old h → has_ended_after h ≡ true → IsOk result × ConnStands l start self.new h × (acts.new ≡ only_ready (is_waiting_after h)) }
        ensures err { OnErr result ((l : Link) (start : ℕ) (h : List ConnEntry) → ConnStands l start self.old h → ConnStands l start self.new h × (acts.new ≡ only_ready (is_waiting_after h))) }
        ensures too_long { (l : Link) (start : ℕ) (h : List ConnEntry) → ConnStands l start self.old h → has_ended_after h ≡ false
            → 2 ^ 31 ≤ length (text_in (conn_phase l.isn (tcp_calls h))) + length bytes.now → result ≡ Err SendError.TooLong }
        ensures fits { result ≡ Err SendError.TooLong → (l : Link) (start : ℕ) (h : List ConnEntry) → ConnStands l start self.old h
            → 2 ^ 31 ≤ length (text_in (conn_phase l.isn (tcp_calls h))) + length bytes.now }
        ensures held { KeepsWindow self.old self.new }
    {
        acts.clear();
        self.give(bytes, now, acts)
    }

    /// Closes the connection from above: a FIN where the peer's has come, else a reset. It has ended then.
    pub fn shut(&mut self, acts: &mut Acts)
        ensures stands { (l : Link) (start : ℕ) (h : List ConnEntry) → ConnStands l start self.old h → has_ended_after h ≡ false
            → ConnStands l start self.new (h ++ conn_entry closes_from_above acts.new ∷ []) }
        ensures ended { (l : Link) (start : ℕ) (h : List ConnEntry) → ConnStands l start self.old h → has_ended_after h ≡ true → ConnStands l start self.new h × (acts.new ≡ only_ready (is_waiting_after h)) }
        ensures held { KeepsWindow self.old self.new }
    {
        acts.clear();
        self.close(acts);
    }

    /// Lends what waits to be delivered, also after the end: of its front the bytes below the place of the
    /// last `advance` go up. None while it is lent.
    pub fn lend(&mut self) -> Option<Held>
        ensures stands { (l : Link) (start : ℕ) (h : List ConnEntry) → ConnStands l start self.old h → IfSome result (λ w. IsLent l start h (window w) self.new) }
        ensures none { (l : Link) (start : ℕ) (h : List ConnEntry) → ConnStands l start self.old h → is_lent_after h ≡ true → IsNone result × ConnStands l start self.new h }
        ensures lent { (l : Link) (start : ℕ) (h : List ConnEntry) → ConnStands l start self.old h → IsNone result → is_lent_after h ≡ true }
        ensures exact { is_some result ≡ has_window self.old }
        ensures gone { has_window self.new ≡ false }
    {
        self.held.take()
    }

    /// Takes back what was lent, also after the end. All of its front counts as delivered.
    #[inline(always)]
    pub fn regain(&mut self, held: Held)
        ensures stands { (l : Link) (start : ℕ) (h : List ConnEntry) → ConnStands l start self.old h → is_lent_after h ≡ true → WindowStands (window held) (held_after l.isn (tcp_calls h))
            → ConnStands l start self.new (h ++ conn_entry comes_back (only_ready false) ∷ []) }
        ensures delivered { HasDelivered self.new }
        ensures window { has_window self.new ≡ true }
    {
        self.held = Some(passed_over(held));
    }

    /// The next segment may come: nothing is lent, and all that waited was delivered.
    pub fn has_delivered(&self) -> bool
        ensures { MatchBool result (HasDelivered self.now) (HasDelivered self.now → ⊥) }
    {
        match &self.held {
            Some(held) => held.base() == held.next(),
            None => false,
        }
    }

    /// The peer's FIN has come, and all before it.
    pub fn at_end(&self) -> bool
        ensures { (l : Link) (start : ℕ) (h : List ConnEntry) → ConnStands l start self.now h → result ≡ has_ended (held_after l.isn (tcp_calls h)) }
    {
        self.has_come_all()
    }

    /// A connection whose SYN was sent just now.
    fn asking(alloc: Global, link: Link, held: Held, now: u64) -> Conn
        ensures { IsConnAsking link held now result }
    {
        let mut retry = Retry::stopped();
        retry.start(now, Plan::Common);
        Conn {
            link,
            state: ConnState::SynSent,
            unacked: Vec::new(alloc),
            given: 0,
            held: Some(held),
            retry,
        }
    }
}
