//! Laws of what a connection promises of its calls, for a caller that keeps them: each is a function
//! that does nothing, whose contract is the law.

ghost use Rattle.std.specs.Prelude.{◌≡◌, ◌<◌, ◌-◌, ◌^◌, ◌∷◌, ◌++◌, [], ℕ, List, length, Some, true, false};
ghost use Rattle.nb_terms.specs.declared.acts.Acts.{Acts};
ghost use Rattle.nb_terms.specs.declared.cause.Cause.{Cause};
ghost use Rattle.nb_streams.specs.Segments.{Arrival};
ghost use Rattle.nb_streams.specs.Streams.{front, has_ended, IsPrefixOf};
ghost use Rattle.nb_streams.specs.Flows.{TcpCall, asking, segment_came, held_after};
ghost use Rattle.nb_streams.specs.Endings.{ConnEnds};
ghost use Rattle.nb_streams.specs.Carrying.{AreFrom};
ghost use Rattle.nb_tcp.specs.declared.link.Link.{Link};
ghost use Rattle.nb_tcp.specs.declared.conn.Conn.{Conn};
ghost use Rattle.nb_tcp.specs.ConnHistory.{ConnCall, ConnEntry, conn_entry, calls_in, lends_out, comes_back, tcp_calls_of, tcp_calls, delivered, is_waiting_after, is_lent_after};
ghost use Rattle.nb_tcp.specs.ConnPromises.{ConnKeeps};
ghost use Rattle.nb_tcp.specs.ConnStanding.{ConnStands, HasDelivered};
ghost use Rattle.nb_tcp.specs.MayBeSent.{MayBeSent};
ghost use Rattle.std.specs.List.{AllByRecursion};

/// What was delivered is a prefix of what has come. So whatever pieces of a stream come, in any order, as often
/// as may be, a prefix of the stream was delivered; and all of it, once it has ended and nothing waits.
pub fn delivers_a_prefix()
    ensures front { (l : Link) (start : ℕ) (h : List ConnEntry) → ConnKeeps l start h → IsPrefixOf (delivered h) (front (held_after l.isn (tcp_calls h))) }
    ensures stream { (l : Link) (start : ℕ) (h : List ConnEntry) (xs : List ℕ) → ConnKeeps l start h → length xs < 2 ^ 31 - 1
        → AreFrom xs l.isn (asking []) (tcp_calls h) → IsPrefixOf (delivered h) xs }
    ensures whole { (l : Link) (start : ℕ) (c : Conn) (h : List ConnEntry) (xs : List ℕ) → ConnStands l start c h → is_waiting_after h ≡ false → length xs < 2 ^ 31 - 1
        → AreFrom xs l.isn (asking []) (tcp_calls h) → has_ended (held_after l.isn (tcp_calls h)) ≡ true → delivered h ≡ xs }
{}

/// Where nothing waits, all that has come was delivered; where nothing is lent either, the next segment may come.
pub fn nothing_is_kept_back()
    ensures all { (l : Link) (start : ℕ) (c : Conn) (h : List ConnEntry) → ConnStands l start c h → is_waiting_after h ≡ false → delivered h ≡ front (held_after l.isn (tcp_calls h)) }
    ensures next { (l : Link) (start : ℕ) (c : Conn) (h : List ConnEntry) → ConnStands l start c h → is_lent_after h ≡ false → is_waiting_after h ≡ false → HasDelivered c }
{}

/// Each cause of an end stands in what came and when, and no other cause comes: `ConnEnds` of nb_streams has
/// what stands after each.
pub fn ends_with_its_cause()
    ensures { (l : Link) (start : ℕ) (h : List ConnEntry) (c : TcpCall) (acts : Acts) (cause : Cause) → ConnKeeps l start (h ++ conn_entry (calls_in c) acts ∷ [])
        → acts.over ≡ Some cause → ConnEnds l.isn start (tcp_calls h) c cause }
{}

/// Only a segment changes what has come, so what is lent stands for it until the next one.
pub fn only_segments_bring_bytes()
    ensures { (l : Link) (h : List ConnEntry) (c : ConnCall) (acts : Acts) → ((m : Arrival) (now : ℕ) → c ≡ calls_in (segment_came m now) → ⊥)
        → held_after l.isn (tcp_calls (h ++ conn_entry c acts ∷ [])) ≡ held_after l.isn (tcp_calls h) }
{}

/// All that a call sends, the connection may send, by a relation that says so without its decisions: the SYN,
/// acknowledgements, given text at its place, probes where nothing waits, resets and a FIN where they may be.
pub fn sends_what_may_be_sent()
    ensures { (l : Link) (start : ℕ) (h : List ConnEntry) (e : ConnEntry) → ConnKeeps l start (h ++ e ∷ []) → (e.call ≡ comes_back → ⊥) → ((bytes : List ℕ) → e.call ≡ lends_out bytes → ⊥)
        → AllByRecursion (MayBeSent l (tcp_calls h ++ tcp_calls_of e.call)) e.acts.sends.items }
{}
