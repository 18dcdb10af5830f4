//! Laws of streams, each a function that does nothing.

ghost use Rattle.std.specs.Prelude.{◌≡◌, ◌<◌, ◌-◌, ◌^◌, ℕ, List, [], ◌++◌, length, true, false, Bool, Some, None, slice_get, ◌∷◌};
ghost use Rattle.nb_streams.specs.Streams.{HeldBytes, front, next, has_ended, byte_at, counting, IsPrefixOf};
ghost use Rattle.nb_streams.specs.Flows.{TcpCall, segment_came, text_came, Flow, flowing, conn_phase, held_after, asking};
ghost use Rattle.std.specs.List.{AllByRecursion};
ghost use Rattle.nb_retry.specs.declared.plan.Plan.{Plan};
ghost use Rattle.nb_streams.specs.Segments.{Arrival};
ghost use Rattle.nb_streams.specs.Sending.{MaySend, calls_for, is_reset, text_calls_for, closing_segment, tried_again};
ghost use Rattle.nb_terms.specs.declared.cause.Cause.{Cause};
ghost use Rattle.nb_streams.specs.Endings.{ConnEnds, segment_end};
ghost use Rattle.nb_streams.specs.Trying.{is_answer, TryTimer, timer_since, timer_by};
ghost use Rattle.nb_streams.specs.Carrying.{AreFrom};

/// What comes later only extends what has come of the stream.
pub fn front_grows()
    ensures { (isn : ℕ) (calls more : List TcpCall) → IsPrefixOf (front (held_after isn calls)) (front (held_after isn (calls ++ more))) }
{}

/// Whatever pieces of a stream come, in any order and number, what has come is a prefix of the stream.
pub fn front_is_the_streams()
    ensures { (xs : List ℕ) (isn : ℕ) (calls : List TcpCall) → length xs < 2 ^ 31 - 1 → AreFrom xs isn (asking []) calls
        → IsPrefixOf (front (held_after isn calls)) xs }
{}

/// Once it has ended, all of it has come.
pub fn all_has_come_at_the_end()
    ensures { (xs : List ℕ) (isn : ℕ) (calls : List TcpCall) → length xs < 2 ^ 31 - 1 → AreFrom xs isn (asking []) calls
        → has_ended (held_after isn calls) ≡ true → front (held_after isn calls) ≡ xs }
{}

/// The front ends at the least place that has no byte: each place below has the byte that the front has there.
pub fn front_ends_at_the_least_place()
    ensures next { (h : HeldBytes) → byte_at (next h) (counting h) ≡ None }
    ensures below { (h : HeldBytes) (place : ℕ) → place < next h → byte_at place (counting h) ≡ slice_get (front h) place }
{}

/// What a segment calls for, the connection may send.
pub fn answers_may_be_sent()
    ensures { (isn : ℕ) (calls : List TcpCall) (m : Arrival) (now : ℕ)
        → AllByRecursion (λ s. MaySend isn (calls ++ segment_came m now ∷ []) s.0) (calls_for isn (conn_phase isn calls) m.segment) }
{}

/// An answer that doesn't end an established connection starts its timer anew.
pub fn answers_start_the_timer_anew()
    ensures { (isn : ℕ) (f : Flow) (m : Arrival) (now : ℕ) (w : TryTimer) → is_answer isn (flowing f) m.segment ≡ true → is_reset f m.segment ≡ false
        → (plan : Plan) × (timer_by isn (flowing f) (segment_came m now) w ≡ timer_since plan now) }
{}

/// So it may what a close sends, what more text calls for, and a try again.
pub fn others_may_be_sent()
    ensures closing { (isn : ℕ) (calls : List TcpCall) → MaySend isn calls (closing_segment isn (conn_phase isn calls)) }
    ensures text { (isn : ℕ) (calls : List TcpCall) (bytes : List ℕ) (now : ℕ)
        → AllByRecursion (λ s. MaySend isn (calls ++ text_came bytes now ∷ []) s.0) (text_calls_for (conn_phase isn calls) bytes) }
    ensures again { (isn : ℕ) (calls : List TcpCall) → MaySend isn calls (tried_again isn (conn_phase isn calls)) }
{}

/// How a segment ends a connection stands in the segment.
pub fn segment_ends_stand()
    ensures { (isn start : ℕ) (calls : List TcpCall) (m : Arrival) (now : ℕ) (cause : Cause) → segment_end isn (conn_phase isn calls) m ≡ Some cause
        → ConnEnds isn start calls (segment_came m now) cause }
{}
