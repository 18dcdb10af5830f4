//! Laws of what a ping promises of its calls, for a caller that keeps them: each is a function that does
//! nothing, whose contract is the law.

ghost use Rattle.std.specs.Prelude.{◌≡◌, ◌⊎◌, ◌∷◌, ◌++◌, [], ℕ, List, Some, true, false};
ghost use Rattle.nb_retry.specs.declared.retry.Due.TheVariants.{Again};
ghost use Rattle.nb_terms.specs.declared.acts.Acts.{Acts};
ghost use Rattle.nb_terms.specs.declared.cause.Cause.{Cause};
ghost use Rattle.nb_ping.specs.Pings.{Pinged, echo_request};
ghost use Rattle.nb_ping.specs.PingCalls.{PingCall, EchoReply, PingEntry, ping_entry, echoed, waited, echo_replies, ping_ended, is_answered};
ghost use Rattle.nb_ping.specs.PingPromises.{PingMeets};
ghost use Rattle.nb_ping.specs.PingEndings.{PingEnding, PingFires};

/// Each cause of an end stands in what came and when, and no other cause comes: `PingEnding` has what stands
/// after each.
pub fn ends_for_a_cause()
    ensures { (p : Pinged) (start : ℕ) (h : List PingEntry) (e : PingEntry) (cause : Cause) → PingMeets p start (h ++ e ∷ [])
        → e.acts.over ≡ Some cause → PingEnding p start h e cause }
{}

/// A try is made only at a time, while no reply has come, and at one of the plan's times.
pub fn tries_in_silence()
    ensures silent { (p : Pinged) (start : ℕ) (h : List PingEntry) (now n : ℕ) (acts : Acts) → PingMeets p start (h ++ ping_entry (waited now) acts ∷ [])
        → acts.tried ≡ Some n → is_answered p (echo_replies h) ≡ false }
    ensures in_time { (p : Pinged) (start : ℕ) (h : List PingEntry) (now n : ℕ) (acts : Acts) → PingMeets p start (h ++ ping_entry (waited now) acts ∷ [])
        → acts.tried ≡ Some n → PingFires start (h ++ ping_entry (waited now) acts ∷ []) now (Again n) }
    ensures by_time { (p : Pinged) (start : ℕ) (h : List PingEntry) (r : EchoReply) (now n : ℕ) (acts : Acts) → PingMeets p start (h ++ ping_entry (echoed r now) acts ∷ [])
        → acts.tried ≡ Some n → ⊥ }
{}

/// The first reply of the host with the identifier ends the ping, so none is taken after it.
pub fn replies_end_it()
    ensures { (p : Pinged) (start : ℕ) (h : List PingEntry) → PingMeets p start h → is_answered p (echo_replies h) ≡ true → ping_ended h ≡ true }
{}

/// A call sends nothing, or the request alone.
pub fn sends_the_request_alone()
    ensures { (p : Pinged) (start : ℕ) (h : List PingEntry) (call : PingCall) (acts : Acts) → PingMeets p start (h ++ ping_entry call acts ∷ [])
        → (acts.sends.items ≡ []) ⊎ (acts.sends.items ≡ echo_request p ∷ []) }
{}
