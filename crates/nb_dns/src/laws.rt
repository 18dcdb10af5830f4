//! Laws of what a look-up promises of its calls, for a caller that keeps them: each is a function that does
//! nothing, whose contract is the law.

ghost use Rattle.std.specs.Prelude.{◌≡◌, ◌⊎◌, ◌↔◌, ◌∷◌, ◌++◌, [], ℕ, List, Some, None, true};
ghost use Rattle.nb_retry.specs.declared.retry.Due.TheVariants.{Again};
ghost use Rattle.nb_terms.specs.declared.acts.Acts.{Acts};
ghost use Rattle.nb_terms.specs.declared.cause.Cause.{Cause};
ghost use Rattle.nb_dnsmsg.specs.declared.answer.Answer.{Answer};
ghost use Rattle.nb_dns.specs.WrittenNames.{IsLookupName, is_lookup_name};
ghost use Rattle.nb_dns.specs.Lookups.{Lookup, query_to, address_given};
ghost use Rattle.nb_dns.specs.LookupCalls.{LookupCall, DnsDatagram, LookupEntry, lookup_entry, arrived, clocked, datagrams, lookup_ended, IsReplyTo, IsSilentCall, FirstReply};
ghost use Rattle.nb_dns.specs.LookupReplies.{lookup_reply_in, first_reply, address_found};
ghost use Rattle.nb_dns.specs.LookupPromises.{LookupMeets};
ghost use Rattle.nb_dns.specs.LookupEndings.{LookupEnding, PlanFires};

/// Each cause of an end stands in what arrived and when, and no other cause comes: `LookupEnding` has what
/// stands after each.
pub fn ends_for_a_cause()
    ensures { (l : Lookup) (start : ℕ) (h : List LookupEntry) (e : LookupEntry) (cause : Cause) → LookupMeets l start (h ++ e ∷ [])
        → e.acts.over ≡ Some cause → LookupEnding l start h e cause }
{}

/// A try is made only at a time, while no datagram has replied, and at one of the plan's times.
pub fn tries_in_silence()
    ensures silent { (l : Lookup) (start : ℕ) (h : List LookupEntry) (now n : ℕ) (acts : Acts) → LookupMeets l start (h ++ lookup_entry (clocked now) acts ∷ [])
        → acts.tried ≡ Some n → IsSilentCall l (datagrams h) }
    ensures in_time { (l : Lookup) (start : ℕ) (h : List LookupEntry) (now n : ℕ) (acts : Acts) → LookupMeets l start (h ++ lookup_entry (clocked now) acts ∷ [])
        → acts.tried ≡ Some n → PlanFires start (h ++ lookup_entry (clocked now) acts ∷ []) now (Again n) }
    ensures by_time { (l : Lookup) (start : ℕ) (h : List LookupEntry) (m : DnsDatagram) (now n : ℕ) (acts : Acts) → LookupMeets l start (h ++ lookup_entry (arrived m now) acts ∷ [])
        → acts.tried ≡ Some n → ⊥ }
{}

/// The first datagram that replies ends the look-up, so none is taken after it.
pub fn replies_end_it()
    ensures { (l : Lookup) (start : ℕ) (h : List LookupEntry) (a : Answer) → LookupMeets l start h → FirstReply l (datagrams h) a → lookup_ended h ≡ true }
{}

/// A call sends nothing, or the query alone.
pub fn sends_the_query_alone()
    ensures { (l : Lookup) (start : ℕ) (h : List LookupEntry) (call : LookupCall) (acts : Acts) → LookupMeets l start (h ++ lookup_entry call acts ∷ [])
        → (acts.sends.items ≡ []) ⊎ (acts.sends.items ≡ query_to l ∷ []) }
{}

/// The test for names that can be looked up passes exactly those (RFC 1035, section 2.3.4).
pub fn names_are_tested()
    ensures { (text : List ℕ) → (is_lookup_name text ≡ true) ↔ IsLookupName text }
{}

/// What replies is a function of what arrived: of a datagram its reply, and of many the first one, where one
/// replies (RFC 1035, section 7.3).
pub fn replies_are_read_by_the_grammar()
    ensures reply { (l : Lookup) (m : DnsDatagram) (a : Answer) → (lookup_reply_in l m ≡ Some a) ↔ IsReplyTo l m a }
    ensures first { (l : Lookup) (ms : List DnsDatagram) (a : Answer) → (first_reply l ms ≡ Some a) ↔ FirstReply l ms a }
    ensures silent { (l : Lookup) (ms : List DnsDatagram) → (first_reply l ms ≡ None) ↔ IsSilentCall l ms }
{}

/// What arrived has at most one first reply, and the address found is the one that this gives: none where it
/// has an error's response code or no address, or where no datagram replies (RFC 1035, section 7.3).
pub fn one_lookup_answer()
    ensures one { (l : Lookup) (ms : List DnsDatagram) (a b : Answer) → FirstReply l ms a → FirstReply l ms b → a ≡ b }
    ensures found { (l : Lookup) (ms : List DnsDatagram) (a : Answer) → FirstReply l ms a → address_found l ms ≡ address_given a }
    ensures none { (l : Lookup) (ms : List DnsDatagram) → IsSilentCall l ms → address_found l ms ≡ None }
{}
