//! Laws of what a core promises of its calls, for a caller that keeps them: each is a function that does
//! nothing, whose contract is the law.

ghost use Rattle.std.specs.Prelude.{◌≡◌, ◌∷◌, ◌++◌, [], ℕ, List, Some};
ghost use Rattle.nb_terms.specs.declared.cause.Cause.{Cause};
ghost use Rattle.nb_dhcp.specs.declared.asker.Asker.{Asker};
ghost use Rattle.nb_dhcp.specs.History.{Handed, LeaseEntry, all_handed, acknowledgement_in};
ghost use Rattle.nb_dhcp.specs.declared.offer.Offer.{Offer};
ghost use Rattle.nb_dhcp.specs.Promises.{LeasePromises};
ghost use Rattle.nb_dhcp.specs.Leases.{IsLeaseOf, IsFirstOffer};
ghost use Rattle.nb_dhcp.specs.LeaseEndings.{LeaseEnding, LeaseSending};

/// The acknowledgement that a core keeps came from the server of the first valid offer, and after that offer; both
/// are messages to this client. No other offer counts, and no other server.
pub fn keeps_the_first_offers_lease()
    ensures { (a : Asker) (ms : List Handed) (bytes : List ℕ) → acknowledgement_in a ms ≡ Some bytes → IsLeaseOf a ms bytes }
{}

/// Each cause of an end stands in what came and when, and no other cause comes: `LeaseEnding` has what
/// stands after each.
pub fn ends_for_a_cause()
    ensures { (a : Asker) (start : ℕ) (h : List LeaseEntry) (e : LeaseEntry) (later : List LeaseEntry)
        (cause : Cause) → LeasePromises a start (h ++ e ∷ later)
        → e.acts.over ≡ Some cause → LeaseEnding a start h e cause }
{}

/// Each message of a history is the DISCOVER, or the REQUEST of the first valid offer; and that offer stays
/// the first, so one offer alone is requested.
pub fn requests_the_first_offer()
    ensures sends { (a : Asker) (start : ℕ) (h : List LeaseEntry) (e : LeaseEntry) (later : List LeaseEntry)
        → LeasePromises a start (h ++ e ∷ later) → LeaseSending a (all_handed (h ++ e ∷ [])) e.acts }
    ensures alone { (a : Asker) (ms more : List Handed) (offer other : Offer)
        → IsFirstOffer a ms offer → IsFirstOffer a (ms ++ more) other → offer ≡ other }
{}
