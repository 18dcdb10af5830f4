//! Laws of messages, for what stands on them: each is a function that does nothing, whose contract is the
//! law.

ghost use Rattle.std.specs.Prelude.{◌≡◌, ◌≤◌, ◌<◌, ◌+◌, ◌-◌, ◌*◌, ◌∷◌, ◌↔◌, ℕ, List, length, drop, Some};
ghost use Rattle.std.specs.List.{AllByRecursion};
ghost use Rattle.nb_wire.specs.declared.address.Ip4.{Ip4};
ghost use Rattle.nb_dnsmsg.specs.declared.answer.Answer.{Answer};
ghost use Rattle.nb_dnsmsg.specs.Names.{IsLabel, name_text, IsDnsName, IsNameAt};
ghost use Rattle.nb_dnsmsg.specs.Records.{ResourceRecord};
ghost use Rattle.nb_dnsmsg.specs.Messages.{DnsMessage, IsDnsMessage, IsAnswer};
ghost use Rattle.nb_dnsmsg.specs.Reading.{dns_answer};
ghost use Rattle.nb_dnsmsg.specs.Sections.{StandsWithAddress};

/// At a place stands at most one name, and a message has at most one reading and one answer.
pub fn one_reading()
    ensures names { (message : List ℕ) (place : ℕ) (a b : List ℕ) (end other : ℕ) → IsNameAt message place a end
        → IsNameAt message place b other → (a ≡ b) × (end ≡ other) }
    ensures messages { (bytes : List ℕ) (m n : DnsMessage) → IsDnsMessage bytes m → IsDnsMessage bytes n → m ≡ n }
    ensures answers { (bytes : List ℕ) (id : ℕ) (name : List ℕ) (a b : Answer) → IsAnswer bytes id name a
        → IsAnswer bytes id name b → a ≡ b }
{}

/// A pointer to its own place or further on is no name. A name ends within the message, after its place, and
/// its text is that of labels.
pub fn pointers_go_backwards()
    ensures forwards { (message : List ℕ) (place high low : ℕ) (after name : List ℕ) (end : ℕ)
        → drop place message ≡ high ∷ low ∷ after → 192 ≤ high → place ≤ (high - 192) * 256 + low
        → IsNameAt message place name end → ⊥ }
    ensures ends { (message : List ℕ) (place : ℕ) (name : List ℕ) (end : ℕ) → IsNameAt message place name end
        → (place < end) × (end ≤ length message) }
    ensures text { (message : List ℕ) (place : ℕ) (name : List ℕ) (end : ℕ) → IsNameAt message place name end
        → IsDnsName name }
    ensures alone { (name : List ℕ) → IsDnsName name → IsNameAt name 0 name (length name) }
{}

/// The address of an answer is that of one of the records of its answer section: a record of type A and
/// class IN, with four bytes of data that are the address.
pub fn address_stands_in_the_message()
    ensures { (bytes : List ℕ) (id : ℕ) (name : List ℕ) (answer : Answer) (address : Ip4) → IsAnswer bytes id name answer
        → answer.address ≡ Some address → StandsWithAddress bytes address }
{}

/// The answer that bytes are is a function of them: it is read where they are an answer, as that one, and
/// nowhere else (RFC 1035, section 4.1).
pub fn answers_are_read_by_the_grammar()
    ensures { (bytes : List ℕ) (id : ℕ) (name : List ℕ) (answer : Answer)
        → (dns_answer bytes id name ≡ Some answer) ↔ IsAnswer bytes id name answer }
{}
