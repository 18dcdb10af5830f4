//! Laws of what a transfer promises of its calls, for a caller that keeps them: each is a function
//! that does nothing, whose contract is the law.

ghost use Rattle.std.specs.Prelude.{◌≡◌, ◌≤◌, ◌<◌, ◌^◌, ◌∷◌, ◌++◌, [], ℕ, Bool, List, length, Some, None, slice_range, ◌*◌, take, true, false};
ghost use Rattle.nb_terms.specs.declared.acts.Acts.{Acts};
ghost use Rattle.nb_terms.specs.declared.cause.Cause.{Cause};
ghost use Rattle.nb_wire.specs.declared.address.Ip4.{Ip4};
ghost use Rattle.std.specs.List.{AllByRecursion};
ghost use Rattle.nb_tftp.specs.Asks.{Begun, begun_asking, ack_of};
ghost use Rattle.nb_tftp.specs.Asked.{IsAskedWith};
ghost use Rattle.nb_tftp.specs.Received.{Received, size_with};
ghost use Rattle.nb_tftp.specs.Blocks.{count_with, file_with, whole_with};
ghost use Rattle.nb_tftp.specs.Cuts.{cuts, CarriesFileWith};
ghost use Rattle.nb_tftp.specs.History.{Call, Entry, entry, came, ticked, given, got, last_advance};
ghost use Rattle.nb_tftp.specs.Limits.{StopsAtEnd, HaveBytes};
ghost use Rattle.nb_tftp.specs.Sentences.{MeetsWith};
ghost use Rattle.nb_tftp.specs.Endings.{EndingWith};
ghost use Rattle.nb_tftp.specs.Plain.{IsPlain, IsRangeOf};

/// A call sends at most one message, by UDP from the transfer's port to its server, and holds no bytes
/// back. The request of each path that a transfer takes, with or without options, fits into a message.
pub fn asks_plainly()
    ensures plain { (options : Bool) (b : Begun) (start : ℕ) (h : List Entry) (e : Entry) → length b.request ≤ 1480
        → MeetsWith options b start (h ++ e ∷ []) → IsPlain b e.acts }
    ensures request { (options : Bool) (server : Ip4) (port own_port : ℕ) (path : List ℕ) → length path ≤ 1024
        → length (begun_asking options server port own_port path).request ≤ 1480 }
{}

/// The range that a call gives up lies within the body of its datagram, and goes up after all that
/// was delivered before. A time gives up nothing.
pub fn gives_within_the_body()
    ensures within { (options : Bool) (b : Begun) (start : ℕ) (h : List Entry) (m : Received) (now : ℕ) (acts : Acts) (from to : ℕ)
        → MeetsWith options b start (h ++ entry (came m now) acts ∷ []) → acts.give ≡ Some (from, to) → IsRangeOf m.body from to }
    ensures range { (h : List Entry) (m : Received) (now : ℕ) (acts : Acts) (from to : ℕ) → acts.give ≡ Some (from, to)
        → given (h ++ entry (came m now) acts ∷ []) ≡ given h ++ slice_range m.body from to }
    ensures none { (h : List Entry) (e : Entry) → e.acts.give ≡ None → given (h ++ e ∷ []) ≡ given h }
    ensures time { (options : Bool) (b : Begun) (start : ℕ) (h : List Entry) (now : ℕ) (acts : Acts)
        → MeetsWith options b start (h ++ entry (ticked now) acts ∷ []) → acts.give ≡ None }
{}

/// A transfer takes at most 65,535 blocks, since it ends at block 65,535, and no block among datagrams of bytes
/// has a higher number.
pub fn at_most_65535_blocks()
    ensures blocks { (options : Bool) (b : Begun) (start : ℕ) (h : List Entry) → MeetsWith options b start h → StopsAtEnd h
        → count_with options (got h) ≤ 65535 }
    ensures numbers { (options : Bool) (received : List Received) → HaveBytes received → count_with options received ≤ 65535 }
{}

/// So what it takes has at most 65,535 times the agreed size, which is at most 1,432: 93,846,120 bytes.
pub fn at_most_the_agreed_size()
    ensures size { (options : Bool) (b : Begun) (start : ℕ) (h : List Entry) → MeetsWith options b start h → StopsAtEnd h
        → length (file_with options (got h)) ≤ size_with options (got h) * 65535 }
    ensures bytes { (options : Bool) (received : List Received) → HaveBytes received
        → length (file_with options received) ≤ size_with options received * 65535 }
    ensures most { (options : Bool) (b : Begun) (start : ℕ) (h : List Entry) → MeetsWith options b start h → StopsAtEnd h
        → length (file_with options (got h)) ≤ 93846120 }
{}

/// Each cause of an end stands in what was received and when, and no other cause comes: `EndingWith` has
/// what stands after each.
pub fn ends_as_told()
    ensures { (options : Bool) (b : Begun) (start : ℕ) (h : List Entry) (e : Entry) (cause : Cause) → MeetsWith options b start (h ++ e ∷ [])
        → e.acts.over ≡ Some cause → EndingWith options start h e cause }
{}

/// From a server that sends the blocks of one file in the size agreed comes a prefix of it, of that size for each
/// block. Where a short block has come, it is the whole file; where as many have come as the file has, the last
/// is short.
pub fn honest_server_gives_its_file()
    ensures front { (options : Bool) (bytes : List ℕ) (received : List Received) → CarriesFileWith options bytes received
        → file_with options received ≡ take (size_with options received * count_with options received) bytes }
    ensures whole { (options : Bool) (bytes : List ℕ) (received : List Received) → CarriesFileWith options bytes received
        → whole_with options received ≡ true → file_with options received ≡ bytes }
    ensures few { (options : Bool) (bytes : List ℕ) (received : List Received) → CarriesFileWith options bytes received
        → count_with options received ≤ cuts (size_with options received) bytes }
    ensures all { (options : Bool) (bytes : List ℕ) (received : List Received) → CarriesFileWith options bytes received
        → 0 < size_with options received → count_with options received ≡ cuts (size_with options received) bytes
        → whole_with options received ≡ true }
{}

/// All that the promises ask of a call may be sent, by a relation that says so without the transfer's decisions:
/// the request before there is an agreement, the last block's acknowledgement, an error to a stranger's port or to
/// the first OACK. An acknowledgement of an earlier block may not.
pub fn asks_what_may_be_sent()
    ensures asked { (options : Bool) (b : Begun) (start : ℕ) (h : List Entry) (call : Call) (acts : Acts)
        → MeetsWith options b start (h ++ entry call acts ∷ []) → last_advance h ≡ count_with options (got h)
        → AllByRecursion (IsAskedWith options b (got (h ++ entry call acts ∷ []))) acts.sends.items }
    ensures old { (options : Bool) (b : Begun) (received : List Received) (port n : ℕ) → n < count_with options received
        → count_with options received < 2 ^ 16 → IsAskedWith options b received (ack_of b port n) → ⊥ }
{}
