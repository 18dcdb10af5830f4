//! Laws of outputs in which the graph is traced, each a function that does nothing.

ghost use Rattle.std.specs.Prelude.{◌≡◌, List, [], length, ℕ, false};
ghost use Rattle.nb_defs.specs.Records.{Out};
ghost use Rattle.nb_terms.specs.declared.cause.Cause.{Cause};
ghost use Rattle.nb_ledger.specs.GraphRun.{GraphState};
ghost use Rattle.nb_traced.specs.Entries.{came_to, entries, IsOutside};
ghost use Rattle.nb_traced.specs.Example.{came_to_both, came_to_two, one_ends, two_pings};
ghost use Rattle.nb_traced.specs.Holdings.{Holdings, GraphObject};
ghost use Rattle.nb_traced.specs.Openings.{CommandsLeaveNone, EndsAreTheirs, HasPieces, LeavesTheirs, NumbersRise, OpensHavePieces};
ghost use Rattle.nb_traced.specs.Outputs.{Arrived, Traced};
ghost use Rattle.nb_traced.specs.Places.{AdvancesStand, FramesStand, LowestAreOwn, LowestAreTheirs, OthersStandOutside, TriesStandWithin};
ghost use Rattle.nb_traced.specs.Runs.{HasLedTo};
ghost use Rattle.nb_traced.specs.Whose.{EventsAreTheirs, MadesAreTheirs, OpensTakeAll, PutsFollow};

/// The records of the graph are a legal run, which leads from where no object was made to the state of the holdings.
pub fn graph_runs()
    ensures { (outs : List Out) (h : Holdings) (came : List Arrived) → Traced outs h came → HasLedTo outs h.state }
{}

/// They lead to no other state.
pub fn one_state()
    ensures { (outs : List Out) (s t : GraphState) → HasLedTo outs s → HasLedTo outs t → s ≡ t }
{}

/// Each OPEN has its objects: made for it, after the last COMMAND, each plugged to the next, and alive.
pub fn opens_have_pieces()
    ensures { (outs : List Out) (h : Holdings) (came : List Arrived) → Traced outs h came → OpensHavePieces outs }
{}

/// Each OPEN has a number above those of all opens before it.
pub fn numbers_rise()
    ensures { (outs : List Out) (h : Holdings) (came : List Arrived) → Traced outs h came → NumbersRise outs }
{}

/// Which objects those are, the records leave open nowhere.
pub fn pieces_are_one()
    ensures { (before : List Out) (kind : ℕ) (some others : List GraphObject) → HasPieces before kind some
        → HasPieces before kind others → some ≡ others }
{}

/// Each ENDED is the only one of its open, and has the cause of the first close of a port of the open's objects, which
/// were freed.
pub fn ends_are_theirs()
    ensures { (outs : List Out) (h : Holdings) (came : List Arrived) → Traced outs h came → EndsAreTheirs outs }
{}

/// Where a command begins, each object that lives is one of an open that has begun and hasn't ended.
pub fn commands_leave_none()
    ensures { (outs : List Out) (h : Holdings) (came : List Arrived) → Traced outs h came → CommandsLeaveNone outs }
{}

/// So is each object that lives after the output, or it was made since the last COMMAND.
pub fn objects_are_theirs()
    ensures { (outs : List Out) (h : Holdings) (came : List Arrived) → Traced outs h came → LeavesTheirs outs }
{}

/// Where no open lives and nothing waits, no object lives.
pub fn none_is_left()
    ensures { (outs : List Out) (h : Holdings) (came : List Arrived) → Traced outs h came → h.living ≡ [] → h.waits ≡ []
        → (x : ℕ) → h.state.live x ≡ false }
{}

/// What the records say is an open's lowest object is the last of its objects, and no two opens have the same.
pub fn lowest_are_theirs()
    ensures theirs { (outs : List Out) (h : Holdings) (came : List Arrived) → Traced outs h came → LowestAreTheirs outs }
    ensures own { (outs : List Out) (h : Holdings) (came : List Arrived) → Traced outs h came → LowestAreOwn outs }
{}

/// The entries of an open's lowest object from outside are what came to the open, in order, each in its step; none runs
/// after them.
pub fn entries_are_theirs()
    ensures entered { (outs : List Out) (h : Holdings) (came : List Arrived) → Traced outs h came
        → (k : ℕ) → entries k outs ≡ came_to k came }
    ensures rests { (outs : List Out) (h : Holdings) (came : List Arrived) → Traced outs h came → IsOutside outs }
{}

/// Each FRAME stands within an entry of the lowest object of an open, or directly after a STEP where no entry runs; each TRY
/// and each ADVANCE within an entry of the lowest object of its open; and no other record stands within an entry.
pub fn records_stand_within()
    ensures frames { (outs : List Out) (h : Holdings) (came : List Arrived) → Traced outs h came → FramesStand outs }
    ensures tries { (outs : List Out) (h : Holdings) (came : List Arrived) → Traced outs h came → TriesStandWithin outs }
    ensures advances { (outs : List Out) (h : Holdings) (came : List Arrived) → Traced outs h came → AdvancesStand outs }
    ensures others { (outs : List Out) (h : Holdings) (came : List Arrived) → Traced outs h came → OthersStandOutside outs }
{}

/// Each object is made directly before an OPEN, for it, or to wait beside a look-up; and each OPEN takes all that was made
/// since the last COMMAND, but for that one.
pub fn objects_are_made_for_opens()
    ensures makes { (outs : List Out) (h : Holdings) (came : List Arrived) → Traced outs h came → MadesAreTheirs outs }
    ensures takes { (outs : List Out) (h : Holdings) (came : List Arrived) → Traced outs h came → OpensTakeAll outs }
{}

/// Each other event is of an object of an open that has begun and hasn't ended, or of one that was made since the last
/// COMMAND.
pub fn events_are_theirs()
    ensures { (outs : List Out) (h : Holdings) (came : List Arrived) → Traced outs h came → EventsAreTheirs outs }
{}

/// What an open puts stands directly after an event by which its lowest object is entered.
pub fn records_follow_entries()
    ensures { (outs : List Out) (h : Holdings) (came : List Arrived) → Traced outs h came → PutsFollow outs }
{}

/// Two pings that live at once are traced, and still where the second ends while the first goes on.
pub fn two_pings_are_traced()
    ensures both { (h : Holdings) × (length h.living ≡ 2) × Traced two_pings h came_to_two }
    ensures one { (cause : Cause) → (h : Holdings) × (length h.living ≡ 1) × Traced (one_ends cause) h came_to_both }
{}
