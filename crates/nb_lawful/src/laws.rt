//! Laws from courses to the history of their records, each a function that does nothing.

ghost use Rattle.std.specs.Prelude.{◌≡◌, ◌⊎◌, ℕ, List, []};
ghost use Rattle.nb_defs.specs.Records.{In, Out};
ghost use Rattle.nb_laws.specs.Events.{Event};
ghost use Rattle.nb_laws.specs.HandOff.{HandsDiskOff, HandsOff};
ghost use Rattle.nb_laws.specs.Histories.{IsHistory};
ghost use Rattle.nb_laws.specs.Lawful.{IsLawful};
ghost use Rattle.nb_machine.specs.Courses.{waiting, handed_off, Progress, stands, Course};
ghost use Rattle.nb_machine.specs.Scripts.{Waiting};
ghost use Rattle.nb_machine.specs.States.{State};
ghost use Rattle.nb_openlaws.specs.Standings.{AgreesStanding};
ghost use Rattle.nb_lawful.specs.CourseEvents.{HasEvents};
ghost use Rattle.nb_lawful.specs.Lawful.{KeepsLaws};
ghost use Rattle.nb_lawful.specs.ScriptAgreement.{ScriptsAgree};
ghost use Rattle.nb_lawful.specs.StateByLists.{IsStateBy};

/// The records of a course have one history. It keeps the laws, however many opens live at once: `KeepsLaws`
/// says what holds of each of its events. The opens and the scripts agree with it where the course stands; and
/// where all was handed off, that is what commands have brought, or the first block of a disk.
pub fn courses_are_lawful()
    ensures has_one { (ins : List In) (outs : List Out) (p : Progress) → Course ins outs p
        → (es : List Event) × IsHistory ins outs es
        × ((other : List Event) → IsHistory ins outs other → other ≡ es) }
    ensures keeps { (ins : List In) (outs : List Out) (p : Progress) (es : List Event)
        → Course ins outs p → IsHistory ins outs es → KeepsLaws es }
    ensures agrees { (ins : List In) (outs : List Out) (p : Progress) (es : List Event) → Course ins outs p
        → IsHistory ins outs es → AgreesStanding es p.standing × ScriptsAgree es outs p.standing }
    ensures hands_off { (ins : List In) (outs : List Out) (n : ℕ) (s : State) (es : List Event)
        → Course ins outs (stands n (handed_off s)) → IsHistory ins outs es
        → HandsOff es outs [] ⊎ HandsDiskOff es outs [] }
{}

/// The records of a course are those of a list of events. It says, of where the course stands, the time, how many opens
/// were made, and of each that lives all that has come to it: what that open asks for isn't among it.
pub fn courses_have_events()
    ensures { (ins : List In) (outs : List Out) (p : Progress) → Course ins outs p → HasEvents ins outs p.standing }
{}

/// Where a command waits, the history of the records says the time, the device with its neighbours, the
/// settings, and of each open that lives what its OPEN says and all that has come to it.
pub fn state_by_the_lists()
    ensures { (ins : List In) (outs : List Out) (n : ℕ) (s : State) (w : Waiting) (es : List Event)
        → Course ins outs (stands n (waiting s w)) → IsHistory ins outs es → IsStateBy es s }
{}

/// Each history of a course's records is lawful, word for word as nb_laws says it of one open: while each RESULT
/// and each OPEN has its reason in the open of its own command, which has ended, none outlives its command.
pub fn courses_keep_todays_laws()
    ensures { (ins : List In) (outs : List Out) (p : Progress) (es : List Event)
        → Course ins outs p → IsHistory ins outs es → IsLawful es }
{}
