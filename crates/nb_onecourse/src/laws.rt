//! Laws of the machine of many opens, each a function that does nothing.

ghost use Rattle.std.specs.Prelude.{◌≡◌, List};
ghost use Rattle.nb_defs.specs.Records.{In, Out};
ghost use Rattle.nb_stack.specs.Client.{Client};
ghost use Rattle.nb_machine.specs.Lives.{Live, OpenInput};
ghost use Rattle.nb_machine.specs.Closings.{Shuts};
ghost use Rattle.nb_machine.specs.Courses.{Course, Progress};
ghost use Rattle.nb_onecourse.specs.Answers.{IsUnended, StandsUnended, HasOneAnswer};
ghost use Rattle.nb_onecourse.specs.Depths.{StandsNested};
ghost use Rattle.nb_onecourse.specs.Rests.{HasComeToRest, SameCourse};

/// No open that lives where a course stands has put its end.
pub fn opens_that_live_have_not_ended()
    ensures { (ins : List In) (outs : List Out) (p : Progress) → Course ins outs p → StandsUnended p.standing }
{}

/// An open none of whose exchanges has ended it has one answer to what comes to it over a client.
pub fn opens_have_one_answer()
    ensures { (l : Live) (came : OpenInput) (link : Client) → IsUnended l → HasOneAnswer l came link }
{}

/// On the same records used two courses that have come to rest have the same records written, and stand at the same place.
pub fn records_have_one_course()
    ensures { (ins : List In) (outs outs' : List Out) (p p' : Progress) → Course ins outs p → Course ins outs' p'
        → HasComeToRest p.standing → HasComeToRest p'.standing → SameCourse outs outs' p p' }
{}

/// What closes all that lives where a course stands is one list of records.
pub fn courses_have_one_closing()
    ensures { (ins : List In) (outs : List Out) (p : Progress) (put put' : List Out) → Course ins outs p
        → Shuts p.standing put → Shuts p.standing put' → put ≡ put' }
{}

/// Each script's depth is how many there are from it outwards, and at most eight are within one another.
pub fn scripts_have_their_depths()
    ensures { (ins : List In) (outs : List Out) (p : Progress) → Course ins outs p → StandsNested p.standing }
{}
