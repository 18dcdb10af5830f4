//! Laws of the opens of courses, each a function that does nothing.

ghost use Rattle.std.specs.Prelude.{ℕ, List};
ghost use Rattle.nb_defs.specs.Records.{In, Out};
ghost use Rattle.nb_laws.specs.Events.{Event};
ghost use Rattle.nb_machine.specs.Network.{Network};
ghost use Rattle.nb_machine.specs.States.{State};
ghost use Rattle.nb_machine.specs.Takings.{Over};
ghost use Rattle.nb_openlaws.specs.OpenReasons.{OpensAgree, GivesReasons};

/// A record is used while opens live, however many: each ENDED, FRAME, TRY and ADVANCE that is put then has its reason in
/// the events so far, where these agree with the state.
pub fn records_of_opens_have_reasons()
    ensures { (es : List Event) (s s2 : State) (n : ℕ) (r : In) (put : List Out) (over : List Over)
        → OpensAgree es s → Network s n r put s2 over → GivesReasons es r put }
{}
