// What the two lists of records of a course say of its opens, for any number that live: what has come to each and what
// it has tried, and why each ENDED, FRAME, TRY and ADVANCE stands. Laws from the machine of nb_machine to the events of
// its records; no code. What they say of scripts and commands, and that a whole history keeps the laws, is in
// nb_lawful. Begin with specs/Standings.antt and specs/Sessions.antt, then specs/OpenEndings.antt and
// specs/OpenReasons.antt.
#![tactic(auto)]

mod laws;

pub use laws::records_of_opens_have_reasons;
