// What the two lists of records of a course say, for any number of opens that live: laws from the machine of
// nb_machine to the history of its records; no code. Of the opens nb_openlaws says it; here are the scripts, the
// commands and what each waits for, the device, the hand-off, and the laws that a whole history keeps. Begin with
// specs/Lawful.antt, then specs/Results.antt and specs/ScriptAgreement.antt.
#![tactic(auto)]

mod laws;

pub use laws::{
    courses_are_lawful, courses_have_events, courses_keep_todays_laws, state_by_the_lists,
};
