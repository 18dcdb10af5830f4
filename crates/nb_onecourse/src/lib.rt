// The records of an input have one course: what comes to an open that lives has one answer, whatever its kind, and so two
// runs of the machine on the same records write the same. Laws, and no code. Begin with specs/Rests.antt.
#![tactic(auto)]

mod laws;

pub use laws::{
    courses_have_one_closing, opens_have_one_answer, opens_that_live_have_not_ended,
    records_have_one_course, scripts_have_their_depths,
};
