// In which order the records of the object graph stand among the others in a run's output, for opens of any kind and
// any number of them that live: definitions, and laws of what such an output says. No code that runs. Begin with
// specs/Holdings.antt, then specs/Outputs.antt; what follows from it stands in specs/Openings.antt,
// specs/Places.antt and specs/Whose.antt. An output without these records is in specs/Plain.antt.
#![tactic(auto)]

mod laws;

pub use laws::{
    commands_leave_none, ends_are_theirs, entries_are_theirs, events_are_theirs, graph_runs,
    lowest_are_theirs, none_is_left, numbers_rise, objects_are_made_for_opens, objects_are_theirs,
    one_state, opens_have_pieces, pieces_are_one, records_follow_entries, records_stand_within,
    two_pings_are_traced,
};
