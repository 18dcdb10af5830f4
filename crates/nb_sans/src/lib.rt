// An open that reads a drive by iSCSI, in definitions over the whole list of what came to it: what it says
// on its connection and how it ends, the capacity, and the answers of its tasks; no code. Begin with
// specs/Sessions.antt; its promise is `PutsSo` of nb_streams for the talker there.
#![tactic(auto)]

mod laws;

pub use laws::{
    each_is_answered_at_once, honest_answers_are_the_disks, only_ends_show_records,
    only_the_login_speaks_first, says_all_of_a_session, sessions_end_for_a_cause,
    sessions_only_add, what_comes_is_the_next_call, what_was_decided_stays,
};
