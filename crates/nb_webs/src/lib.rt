// An open that fetches by HTTP, in definitions over the whole list of what came to it: what it says on
// its connection and how it ends, the response that has come, an honest server's entry, and what three
// cores on one another promise together; no code. Begin with specs/Webs.antt; its promise is
// `PutsSo` of nb_streams for the talker there.
#![tactic(auto)]

mod laws;

pub use laws::{
    cores_keep_their_promise, honest_responses_are_their_entries, puts_by_the_response,
    says_its_request_once, whole_responses_end_well,
};
