// What an open on a TCP connection promises, whatever is said there: what it says by the stream that has come and by the
// tasks that were asked of it, what it sends, and how it ends, as equations over all that came to it. There is no code:
// each function here is a law of specs/. Begin with specs/Talking.antt, then specs/TalkPromises.antt.
#![tactic(auto)]

mod laws;

pub use laws::{all_is_said, talks_keep_to_what_came};
