// A TCP connection as functions and relations over the whole list of what came to it (RFC 9293):
// the bytes of the peer's stream, what may be sent and is, when it is tried again, and how it ends.
// A map of single bytes stands for what is held, lists stand for time. There is no code: contracts
// of the connection cite specs/, and each function here is a law of them. What an open on a connection
// promises, by what it says and how it ends, is nb_talks'. Begin with specs/Streams.antt.
#![tactic(auto)]

mod laws;

pub use laws::{
    all_has_come_at_the_end, answers_may_be_sent, answers_start_the_timer_anew,
    front_ends_at_the_least_place, front_grows, front_is_the_streams, others_may_be_sent,
    segment_ends_stand,
};
