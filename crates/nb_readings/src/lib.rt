// The response of a stream as a function of the stream and its end (RFC 9112), and how a response
// ends what asked for it; no code. What a stream is read as stands in nb_responses, as a relation:
// here is the one response that it relates to each stream. Begin with `response_read` of
// specs/Readings.antt, then specs/ReadingLaws.antt, whose equations leave one reading.
#![tactic(auto)]

mod laws;

pub use laws::{
    body_goes_on, decided_stays, ends_well_where_whole, one_reading, read_from_the_first,
};
