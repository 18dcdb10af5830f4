// HTTP/1.1 messages as texts (RFC 9112): the request that is sent, and how a stream of bytes is read
// as one response: heads, how a body is framed, chunks, and the response with its body; no code. The
// words of the grammar are the kit's `httparse`. Read `ReadsSoFar` of specs/Responses.antt first,
// then `ResponseOf`, which says what the stream's end decides; the response as a function of the
// stream stands in nb_readings.
#![tactic(auto)]

mod laws;

pub use laws::{body_goes_on, decided_stays, each_is_read, one_response, requests_are_single};
