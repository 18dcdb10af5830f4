// The core of one HTTP/1.1 response (RFC 9112): it gathers heads, passes over those with a status of
// 100 to 199, follows how the body is framed, and hands the body on as it comes, a plain one as ranges
// of what it was given. It knows no time and sends nothing; moves are counted above it. What a stream
// is read as stands in nb_responses. Begin with `Http`.
#![tactic(auto)]

mod causes;
mod head_step;
mod http;
mod laws;
mod request;
mod state;
mod steps;

pub use http::Http;
pub use laws::{cutting_changes_nothing, streams_are_read_as_responses};
