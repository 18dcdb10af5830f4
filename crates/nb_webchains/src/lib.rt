// Opens by HTTP on a graph: a Fetch, a fetch by HTTP (RFC 9112) plugged below it, and a connection (RFC 9293) below that,
// whatever else lives there. Each call gives the outside one list, and says of it what these three do as a graph of
// their own (specs/WebCalls.antt). A Fetch that waits is a chain of nb_chains. Begin with `WebChain`.
#![tactic(auto)]

mod laws;
mod making;
mod plugging;
mod web_chain;

pub use laws::{other_objects_stay, ready_ones_are_open, what_waits_is_apart};
pub use plugging::{make_object, plug_next};
pub use web_chain::WebChain;
