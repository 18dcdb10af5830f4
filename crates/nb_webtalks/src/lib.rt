// The three objects of an open by HTTP on a graph, a Fetch, a fetch by HTTP (RFC 9112) and a connection (RFC 9293) on one
// another, keep the promise of their talk: what comes to them tells the network what the promise says, and ends them as it says.
// Laws alone: what each object does stands in nb_nodes, nb_webnodes and nb_conns, what a call is in nb_webchains, and the promise
// in nb_streams and nb_webs. Begin with specs/TalkStands.antt.
#![tactic(auto)]

mod laws;

pub use laws::{begins_come, closes_come, segments_come, three_as_they_were, times_come};
