// The three objects of a drive on a graph, a logical unit, a session with an iSCSI target (RFC 7143) and a connection (RFC 9293) on
// one another, keep the promise of their talk: what comes to them tells the network what the promise says, hands up what the target
// has answered, and ends them as it says. Laws alone: what each object does stands in nb_nodes, nb_drivenodes and nb_conns, what a
// call is in nb_drivechains, and the promise in nb_streams and nb_sans. Begin with specs/SessionStands.antt.
#![tactic(auto)]

mod laws;

pub use laws::{
    begins_come, closes_come, closes_stand_in_order, drives_as_they_were, drives_stand_in_order,
    segments_come, tasks_come, times_come,
};
