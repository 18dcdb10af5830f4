// Counted objects joined by interfaces: each object has a node of its own, up to four ports and a
// count of its holds, links and running entries, and is freed when the count falls to 0. Messages
// go up and down by links, and a port may close in the middle of a delivery; specs/GraphRun.antt of
// nb_ledger says in which order events then stand. What a node does and asks for is nb_effects,
// below, and so is what a call comes to, `Went`: what was asked for is used up, the top first.
// Begin with `Node`, then `Graph`.
#![tactic(auto)]

mod asking;
mod closing;
mod downward;
mod ending;
mod graph;
mod inner;
mod leaving;
mod loads;
mod making;
mod rising;
mod spare;
mod timing;
mod upward;

pub use graph::{Graph, NotOpen, Reach, entries_are_the_nodes_own, one_after_another};
pub use nb_effects::{
    Asked, Emit, Few, Fx, Make, Node, Parts, closed_first_was_taken, drained_where_closed,
};
pub use nb_ledger::{GraphEvent, Msg, ObjId, Outside, Port, Way};
