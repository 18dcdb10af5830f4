// Chains: what an open has on a graph is a list of objects, the top one first, each plugged to the next, whatever else
// lives there, so that several opens may live at once. Of an open that fetches a file they are a Fetch and a Tftp
// (RFC 1350), of one that asks and is answered a Resolver (RFC 1035), a Dhcp (RFC 2131) or a Ping (RFC 792). Each call
// gives the outside one list, in an order that no kind of open changes (specs/Shapes.antt), and says of it what these
// objects do as a graph of their own, in the terms of nb_opens (specs/Calls.antt). All else on the graph stays as it
// was. Begin with `Chain`.
#![tactic(auto)]

mod arrival;
mod chain;
mod kind;
mod laws;
mod making;

pub use arrival::Arrival;
pub use chain::Chain;
pub use kind::ChainKind;
pub use laws::{calls_run_in_order, chains_are_open, other_chains_stay, waiting_ones_are_apart};
