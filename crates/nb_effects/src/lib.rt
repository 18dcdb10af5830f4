// What an object of a graph does when it is entered, and what it asks for: up to two messages down, two up, an object
// made, ports closed. What comes of that in a call stands in specs/, with no graph and no code: the deeds of a call
// (Deeds.antt), what follows what is asked for (Follows.antt, by cases in proofs/Laws.antt), the traces of objects, the
// bytes on links. A call is `Went` (specs/Went.antt). The graph that runs it is nb_graph, above. Begin with `Node`, then
// `Fx`.
#![tactic(auto)]

mod asked;
mod drained;
mod effects;
mod message;
mod node;

pub use asked::Asked;
pub use drained::{closed_first_was_taken, drained_where_closed};
pub use effects::{Emit, Few, Fx, Make};
pub use message::{NOTHING, behind, bytes_of, drop_message, length_of, rest_of, send_part};
pub use node::{Node, Parts};
