// A fetch by plain HTTP as an object of nb_graph, over the core `Http` of nb_http (RFC 9112): its user is plugged to
// slot 0, a connection lies below slot 1. It isn't a node by itself: a kind of node that fetches so calls it, and its
// loads carry a text (`CarriesWeb`). What it has done is said over its trace, in terms of the calls of its core
// (specs/WebTalks.antt). It follows no moves: they go up. Begin with `Web`, then `WebAsk`.
#![tactic(auto)]

mod asking;
mod stage;
mod starting;
mod web;
mod web_ask;
mod web_load;

pub use asking::MOVED;
pub use web::Web;
pub use web_ask::WebAsk;
pub use web_load::CarriesWeb;
