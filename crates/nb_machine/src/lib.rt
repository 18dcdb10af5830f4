// The machine that a run of netboot is: a state, the opens that live, a network that acts on them, and scripts within
// one another whose commands wait for what they bring; definitions, and the struct that they and the engine share. Begin
// with specs/Courses.antt, then specs/Kinds.antt for what a kind of open is.
#![tactic(auto)]

mod identity;

pub use identity::Identity;
