//! The path edges of a site, by trying all instances of the rules until nothing is new (`path_edges`). It is slow, and its contract is just that its list is
//! the least set by the rules. Tests run it, and compare the faster program with it. Begin with src/closing.rt and specs/Tried.antt.
#![tactic(auto)]

mod closing;
mod nodes;
mod room;
mod taking;
mod trying;

pub use closing::path_edges;
