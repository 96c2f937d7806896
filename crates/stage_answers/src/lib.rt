//! The answers about a program that the transfer of facts asks for are one, by the same facts: so a site has one set of path edges at a stage,
//! whoever gives the answers; and so has a list of the methods that may run. The crate has laws of the definitions; it runs nothing.
//! Begin with src/laws.rt.
#![tactic(auto)]

mod laws;

pub use laws::{answers_are_one, listed_methods_suffice, path_edges_are_one};
