//! Worked transfers of facts: what nodes, exceptions, events and calls do to the facts of a site in a small setting, computed from the
//! definitions. The crate has laws alone; it runs nothing. They show that the definitions say what they should.
//! Begin with specs/Small.antt and src/operations.rt.
#![tactic(auto)]

pub mod calls;
pub mod exceptions;
pub mod operations;
pub mod stages;
