//! The units of a call's arguments that a stub names: the receiver is the first unit, and a long or a double takes two.
//! The calls of the points-to solver ask `read_descriptor` once for each described method, and `unit_of` for each argument of it.
//! Begin with specs/Units.antt, and with src/descriptors.rt.
#![tactic(auto)]

mod descriptors;

pub use descriptors::{read_descriptor, unit_of};
