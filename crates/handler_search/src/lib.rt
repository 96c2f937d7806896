//! Which handler takes an exception (JVMS 2.10): one of all exceptions, or one of a class that the class of the exception fits.
//! What nodes raise lands at `first_taking`; the calls of the points-to solver ask `takes` at each catch clause.
//! Begin with `Takes` and `IsFirstTaking` in machine_nodes/specs/NodeSteps.antt, and with src/taking.rt.
#![tactic(auto)]

mod taking;

pub use taking::{first_taking, takes};
