//! The rules of the points-to analysis over nodes, with the methods that may run, the targets of calls and the fields that methods may
//! write: which fact follows from which; what is answered, and why there is no answer. The crate has definitions, in specs/, and the types
//! that they speak of; it runs nothing.
//! The solver, the ground, the stages and the theorems stand on `Fact`, `Instance`, `IsSolution` and `IsSolveEnd`.
//! Begin with specs/Facts.antt and Rules.antt; then Solutions.antt and Refusals.antt.
#![tactic(auto)]

pub mod laws;
mod place;
mod running_method;
mod solve_fault;

pub use place::{Place, PlaceNo};
pub use running_method::RunningMethod;
pub use solve_fault::{SolveFailure, SolveFault};
