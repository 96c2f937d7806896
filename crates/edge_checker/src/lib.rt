//! Whether listed path edges of a site at a stage meet the conditions that make them all that there are, and the first that they do not meet
//! (`edge_failure`). It trusts no analysis: it tries each rule on the listed edges, and looks up what follows. Begin with specs/Conditions.antt and
//! src/conditions.rt; src/laws.rt says what is true of edges that meet the conditions.
#![tactic(auto)]

mod checking;
mod compare;
mod conditions;
mod exits;
mod following;
pub mod laws;
mod lesser;
mod nodes;
mod numbered_edge;
mod rejected;
mod search;

pub use conditions::edge_failure;
pub use numbered_edge::NumberedEdge;
pub use rejected::{EdgeCondition, Rejected};
