//! Path edges by the numbers of their ends, each once: `EdgeNumbers`. Tabulation keeps here which edges it has found, in the order in which it found
//! them, and goes over them in that order.
//! From which other edges an edge follows is told by their numbers (`Because`). Lists of that, and of edges that may be none, take little memory (`ReasonList`,
//! `OptionalEdges`).
//! Begin with src/numbered.rt and specs/Premises.antt.
#![tactic(auto)]

mod because;
mod lists;
mod numbered;

pub use because::{Because, EdgeNo, because_of};
pub use lists::{OptionalEdges, ReasonList};
pub use numbered::{EdgeNumbers, NumberedEdge};
