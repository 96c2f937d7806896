//! The verdict of a site by the stages after the first: `later_verdict`, by the path edges of each stage in turn; why a site is unproved:
//! `error_trace`; and the path edges by which a stage proves one safe: `safe_edges`. The report and the certificate take these for sites that the first stage
//! does not prove safe. Begin with specs/LaterVerdicts.antt and src/later.rt.
#![tactic(auto)]

mod asked;
mod edges;
mod finding;
mod later;
mod trace;

pub use asked::LaterStages;
pub use edges::safe_edges;
pub use later::later_verdict;
pub use trace::error_trace;
