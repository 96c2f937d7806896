//! What a run is given, what it answers of its words and of the files of a tree, and what it is of, as definitions; and how it ends, as a
//! `Status`.
//! The contract of `run` says that its status and lines are those of `Outcome`. The laws `one_status`, `one_report` and `one_run` say that
//! words and files give no two; `whole_input_is_reported`, that an input in which nothing is missing or refused, with fewer pairs than the
//! limit, has a report.
//! Begin with specs/Outcomes.antt, a level for each thing that is read or made.
#![tactic(auto)]

mod laws;
mod status;

pub use laws::{one_report, one_run, one_status, whole_input_is_reported};
pub use status::Status;
