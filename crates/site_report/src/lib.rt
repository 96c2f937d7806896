//! Tracked sites, what is found of them, and the lines that tell it: one for each site, and the summary.
//! The stages and the report speak of a `TrackedSite` and its `Verdict`. The report calls `verdict_line` and `summary_line`; the run prints
//! names by `push_name`, and the lines of path edges print names and numbers by it and `push_number`.
//! Begin with specs/Sites.antt and specs/Lines.antt.
#![tactic(auto)]

mod lines;
mod printed;
mod tracked_site;
mod verdict;

pub use lines::{summary_line, verdict_line};
pub use printed::{push_name, push_number};
pub use tracked_site::TrackedSite;
pub use verdict::Verdict;
