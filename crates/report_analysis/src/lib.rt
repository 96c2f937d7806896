//! From a linked program to its report. The run calls `analyse`: the points-to analysis, which lowers methods on demand, and its ground;
//! and then `report_of`: the tracked sites, the verdict of each, and the text of the lines.
//! The law `analyses_are_covered` says that the facts of an analysis cover each state of each execution on the folder's methods as nodes.
//! A certificate takes `judged_sites`, the tracked sites with their verdicts, and `claimed_edges`, the path edges by which a later stage proves a site safe.
//! Begin with src/analysis.rt and src/report.rt; asked.rt says what a report is asked for, verdicts.rt and later.rt have the verdict of each site, numbers.rt
//! their numbers in the ground, writing.rt the text.
#![tactic(auto)]

mod analysis;
mod asked;
mod claims;
pub mod covered;
mod later;
mod numbers;
mod report;
mod traces;
mod verdicts;
mod writing;

pub use analysis::{analyse, solve_folder};
pub use asked::ReportStages;
pub use claims::{JudgedSites, SafeSite, claimed_edges, judged_sites};
pub use later::views_of;
pub use report::{Report, report_of};
pub use writing::are_all_safe;
