//! What a run writes of safe sites is true of every execution of the bytecode of its program: the laws that join the layers, from the first
//! stage (`pruned_sites_never_err`) over reports (`safe_lines_are_true`) to what a run wrote (`written_safe_lines_are_true`,
//! `safe_runs_keep_the_protocol`). The crate has laws alone; it runs nothing.
//! `run` has its clauses `sound`, `about` and `all_safe` by the laws of src/run_laws.rt. Begin with specs/Truth.antt and Claims.antt.
#![tactic(auto)]

pub mod outcome_laws;
pub mod report_laws;
pub mod run_laws;
pub mod stage_laws;
