//! Whatever the machine that runs bytecode does in methods that have nodes, the machine that runs nodes does, between the same states
//! (`each_execution`). In a program in whose closed facts nothing is refused no other method is entered, and the facts cover each state
//! (`executions_are_covered`).
//! What a folder supplies as nodes is a whole method (`supplied_methods_are_whole`), so closed facts of a folder cover the executions on
//! its methods (`supplied_executions_are_covered`). The report's analysis calls the first of these two; run_soundness joins all. The crate
//! runs nothing.
//! Begin with specs/Simulation.antt.
#![tactic(auto)]

pub mod covered_nodes;
pub mod covered_runs;
pub mod laws;
pub mod whole_methods;

pub use whole_methods::supplied_methods_are_whole;
