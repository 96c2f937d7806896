//! The methods of the programs of example_machine as nodes: laws that they are those of the rules, and that the same executions, state by
//! state, are executions of bytecode and of nodes. They call nothing, and no layer needs them to prove its own: they show that the
//! definitions let happen what should.
//! Begin with src/within.rt and src/lowering.rt.
#![tactic(auto)]

pub mod calls;
pub mod compared;
pub mod exceptions;
pub mod initialisation;
pub mod lowering;
pub mod lowering_calls;
pub mod lowering_compared;
pub mod lowering_results;
pub mod lowering_tests;
pub mod lowering_throws;
pub mod lowering_triggers;
pub mod raises;
pub mod results;
pub mod returns;
pub mod tests_within;
pub mod triggers;
pub mod within;
