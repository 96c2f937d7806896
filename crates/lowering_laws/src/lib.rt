//! Laws of lowering: each code of a sound class file has a flow graph or a first fault (`each_code_has_a_graph`), each instruction a first
//! reason or none (`each_first_reason`), and each method nodes, in order, or a refusal (`each_method_lowers`). Of first reasons, of
//! refusals and of nodes in order there are no two (`one_first_reason`, `one_refusal`, `one_ordered_method`).
//! So the contract of lowering leaves no choice, and lowering_supply gives each method as one thing. The laws call nothing, and stand on
//! the definitions alone.
//! Begin with specs/Alike.antt: what may differ in nodes where their order is left open.
#![tactic(auto)]

pub mod answers;
pub mod each_answer;
pub mod effects;
pub mod graphs;
pub mod nodes;
pub mod ordered;
pub mod reasons;
pub mod steps;
