//! From the code of a method and its flow graph to its nodes, one for each instruction that is reached; or to the first refusal. The layers
//! above look at bytecode no more.
//! lowering_supply calls `lower_method`, and `class_refusal` where the code or the graph has a fault.
//! What is answered stands in specs/Refusals.antt. Begin with src/lower.rt: judging.rt judges the instructions, node.rt makes a node.
#![tactic(auto)]

mod body;
mod judging;
mod lower;
mod node;
mod refusal;

pub use lower::lower_method;
pub use refusal::class_refusal;
