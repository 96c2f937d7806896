//! The machine that runs methods as nodes, on the states of the machine that runs bytecode: its steps and executions. The crate has
//! definitions, in specs/, and laws of them; it runs nothing.
//! The laws of `coverage` and `simulation` speak of `IsNodeExecution`. Begin with specs/NodeSteps.antt; Nodes.antt has the nodes of the
//! start, NodeExecutions.antt the executions.
#![tactic(auto)]

pub mod laws;
