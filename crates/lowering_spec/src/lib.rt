//! Which nodes are those of a method: for each instruction that is reached the operation, the trigger, the handlers and the exceptions that
//! a node has. The crate has definitions, in specs/, and a law of them; the layer that lowers methods makes such nodes.
//! Begin with specs/LoweredMethods.antt, `IsLowered`, and Operations.antt, `IsOp`.
#![tactic(auto)]

pub mod laws;
