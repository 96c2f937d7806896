//! Nodes: a method as operations on slots, each at the offset of its instruction; the edges of their flow; and a supplier of methods as
//! nodes.
//! The layers above analyse a `LoweredMethod`, and look at bytecode no more. Lowering makes it; the points-to solver asks a `Supply` for it
//! by its number, whose contract says that a method is given as one thing, and always as that.
//! Begin with src/node.rt and src/op.rt.
#![tactic(auto)]

mod lowered;
mod node;
mod op;
mod supply;

pub use lowered::LoweredMethod;
pub use node::{Node, NodeHandler, NodeRef, Spot, Way};
pub use op::{Call, CallKind, Move, Op, Source};
pub use supply::{Supply, SupplyFailure};
