//! Methods as nodes.

use crate::node::Node;
use jvm_model::{MethodNo, Sequence};

/// A method as nodes, in the order of their offsets. `slots` are those of the local variables, and `stack` those of the operand
/// stack at most, so that the lowest unit of the stack has the number `slots`; `params` are the units of the parameters, the
/// receiver included.
#[derive(Debug, Drop)]
pub struct LoweredMethod {
    pub method: MethodNo,
    pub slots: u32,
    pub stack: u32,
    pub params: u32,
    pub nodes: Sequence<Node>,
}
