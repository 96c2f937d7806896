//! Nodes: an operation at the offset of its instruction, with where it goes on; and the edges of the flow between nodes.

use crate::op::Op;
use jvm_model::{ClassNo, MethodNo, Sequence};

/// A handler that covers a node: it begins at `target`, an offset of the code, and takes the objects that fit a class, or all.
#[derive(Clone, Copy, Debug, PartialEq, Eq)]
pub struct NodeHandler {
    pub target: u32,
    pub catch: Option<ClassNo>,
}

/// An instruction that is reached: its offset, counted from the first byte of the code, what it does, the offsets at which it
/// goes on, the handlers that cover it in the order of their table (JVMS 2.10), the class whose initialisation it may start
/// (JVMS 5.5), and the classes of which it may itself throw a new object.
#[derive(Debug, Drop)]
pub struct Node {
    pub offset: u32,
    pub op: Op,
    pub successors: Sequence<u32>,
    pub handlers: Sequence<NodeHandler>,
    pub trigger: Option<ClassNo>,
    pub throws: Sequence<ClassNo>,
}

/// A node of a method, by its offset; without a method, one of the start of the program.
#[derive(Clone, Copy, Debug, PartialEq, Eq, Hash)]
pub struct NodeRef {
    pub method: Option<MethodNo>,
    pub offset: u32,
}

/// How control leaves a node. `to` is the offset of the handler that takes the object, and `None` where the method throws it.
#[derive(Clone, Copy, Debug, PartialEq, Eq)]
pub enum Way {
    /// At a successor.
    Next {
        successor: u32,
    },
    /// By a new object of a class that the node throws.
    Raise {
        class: ClassNo,
        to: Option<u32>,
    },
    /// With a result of a described method, by its place in the list.
    Answer {
        target: MethodNo,
        result: u32,
        successor: u32,
    },
    /// By a new object of a class that a described method throws.
    StubRaise {
        target: MethodNo,
        class: ClassNo,
        to: Option<u32>,
    },
}

/// A place in a method: a node, its return, or its throw.
#[derive(Clone, Copy, Debug, PartialEq, Eq)]
pub enum Spot {
    /// The offset of the node.
    Node(u32),
    Returned,
    Thrown,
}
