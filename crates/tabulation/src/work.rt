//! What tabulation works with.

use edge_numbers::EdgeNo;
use edge_steps::{Conclusion, Following};
use ground_views::{GroundViews, Question};
use jvm_model::MethodNo;
use std::alloc::Global;

/// What is asked for, and the views of the ground.
#[derive(Clone, Copy)]
pub(crate) struct Work<'w, 'g, 'p> {
    pub(crate) views: &'w GroundViews<'p>,
    pub(crate) question: &'w Question<'g, 'p>,
}

/// Where what follows is put: from an edge to a node, and from it with one to an exit. So both take memory only once for all edges.
#[derive(Drop)]
pub(crate) struct Buffers {
    pub(crate) following: Following,
    pub(crate) left: Vec<Conclusion>,
}

impl Buffers {
    /// Nothing yet. It takes no memory.
    pub(crate) fn new(alloc: Global) -> Self {
        Buffers {
            following: Following::new(alloc),
            left: Vec::new(alloc),
        }
    }
}

/// An edge to an end, with whatever entry; alone, or with an edge to an exit of a method that the end enters.
#[derive(Clone, Copy)]
pub(crate) struct Premise {
    pub(crate) end: u32,
    /// The method of the end.
    pub(crate) method: Option<MethodNo>,
    pub(crate) exit: Option<EdgeNo>,
    /// Whether the end may lead already to one to which it is found to lead. If not, the list of these is not searched, which may be long.
    pub(crate) again: bool,
}

/// An end that enters methods, and the number of an edge to it.
#[derive(Clone, Copy)]
pub(crate) struct Caller {
    pub(crate) end: u32,
    pub(crate) by: EdgeNo,
}

/// An end that enters the method that begins with another one, and an edge to an exit of the method.
#[derive(Clone, Copy)]
pub(crate) struct Meeting {
    pub(crate) begin: u32,
    pub(crate) caller: u32,
    pub(crate) exit: EdgeNo,
}
