//! Where nodes stand in a ground.

/// The place of a node: that of its method among the methods that may run and have code, and its own among the nodes of the method.
#[derive(Clone, Copy, Debug, PartialEq, Eq, Hash)]
pub struct NodePlace {
    pub method: usize,
    pub node: usize,
}
