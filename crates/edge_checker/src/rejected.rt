//! What is wrong with listed edges.

/// The conditions on listed path edges, in their order.
#[derive(Clone, Copy, Debug, PartialEq, Eq)]
pub enum EdgeCondition {
    /// The edge with which the program starts is listed.
    Start,
    /// What follows within a method is listed.
    Flow,
    /// What methods are entered with is listed.
    Enter,
    /// What follows where methods are left is listed.
    Leave,
    /// No object is in the error state.
    Error,
}

/// A condition that fails, and the line at which it does.
#[derive(Clone, Copy, Debug, PartialEq, Eq)]
pub struct Rejected {
    pub condition: EdgeCondition,
    pub line: u32,
}
