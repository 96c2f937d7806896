//! A node that path edges come to.

use jvm_model::MethodNo;
use node_ways::NodeWays;
use op_model::Node;
use stage_views::{NodeSlots, StageSetting};

/// A node, with its method, or without one at the start of the program; the site and the stage; what is known of the slots; and the ways out of it.
#[derive(Drop)]
pub struct NodeView<'n, 'p, V: NodeSlots> {
    pub setting: &'n StageSetting<'n>,
    pub slots: &'n V,
    pub method: Option<MethodNo>,
    pub node: &'n Node,
    pub ways: &'n NodeWays<'p>,
}
