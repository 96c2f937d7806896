//! A node as one looks at it.

ghost use Rattle.std.specs.Prelude.{◌≡◌};

use crate::node_slots::AnySlots;
use edge_steps::NodeView;
use jvm_model::MethodNo;
use node_ways::NodeWays;
use op_model::Node;
use stage_views::StageSetting;

/// A node with the ways out of it, and what is known of its slots. It has a method, or none at the start of the program.
#[derive(Drop)]
pub struct ViewedNode<'v, 'g, 'p> {
    pub method: Option<MethodNo>,
    pub node: &'v Node,
    pub slots: AnySlots<'g, 'p>,
    pub ways: &'v NodeWays<'p>,
}

impl<'v, 'g, 'p> ViewedNode<'v, 'g, 'p> {
    /// The same, with the site and the stage.
    pub fn view<'n>(&'n self, setting: &'n StageSetting<'n>) -> NodeView<'n, 'p, AnySlots<'g, 'p>>
        ensures setting { result.setting.now ≡ setting.now }
        ensures slots { result.slots.now ≡ self.now.slots }
        ensures method { result.method ≡ self.now.method }
        ensures node { result.node.now ≡ self.now.node.now }
        ensures ways { result.ways.now ≡ self.now.ways.now }
    {
        NodeView {
            setting,
            slots: &self.slots,
            method: self.method,
            node: self.node,
            ways: self.ways,
        }
    }
}
