//! How one looks at the nodes to which edges lead.

ghost use Rattle.std.specs.Prelude.{◌≡◌, Some, None, Option, slice_get, IfErr, IfNone, IfOk, IfSome, Contains};
ghost use Rattle.jvm_model.specs.declared.number.MethodNo.{MethodNo as RuleMethodNo};
ghost use Rattle.program_model.specs.Numbers.{IsMethodNumber};
ghost use Rattle.op_model.specs.declared.lowered.LoweredMethod.{LoweredMethod as RuleMethod};
ghost use Rattle.op_model.specs.declared.node.Node.{Node as RuleNode};
ghost use Rattle.machine_bytecode.specs.Objects.{Subject};
ghost use Rattle.ground.specs.Findings.{gives_listed};
ghost use Rattle.stage_transfer.specs.Settings.{Setting};
ghost use Rattle.stage_edges.specs.Rules.{IsNode};
ghost use Rattle.ground_views.specs.Questions.{IsAskedOf};
ghost use Rattle.ground_views.specs.Views.{AreViewsOf, IsSeen, IsViewsEnd};

use crate::fault::EdgesFailure;
use crate::method_ways::{ways_of_methods, ways_of_start_nodes};
use crate::node_slots::AnySlots;
use crate::question::Question;
use crate::start_slots::StartSlots;
use crate::viewed_node::ViewedNode;
use ground::Ground;
use jvm_model::MethodNo;
use node_ways::{NodeWays, start_method};
use op_model::{LoweredMethod, NodeRef};
use slot_names::place_of;
use stage_slots::SlotsAt;
use std::alloc::Global;

/// The start of the program as a method, and the ways out of each node: they do not depend on the site, so they are worked out once for all sites.
/// Methods and nodes stand as in the ground.
#[derive(Drop)]
pub struct GroundViews<'p> {
    start: LoweredMethod,
    start_ways: Vec<NodeWays<'p>>,
    ways: Vec<Vec<NodeWays<'p>>>,
}

impl<'p> GroundViews<'p> {
    /// What is needed to look at the nodes of a ground, and at those of the start with an entry.
    pub fn of(
        alloc: Global,
        ground: &Ground<'p>,
        entry: MethodNo,
    ) -> Result<GroundViews<'p>, EdgesFailure>
        requires { IsMethodNumber ground.now.program entry.0 }
        ensures are { IfOk result (λ views. AreViewsOf ground.now entry views) }
        ensures end { IfErr result (IsViewsEnd ground.now) }
    {
        let start = start_method(alloc, ground.program(), entry)?;
        let start_ways = ways_of_start_nodes(alloc, ground, &start)?;
        let ways = ways_of_methods(alloc, ground)?;
        Ok(GroundViews {
            start,
            start_ways,
            ways,
        })
    }

    /// The node that is meant, as it is seen for the site that is asked for; `None` where there is no such node. It takes no memory.
    pub fn node<'v, 'g: 'v>(
        &'v self,
        question: &Question<'g, 'p>,
        node: NodeRef,
    ) -> Option<ViewedNode<'v, 'g, 'p>>
        requires views { AreViewsOf question.now.ground.now question.now.entry self.now }
        requires site { slice_get question.now.ground.now.sites question.now.site.0 ≡ Some question.now.setting.site.now }
        ensures found { IfSome result (λ k. IsSeen question.now node k) }
        ensures none { IfNone result ((x : Subject) (w : Setting) → IsAskedOf question.now x w → (l : RuleMethod) (n : RuleNode)
            → IsNode x (gives_listed question.now.ground.now.methods) node.method l n → n.offset ≡ node.offset → ⊥) }
    {
        match node.method {
            Some(_) => self.node_of_method(question, node),
            None => self.node_of_start(question, node),
        }
    }

    /// The same of a node of a method.
    fn node_of_method<'v, 'g: 'v>(
        &'v self,
        question: &Question<'g, 'p>,
        node: NodeRef,
    ) -> Option<ViewedNode<'v, 'g, 'p>>
        requires views { AreViewsOf question.now.ground.now question.now.entry self.now }
        requires site { slice_get question.now.ground.now.sites question.now.site.0 ≡ Some question.now.setting.site.now }
        requires method { (m : RuleMethodNo) × (node.method ≡ Some m) }
        ensures found { IfSome result (λ k. IsSeen question.now node k) }
        ensures none { IfNone result ((x : Subject) (w : Setting) → IsAskedOf question.now x w → (l : RuleMethod) (n : RuleNode)
            → IsNode x (gives_listed question.now.ground.now.methods) node.method l n → n.offset ≡ node.offset → ⊥) }
    {
        let ground = question.ground;
        let at = ground.place_of_node(node)?;
        let slots = SlotsAt::of(ground, at, question.site)?;
        Some(ViewedNode {
            method: node.method,
            node: ground.node(at),
            slots: AnySlots::Method(slots),
            ways: &self.ways[at.method][at.node],
        })
    }

    /// The same of a node of the start of the program.
    fn node_of_start<'v, 'g>(
        &'v self,
        question: &Question<'g, 'p>,
        node: NodeRef,
    ) -> Option<ViewedNode<'v, 'g, 'p>>
        requires views { AreViewsOf question.now.ground.now question.now.entry self.now }
        requires start { node.method ≡ None }
        ensures found { IfSome result (λ k. IsSeen question.now node k) }
        ensures none { IfNone result ((x : Subject) (w : Setting) → IsAskedOf question.now x w → (l : RuleMethod) (n : RuleNode)
            → IsNode x (gives_listed question.now.ground.now.methods) node.method l n → n.offset ≡ node.offset → ⊥) }
    {
        let place = place_of(&self.start, node.offset)?;
        Some(ViewedNode {
            method: None,
            node: &self.start.nodes.as_slice()[place],
            slots: AnySlots::Start(StartSlots {
                ground: question.ground,
            }),
            ways: &self.start_ways[place],
        })
    }
}
