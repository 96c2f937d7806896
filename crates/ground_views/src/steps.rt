//! What follows from an edge to a node, as one looks at it.

ghost use Rattle.std.specs.Prelude.{[], ◌∷◌, Some, OnOk};
ghost use Rattle.op_model.specs.declared.node.NodeRef.{NodeRef as RuleNodeRef};
ghost use Rattle.stage_facts.specs.Plain.{fact_of};
ghost use Rattle.stage_edges.specs.Rules.{edge};
ghost use Rattle.ground_views.specs.Views.{FollowAt, IsSeen};

use crate::question::Question;
use crate::viewed_node::ViewedNode;
use edge_steps::{Conclusion, Exit, Following, from_exit, from_node};
use stage_facts::PlainFact;
use std::alloc::AllocError;

/// Writes what follows, by one instance, from an edge with this fact to the node. What stood in `following` before is gone.
pub fn after_node(
    question: &Question<'_, '_>,
    seen: &ViewedNode<'_, '_, '_>,
    fact: &PlainFact,
    following: &mut Following,
) -> Result<(), AllocError>
    requires { (node : RuleNodeRef) × IsSeen question.now node seen.now }
    ensures { OnOk result (FollowAt question.now seen.now (fact_of fact.now) [] following.new.within.items following.new.entered.items) }
{
    let view = seen.view(&question.setting);
    from_node(&view, fact, following)
}

/// Writes what follows from it and an edge to an exit. What stood in `conclusions` before is gone.
pub fn after_exit(
    question: &Question<'_, '_>,
    seen: &ViewedNode<'_, '_, '_>,
    fact: &PlainFact,
    exit: Exit<'_>,
    conclusions: &mut Vec<Conclusion>,
) -> Result<(), AllocError>
    requires { (node : RuleNodeRef) × IsSeen question.now node seen.now }
    ensures { OnOk result (FollowAt question.now seen.now (fact_of fact.now)
        (edge (Some exit.entry.method) (fact_of exit.entry.entry.now) exit.entry.spot (fact_of exit.entry.fact.now) ∷ []) conclusions.new.items []) }
{
    let view = seen.view(&question.setting);
    from_exit(&view, fact, exit, conclusions)
}
