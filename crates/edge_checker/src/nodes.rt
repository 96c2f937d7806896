//! What follows from a listed edge.

ghost use Rattle.std.specs.Prelude.{IfOk};
ghost use Rattle.edge_checker.specs.Conditions.{edge_in};
ghost use Rattle.edge_checker.specs.Failures.{IsLeastFor};
ghost use Rattle.edge_checker.specs.Parts.{AllMeet, FailsAt, IsChecking, IsNodeOfEdge, IsSeenAt, MeetsAt, SomeFails};

use crate::checking::Checking;
use crate::exits::leaving_failure;
use crate::following::{are_begun, are_listed, rejected_unless};
use crate::lesser::least;
use crate::numbered_edge::NumberedEdge;
use crate::rejected::{EdgeCondition, Rejected};
use edge_steps::Following;
use ground_views::{PathEdge, ViewedNode, after_node};
use op_model::{NodeRef, Spot};
use std::alloc::AllocError;

/// The first failure among what follows from listed edges.
pub(crate) fn rules_failure(checking: &Checking<'_, '_, '_>) -> Result<Option<Rejected>, AllocError>
    requires { IsChecking checking.now }
    ensures { IfOk result (IsLeastFor checking.now.question.now (AllMeet checking.now.question.now checking.now.listed.now)
        (SomeFails checking.now.question.now checking.now.listed.now)) }
{
    let mut first = None;
    for a in checking.listed {
        first = least(first, failure_at(checking, a)?);
    }
    Ok(first)
}

/// The same among what follows from this edge, alone and with others. From one to an exit nothing follows.
fn failure_at(
    checking: &Checking<'_, '_, '_>,
    a: &NumberedEdge,
) -> Result<Option<Rejected>, AllocError>
    requires { IsChecking checking.now }
    ensures { IfOk result (IsLeastFor checking.now.question.now (MeetsAt checking.now.question.now checking.now.listed.now a.now)
        (FailsAt checking.now.question.now checking.now.listed.now a.now)) }
{
    let Some(node) = node_of(&a.edge) else {
        return Ok(None);
    };
    let Some(seen) = checking.views.node(checking.question, node) else {
        return Ok(None);
    };
    failure_from(checking, &seen, a)
}

/// The same at the node to which it leads.
fn failure_from(
    checking: &Checking<'_, '_, '_>,
    seen: &ViewedNode<'_, '_, '_>,
    a: &NumberedEdge,
) -> Result<Option<Rejected>, AllocError>
    requires checking { IsChecking checking.now }
    requires seen { IsSeenAt checking.now.question.now seen.now (edge_in a.now) }
    ensures { IfOk result (IsLeastFor checking.now.question.now (MeetsAt checking.now.question.now checking.now.listed.now a.now)
        (FailsAt checking.now.question.now checking.now.listed.now a.now)) }
{
    let mut following = Following::new(checking.alloc);
    after_node(checking.question, seen, &a.edge.fact, &mut following)?;
    let entered = following.entered.as_slice();
    let listed = are_listed(checking.listed, a, following.within.as_slice());
    let begun = are_begun(checking.listed, entered);
    let flow = rejected_unless(listed, EdgeCondition::Flow, a.line);
    let enter = rejected_unless(begun, EdgeCondition::Enter, a.line);
    let leave = leaving_failure(checking, seen, a, entered)?;
    Ok(least(least(flow, enter), leave))
}

/// The node to which an edge leads; `None` where it leads to an exit.
fn node_of(edge: &PathEdge) -> Option<NodeRef>
    ensures { IsNodeOfEdge edge.now result }
{
    match edge.spot {
        Spot::Node(offset) => Some(NodeRef {
            method: edge.method,
            offset,
        }),
        Spot::Returned => None,
        Spot::Thrown => None,
    }
}
