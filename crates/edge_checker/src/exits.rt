//! What follows from an edge to a node and edges to exits of the methods that the node enters.

ghost use Rattle.std.specs.Prelude.{◌≡◌, IfOk, Some};
ghost use Rattle.edge_checker.specs.Conditions.{edge_in};
ghost use Rattle.edge_checker.specs.Failures.{IsLeastFor};
ghost use Rattle.edge_checker.specs.Parts.{AreExitsMet, AreLeft, ExitFails, ExitsFail, IsChecking, IsExitMet, IsSeenAt, LeavingFails};

use crate::checking::Checking;
use crate::following::{are_listed, rejected_unless};
use crate::lesser::least;
use crate::numbered_edge::NumberedEdge;
use crate::rejected::{EdgeCondition, Rejected};
use crate::search::exits_of;
use edge_steps::{EnteredWith, Exit};
use ground_views::{ViewedNode, after_exit};
use jvm_model::MethodNo;
use std::alloc::AllocError;

/// The first failure among what follows from the edge and exits of the methods that are entered.
pub(crate) fn leaving_failure(
    checking: &Checking<'_, '_, '_>,
    seen: &ViewedNode<'_, '_, '_>,
    a: &NumberedEdge,
    entered: &[EnteredWith],
) -> Result<Option<Rejected>, AllocError>
    requires checking { IsChecking checking.now }
    requires seen { IsSeenAt checking.now.question.now seen.now (edge_in a.now) }
    ensures { IfOk result (IsLeastFor checking.now.question.now (AreLeft checking.now.question.now checking.now.listed.now a.now entered.now)
        (LeavingFails checking.now.question.now checking.now.listed.now a.now entered.now)) }
{
    let mut first = None;
    for one in entered {
        first = least(first, exits_failure(checking, seen, a, one)?);
    }
    Ok(first)
}

/// The same of one of the methods.
fn exits_failure(
    checking: &Checking<'_, '_, '_>,
    seen: &ViewedNode<'_, '_, '_>,
    a: &NumberedEdge,
    one: &EnteredWith,
) -> Result<Option<Rejected>, AllocError>
    requires checking { IsChecking checking.now }
    requires seen { IsSeenAt checking.now.question.now seen.now (edge_in a.now) }
    ensures { IfOk result (IsLeastFor checking.now.question.now (AreExitsMet checking.now.question.now checking.now.listed.now a.now one.now)
        (ExitsFail checking.now.question.now checking.now.listed.now a.now one.now)) }
{
    let (from, to) = exits_of(checking.listed, one.method, &one.fact);
    let mut first = None;
    for place in from..to {
        let exit = &checking.listed[place];
        first = least(first, exit_failure(checking, seen, a, exit, one.method)?);
    }
    Ok(first)
}

/// The same of one exit.
fn exit_failure(
    checking: &Checking<'_, '_, '_>,
    seen: &ViewedNode<'_, '_, '_>,
    a: &NumberedEdge,
    exit: &NumberedEdge,
    method: MethodNo,
) -> Result<Option<Rejected>, AllocError>
    requires checking { IsChecking checking.now }
    requires seen { IsSeenAt checking.now.question.now seen.now (edge_in a.now) }
    requires method { exit.now.edge.method ≡ Some method }
    ensures { IfOk result (IsLeastFor checking.now.question.now (IsExitMet checking.now.question.now checking.now.listed.now a.now exit.now)
        (ExitFails checking.now.question.now checking.now.listed.now a.now exit.now)) }
{
    let left = Exit {
        method,
        entry: &exit.edge.entry,
        spot: exit.edge.spot,
        fact: &exit.edge.fact,
    };
    let mut conclusions = Vec::new(checking.alloc);
    after_exit(
        checking.question,
        seen,
        &a.edge.fact,
        left,
        &mut conclusions,
    )?;
    let met = are_listed(checking.listed, a, conclusions.as_slice());
    Ok(rejected_unless(met, EdgeCondition::Leave, a.line.max(exit.line)))
}
