//! Instances of rules are tried that have an edge to a node as their first premise.

ghost use Rattle.std.specs.Prelude.{◌<◌, length, IfErr, OnOk};
ghost use Rattle.ground_views.specs.Questions.{edges_in};
ghost use Rattle.edge_closure.specs.Tried.{AreExitsTriedAt, Grows, IsExitTriedAt, IsFull, IsOpen, IsSeenAt, IsTriedAt, StaysSoundBy};

use crate::room::Closing;
use crate::taking::{take_begun, take_conclusions};
use edge_steps::{Exit, Following};
use ground_views::{EdgesFailure, PathEdge, ViewedNode, after_exit, after_node};

/// Tries all instances that have the edge at a place as their first premise, which is an edge to the node that is looked at.
pub(crate) fn try_node(
    closing: &Closing<'_, '_, '_>,
    seen: &ViewedNode<'_, '_, '_>,
    edges: &mut Vec<PathEdge>,
    place: usize,
) -> Result<(), EdgesFailure>
    requires there { place < length edges.old.items }
    requires roomy { IsOpen closing.now.room.limit (edges_in edges.old.items) }
    requires seen { IsSeenAt closing.now.question.now seen.now place (edges_in edges.old.items) }
    ensures grows { Grows (edges_in edges.old.items) (edges_in edges.new.items) }
    ensures sound { StaysSoundBy closing.now.question.now (edges_in edges.old.items) (edges_in edges.new.items) }
    ensures tried { OnOk result (IsTriedAt closing.now.question.now place (edges_in edges.old.items) (edges_in edges.new.items)) }
    ensures roomy { OnOk result (IsOpen closing.now.room.limit (edges_in edges.new.items)) }
    ensures end { IfErr result (IsFull closing.now.room.limit (edges_in edges.new.items)) }
{
    let limit = closing.room.limit;
    let mut following = Following::new(closing.room.alloc);
    after_node(closing.question, seen, &edges[place].fact, &mut following)?;
    take_conclusions(edges, place, following.within.as_slice(), limit)?;
    take_begun(edges, following.entered.as_slice(), limit)?;
    try_exits(closing, seen, edges, place)
}

/// Tries those that have any edge as their second premise.
fn try_exits(
    closing: &Closing<'_, '_, '_>,
    seen: &ViewedNode<'_, '_, '_>,
    edges: &mut Vec<PathEdge>,
    place: usize,
) -> Result<(), EdgesFailure>
    requires there { place < length edges.old.items }
    requires roomy { IsOpen closing.now.room.limit (edges_in edges.old.items) }
    requires seen { IsSeenAt closing.now.question.now seen.now place (edges_in edges.old.items) }
    ensures grows { Grows (edges_in edges.old.items) (edges_in edges.new.items) }
    ensures sound { StaysSoundBy closing.now.question.now (edges_in edges.old.items) (edges_in edges.new.items) }
    ensures tried { OnOk result (AreExitsTriedAt closing.now.question.now place (edges_in edges.old.items) (edges_in edges.new.items)) }
    ensures roomy { OnOk result (IsOpen closing.now.room.limit (edges_in edges.new.items)) }
    ensures end { IfErr result (IsFull closing.now.room.limit (edges_in edges.new.items)) }
{
    let count = edges.len();
    for other in 0..count {
        try_exit(closing, seen, edges, place, other)?;
    }
    Ok(())
}

/// Tries those that have the edge at another place as their second premise. One of the start of the program is none.
fn try_exit(
    closing: &Closing<'_, '_, '_>,
    seen: &ViewedNode<'_, '_, '_>,
    edges: &mut Vec<PathEdge>,
    place: usize,
    other: usize,
) -> Result<(), EdgesFailure>
    requires there { place < length edges.old.items }
    requires beside { other < length edges.old.items }
    requires roomy { IsOpen closing.now.room.limit (edges_in edges.old.items) }
    requires seen { IsSeenAt closing.now.question.now seen.now place (edges_in edges.old.items) }
    ensures grows { Grows (edges_in edges.old.items) (edges_in edges.new.items) }
    ensures sound { StaysSoundBy closing.now.question.now (edges_in edges.old.items) (edges_in edges.new.items) }
    ensures tried { OnOk result (IsExitTriedAt closing.now.question.now place other (edges_in edges.old.items) (edges_in edges.new.items)) }
    ensures roomy { OnOk result (IsOpen closing.now.room.limit (edges_in edges.new.items)) }
    ensures end { IfErr result (IsFull closing.now.room.limit (edges_in edges.new.items)) }
{
    let premise = &edges[place];
    let ended = &edges[other];
    let Some(method) = ended.method else {
        return Ok(());
    };
    let exit = Exit {
        method,
        entry: &ended.entry,
        spot: ended.spot,
        fact: &ended.fact,
    };
    let mut conclusions = Vec::new(closing.room.alloc);
    after_exit(
        closing.question,
        seen,
        &premise.fact,
        exit,
        &mut conclusions,
    )?;
    take_conclusions(edges, place, conclusions.as_slice(), closing.room.limit)
}
