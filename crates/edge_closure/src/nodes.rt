//! The nodes to which edges lead.

ghost use Rattle.std.specs.Prelude.{◌<◌, length, IfErr, OnOk};
ghost use Rattle.ground_views.specs.Questions.{edges_in};
ghost use Rattle.edge_closure.specs.Tried.{Grows, IsFull, IsOpen, IsTriedAt, StaysSoundBy};
ghost use Rattle.edge_closure.specs.Closings.{IsClosing, IsNodeOfEdge};

use crate::room::Closing;
use crate::trying::try_node;
use ground_views::{EdgesFailure, PathEdge};
use op_model::{NodeRef, Spot};

/// Tries all instances that have the edge at a place as their first premise. One to an exit is none.
pub(crate) fn try_edge(
    closing: &Closing<'_, '_, '_>,
    edges: &mut Vec<PathEdge>,
    place: usize,
) -> Result<(), EdgesFailure>
    requires closing { IsClosing closing.now }
    requires there { place < length edges.old.items }
    requires roomy { IsOpen closing.now.room.limit (edges_in edges.old.items) }
    ensures grows { Grows (edges_in edges.old.items) (edges_in edges.new.items) }
    ensures sound { StaysSoundBy closing.now.question.now (edges_in edges.old.items) (edges_in edges.new.items) }
    ensures tried { OnOk result (IsTriedAt closing.now.question.now place (edges_in edges.old.items) (edges_in edges.new.items)) }
    ensures roomy { OnOk result (IsOpen closing.now.room.limit (edges_in edges.new.items)) }
    ensures end { IfErr result (IsFull closing.now.room.limit (edges_in edges.new.items)) }
{
    let Some(node) = node_of(&edges[place]) else {
        return Ok(());
    };
    let Some(seen) = closing.views.node(closing.question, node) else {
        return Ok(());
    };
    try_node(closing, &seen, edges, place)
}

/// The node to which an edge leads; `None` where it leads to an exit.
fn node_of(edge: &PathEdge) -> Option<NodeRef>
    ensures { IsNodeOfEdge edge.now result }
{
    match edge.spot {
        Spot::Node(offset) => Some(NodeRef {
            method: edge.method,
            offset,
        }),
        Spot::Returned => None,
        Spot::Thrown => None,
    }
}
