//! What follows from an edge is taken in.

ghost use Rattle.std.specs.Prelude.{◌≡◌, ◌<◌, ℕ, Some, length, slice_get, IfErr, OnOk};
ghost use Rattle.op_model.specs.declared.node.Spot.TheVariants as spots;
ghost use Rattle.end_numbers.specs.Ends.{End};
ghost use Rattle.stage_edges.specs.Rules.{IsExit};
ghost use Rattle.ground_views.specs.Questions.{IsEdgesEnd};
ghost use Rattle.tabulation_tables.specs.Lists.{Exits, HasEdge, IsBegunBy, IsEdgeAt, IsProcessed, IsVisited, Leads, lists_of};
ghost use Rattle.tabulation.specs.Kept.{HasFollowedAll, IsKept, IsReached, IsStep};
ghost use Rattle.tabulation.specs.Works.{IsWork};

use crate::beginning::begin_all;
use crate::leading::lead_to_all;
use crate::meeting::meet_callers;
use crate::taking::take_edge;
use crate::work::{Buffers, Caller, Premise, Work};
use edge_numbers::{EdgeNo, NumberedEdge, because_of};
use edge_steps::Conclusion;
use ground_views::{EdgesFailure, after_node};
use op_model::{NodeRef, Spot};
use tabulation_tables::Tables;

/// Takes in what follows from the edge of a number, alone and with others.
pub(crate) fn process(
    work: Work<'_, '_, '_>,
    tables: &mut Tables,
    buffers: &mut Buffers,
    number: EdgeNo,
) -> Result<(), EdgesFailure>
    requires work { IsWork work }
    requires kept { IsKept work.question.now (lists_of tables.old) }
    requires there { number.0 < length tables.old.edges }
    ensures step { OnOk result (IsStep work.entry.question.now (lists_of tables.old) (lists_of tables.new)) }
    ensures processed { OnOk result (IsProcessed (lists_of tables.new) number.0) }
    ensures end { IfErr result (IsEdgesEnd work.entry.question.now) }
{
    let edge = tables.edges.at(number.0 as usize);
    come_to(work, tables, buffers, number, edge)?;
    extend(work, tables, number, edge)
}

/// Visits the end of an edge, if it is a node that was not visited; or has callers meet the edge, if it leads to an exit.
fn come_to(
    work: Work<'_, '_, '_>,
    tables: &mut Tables,
    buffers: &mut Buffers,
    number: EdgeNo,
    edge: NumberedEdge,
) -> Result<(), EdgesFailure>
    requires work { IsWork work }
    requires kept { IsKept work.question.now (lists_of tables.old) }
    requires there { IsEdgeAt (lists_of tables.old) number.0 edge.begin edge.end }
    ensures step { OnOk result (IsStep work.entry.question.now (lists_of tables.old) (lists_of tables.new)) }
    ensures visited { OnOk result ((e : End) (offset : ℕ) → slice_get tables.old.ends edge.end ≡ Some e → e.spot ≡ spots.Node offset → IsVisited (lists_of tables.new) edge.end) }
    ensures left { OnOk result ((e : End) → slice_get tables.old.ends edge.end ≡ Some e → IsExit e.spot → Exits (lists_of tables.new) edge.begin number.0) }
    ensures end { IfErr result (IsEdgesEnd work.entry.question.now) }
{
    let caller = Caller {
        end: edge.end,
        by: number,
    };
    match tables.ends.spot(edge.end) {
        Spot::Node(_) => visit(work, tables, buffers, caller),
        Spot::Returned => leave(work, tables, &mut buffers.left, edge.begin, number),
        Spot::Thrown => leave(work, tables, &mut buffers.left, edge.begin, number),
    }
}

/// Has the callers of the method that begins with an end meet an edge to an exit, and notes the edge.
fn leave(
    work: Work<'_, '_, '_>,
    tables: &mut Tables,
    left: &mut Vec<Conclusion>,
    begin: u32,
    exit: EdgeNo,
) -> Result<(), EdgesFailure>
    requires work { IsWork work }
    requires kept { IsKept work.question.now (lists_of tables.old) }
    requires there { IsBegunBy (lists_of tables.old) begin exit.0 }
    ensures step { OnOk result (IsStep work.entry.question.now (lists_of tables.old) (lists_of tables.new)) }
    ensures left { OnOk result (Exits (lists_of tables.new) begin exit.0) }
    ensures end { IfErr result (IsEdgesEnd work.entry.question.now) }
{
    meet_callers(work, tables, left, begin, exit)?;
    tables.exit(begin, exit)?;
    Ok(())
}

/// Takes in what follows from edges to an end alone, unless that was done.
fn visit(
    work: Work<'_, '_, '_>,
    tables: &mut Tables,
    buffers: &mut Buffers,
    caller: Caller,
) -> Result<(), EdgesFailure>
    requires work { IsWork work }
    requires kept { IsKept work.question.now (lists_of tables.old) }
    requires reached { IsReached (lists_of tables.old) caller.by.0 caller.end }
    ensures step { OnOk result (IsStep work.entry.question.now (lists_of tables.old) (lists_of tables.new)) }
    ensures visited { OnOk result (IsVisited (lists_of tables.new) caller.end) }
    ensures end { IfErr result (IsEdgesEnd work.entry.question.now) }
{
    if tables.is_visited(caller.end) {
        return Ok(());
    }
    follow(work, tables, buffers, caller)?;
    tables.visit(caller.end)?;
    Ok(())
}

/// Does so.
fn follow(
    work: Work<'_, '_, '_>,
    tables: &mut Tables,
    buffers: &mut Buffers,
    caller: Caller,
) -> Result<(), EdgesFailure>
    requires work { IsWork work }
    requires kept { IsKept work.question.now (lists_of tables.old) }
    requires reached { IsReached (lists_of tables.old) caller.by.0 caller.end }
    ensures step { OnOk result (IsStep work.entry.question.now (lists_of tables.old) (lists_of tables.new)) }
    ensures followed { OnOk result (HasFollowedAll work.entry.question.now (lists_of tables.new) caller.end) }
    ensures end { IfErr result (IsEdgesEnd work.entry.question.now) }
{
    let reached = tables.ends.end(caller.end);
    let Spot::Node(offset) = reached.spot else {
        return Ok(());
    };
    let node = NodeRef {
        method: reached.method,
        offset,
    };
    let Some(seen) = work.views.node(work.question, node) else {
        return Ok(());
    };
    let following = &mut buffers.following;
    after_node(work.question, &seen, &reached.fact, following)?;
    let premise = Premise {
        end: caller.end,
        method: reached.method,
        exit: None,
        again: !seen.ways.described.is_empty(),
    };
    lead_to_all(work, tables, premise, following.within.as_slice())?;
    let entered = following.entered.as_slice();
    begin_all(work, tables, &mut buffers.left, caller, entered)
}

/// Takes in the edges with the begin of an edge to the ends to which its end leads.
fn extend(
    work: Work<'_, '_, '_>,
    tables: &mut Tables,
    number: EdgeNo,
    edge: NumberedEdge,
) -> Result<(), EdgesFailure>
    requires kept { IsKept work.question.now (lists_of tables.old) }
    requires there { IsEdgeAt (lists_of tables.old) number.0 edge.begin edge.end }
    ensures step { OnOk result (IsStep work.entry.question.now (lists_of tables.old) (lists_of tables.new)) }
    ensures led { OnOk result ((y : ℕ) → Leads (lists_of tables.new) edge.end y → HasEdge (lists_of tables.new) edge.begin y) }
    ensures end { IfErr result (IsEdgesEnd work.entry.question.now) }
{
    let begin = edge.begin;
    let mut last = None;
    while let Some(place) = tables.leads.after(edge.end, last) {
        let end = tables.leads.value(place);
        let exit = tables.exit_at(place);
        let because = because_of(number, exit);
        take_edge(work, tables, NumberedEdge { begin, end }, because)?;
        last = Some(place);
    }
    Ok(())
}
