//! Edges are taken in.

ghost use Rattle.std.specs.Prelude.{IfErr, OnOk};
ghost use Rattle.ground_views.specs.Questions.{IsEdgesEnd};
ghost use Rattle.tabulation_tables.specs.Lists.{HasEdge, lists_of};
ghost use Rattle.tabulation_tables.specs.Steps.{NotesStay};
ghost use Rattle.tabulation.specs.Kept.{IsKept, IsStep, MayTake};

use crate::work::Work;
use edge_numbers::{Because, NumberedEdge};
use failure::Failure;
use ground_views::{EdgesFailure, EdgesFault};
use tabulation_tables::Tables;

/// Takes in an edge that follows from others, unless it is there. It fails with the limit where there are as many edges by it.
pub(crate) fn take_edge(
    work: Work<'_, '_, '_>,
    tables: &mut Tables,
    edge: NumberedEdge,
    because: Because,
) -> Result<(), EdgesFailure>
    requires kept { IsKept work.question.now (lists_of tables.old) }
    requires may { MayTake work.question.now (lists_of tables.old) edge.begin edge.end because }
    ensures step { OnOk result (IsStep work.entry.question.now (lists_of tables.old) (lists_of tables.new)) }
    ensures stay { OnOk result (NotesStay (lists_of tables.old) (lists_of tables.new)) }
    ensures there { OnOk result (HasEdge (lists_of tables.new) edge.begin edge.end) }
    ensures end { IfErr result (IsEdgesEnd work.entry.question.now) }
{
    tables.insert(edge, because)?;
    tables.ends.well_formed();
    tables.edges.well_formed();
    if tables.edges.len() >= work.question.limit {
        return Err(Failure::Cause(EdgesFault::Limit));
    }
    Ok(())
}
