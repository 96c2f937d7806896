//! Methods begin.

ghost use Rattle.std.specs.Prelude.{All, Contains, IfErr, OnOk};
ghost use Rattle.edge_steps.specs.declared.conclusions.EnteredWith.{EnteredWith as RuleEntered};
ghost use Rattle.edge_steps.specs.Steps.{begun};
ghost use Rattle.ground_views.specs.Questions.{IsEdgesEnd};
ghost use Rattle.tabulation_tables.specs.Lists.{IsBegun, lists_of};
ghost use Rattle.tabulation.specs.Kept.{IsKept, IsReached, IsStep, MayBegin};
ghost use Rattle.tabulation.specs.Works.{IsWork};

use crate::meeting::meet_exits;
use crate::taking::take_edge;
use crate::work::{Caller, Work};
use edge_numbers::{Because, NumberedEdge};
use edge_steps::{Conclusion, EnteredWith};
use ground_views::EdgesFailure;
use op_model::Spot;
use tabulation_tables::Tables;

/// Takes in that methods begin, which an end enters, and what follows for it from their exits.
pub(crate) fn begin_all(
    work: Work<'_, '_, '_>,
    tables: &mut Tables,
    left: &mut Vec<Conclusion>,
    caller: Caller,
    entered: &[EnteredWith],
) -> Result<(), EdgesFailure>
    requires work { IsWork work }
    requires kept { IsKept work.question.now (lists_of tables.old) }
    requires caller { IsReached (lists_of tables.old) caller.by.0 caller.end }
    requires may { (b : RuleEntered) → Contains entered.now b → MayBegin work.question.now (lists_of tables.old) caller.by.0 b }
    ensures step { OnOk result (IsStep work.entry.question.now (lists_of tables.old) (lists_of tables.new)) }
    ensures begun { OnOk result (All (λ (b : RuleEntered). IsBegun (lists_of tables.new) caller.end (begun b)) entered.now) }
    ensures end { IfErr result (IsEdgesEnd work.entry.question.now) }
{
    for one in entered {
        begin(work, tables, left, caller, one)?;
    }
    Ok(())
}

/// Does so for one of them.
fn begin(
    work: Work<'_, '_, '_>,
    tables: &mut Tables,
    left: &mut Vec<Conclusion>,
    caller: Caller,
    entered: &EnteredWith,
) -> Result<(), EdgesFailure>
    requires work { IsWork work }
    requires kept { IsKept work.question.now (lists_of tables.old) }
    requires caller { IsReached (lists_of tables.old) caller.by.0 caller.end }
    requires may { MayBegin work.question.now (lists_of tables.old) caller.by.0 entered.now }
    ensures step { OnOk result (IsStep work.entry.question.now (lists_of tables.old) (lists_of tables.new)) }
    ensures begun { OnOk result (IsBegun (lists_of tables.new) caller.end (begun entered.now)) }
    ensures end { IfErr result (IsEdgesEnd work.entry.question.now) }
{
    let begin = tables.number(Some(entered.method), Spot::Node(0), &entered.fact)?;
    let edge = NumberedEdge { begin, end: begin };
    take_edge(work, tables, edge, Because::One(caller.by))?;
    meet_exits(work, tables, left, begin, caller.end)?;
    tables.call(begin, caller.end)?;
    Ok(())
}
