//! Callers meet the exits of what they enter.

ghost use Rattle.std.specs.Prelude.{ℕ, IfErr, OnOk};
ghost use Rattle.ground_views.specs.Questions.{IsEdgesEnd};
ghost use Rattle.tabulation_tables.specs.Lists.{Calls, Exits, IsBegunBy, IsNumber, lists_of};
ghost use Rattle.tabulation_tables.specs.Steps.{CallsStay};
ghost use Rattle.tabulation.specs.Kept.{HasMetAll, IsKept, IsStep};
ghost use Rattle.tabulation.specs.Works.{IsWork};

use crate::leading::lead_to_all;
use crate::work::{Meeting, Premise, Work};
use edge_numbers::EdgeNo;
use edge_steps::{Conclusion, Exit};
use ground_views::{EdgesFailure, after_exit};
use op_model::{NodeRef, Spot};
use tabulation_tables::Tables;

/// Takes in what follows for a caller from an edge to an exit.
fn meet(
    work: Work<'_, '_, '_>,
    tables: &mut Tables,
    left: &mut Vec<Conclusion>,
    meeting: Meeting,
) -> Result<(), EdgesFailure>
    requires work { IsWork work }
    requires kept { IsKept work.question.now (lists_of tables.old) }
    requires caller { IsNumber (lists_of tables.old) meeting.caller }
    requires exit { IsBegunBy (lists_of tables.old) meeting.begin meeting.exit.0 }
    ensures step { OnOk result (IsStep work.entry.question.now (lists_of tables.old) (lists_of tables.new)) }
    ensures stay { OnOk result (CallsStay (lists_of tables.old) (lists_of tables.new)) }
    ensures met { OnOk result (HasMetAll work.entry.question.now (lists_of tables.new) meeting.begin meeting.caller meeting.exit.0) }
    ensures end { IfErr result (IsEdgesEnd work.entry.question.now) }
{
    let called_at = tables.ends.end(meeting.caller);
    let Spot::Node(offset) = called_at.spot else {
        return Ok(());
    };
    let begun = tables.ends.end(meeting.begin);
    let Some(method) = begun.method else {
        return Ok(());
    };
    let node = NodeRef {
        method: called_at.method,
        offset,
    };
    let Some(seen) = work.views.node(work.question, node) else {
        return Ok(());
    };
    let edge = tables.edges.at(meeting.exit.0 as usize);
    let ended = tables.ends.end(edge.end);
    let exit = Exit {
        method,
        entry: &begun.fact,
        spot: ended.spot,
        fact: &ended.fact,
    };
    after_exit(work.question, &seen, &called_at.fact, exit, left)?;
    let premise = Premise {
        end: meeting.caller,
        method: called_at.method,
        exit: Some(meeting.exit),
        again: true,
    };
    lead_to_all(work, tables, premise, left.as_slice())
}

/// Has a caller meet all exits that were noted of a method that it enters.
pub(crate) fn meet_exits(
    work: Work<'_, '_, '_>,
    tables: &mut Tables,
    left: &mut Vec<Conclusion>,
    begin: u32,
    caller: u32,
) -> Result<(), EdgesFailure>
    requires work { IsWork work }
    requires kept { IsKept work.question.now (lists_of tables.old) }
    requires caller { IsNumber (lists_of tables.old) caller }
    ensures step { OnOk result (IsStep work.entry.question.now (lists_of tables.old) (lists_of tables.new)) }
    ensures stay { OnOk result (CallsStay (lists_of tables.old) (lists_of tables.new)) }
    ensures met { OnOk result ((k : ℕ) → Exits (lists_of tables.new) begin k → HasMetAll work.entry.question.now (lists_of tables.new) begin caller k) }
    ensures end { IfErr result (IsEdgesEnd work.entry.question.now) }
{
    let mut last = None;
    while let Some(place) = tables.exits.after(begin, last) {
        let exit = EdgeNo(tables.exits.value(place));
        let meeting = Meeting {
            begin,
            caller,
            exit,
        };
        meet(work, tables, left, meeting)?;
        last = Some(place);
    }
    Ok(())
}

/// Has all callers of a method that begins with an end meet an edge to an exit of it.
pub(crate) fn meet_callers(
    work: Work<'_, '_, '_>,
    tables: &mut Tables,
    left: &mut Vec<Conclusion>,
    begin: u32,
    exit: EdgeNo,
) -> Result<(), EdgesFailure>
    requires work { IsWork work }
    requires kept { IsKept work.question.now (lists_of tables.old) }
    requires exit { IsBegunBy (lists_of tables.old) begin exit.0 }
    ensures step { OnOk result (IsStep work.entry.question.now (lists_of tables.old) (lists_of tables.new)) }
    ensures stay { OnOk result (CallsStay (lists_of tables.old) (lists_of tables.new)) }
    ensures met { OnOk result ((c : ℕ) → Calls (lists_of tables.new) begin c → HasMetAll work.entry.question.now (lists_of tables.new) begin c exit.0) }
    ensures end { IfErr result (IsEdgesEnd work.entry.question.now) }
{
    let mut last = None;
    while let Some(place) = tables.callers.after(begin, last) {
        let caller = tables.callers.value(place);
        let meeting = Meeting {
            begin,
            caller,
            exit,
        };
        meet(work, tables, left, meeting)?;
        last = Some(place);
    }
    Ok(())
}
