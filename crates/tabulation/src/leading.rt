//! Ends that lead to other ends.

ghost use Rattle.std.specs.Prelude.{Contains, All, IfErr, IsTrue, OnOk};
ghost use Rattle.edge_steps.specs.declared.conclusions.Conclusion.{Conclusion as RuleConclusion};
ghost use Rattle.ground_views.specs.Questions.{IsEdgesEnd};
ghost use Rattle.tabulation_tables.specs.Lists.{Leads, lists_of};
ghost use Rattle.tabulation_tables.specs.Steps.{CallsStay};
ghost use Rattle.tabulation.specs.Kept.{Concludes, IsKept, IsOfMethod, IsStep, LeadsToConclusion, MayLead};

use crate::taking::take_edge;
use crate::work::{Premise, Work};
use edge_numbers::{EdgeNo, NumberedEdge, because_of};
use edge_steps::Conclusion;
use ground_views::EdgesFailure;
use tabulation_tables::Tables;

/// Notes that each of these conclusions follows from a premise, and takes in the edges that follow so.
pub(crate) fn lead_to_all(
    work: Work<'_, '_, '_>,
    tables: &mut Tables,
    premise: Premise,
    conclusions: &[Conclusion],
) -> Result<(), EdgesFailure>
    requires kept { IsKept work.question.now (lists_of tables.old) }
    requires of_method { IsOfMethod (lists_of tables.old) premise.end premise.method }
    requires conclude { (c : RuleConclusion) → Contains conclusions.now c → Concludes work.question.now (lists_of tables.old) premise c }
    ensures step { OnOk result (IsStep work.entry.question.now (lists_of tables.old) (lists_of tables.new)) }
    ensures stay { OnOk result (CallsStay (lists_of tables.old) (lists_of tables.new)) }
    ensures lead { OnOk result (All (LeadsToConclusion (lists_of tables.new) premise.end premise.method) conclusions.now) }
    ensures end { IfErr result (IsEdgesEnd work.entry.question.now) }
{
    for conclusion in conclusions {
        lead_to_conclusion(work, tables, premise, conclusion)?;
    }
    Ok(())
}

/// Does so for one of them.
fn lead_to_conclusion(
    work: Work<'_, '_, '_>,
    tables: &mut Tables,
    premise: Premise,
    conclusion: &Conclusion,
) -> Result<(), EdgesFailure>
    requires kept { IsKept work.question.now (lists_of tables.old) }
    requires of_method { IsOfMethod (lists_of tables.old) premise.end premise.method }
    requires concludes { Concludes work.question.now (lists_of tables.old) premise conclusion.now }
    ensures step { OnOk result (IsStep work.entry.question.now (lists_of tables.old) (lists_of tables.new)) }
    ensures stay { OnOk result (CallsStay (lists_of tables.old) (lists_of tables.new)) }
    ensures leads { OnOk result (LeadsToConclusion (lists_of tables.new) premise.end premise.method conclusion.now) }
    ensures end { IfErr result (IsEdgesEnd work.entry.question.now) }
{
    let to = tables.number(premise.method, conclusion.spot, &conclusion.fact)?;
    if is_noted(tables, premise, to) {
        return Ok(());
    }
    lead_to(work, tables, premise.end, to, premise.exit)
}

/// Whether it is noted that the end of a premise leads to another one. Where the premise says that it is not, nothing is searched.
fn is_noted(tables: &Tables, premise: Premise, to: u32) -> bool
    ensures { IsTrue result → Leads (lists_of tables.now) premise.end to }
{
    if !premise.again {
        return false;
    }
    tables.leads.has(premise.end, to)
}

/// Notes that an end leads to another one, by an exit or by none, and takes in the edges that follow so.
fn lead_to(
    work: Work<'_, '_, '_>,
    tables: &mut Tables,
    from: u32,
    to: u32,
    exit: Option<EdgeNo>,
) -> Result<(), EdgesFailure>
    requires kept { IsKept work.question.now (lists_of tables.old) }
    requires may { MayLead work.question.now (lists_of tables.old) from to exit }
    ensures step { OnOk result (IsStep work.entry.question.now (lists_of tables.old) (lists_of tables.new)) }
    ensures stay { OnOk result (CallsStay (lists_of tables.old) (lists_of tables.new)) }
    ensures leads { OnOk result (Leads (lists_of tables.new) from to) }
    ensures end { IfErr result (IsEdgesEnd work.entry.question.now) }
{
    let mut last = None;
    while let Some(place) = tables.begins.after(from, last) {
        let begin = tables.begins.value(place);
        let because = because_of(EdgeNo(place.0), exit);
        take_edge(work, tables, NumberedEdge { begin, end: to }, because)?;
        last = Some(place);
    }
    tables.lead(from, to, exit)?;
    Ok(())
}
