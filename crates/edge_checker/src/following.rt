//! Whether what follows from an edge is listed.

ghost use Rattle.std.specs.Prelude.{◌≡◌, ◌↔◌, if◌then◌else◌, IsTrue, MatchBool, None, Some};
ghost use Rattle.stage_facts.specs.Plain.{fact_of};
ghost use Rattle.edge_steps.specs.Steps.{begun, within};
ghost use Rattle.edge_checker.specs.Conditions.{AreInOrder, HasEdge};
ghost use Rattle.edge_checker.specs.Parts.{AreBegun, AreListed, IsNotBegun, IsOneMissing};

use crate::compare::WantedEdge;
use crate::numbered_edge::NumberedEdge;
use crate::rejected::{EdgeCondition, Rejected};
use crate::search::is_listed;
use edge_steps::{Conclusion, EnteredWith};
use op_model::Spot;

/// Whether each edge with the entry of this one is listed.
pub(crate) fn are_listed(
    listed: &[NumberedEdge],
    a: &NumberedEdge,
    conclusions: &[Conclusion],
) -> bool
    requires { AreInOrder listed.now }
    ensures { MatchBool result (AreListed listed.now a.now conclusions.now) (IsOneMissing listed.now a.now conclusions.now) }
{
    for conclusion in conclusions {
        if !is_conclusion_listed(listed, a, conclusion) {
            return false;
        }
    }
    true
}

/// Whether one is.
fn is_conclusion_listed(listed: &[NumberedEdge], a: &NumberedEdge, conclusion: &Conclusion) -> bool
    requires { AreInOrder listed.now }
    ensures { IsTrue result ↔ HasEdge listed.now (within a.now.edge.method (fact_of a.now.edge.entry) conclusion.now) }
{
    let wanted = WantedEdge {
        method: a.edge.method,
        entry: &a.edge.entry,
        spot: conclusion.spot,
        fact: &conclusion.fact,
    };
    is_listed(listed, &wanted)
}

/// Whether each method begins with what it is entered with.
pub(crate) fn are_begun(listed: &[NumberedEdge], entered: &[EnteredWith]) -> bool
    requires { AreInOrder listed.now }
    ensures { MatchBool result (AreBegun listed.now entered.now) (IsNotBegun listed.now entered.now) }
{
    for one in entered {
        if !is_begun(listed, one) {
            return false;
        }
    }
    true
}

/// Whether one does.
fn is_begun(listed: &[NumberedEdge], one: &EnteredWith) -> bool
    requires { AreInOrder listed.now }
    ensures { IsTrue result ↔ HasEdge listed.now (begun one.now) }
{
    let wanted = WantedEdge {
        method: Some(one.method),
        entry: &one.fact,
        spot: Spot::Node(0),
        fact: &one.fact,
    };
    is_listed(listed, &wanted)
}

/// Nothing, if all is met; else the condition at the line.
pub(crate) fn rejected_unless(met: bool, condition: EdgeCondition, line: u32) -> Option<Rejected>
    ensures { result ≡ (if met then None else Some (record { condition = condition; line = line })) }
{
    if met {
        return None;
    }
    Some(Rejected { condition, line })
}
