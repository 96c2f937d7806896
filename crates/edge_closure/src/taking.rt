//! Edges are taken in.

ghost use Rattle.std.specs.Prelude.{◌≡◌, ◌<◌, length, slice_get, Some, All, Contains, IfErr, OnOk};
ghost use Rattle.stage_edges.specs.Rules.{Edge};
ghost use Rattle.edge_steps.specs.Steps.{begun, within};
ghost use Rattle.edge_steps.specs.declared.conclusions.Conclusion.{Conclusion as RuleConclusion};
ghost use Rattle.edge_steps.specs.declared.conclusions.EnteredWith.{EnteredWith as RuleEntered};
ghost use Rattle.ground_views.specs.Questions.{edge_of, edges_in};
ghost use Rattle.edge_closure.specs.Tried.{Adds, Grows, IsFull, IsOpen};

use edge_steps::{Conclusion, EnteredWith, copied_fact};
use failure::Failure;
use ground_views::{EdgesFailure, EdgesFault, PathEdge, is_among};
use op_model::Spot;

/// Takes an edge in, unless it is there already. It fails with the limit where there are as many edges by it.
pub(crate) fn take(
    edges: &mut Vec<PathEdge>,
    edge: PathEdge,
    limit: usize,
) -> Result<(), EdgesFailure>
    requires { IsOpen limit (edges_in edges.old.items) }
    ensures grows { Grows (edges_in edges.old.items) (edges_in edges.new.items) }
    ensures adds { Adds (λ (e : Edge). e ≡ edge_of edge) (edges_in edges.old.items) (edges_in edges.new.items) }
    ensures roomy { OnOk result (IsOpen limit (edges_in edges.new.items)) }
    ensures held { OnOk result (Contains (edges_in edges.new.items) (edge_of edge)) }
    ensures end { IfErr result (IsFull limit (edges_in edges.new.items)) }
{
    if is_among(edges, &edge) {
        return Ok(());
    }
    edges.push(edge)?;
    if edges.len() >= limit {
        return Err(Failure::Cause(EdgesFault::Limit));
    }
    Ok(())
}

/// Takes in what follows from the edge at a place, with the entry of that edge.
pub(crate) fn take_conclusions(
    edges: &mut Vec<PathEdge>,
    place: usize,
    conclusions: &[Conclusion],
    limit: usize,
) -> Result<(), EdgesFailure>
    requires there { place < length edges.old.items }
    requires roomy { IsOpen limit (edges_in edges.old.items) }
    ensures grows { Grows (edges_in edges.old.items) (edges_in edges.new.items) }
    ensures adds { (p : Edge) → slice_get (edges_in edges.old.items) place ≡ Some p
        → Adds (λ (e : Edge). (c : RuleConclusion) × Contains conclusions.now c × (e ≡ within p.method p.entry c)) (edges_in edges.old.items) (edges_in edges.new.items) }
    ensures roomy { OnOk result (IsOpen limit (edges_in edges.new.items)) }
    ensures held { (p : Edge) → slice_get (edges_in edges.old.items) place ≡ Some p
        → OnOk result (All (λ (c : RuleConclusion). Contains (edges_in edges.new.items) (within p.method p.entry c)) conclusions.now) }
    ensures end { IfErr result (IsFull limit (edges_in edges.new.items)) }
{
    for conclusion in conclusions {
        take_conclusion(edges, place, conclusion, limit)?;
    }
    Ok(())
}

/// Takes in an edge with the method and the entry of the one at a place.
fn take_conclusion(
    edges: &mut Vec<PathEdge>,
    place: usize,
    conclusion: &Conclusion,
    limit: usize,
) -> Result<(), EdgesFailure>
    requires there { place < length edges.old.items }
    requires roomy { IsOpen limit (edges_in edges.old.items) }
    ensures grows { Grows (edges_in edges.old.items) (edges_in edges.new.items) }
    ensures adds { (p : Edge) → slice_get (edges_in edges.old.items) place ≡ Some p
        → Adds (λ (e : Edge). e ≡ within p.method p.entry conclusion.now) (edges_in edges.old.items) (edges_in edges.new.items) }
    ensures roomy { OnOk result (IsOpen limit (edges_in edges.new.items)) }
    ensures held { (p : Edge) → slice_get (edges_in edges.old.items) place ≡ Some p
        → OnOk result (Contains (edges_in edges.new.items) (within p.method p.entry conclusion.now)) }
    ensures end { IfErr result (IsFull limit (edges_in edges.new.items)) }
{
    let premise = &edges[place];
    let edge = PathEdge {
        method: premise.method,
        entry: copied_fact(&premise.entry),
        spot: conclusion.spot,
        fact: copied_fact(&conclusion.fact),
    };
    take(edges, edge, limit)
}

/// Takes in that methods begin.
pub(crate) fn take_begun(
    edges: &mut Vec<PathEdge>,
    entered: &[EnteredWith],
    limit: usize,
) -> Result<(), EdgesFailure>
    requires { IsOpen limit (edges_in edges.old.items) }
    ensures grows { Grows (edges_in edges.old.items) (edges_in edges.new.items) }
    ensures adds { Adds (λ (e : Edge). (b : RuleEntered) × Contains entered.now b × (e ≡ begun b)) (edges_in edges.old.items) (edges_in edges.new.items) }
    ensures roomy { OnOk result (IsOpen limit (edges_in edges.new.items)) }
    ensures held { OnOk result (All (λ (b : RuleEntered). Contains (edges_in edges.new.items) (begun b)) entered.now) }
    ensures end { IfErr result (IsFull limit (edges_in edges.new.items)) }
{
    for one in entered {
        take(edges, begun_edge(one), limit)?;
    }
    Ok(())
}

/// The edge with which a method begins.
fn begun_edge(entered: &EnteredWith) -> PathEdge
    ensures { edge_of result ≡ begun entered.now }
{
    PathEdge {
        method: Some(entered.method),
        entry: copied_fact(&entered.fact),
        spot: Spot::Node(0),
        fact: copied_fact(&entered.fact),
    }
}
