//! Searches by halving in a list of edges that is in order. They take no memory.

ghost use Rattle.std.specs.Prelude.{◌≡◌, ◌≤◌, ◌↔◌, length, IsTrue, true, false, Some};
ghost use Rattle.std.specs.List.Sorted.{IsBinarySearchResult, IsPartitionPoint, IsPartitionedBy, IsSearchInRange};
ghost use Rattle.std.specs.Ordering.{is_le, is_lt};
ghost use Rattle.stage_facts.specs.Plain.{fact_of};
ghost use Rattle.certificate_lines.specs.LineOrder.{edge_cmp};
ghost use Rattle.edge_checker.specs.Conditions.{AreInOrder, HasEdge, edge_in};
ghost use Rattle.edge_checker.specs.Spans.{IsExitSpan, edge_wanted, entry_cmp};

use crate::compare::{WantedEdge, comes_before, comes_up_to, compare_edge};
use crate::numbered_edge::NumberedEdge;
use jvm_model::MethodNo;
use op_model::Spot;
use stage_facts::PlainFact;

/// Whether the edge is listed.
pub(crate) fn is_listed(listed: &[NumberedEdge], wanted: &WantedEdge<'_>) -> bool
    requires { AreInOrder listed.now }
    ensures { IsTrue result ↔ HasEdge listed.now (edge_wanted wanted.now) }
{
    search(listed, wanted).is_ok()
}

/// From where up to where the edges to exits of a method stand that is entered with a fact.
pub(crate) fn exits_of(
    listed: &[NumberedEdge],
    method: MethodNo,
    entry: &PlainFact,
) -> (usize, usize)
    requires { AreInOrder listed.now }
    ensures { IsExitSpan listed.now method (fact_of entry.now) result.0 result.1 }
{
    let fact = PlainFact::NoneYet;
    let least = WantedEdge {
        method: Some(method),
        entry,
        spot: Spot::Returned,
        fact: &fact,
    };
    let from = first_from(listed, &least);
    let to = first_after(listed, &least);
    (from, to)
}

/// Where the edge stands, or where it would go.
fn search(listed: &[NumberedEdge], wanted: &WantedEdge<'_>) -> Result<usize, usize>
    ensures bound { IsSearchInRange result (length listed.now) }
    ensures position { IsBinarySearchResult (λ one. edge_cmp (edge_in one) (edge_wanted wanted.now)) listed.now result }
{
    listed.binary_search_by(|one| compare_edge(one, wanted))
}

/// The place up to which edges come before this one.
fn first_from(listed: &[NumberedEdge], wanted: &WantedEdge<'_>) -> usize
    ensures bound { result ≤ length listed.now }
    ensures partitioned { IsPartitionedBy (λ one. is_lt (edge_cmp (edge_in one) (edge_wanted wanted.now))) listed.now
        → IsPartitionPoint (λ one. is_lt (edge_cmp (edge_in one) (edge_wanted wanted.now)) ≡ true) (λ one. is_lt (edge_cmp (edge_in one) (edge_wanted wanted.now)) ≡ false) listed.now result }
{
    listed.partition_point(|one| comes_before(one, wanted))
}

/// The place up to which methods and entries come before this one's, or are these.
fn first_after(listed: &[NumberedEdge], wanted: &WantedEdge<'_>) -> usize
    ensures bound { result ≤ length listed.now }
    ensures partitioned { IsPartitionedBy (λ one. is_le (entry_cmp (edge_in one) (edge_wanted wanted.now))) listed.now
        → IsPartitionPoint (λ one. is_le (entry_cmp (edge_in one) (edge_wanted wanted.now)) ≡ true) (λ one. is_le (entry_cmp (edge_in one) (edge_wanted wanted.now)) ≡ false) listed.now result }
{
    listed.partition_point(|one| comes_up_to(one, wanted))
}
