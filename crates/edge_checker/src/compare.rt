//! Listed edges against one that is looked for.

ghost use Rattle.std.specs.Prelude.{◌≡◌};
ghost use Rattle.std.specs.Ordering.{is_le, is_lt, ordering_then};
ghost use Rattle.stage_facts.specs.Plain.{fact_of};
ghost use Rattle.certificate_lines.specs.LineOrder.{edge_cmp, fact_cmp, spot_cmp};
ghost use Rattle.edge_checker.specs.Conditions.{edge_in};
ghost use Rattle.edge_checker.specs.Spans.{edge_wanted, entry_cmp};

use crate::numbered_edge::NumberedEdge;
use certificate_lines::{compare_facts, compare_methods, compare_spots};
use jvm_model::MethodNo;
use op_model::Spot;
use stage_facts::PlainFact;
use std::cmp::Ordering;

/// An edge that is looked for.
#[derive(Clone, Copy)]
pub(crate) struct WantedEdge<'w> {
    pub(crate) method: Option<MethodNo>,
    pub(crate) entry: &'w PlainFact,
    pub(crate) spot: Spot,
    pub(crate) fact: &'w PlainFact,
}

/// By the method, the fact with which it is entered, the spot and the fact there. What decides first is compared first.
pub(crate) fn compare_edge(one: &NumberedEdge, wanted: &WantedEdge<'_>) -> Ordering
    ensures { result ≡ edge_cmp (edge_in one.now) (edge_wanted wanted.now) }
{
    match compare_methods(one.edge.method, wanted.method) {
        Ordering::Less => Ordering::Less,
        Ordering::Equal => match compare_facts(&one.edge.entry, wanted.entry) {
            Ordering::Less => Ordering::Less,
            Ordering::Equal => compare_ends(one, wanted),
            Ordering::Greater => Ordering::Greater,
        },
        Ordering::Greater => Ordering::Greater,
    }
}

/// By the spot and the fact there.
fn compare_ends(one: &NumberedEdge, wanted: &WantedEdge<'_>) -> Ordering
    ensures { result ≡ ordering_then (spot_cmp one.now.edge.spot wanted.now.spot) (fact_cmp (fact_of one.now.edge.fact) (fact_of wanted.now.fact.now)) }
{
    match compare_spots(one.edge.spot, wanted.spot) {
        Ordering::Less => Ordering::Less,
        Ordering::Equal => compare_facts(&one.edge.fact, wanted.fact),
        Ordering::Greater => Ordering::Greater,
    }
}

/// By the method and the fact with which it is entered.
fn compare_entry(one: &NumberedEdge, wanted: &WantedEdge<'_>) -> Ordering
    ensures { result ≡ entry_cmp (edge_in one.now) (edge_wanted wanted.now) }
{
    match compare_methods(one.edge.method, wanted.method) {
        Ordering::Less => Ordering::Less,
        Ordering::Equal => compare_facts(&one.edge.entry, wanted.entry),
        Ordering::Greater => Ordering::Greater,
    }
}

/// Whether the edge comes before the one that is looked for.
pub(crate) fn comes_before(one: &NumberedEdge, wanted: &WantedEdge<'_>) -> bool
    ensures { result ≡ is_lt (edge_cmp (edge_in one.now) (edge_wanted wanted.now)) }
{
    compare_edge(one, wanted).is_lt()
}

/// Whether its method and entry come before those that are looked for, or are these.
pub(crate) fn comes_up_to(one: &NumberedEdge, wanted: &WantedEdge<'_>) -> bool
    ensures { result ≡ is_le (entry_cmp (edge_in one.now) (edge_wanted wanted.now)) }
{
    compare_entry(one, wanted).is_le()
}
