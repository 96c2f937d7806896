//! The order of facts, spots and edges.

ghost use Rattle.std.specs.Prelude.{◌≡◌, [], option_map};
ghost use Rattle.std.specs.Option.{option_cmp};
ghost use Rattle.stage_facts.specs.Plain.{fact_of};
ghost use Rattle.certificate_lines.specs.LineOrder.{edge_cmp, fact_cmp, fact_rank, paths_cmp, spot_cmp, spot_offset, spot_rank, tuple_cmp};
ghost use Rattle.certificate_lines.specs.LineTexts.{edge_of};

use crate::line::ListedEdge;
use crate::site_order::compare_methods;
use access_paths::Path;
use op_model::Spot;
use stage_facts::{PlainFact, PlainTuple};
use std::cmp::Ordering;

/// No edge comes before each.
pub(crate) fn compare_optional_edges(
    one: Option<&ListedEdge>,
    other: Option<&ListedEdge>,
) -> Ordering
    ensures { result ≡ option_cmp edge_cmp (option_map (λ e. edge_of e.now) one.entry) (option_map (λ e. edge_of e.now) other.entry) }
{
    match one {
        None => match other {
            None => Ordering::Equal,
            Some(_) => Ordering::Less,
        },
        Some(edge) => match other {
            None => Ordering::Greater,
            Some(also) => compare_edges(edge, also),
        },
    }
}

/// By the method, the fact with which it is entered, the spot and the fact there.
fn compare_edges(one: &ListedEdge, other: &ListedEdge) -> Ordering
    ensures { result ≡ edge_cmp (edge_of one.now) (edge_of other.now) }
{
    let by_method = compare_methods(one.method, other.method);
    let by_entry = compare_facts(&one.entry, &other.entry);
    let by_spot = compare_spots(one.spot, other.spot);
    let by_fact = compare_facts(&one.fact, &other.fact);
    by_method.then(by_entry.then(by_spot.then(by_fact)))
}

/// Nodes by their offsets, then the return, then the throw.
pub fn compare_spots(one: Spot, other: Spot) -> Ordering
    ensures { result ≡ spot_cmp one other }
{
    let by_rank = spot_rank(one).cmp(&spot_rank(other));
    by_rank.then(spot_offset(one).cmp(&spot_offset(other)))
}

fn spot_rank(spot: Spot) -> u8
    ensures { result ≡ spot_rank spot }
{
    match spot {
        Spot::Node(_) => 0,
        Spot::Returned => 1,
        Spot::Thrown => 2,
    }
}

fn spot_offset(spot: Spot) -> u32
    ensures { result ≡ spot_offset spot }
{
    match spot {
        Spot::Node(offset) => offset,
        Spot::Returned => 0,
        Spot::Thrown => 0,
    }
}

/// No object, then some object, then what is known of one. It takes no memory.
pub fn compare_facts(one: &PlainFact, other: &PlainFact) -> Ordering
    ensures { result ≡ fact_cmp (fact_of one.now) (fact_of other.now) }
{
    let PlainFact::OfObject(tuple) = one else {
        return fact_rank(one).cmp(&fact_rank(other));
    };
    let PlainFact::OfObject(also) = other else {
        return fact_rank(one).cmp(&fact_rank(other));
    };
    compare_tuples(tuple, also)
}

fn fact_rank(fact: &PlainFact) -> u8
    ensures { result ≡ fact_rank (fact_of fact.now) }
{
    match fact {
        PlainFact::NoneYet => 0,
        PlainFact::SomeYet => 1,
        PlainFact::OfObject(_) => 2,
    }
}

/// By the words from left to right.
fn compare_tuples(one: &PlainTuple, other: &PlainTuple) -> Ordering
    ensures { result ≡ tuple_cmp one.now other.now }
{
    let by_unique = one.unique.cmp(&other.unique);
    let by_state = one.state.cmp(&other.state);
    let by_may = one.may.cmp(&other.may);
    let by_must = compare_path_lists(one.must.as_slice(), other.must.as_slice());
    let by_must_not = compare_path_lists(one.must_not.as_slice(), other.must_not.as_slice());
    by_unique.then(by_state.then(by_may.then(by_must.then(by_must_not))))
}

/// The first two paths that differ decide, and a list comes before those that go on behind it.
fn compare_path_lists(one: &[Path], other: &[Path]) -> Ordering
    ensures { result ≡ paths_cmp one.now other.now }
{
    match one {
        [] => compare_nothing(other),
        [first, rest @ ..] => match other {
            [] => Ordering::Greater,
            [also, others @ ..] => match first.compare(also) {
                Ordering::Less => Ordering::Less,
                Ordering::Equal => compare_path_lists(rest, others),
                Ordering::Greater => Ordering::Greater,
            },
        },
    }
}

/// No paths come before some.
fn compare_nothing(other: &[Path]) -> Ordering
    ensures { result ≡ paths_cmp [] other.now }
{
    match other {
        [] => Ordering::Equal,
        [_, ..] => Ordering::Less,
    }
}
