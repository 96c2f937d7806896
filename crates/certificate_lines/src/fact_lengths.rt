//! The lengths of paths, facts and spots as words.

ghost use Rattle.std.specs.Prelude.{codes, ◌≡◌, ◌++◌, ◌≤◌, ◌*◌, length};
ghost use Rattle.std.specs.List.{flat_map};
ghost use Rattle.access_paths.specs.Followed.{listed};
ghost use Rattle.stage_facts.specs.Plain.{fact_of};
ghost use Rattle.edge_lines.specs.EdgeLines.{fact_words, field_text, path_text, paths_text, root_text, spot_word, tuple_words};

use crate::word_lengths::number_length;
use access_paths::{Fields, Path, PathSet, Root};
use op_model::Spot;
use stage_facts::{PlainFact, PlainTuple};

/// The length of a spot.
pub(crate) fn spot_length(spot: Spot) -> u128
    ensures long { result ≡ length (spot_word spot) }
    ensures few { result ≤ 10 }
{
    match spot {
        Spot::Node(offset) => number_length(offset),
        Spot::Returned => 3,
        Spot::Thrown => 3,
    }
}

/// The length of a fact.
pub(crate) fn fact_length(fact: &PlainFact) -> u128
    ensures long { result ≡ length (fact_words (fact_of fact.now)) }
    ensures few { result ≤ 1000 }
{
    match fact {
        PlainFact::NoneYet => 4,
        PlainFact::SomeYet => 4,
        PlainFact::OfObject(tuple) => tuple_length(tuple),
    }
}

/// The length of what is known of an object.
fn tuple_length(tuple: &PlainTuple) -> u128
    ensures long { result ≡ length (tuple_words tuple.now) }
    ensures few { result ≤ 1000 }
{
    let state = number_length(u32::from(tuple.state));
    let must = paths_length(&tuple.must);
    let must_not = paths_length(&tuple.must_not);
    state + must + must_not + 8
}

/// The length of the paths of a set.
fn paths_length(set: &PathSet) -> u128
    ensures long { result ≡ length (paths_text set.now) }
    ensures few { result ≤ 300 }
{
    match set.as_slice() {
        [] => 1,
        [first, rest @ ..] => path_length(first) + rest_length(rest),
    }
}

/// The length of further paths, each with a comma before it.
fn rest_length(rest: &[Path]) -> u128
    requires few { length rest.now ≤ 5 }
    ensures long { result ≡ length (flat_map (λ x. codes "," ++ path_text x) rest.now) }
    ensures few { result ≤ 250 }
{
    let mut long = 0;
    for path in rest {
        long += 1 + path_length(path);
    }
    long
}

/// The length of a path.
fn path_length(path: &Path) -> u128
    ensures long { result ≡ length (path_text path.now) }
    ensures few { result ≤ 44 }
{
    root_length(path.root()) + fields_length(path.fields())
}

/// The length of a root.
fn root_length(root: Root) -> u128
    ensures long { result ≡ length (root_text root) }
    ensures few { result ≤ 11 }
{
    match root {
        Root::Slot(slot) => 1 + number_length(slot),
        Root::Static(field) => 1 + number_length(field.0),
        Root::Returned => 3,
        Root::Thrown => 3,
    }
}

/// The length of the fields that a path follows, each behind a full stop.
fn fields_length(fields: Fields) -> u128
    ensures long { result ≡ length (flat_map field_text (listed fields)) }
    ensures few { result ≤ 33 }
{
    match fields {
        Fields::Zero => 0,
        Fields::One(first) => 1 + number_length(first.0),
        Fields::Two(first, second) => 2 + number_length(first.0) + number_length(second.0),
        Fields::Three(first, second, third) => {
            3 + number_length(first.0) + number_length(second.0) + number_length(third.0)
        }
    }
}
