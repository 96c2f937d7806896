//! Whether two facts are the same, and a fact once more.

ghost use Rattle.std.specs.Prelude.{◌≡◌, ◌↔◌, IsTrue};
ghost use Rattle.stage_facts.specs.Facts.{none_yet, of_object, some_yet};
ghost use Rattle.stage_facts.specs.Plain.{fact_of};

use access_paths::{Path, PathSet};
use stage_facts::{PlainFact, PlainTuple};

/// Whether two facts are the same.
pub fn is_same_fact(first: &PlainFact, second: &PlainFact) -> bool
    ensures { IsTrue result ↔ (fact_of first.now ≡ fact_of second.now) }
{
    match first {
        PlainFact::NoneYet => is_none_yet(second),
        PlainFact::SomeYet => is_some_yet(second),
        PlainFact::OfObject(tuple) => is_of_object(second, tuple),
    }
}

/// Whether the fact is that there is no object.
fn is_none_yet(fact: &PlainFact) -> bool
    ensures { IsTrue result ↔ (none_yet ≡ fact_of fact.now) }
{
    match fact {
        PlainFact::NoneYet => true,
        PlainFact::SomeYet => false,
        PlainFact::OfObject(_) => false,
    }
}

/// Whether the fact is that there is an object.
fn is_some_yet(fact: &PlainFact) -> bool
    ensures { IsTrue result ↔ (some_yet ≡ fact_of fact.now) }
{
    match fact {
        PlainFact::NoneYet => false,
        PlainFact::SomeYet => true,
        PlainFact::OfObject(_) => false,
    }
}

/// Whether the fact is that of an object.
fn is_of_object(fact: &PlainFact, tuple: &PlainTuple) -> bool
    ensures { IsTrue result ↔ (of_object tuple.now ≡ fact_of fact.now) }
{
    match fact {
        PlainFact::NoneYet => false,
        PlainFact::SomeYet => false,
        PlainFact::OfObject(other) => is_same_tuple(tuple, other),
    }
}

/// Whether the same is known of two objects.
fn is_same_tuple(first: &PlainTuple, second: &PlainTuple) -> bool
    ensures { IsTrue result ↔ (first.now ≡ second.now) }
{
    if first.unique != second.unique {
        return false;
    }
    if first.state != second.state {
        return false;
    }
    if first.may != second.may {
        return false;
    }
    if !is_same_set(&first.must, &second.must) {
        return false;
    }
    is_same_set(&first.must_not, &second.must_not)
}

/// Whether two sets have the same paths.
fn is_same_set(first: &PathSet, second: &PathSet) -> bool
    ensures { IsTrue result ↔ (first.now ≡ second.now) }
{
    are_same_paths(first.as_slice(), second.as_slice())
}

/// Whether the same paths stand in both, in the same order.
fn are_same_paths(first: &[Path], second: &[Path]) -> bool
    ensures { IsTrue result ↔ (first.now ≡ second.now) }
{
    if first.len() != second.len() {
        return false;
    }
    for at in 0..first.len() {
        if !first[at].is_same(&second[at]) {
            return false;
        }
    }
    true
}

/// An equal fact.
pub fn copied_fact(fact: &PlainFact) -> PlainFact
    ensures { fact_of result ≡ fact_of fact.now }
{
    match fact {
        PlainFact::NoneYet => PlainFact::NoneYet,
        PlainFact::SomeYet => PlainFact::SomeYet,
        PlainFact::OfObject(tuple) => PlainFact::OfObject(copied_tuple(tuple)),
    }
}

/// The same of an object.
fn copied_tuple(tuple: &PlainTuple) -> PlainTuple
    ensures { result ≡ tuple.now }
{
    PlainTuple {
        unique: tuple.unique,
        state: tuple.state,
        must: tuple.must.copied(),
        may: tuple.may,
        must_not: tuple.must_not.copied(),
    }
}
