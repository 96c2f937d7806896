//! Paths, facts, spots and edges at the front of bytes.

ghost use Rattle.std.specs.Prelude.{◌≡◌, IfOk};
ghost use Rattle.line_guesses.specs.Guess.{edge_at, fact_at, field_at, fields_at, more_at, path_at, paths_at, root_at, second_at, spot_at, tuple_at};

use crate::numbers::{first_byte, number_at, skip, small_at};
use crate::sites::{method_at, site_at};
use access_paths::{Fields, Path, PathSet, Root};
use certificate_lines::ListedEdge;
use jvm_model::FieldNo;
use op_model::Spot;
use stage_facts::{PlainFact, PlainTuple};
use std::alloc::{AllocError, Global};

/// The root of a path.
#[tactic(auto, unfolding(crate::specs::Guess::root_at))]
fn root_at(bytes: &[u8]) -> (Root, &[u8])
    ensures root { result.0 ≡ (root_at bytes.now).0 }
    ensures rest { result.1.now ≡ (root_at bytes.now).1 }
{
    let first = first_byte(bytes);
    if first == b'v' {
        let (slot, rest) = number_at(skip(bytes, 1));
        return (Root::Slot(slot), rest);
    }
    if first == b's' {
        let (field, rest) = number_at(skip(bytes, 1));
        return (Root::Static(FieldNo(field)), rest);
    }
    if first == b'r' {
        return (Root::Returned, skip(bytes, 3));
    }
    (Root::Thrown, skip(bytes, 3))
}

/// A field behind a full stop.
#[tactic(auto, unfolding(crate::specs::Guess::field_at))]
fn field_at(bytes: &[u8]) -> (FieldNo, &[u8])
    ensures field { result.0 ≡ (field_at bytes.now).0 }
    ensures rest { result.1.now ≡ (field_at bytes.now).1 }
{
    let (number, rest) = number_at(skip(bytes, 1));
    (FieldNo(number), rest)
}

/// Two more fields at most, each behind a full stop.
#[tactic(auto, unfolding(crate::specs::Guess::second_at))]
fn second_at(first: FieldNo, bytes: &[u8]) -> (Fields, &[u8])
    ensures fields { result.0 ≡ (second_at first bytes.now).0 }
    ensures rest { result.1.now ≡ (second_at first bytes.now).1 }
{
    if first_byte(bytes) != b'.' {
        return (Fields::One(first), bytes);
    }
    let (second, rest) = field_at(bytes);
    if first_byte(rest) != b'.' {
        return (Fields::Two(first, second), rest);
    }
    let (third, rest) = field_at(rest);
    (Fields::Three(first, second, third), rest)
}

/// Three fields at most, each behind a full stop.
#[tactic(auto, unfolding(crate::specs::Guess::fields_at))]
fn fields_at(bytes: &[u8]) -> (Fields, &[u8])
    ensures fields { result.0 ≡ (fields_at bytes.now).0 }
    ensures rest { result.1.now ≡ (fields_at bytes.now).1 }
{
    if first_byte(bytes) != b'.' {
        return (Fields::Zero, bytes);
    }
    let (first, rest) = field_at(bytes);
    second_at(first, rest)
}

/// A path.
#[tactic(auto, unfolding(crate::specs::Guess::path_at))]
fn path_at(bytes: &[u8]) -> (Path, &[u8])
    ensures path { result.0 ≡ (path_at bytes.now).0 }
    ensures rest { result.1.now ≡ (path_at bytes.now).1 }
{
    let (root, rest) = root_at(bytes);
    let (fields, rest) = fields_at(rest);
    (Path::along(root, fields), rest)
}

/// A set of paths.
#[tactic(auto, unfolding(crate::specs::Guess::paths_at))]
fn paths_at(bytes: &[u8]) -> (PathSet, &[u8])
    ensures paths { result.0 ≡ (paths_at bytes.now).0 }
    ensures rest { result.1.now ≡ (paths_at bytes.now).1 }
{
    if first_byte(bytes) == b'-' {
        return (PathSet::empty(), skip(bytes, 1));
    }
    let (path, rest) = path_at(bytes);
    more_at(PathSet::empty().add(&path).set, rest)
}

/// The set with at most five more paths, each after a comma.
fn more_at(set: PathSet, bytes: &[u8]) -> (PathSet, &[u8])
    ensures paths { result.0 ≡ (more_at 5 set bytes.now).0 }
    ensures rest { result.1.now ≡ (more_at 5 set bytes.now).1 }
{
    let mut paths = set;
    let mut rest = bytes;
    let mut left: usize = 5;
    while left > 0 {
        if first_byte(rest) != b',' {
            return (paths, rest);
        }
        let (path, after) = path_at(skip(rest, 1));
        paths = paths.add(&path).set;
        rest = after;
        left -= 1;
    }
    (paths, rest)
}

/// What is known of an object.
#[tactic(auto, unfolding(crate::specs::Guess::tuple_at))]
fn tuple_at(bytes: &[u8]) -> (PlainFact, &[u8])
    ensures fact { result.0 ≡ (tuple_at bytes.now).0 }
    ensures rest { result.1.now ≡ (tuple_at bytes.now).1 }
{
    let unique = first_byte(skip(bytes, 2)) == b'1';
    let (state, rest) = small_at(skip(bytes, 4));
    let may = first_byte(skip(rest, 1)) == b'1';
    let (must, rest) = paths_at(skip(rest, 3));
    let (must_not, rest) = paths_at(skip(rest, 1));
    let tuple = PlainTuple {
        unique,
        state,
        must,
        may,
        must_not,
    };
    (PlainFact::OfObject(tuple), rest)
}

/// A fact.
#[tactic(auto, unfolding(crate::specs::Guess::fact_at))]
fn fact_at(bytes: &[u8]) -> (PlainFact, &[u8])
    ensures fact { result.0 ≡ (fact_at bytes.now).0 }
    ensures rest { result.1.now ≡ (fact_at bytes.now).1 }
{
    let first = first_byte(bytes);
    if first == b'n' {
        return (PlainFact::NoneYet, skip(bytes, 4));
    }
    if first == b's' {
        return (PlainFact::SomeYet, skip(bytes, 4));
    }
    tuple_at(bytes)
}

/// A spot.
#[tactic(auto, unfolding(crate::specs::Guess::spot_at))]
fn spot_at(bytes: &[u8]) -> (Spot, &[u8])
    ensures spot { result.0 ≡ (spot_at bytes.now).0 }
    ensures rest { result.1.now ≡ (spot_at bytes.now).1 }
{
    let first = first_byte(bytes);
    if first == b'r' {
        return (Spot::Returned, skip(bytes, 3));
    }
    if first == b'e' {
        return (Spot::Thrown, skip(bytes, 3));
    }
    let (offset, rest) = number_at(bytes);
    (Spot::Node(offset), rest)
}

/// A path edge, with its stage and its site.
#[tactic(auto, unfolding(crate::specs::Guess::edge_at))]
pub(crate) fn edge_at(alloc: Global, bytes: &[u8]) -> Result<(ListedEdge, &[u8]), AllocError>
    ensures edge { IfOk result (λ p. p.0 ≡ (edge_at bytes.now).0) }
    ensures rest { IfOk result (λ p. p.1.now ≡ (edge_at bytes.now).1) }
{
    let (stage, rest) = small_at(bytes);
    let (site, rest) = site_at(alloc, skip(rest, 1))?;
    let (method, rest) = method_at(skip(rest, 1));
    let (entry, rest) = fact_at(skip(rest, 1));
    let (spot, rest) = spot_at(skip(rest, 1));
    let (fact, rest) = fact_at(skip(rest, 1));
    Ok((
        ListedEdge {
            stage,
            site,
            method,
            entry,
            spot,
            fact,
        },
        rest,
    ))
}
