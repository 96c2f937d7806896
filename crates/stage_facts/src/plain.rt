//! The facts of a site as a program holds them.

use access_paths::PathSet;
use std::marker::Model;

/// What is known of one object of a site.
#[derive(Drop)]
pub struct PlainTuple {
    /// Whether it is the only object of its site.
    pub unique: bool,
    /// The state of its automaton.
    pub state: u8,
    /// Paths that refer to it.
    pub must: PathSet,
    /// Whether cells may hold it in which no path of `must` ends.
    pub may: bool,
    /// Paths that do not refer to it.
    pub must_not: PathSet,
}

impl Model for PlainTuple {
    ghost use Rattle.stage_facts.specs.Facts.{Tuple};

    ghost Value = { Tuple };

    ghost view = { λ t. record { unique = t.unique; state = t.state; must = t.must; may = t.may; must_not = t.must_not } };
}

/// What is known at a place of a program of the objects that are allocated at a site.
#[derive(Drop)]
pub enum PlainFact {
    /// None was allocated.
    NoneYet,
    /// At least one was allocated.
    SomeYet,
    /// Of one of them this is known.
    OfObject(PlainTuple),
}
