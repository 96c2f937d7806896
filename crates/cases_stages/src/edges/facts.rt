//! Facts as texts.

use access_paths::{Fields, Path, PathSet, Root};
use cases_files::Names;
use jvm_model::{Automaton, FieldNo};
use stage_facts::{PlainFact, PlainTuple};
use std::alloc::AllocError;

/// The names of a program, and the property whose states have names.
#[derive(Clone, Copy)]
pub struct Words<'w> {
    pub names: &'w Names,
    pub automaton: &'w Automaton,
}

/// Writes a fact.
pub fn write_fact(text: &mut String, words: Words<'_>, fact: &PlainFact) -> Result<(), AllocError> {
    match fact {
        PlainFact::NoneYet => text.push_str("none"),
        PlainFact::SomeYet => text.push_str("some"),
        PlainFact::OfObject(tuple) => write_tuple(text, words, tuple),
    }
}

/// Writes what is known of one object.
fn write_tuple(text: &mut String, words: Words<'_>, tuple: &PlainTuple) -> Result<(), AllocError> {
    let only = if tuple.unique { "only" } else { "any" };
    let state = state_name(words.automaton, tuple.state);
    write!(text, "[{only} {state} must")?;
    write_paths(text, words.names, &tuple.must)?;
    let may = if tuple.may { "may" } else { "sure" };
    write!(text, " {may} not")?;
    write_paths(text, words.names, &tuple.must_not)?;
    text.push_str("]")
}

/// The name of a state; `?` for a number that none has.
fn state_name(automaton: &Automaton, state: u8) -> &str {
    match automaton.states.as_slice().get(state as usize) {
        Some(name) => name.as_str(),
        None => "?",
    }
}

/// Writes the paths of a set, in their order.
fn write_paths(text: &mut String, names: &Names, set: &PathSet) -> Result<(), AllocError> {
    text.push_str("{")?;
    let mut between = "";
    for path in set.as_slice() {
        text.push_str(between)?;
        write_path(text, names, path)?;
        between = ",";
    }
    text.push_str("}")
}

/// Writes a path: its root, and the fields that it follows.
fn write_path(text: &mut String, names: &Names, path: &Path) -> Result<(), AllocError> {
    write_root(text, names, path.root())?;
    match path.fields() {
        Fields::Zero => Ok(()),
        Fields::One(first) => write_field(text, names, first),
        Fields::Two(first, second) => {
            write_field(text, names, first)?;
            write_field(text, names, second)
        }
        Fields::Three(first, second, third) => {
            write_field(text, names, first)?;
            write_field(text, names, second)?;
            write_field(text, names, third)
        }
    }
}

/// Writes where a path begins.
fn write_root(text: &mut String, names: &Names, root: Root) -> Result<(), AllocError> {
    match root {
        Root::Slot(slot) => write!(text, "{slot}"),
        Root::Static(field) => {
            let field = names.field(field);
            write!(text, "static {field}")
        }
        Root::Returned => text.push_str("returned"),
        Root::Thrown => text.push_str("thrown"),
    }
}

/// Writes a field that a path follows.
fn write_field(text: &mut String, names: &Names, field: FieldNo) -> Result<(), AllocError> {
    let field = names.field(field);
    write!(text, ".{field}")
}
