//! The states of a property file, and the numbers that its names of states stand for.

ghost use Rattle.std.specs.Prelude.{◌≡◌, ◌↔◌, ◌≤◌, length, All, Some, slice_get, IfOk, IsTrue};
ghost use Rattle.std.specs.List.{AllZip, list_any};
ghost use Rattle.std.specs.Str.{bytes_eq};
ghost use Rattle.jvm_model.specs.Automata.{all_differ, is_state_name};
ghost use Rattle.toml.specs.View.{table_view};
ghost use Rattle.toml_tables.specs.Tables.{Finds};
ghost use Rattle.property_file.specs.Reading.{IsText, IsStateText};
ghost use Rattle.property_file.specs.Rules.{NamesState, GivesStates};

use jvm_model::grammar::is_state_name;
use jvm_model::{Name, Sequence};
use std::alloc::{AllocError, Global};
use toml::{Table, Value};
use toml_tables::{array_at, text_at};

/// The states that a table gives: 2 to 32 different names.
pub(crate) fn states_at(alloc: Global, table: &Table) -> Result<Option<Sequence<Name>>, AllocError>
    ensures { IfOk result (Finds (GivesStates (table_view table.now))) }
{
    let Some(values) = array_at(table, "states") else {
        return Ok(None);
    };
    if !is_state_count(values.len()) {
        return Ok(None);
    }
    let Some(states) = texts_of(alloc, values)? else {
        return Ok(None);
    };
    if are_states(states.as_slice()) {
        Ok(Some(states))
    } else {
        Ok(None)
    }
}

/// Whether an automaton may have so many states.
fn is_state_count(count: usize) -> bool
    ensures { IsTrue result ↔ ((2 ≤ count) × (count ≤ 32)) }
{
    2 <= count && count <= 32
}

/// Whether the names are different names of states.
fn are_states(names: &[Name]) -> bool
    ensures { IsTrue result
        ↔ (All (λ name. IsTrue (is_state_name name)) names.now × IsTrue (all_differ bytes_eq names.now)) }
{
    are_state_names(names) && names_differ(names)
}

/// Whether each text may name a state.
fn are_state_names(names: &[Name]) -> bool
    ensures { IsTrue result ↔ All (λ name. IsTrue (is_state_name name)) names.now }
{
    names
        .iter()
        .all(|name| is_state_name(name.as_str().as_bytes()))
}

/// Whether no name stands there twice.
fn names_differ(names: &[Name]) -> bool
    ensures { result ≡ all_differ bytes_eq names.now }
{
    for (place, name) in names.iter().enumerate() {
        if is_among_names(name, &names[place + 1..]) {
            return false;
        }
    }
    true
}

/// Whether the name is one of these.
fn is_among_names(name: &Name, names: &[Name]) -> bool
    ensures { result ≡ list_any (bytes_eq name.now) names.now }
{
    names.iter().any(|other| name.as_str() == other.as_str())
}

/// The texts of an array, if it has only texts.
fn texts_of(alloc: Global, values: &[Value]) -> Result<Option<Sequence<Name>>, AllocError>
    requires { length values.now ≤ 32 }
    ensures { IfOk result (Finds (AllZip IsText values.now)) }
{
    let mut texts = Vec::new(alloc);
    for value in values {
        match value.as_str() {
            Some(text) => texts.push(Name::from_string(String::from_str(alloc, text)?))?,
            None => return Ok(None),
        }
    }
    Ok(Some(Sequence::from_vec(texts)))
}

/// The number of the first state with this name.
fn state_number(states: &[Name], name: &str) -> Option<u8>
    requires { length states.now ≤ 32 }
    ensures { Finds (λ number. slice_get states.now number ≡ Some name.now) result }
{
    for (number, state) in states.iter().enumerate() {
        if state.as_str() == name {
            return Some(number as u8);
        }
    }
    None
}

/// The number of the state whose name stands at a key.
pub(crate) fn state_at(states: &[Name], table: &Table, key: &str) -> Option<u8>
    requires { length states.now ≤ 32 }
    ensures { Finds (NamesState states.now key.now (table_view table.now)) result }
{
    match text_at(table, key) {
        Some(name) => state_number(states, name),
        None => None,
    }
}

/// The numbers of the states that the values of an array name, if it has only names of states.
pub(crate) fn state_numbers(
    alloc: Global,
    states: &[Name],
    values: &[Value],
) -> Result<Option<Sequence<u8>>, AllocError>
    requires limit { length states.now ≤ 32 }
    requires few { length values.now ≤ 32 }
    ensures { IfOk result (Finds (AllZip (IsStateText states.now) values.now)) }
{
    let mut numbers = Vec::new(alloc);
    for value in values {
        match state_of(states, value) {
            Some(number) => numbers.push(number)?,
            None => return Ok(None),
        }
    }
    Ok(Some(Sequence::from_vec(numbers)))
}

/// The number of the state that a value names.
fn state_of(states: &[Name], value: &Value) -> Option<u8>
    requires { length states.now ≤ 32 }
    ensures { Finds (IsStateText states.now value.now) result }
{
    match value.as_str() {
        Some(name) => state_number(states, name),
        None => None,
    }
}
