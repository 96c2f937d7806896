//! The events of a property file.

ghost use Rattle.std.specs.Prelude.{codes, ◌≡◌, ◌↔◌, ◌≤◌, length, Some, option_copied, slice_get, IfOk, IsTrue};
ghost use Rattle.std.specs.List.{AllZip, list_any};
ghost use Rattle.std.specs.Str.{bytes_eq};
ghost use Rattle.toml.specs.View.{table_view};
ghost use Rattle.jvm_model.specs.Automata.{all_differ, is_same_call};
ghost use Rattle.jvm_model.specs.Descriptors.{IsMethodDescriptor};
ghost use Rattle.jvm_model.specs.Names.{is_method_name};
ghost use Rattle.toml_tables.specs.Tables.{Finds, HasOnly, IsTextAt};
ghost use Rattle.property_file.specs.Reading.{IsEventTable};
ghost use Rattle.property_file.specs.Rules.{event_keys, GivesNext, GivesEvent, GivesEvents};

use crate::state_list::state_numbers;
use jvm_model::grammar::{is_method_descriptor, is_method_name};
use jvm_model::{Event, Name, Sequence};
use std::alloc::{AllocError, Global};
use toml::{Table, Value};
use toml_tables::{array_at, bytes_of, has_only, text_at};

/// The events that a table gives: 1 to 32, of different calls.
pub(crate) fn events_at(
    alloc: Global,
    states: &[Name],
    error: u8,
    table: &Table,
) -> Result<Option<Sequence<Event>>, AllocError>
    requires limit { length states.now ≤ 32 }
    requires differ { IsTrue (all_differ bytes_eq states.now) }
    ensures { IfOk result (Finds (GivesEvents states.now error (table_view table.now))) }
{
    let Some(values) = array_at(table, "event") else {
        return Ok(None);
    };
    if !is_event_count(values.len()) {
        return Ok(None);
    }
    let Some(events) = events_of(alloc, states, error, values)? else {
        return Ok(None);
    };
    if calls_differ(events.as_slice()) {
        Ok(Some(events))
    } else {
        Ok(None)
    }
}

/// Whether an automaton may have so many events.
fn is_event_count(count: usize) -> bool
    ensures { IsTrue result ↔ ((1 ≤ count) × (count ≤ 32)) }
{
    1 <= count && count <= 32
}

/// The events of an array, if it has only tables of events.
fn events_of(
    alloc: Global,
    states: &[Name],
    error: u8,
    values: &[Value],
) -> Result<Option<Sequence<Event>>, AllocError>
    requires few { length values.now ≤ 32 }
    requires limit { length states.now ≤ 32 }
    requires differ { IsTrue (all_differ bytes_eq states.now) }
    ensures { IfOk result (Finds (AllZip (IsEventTable states.now error) values.now)) }
{
    let mut events = Vec::new(alloc);
    for value in values {
        match event_of(alloc, states, error, value)? {
            Some(event) => events.push(event)?,
            None => return Ok(None),
        }
    }
    Ok(Some(Sequence::from_vec(events)))
}

/// The event of a value, if it is the table of one.
fn event_of(
    alloc: Global,
    states: &[Name],
    error: u8,
    value: &Value,
) -> Result<Option<Event>, AllocError>
    requires limit { length states.now ≤ 32 }
    requires differ { IsTrue (all_differ bytes_eq states.now) }
    ensures { IfOk result (Finds (IsEventTable states.now error value.now)) }
{
    match value.as_table() {
        Some(table) => event_in(alloc, states, error, table),
        None => Ok(None),
    }
}

/// The event of a table, if it is that of one.
fn event_in(
    alloc: Global,
    states: &[Name],
    error: u8,
    table: &Table,
) -> Result<Option<Event>, AllocError>
    requires limit { length states.now ≤ 32 }
    requires differ { IsTrue (all_differ bytes_eq states.now) }
    ensures { IfOk result (Finds (GivesEvent states.now error (table_view table.now))) }
{
    if !has_event_keys(table) {
        return Ok(None);
    }
    let Some(name) = method_name_at(table) else {
        return Ok(None);
    };
    let Some(descriptor) = method_descriptor_at(table) else {
        return Ok(None);
    };
    let Some(next) = next_at(alloc, states, error, table)? else {
        return Ok(None);
    };
    let name = bytes_of(alloc, name)?;
    let descriptor = bytes_of(alloc, descriptor)?;
    Ok(Some(Event {
        name,
        descriptor,
        next,
    }))
}

/// Whether the table has no key that is none of an event.
fn has_event_keys(table: &Table) -> bool
    ensures { IsTrue result ↔ HasOnly event_keys (table_view table.now) }
{
    has_only(table, &["name", "descriptor", "next"])
}

/// The name of a method that the table of an event gives.
fn method_name_at<'a>(table: &'a Table) -> Option<&'a str>
    ensures { Finds (λ name. IsTextAt (codes "name") (table_view table.now) name × IsTrue (is_method_name name))
        (option_copied result) }
{
    let name = text_at(table, "name")?;
    if is_method_name(name.as_bytes()) {
        Some(name)
    } else {
        None
    }
}

/// The descriptor of a method that the table of an event gives.
fn method_descriptor_at<'a>(table: &'a Table) -> Option<&'a str>
    ensures { Finds (λ text. IsTextAt (codes "descriptor") (table_view table.now) text × IsMethodDescriptor text)
        (option_copied result) }
{
    let descriptor = text_at(table, "descriptor")?;
    if is_method_descriptor(descriptor.as_bytes()) {
        Some(descriptor)
    } else {
        None
    }
}

/// The next states that the table of an event gives: one for each state, and of the error state itself.
fn next_at(
    alloc: Global,
    states: &[Name],
    error: u8,
    table: &Table,
) -> Result<Option<Sequence<u8>>, AllocError>
    requires limit { length states.now ≤ 32 }
    requires differ { IsTrue (all_differ bytes_eq states.now) }
    ensures { IfOk result (Finds (GivesNext states.now error (table_view table.now))) }
{
    let Some(values) = array_at(table, "next") else {
        return Ok(None);
    };
    if values.len() != states.len() {
        return Ok(None);
    }
    let Some(next) = state_numbers(alloc, states, values)? else {
        return Ok(None);
    };
    if stays(next.as_slice(), error) {
        Ok(Some(next))
    } else {
        Ok(None)
    }
}

/// Whether the next state of this state is the state itself.
fn stays(next: &[u8], state: u8) -> bool
    ensures { IsTrue result ↔ (slice_get next.now state ≡ Some state) }
{
    match next.get(usize::from(state)) {
        Some(number) => *number == state,
        None => false,
    }
}

/// Whether no call stands there twice.
fn calls_differ(events: &[Event]) -> bool
    ensures { result ≡ all_differ is_same_call events.now }
{
    for (place, event) in events.iter().enumerate() {
        if is_called_by(event, &events[place + 1..]) {
            return false;
        }
    }
    true
}

/// Whether one of the events is chosen by the same calls as this one.
fn is_called_by(event: &Event, events: &[Event]) -> bool
    ensures { result ≡ list_any (is_same_call event.now) events.now }
{
    events.iter().any(|other| is_same_call(event, other))
}

/// Whether two events are chosen by the same calls.
fn is_same_call(event: &Event, other: &Event) -> bool
    ensures { result ≡ is_same_call event.now other.now }
{
    event.name.as_slice() == other.name.as_slice()
        && event.descriptor.as_slice() == other.descriptor.as_slice()
}
