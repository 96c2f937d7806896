//! The reading of a property file: its document, and then the keys of its table in their order.

ghost use Rattle.std.specs.Prelude.{◌≡◌, ◌⊎◌, ◌↔◌, ◌<◌, ◌≤◌, length, Ok, Err, option_copied, IfOk, IfErr, IsTrue};
ghost use Rattle.std.specs.Str.{bytes_eq};
ghost use Rattle.toml.specs.View.{table_view};
ghost use Rattle.jvm_model.specs.declared.automaton.Automaton.{Automaton};
ghost use Rattle.jvm_model.specs.Automata.{all_differ, IsAutomaton};
ghost use Rattle.toml_tables.specs.Documents.{document_limit};
ghost use Rattle.toml_tables.specs.Tables.{Finds, FindsOtherKey};
ghost use Rattle.failure.specs.declared.Failure.TheVariants.{Cause, OutOfMemory};
ghost use Rattle.property_file.specs.declared.property_failure.PropertyFault.TheVariants.{BadToml};
ghost use Rattle.property_file.specs.PropertyFile.{file_keys, GivesAutomaton, IsPropertyFile};
ghost use Rattle.property_file.specs.Reading.{IsTableRefusal};
ghost use Rattle.property_file.specs.Refusals.{IsPropertyRefusal};
ghost use Rattle.property_file.specs.Rules.{GivesVersion, GivesClass, GivesError};

use crate::event_list::events_at;
use crate::property_failure::{PropertyFailure, PropertyFault, refusal_of, required};
use crate::state_list::{state_at, states_at};
use failure::Failure;
use jvm_model::grammar::is_class_name;
use jvm_model::{Automaton, Bytes, Name};
use std::alloc::{AllocError, Global};
use toml::Table;
use toml_tables::{NoDocument, bytes_of, integer_at, other_key, read_table, text_at};

/// Reads the bytes of a property file: the automaton that its table gives.
///
/// It answers `BadToml` where the bytes are too many or are no TOML document, `BadProperty` with the first key whose
/// rule is broken, and `OutOfMemory` where an allocation fails. Every answer but `OutOfMemory` is determined by the bytes.
pub fn read_property(alloc: Global, bytes: &[u8]) -> Result<Automaton, PropertyFailure>
    ensures found { IfOk result (IsPropertyFile bytes.now) }
    ensures sound { IfOk result IsAutomaton }
    ensures only { (a : Automaton) → IsPropertyFile bytes.now a → (result ≡ Ok a) ⊎ (result ≡ Err OutOfMemory) }
    ensures refused { IfErr result (IsPropertyRefusal bytes.now) }

    // Such bytes are not even read.
    ensures large { document_limit < length bytes.now → result ≡ Err (Cause BadToml) }
{
    match read_table(alloc, bytes) {
        Ok(table) => automaton_in(alloc, &table),
        Err(Failure::Cause(NoDocument)) => Err(Failure::Cause(PropertyFault::BadToml)),
        Err(Failure::OutOfMemory) => Err(Failure::OutOfMemory),
    }
}

/// The automaton of a table, or the key that is named in its refusal.
fn automaton_in(alloc: Global, table: &Table) -> Result<Automaton, PropertyFailure>
    ensures found { IfOk result (GivesAutomaton (table_view table.now)) }
    ensures refused { IfErr result (IsTableRefusal (table_view table.now)) }
{
    if !has_version(table) {
        return Err(refusal_of(alloc, "version"));
    }
    let class_name = required(alloc, "class", class_name_at(alloc, table)?)?;
    let states = required(alloc, "states", states_at(alloc, table)?)?;
    let names = states.as_slice();
    let initial = required(alloc, "initial", state_at(names, table, "initial"))?;
    let error = required(alloc, "error", error_at(names, initial, table))?;
    let events = required(alloc, "event", events_at(alloc, names, error, table)?)?;
    if let Some(key) = other_file_key(table) {
        return Err(refusal_of(alloc, key));
    }
    Ok(Automaton {
        class_name,
        states,
        initial,
        error,
        events,
    })
}

/// Whether the table gives the version of the format, which is 1.
fn has_version(table: &Table) -> bool
    ensures { IsTrue result ↔ GivesVersion (table_view table.now) }
{
    match integer_at(table, "version") {
        Some(version) => version == 1,
        None => false,
    }
}

/// The name of a class that a table gives.
fn class_name_at(alloc: Global, table: &Table) -> Result<Option<Bytes>, AllocError>
    ensures { IfOk result (Finds (GivesClass (table_view table.now))) }
{
    match text_at(table, "class") {
        Some(name) if is_class_name(name.as_bytes()) => Ok(Some(bytes_of(alloc, name)?)),
        _ => Ok(None),
    }
}

/// The number of the error state that a table gives, which is not the initial one.
fn error_at(states: &[Name], initial: u8, table: &Table) -> Option<u8>
    requires limit { length states.now ≤ 32 }
    requires differ { IsTrue (all_differ bytes_eq states.now) }
    ensures { Finds (GivesError states.now initial (table_view table.now)) result }
{
    let Some(error) = state_at(states, table, "error") else {
        return None;
    };
    if error != initial { Some(error) } else { None }
}

/// The least key of the table that is none of a property file.
fn other_file_key<'a>(table: &'a Table) -> Option<&'a str>
    ensures { FindsOtherKey file_keys (table_view table.now) (option_copied result) }
{
    other_key(
        table,
        &["version", "class", "states", "initial", "error", "event"],
    )
}
