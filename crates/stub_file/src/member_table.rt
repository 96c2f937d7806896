//! The tables of methods and fields.

ghost use Rattle.std.specs.Prelude.{◌↔◌, IfOk, IsTrue};
ghost use Rattle.toml.specs.View.{table_view};
ghost use Rattle.toml_tables.specs.Tables.{Finds, HasOnly};
ghost use Rattle.stub_file.specs.StubSpelling.{field_keys, method_keys, SpellsField, SpellsMethod, SpellsTable};

use crate::spelled::{Spelled, list_at};
use jvm_model::{StubField, StubMethod};
use std::alloc::{AllocError, Global};
use toml::{Table, Value};
use toml_tables::{bytes_at, flag_at, has_only, optional_bytes_at};

/// The table of a method.
impl Spelled for StubMethod {
    ghost spells = { SpellsTable SpellsMethod };

    fn read(alloc: Global, value: &Value) -> Result<Option<StubMethod>, AllocError> {
        match value.as_table() {
            Some(table) => method_in(alloc, table),
            None => Ok(None),
        }
    }
}

/// The table of a field.
impl Spelled for StubField {
    ghost spells = { SpellsTable SpellsField };

    fn read(alloc: Global, value: &Value) -> Result<Option<StubField>, AllocError> {
        match value.as_table() {
            Some(table) => field_in(alloc, table),
            None => Ok(None),
        }
    }
}

/// The method that a table spells.
fn method_in(alloc: Global, table: &Table) -> Result<Option<StubMethod>, AllocError>
    ensures { IfOk result (Finds (SpellsMethod (table_view table.now))) }
{
    if !has_method_keys(table) {
        return Ok(None);
    }
    let Some(name) = bytes_at(alloc, table, "name")? else {
        return Ok(None);
    };
    let Some(descriptor) = bytes_at(alloc, table, "descriptor")? else {
        return Ok(None);
    };
    let Some(is_static) = flag_at(table, "static") else {
        return Ok(None);
    };
    let Some(is_abstract) = flag_at(table, "abstract") else {
        return Ok(None);
    };
    let Some(returns) = list_at(alloc, table, "returns")? else {
        return Ok(None);
    };
    let Some(throws) = list_at(alloc, table, "throws")? else {
        return Ok(None);
    };
    let Some(keeps) = list_at(alloc, table, "keeps")? else {
        return Ok(None);
    };
    Ok(Some(StubMethod {
        name,
        descriptor,
        is_static,
        is_abstract,
        returns,
        throws,
        keeps,
    }))
}

/// Whether each key of the table is one of a method.
fn has_method_keys(table: &Table) -> bool
    ensures { IsTrue result ↔ HasOnly method_keys (table_view table.now) }
{
    has_only(
        table,
        &[
            "name",
            "descriptor",
            "static",
            "abstract",
            "returns",
            "throws",
            "keeps",
        ],
    )
}

/// The field that a table spells.
fn field_in(alloc: Global, table: &Table) -> Result<Option<StubField>, AllocError>
    ensures { IfOk result (Finds (SpellsField (table_view table.now))) }
{
    if !has_field_keys(table) {
        return Ok(None);
    }
    let Some(name) = bytes_at(alloc, table, "name")? else {
        return Ok(None);
    };
    let Some(descriptor) = bytes_at(alloc, table, "descriptor")? else {
        return Ok(None);
    };
    let Some(is_static) = flag_at(table, "static") else {
        return Ok(None);
    };
    let Some(holds) = optional_bytes_at(alloc, table, "holds")? else {
        return Ok(None);
    };
    Ok(Some(StubField {
        name,
        descriptor,
        is_static,
        holds,
    }))
}

/// Whether each key of the table is one of a field.
fn has_field_keys(table: &Table) -> bool
    ensures { IsTrue result ↔ HasOnly field_keys (table_view table.now) }
{
    has_only(table, &["name", "descriptor", "static", "holds"])
}
