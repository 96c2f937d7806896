//! Stub files as bytes: the document, its keys outside the classes, and the classes in order.

ghost use Rattle.std.specs.Prelude.{codes, pos, ◌≡◌, ◌↔◌, ◌<◌, length, List, MatchOption, MatchResult, All, IfErr, IfOk, IsTrue};
ghost use Rattle.std.specs.List.{AllZip};
ghost use Rattle.std.specs.Option.{is_some};
ghost use Rattle.toml.specs.Data.{array, as_table, get_member, integer, Members};
ghost use Rattle.toml.specs.View.{items_view, table_view, view};
ghost use Rattle.jvm_model.specs.declared.stub.StubClass.{StubClass};
ghost use Rattle.toml_tables.specs.Documents.{document_limit, tables};
ghost use Rattle.toml_tables.specs.Tables.{Finds, HasOnly};
ghost use Rattle.failure.specs.declared.Failure.TheVariants.{Cause, OutOfMemory};
ghost use Rattle.stub_file.specs.declared.stub_failure.StubFault.TheVariants.{BadToml};
ghost use Rattle.stub_file.specs.StubFile.{file_keys, GivesClass, IsStubRefusal, IsStubFile, IsTableRefusal, SpellsFile};
ghost use Rattle.stub_file.specs.StubReading.{GivesTables, IsBreachAt, IsListRefusal};
ghost use Rattle.stub_file.specs.StubSpelling.{SpellsTable};

use crate::class_table::class_of;
use crate::stub_failure::{StubFailure, StubFault};
use failure::Failure;
use jvm_model::StubClass;
use std::alloc::{AllocError, Global};
use toml::{Table, Value};
use toml_tables::{NoDocument, array_at, has_only, integer_at, read_table};

/// The classes that a stub file describes, in its order; each names the file. `BadToml` says that there are more bytes
/// than 1,048,576, or that they are no TOML document; `BadStub` that a rule is broken, by a key outside the classes
/// or first by the class with this number; `OutOfMemory` that an allocation failed.
pub fn read_stubs(alloc: Global, file: &str, bytes: &[u8]) -> Result<Vec<StubClass>, StubFailure>
    ensures found { IfOk result (λ classes. IsStubFile file.now bytes.now classes.items) }

    // Whatever the bytes spell is read as these very classes.
    ensures only { (classes : List StubClass) → IsStubFile file.now bytes.now classes
        → MatchResult result (λ read. read.items ≡ classes) (λ refusal. refusal ≡ OutOfMemory) }
    ensures refused { IfErr result (IsStubRefusal file.now bytes.now) }

    // Such bytes are not even read.
    ensures large { document_limit < length bytes.now → result ≡ Err (Cause BadToml) }
{
    match read_table(alloc, bytes) {
        Ok(table) => classes_in(alloc, file, &table),
        Err(Failure::Cause(NoDocument)) => Err(Failure::Cause(StubFault::BadToml)),
        Err(Failure::OutOfMemory) => Err(Failure::OutOfMemory),
    }
}

/// The classes of a table, if it is that of a stub file.
fn classes_in(alloc: Global, file: &str, table: &Table) -> Result<Vec<StubClass>, StubFailure>
    ensures found { IfOk result (λ classes. SpellsFile file.now (table_view table.now) classes.items) }
    ensures refused { IfErr result (IsTableRefusal file.now (table_view table.now)) }
{
    if !has_file_keys(table) || !has_version(table) {
        return Err(Failure::Cause(StubFault::BadStub(None)));
    }
    match class_values(table) {
        Some(values) => classes_of(alloc, file, values),
        None => Err(Failure::Cause(StubFault::BadStub(None))),
    }
}

/// Whether each key of the table is one of a stub file.
fn has_file_keys(table: &Table) -> bool
    ensures { IsTrue result ↔ HasOnly file_keys (table_view table.now) }
{
    has_only(table, &["version", "class"])
}

/// Whether the table gives the version of the format, which is 1.
fn has_version(table: &Table) -> bool
    ensures { IsTrue result ↔ (get_member (codes "version") (table_view table.now) ≡ Some (integer (pos 1))) }
{
    match integer_at(table, "version") {
        Some(version) => version == 1,
        None => false,
    }
}

/// The tables of the classes, if a list of tables stands there.
fn class_values<'a>(table: &'a Table) -> Option<&'a [Value]>
    ensures { MatchOption result
        ((class_tables : List Members) → get_member (codes "class") (table_view table.now) ≡ Some (array (tables class_tables)) → ⊥)
        (λ values. GivesTables (table_view table.now) values.now) }
{
    let values = array_at(table, "class")?;
    if are_tables(values) {
        Some(values)
    } else {
        None
    }
}

/// Whether each value is a table.
fn are_tables(values: &[Value]) -> bool
    ensures { IsTrue result ↔ All (λ value. IsTrue (is_some (as_table (view value)))) values.now }
{
    values.iter().all(|value| value.is_table())
}

/// The classes of these tables. The number of a class fits, since a file within the limit has fewer classes.
fn classes_of(alloc: Global, file: &str, values: &[Value]) -> Result<Vec<StubClass>, StubFailure>
    ensures { (class_tables : List Members) → items_view values.now ≡ tables class_tables
        → MatchResult result (λ classes. AllZip (GivesClass file.now) class_tables classes.items) (IsListRefusal file.now class_tables) }
{
    let mut classes = Vec::new(alloc);
    for (number, value) in values.iter().enumerate() {
        match class_at(alloc, file, value)? {
            Some(class) => classes.push(class)?,
            None => return Err(breach_at(number)),
        }
    }
    Ok(classes)
}

/// The class of a value, if it is the table of one.
fn class_at(alloc: Global, file: &str, value: &Value) -> Result<Option<StubClass>, AllocError>
    ensures { IfOk result (Finds (SpellsTable (GivesClass file.now) (view value.now))) }
{
    match value.as_table() {
        Some(table) => class_of(alloc, file, table),
        None => Ok(None),
    }
}

/// That the class with this number breaks a rule.
fn breach_at(number: usize) -> StubFailure
    ensures { IsBreachAt number result }
{
    match u32::try_from(number) {
        Ok(number) => Failure::Cause(StubFault::BadStub(Some(number))),
        Err(_) => Failure::OutOfMemory,
    }
}
