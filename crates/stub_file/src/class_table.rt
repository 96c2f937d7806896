//! The table of a class.

ghost use Rattle.std.specs.Prelude.{◌≡◌, ◌↔◌, cond, Err, IfOk, IsTrue, MatchResult, None, Ok, Some};
ghost use Rattle.toml.specs.View.{table_view};
ghost use Rattle.toml_tables.specs.Tables.{Finds, HasOnly};
ghost use Rattle.stub_file.specs.ClassParts.{SpellsClassHead, SpellsClassLists};
ghost use Rattle.stub_file.specs.StubFile.{GivesClass};
ghost use Rattle.stub_file.specs.StubSpelling.{class_keys, SpellsClass, SpellsSuper};

use crate::rules::is_sound_class;
use crate::spelled::list_at;
use jvm_model::grammar::is_class_name;
use jvm_model::{Bytes, Name, Sequence, StubClass, StubField, StubMethod};
use std::alloc::{AllocError, Global};
use toml::Table;
use toml_tables::{bytes_at, bytes_of, flag_at, has_only, optional_bytes_at};

/// The class that a table gives: it spells it, and the class keeps the rules.
pub(crate) fn class_of(
    alloc: Global,
    file: &str,
    table: &Table,
) -> Result<Option<StubClass>, AllocError>
    ensures { IfOk result (Finds (GivesClass file.now (table_view table.now))) }
{
    let Some(class) = class_in(alloc, file, table)? else {
        return Ok(None);
    };
    let sound = is_sound_class(alloc, &class);
    kept_if(class, sound)
}

/// The value, if it is to be kept.
fn kept_if<X: Drop>(value: X, kept: Result<bool, AllocError>) -> Result<Option<X>, AllocError>
    ensures { MatchResult kept (λ is. result ≡ Ok (cond is (Some value) None)) (λ e. result ≡ Err e) }
{
    if kept? { Ok(Some(value)) } else { Ok(None) }
}

/// What a table spells of a class beside its lists.
#[derive(Drop)]
struct ClassHead {
    name: Bytes,
    is_interface: bool,
    is_patch: bool,
    super_class: Bytes,
}

/// The lists of a class that a table spells.
#[derive(Drop)]
struct ClassLists {
    interfaces: Sequence<Bytes>,
    methods: Sequence<StubMethod>,
    fields: Sequence<StubField>,
}

/// The class that a table spells.
fn class_in(alloc: Global, file: &str, table: &Table) -> Result<Option<StubClass>, AllocError>
    ensures { IfOk result (Finds (SpellsClass file.now (table_view table.now))) }
{
    if !has_class_keys(table) {
        return Ok(None);
    }
    let Some(head) = head_in(alloc, table)? else {
        return Ok(None);
    };
    let Some(lists) = lists_in(alloc, table)? else {
        return Ok(None);
    };
    Ok(Some(StubClass {
        file: name_of(alloc, file)?,
        name: head.name,
        super_class: head.super_class,
        interfaces: lists.interfaces,
        is_interface: head.is_interface,
        is_patch: head.is_patch,
        methods: lists.methods,
        fields: lists.fields,
    }))
}

/// What the table of a class spells beside its lists.
fn head_in(alloc: Global, table: &Table) -> Result<Option<ClassHead>, AllocError>
    ensures { IfOk result (Finds (SpellsClassHead (table_view table.now))) }
{
    let Some(name) = bytes_at(alloc, table, "name")? else {
        return Ok(None);
    };
    let Some(is_interface) = flag_at(table, "interface") else {
        return Ok(None);
    };
    let Some(is_patch) = flag_at(table, "patch") else {
        return Ok(None);
    };
    let Some(super_class) = super_in(alloc, table, is_patch)? else {
        return Ok(None);
    };
    Ok(Some(ClassHead {
        name,
        is_interface,
        is_patch,
        super_class,
    }))
}

/// The lists that the table of a class spells.
fn lists_in(alloc: Global, table: &Table) -> Result<Option<ClassLists>, AllocError>
    ensures { IfOk result (Finds (SpellsClassLists (table_view table.now))) }
{
    let Some(interfaces) = list_at(alloc, table, "interfaces")? else {
        return Ok(None);
    };
    let Some(methods) = list_at(alloc, table, "method")? else {
        return Ok(None);
    };
    let Some(fields) = list_at(alloc, table, "field")? else {
        return Ok(None);
    };
    Ok(Some(ClassLists {
        interfaces,
        methods,
        fields,
    }))
}

/// Whether each key of the table is one of a class.
fn has_class_keys(table: &Table) -> bool
    ensures { IsTrue result ↔ HasOnly class_keys (table_view table.now) }
{
    has_only(
        table,
        &[
            "name",
            "super",
            "interfaces",
            "interface",
            "patch",
            "method",
            "field",
        ],
    )
}

/// The superclass that the table of a class names, empty for a patch.
fn super_in(alloc: Global, table: &Table, is_patch: bool) -> Result<Option<Bytes>, AllocError>
    ensures { IfOk result (Finds (SpellsSuper (table_view table.now) is_patch)) }
{
    let Some(named) = optional_bytes_at(alloc, table, "super")? else {
        return Ok(None);
    };
    match named {
        Some(super_class) if !is_patch && is_class_name(super_class.as_slice()) => {
            Ok(Some(super_class))
        }
        Some(_) => Ok(None),
        None if is_patch => Ok(Some(Bytes::from_vec(Vec::new(alloc)))),
        None => Ok(Some(bytes_of(alloc, "java/lang/Object")?)),
    }
}

/// A copy of the text, as a name.
fn name_of(alloc: Global, text: &str) -> Result<Name, AllocError>
    ensures { IfOk result (λ name. name ≡ text.now) }
{
    Ok(Name::from_string(String::from_str(alloc, text)?))
}
