//! One document with a value of each kind: what stands at its keys, and which keys it has.

use crate::seen::{see, see_text};
use failure::Failure;
use jvm_model::Bytes;
use std::alloc::{AllocError, Global};
use std::process::Abort;
use std::test::Fail;
use toml::Table;
use toml_tables::{
    NoDocument, array_at, bytes_at, bytes_of, flag_at, has_only, integer_at, one_document,
    optional_bytes_at, other_key, read_table, text_at, value_at,
};

/// A value of each kind.
const DOCUMENT: &str = "name = \"F\"\ncount = 3\nopen = true\nlist = [1, \"two\"]\n";

/// Looks for values at keys.
fn look_at_keys(rt: &impl Abort, table: &Table) {
    see(rt, text_at(table, "name"), Some("F"));
    see(rt, integer_at(table, "count"), Some(3));
    let flags = [flag_at(table, "open"), flag_at(table, "shut")];
    see(rt, flags, [Some(true), Some(false)]);
    see(rt, array_at(table, "list").unwrap_or(&[]).len(), 2);
    let values = [value_at(table, "list"), value_at(table, "other")];
    see(
        rt,
        [values[0].is_some(), values[1].is_some()],
        [true, false],
    );
}

/// Looks for other keys.
fn look_at_other_keys(rt: &impl Abort, table: &Table) {
    let among_more = has_only(table, &["name", "count", "open", "list", "other"]);
    let among_fewer = has_only(table, &["name", "count"]);
    see(rt, [among_more, among_fewer], [true, false]);
    see(rt, other_key(table, &["count", "name"]), Some("list"));
}

#[test]
fn finds_what_stands_in_a_table(rt: HostRuntime) -> Result<(), Fail> {
    let table = read_table(rt.alloc(), DOCUMENT.as_bytes())?;
    look_at_keys(&rt, &table);
    look_at_other_keys(&rt, &table);
    Ok(())
}

/// What was copied: a text, or a word for none.
fn shown(copied: Option<&Bytes>) -> &[u8] {
    match copied {
        Some(text) => text.as_slice(),
        None => b"no text",
    }
}

/// The same, where the key may be missing.
fn shown_optional(copied: &Option<Option<Bytes>>) -> &[u8] {
    match copied {
        Some(text) => shown(text.as_ref()),
        None => b"something else",
    }
}

/// Copies a text, alone and at a key.
fn copy_texts(rt: &impl Abort, alloc: Global, table: &Table) -> Result<(), AllocError> {
    see(rt, bytes_of(alloc, "F")?.as_slice(), b"F".as_slice());
    see(rt, shown(bytes_at(alloc, table, "name")?.as_ref()), b"F");
    Ok(())
}

/// Copies the text at a key that may be missing.
fn copy_optional_text(
    rt: &impl Abort,
    alloc: Global,
    table: &Table,
    key: &str,
    want: &[u8],
) -> Result<(), AllocError> {
    let copied = optional_bytes_at(alloc, table, key)?;
    see(rt, shown_optional(&copied), want);
    Ok(())
}

/// Copies the text of a document at a key, and looks for texts at keys that have none.
fn copy_all(rt: &impl Abort, alloc: Global, table: &Table) -> Result<(), AllocError> {
    copy_texts(rt, alloc, table)?;
    copy_optional_text(rt, alloc, table, "name", b"F")?;
    copy_optional_text(rt, alloc, table, "other", b"no text")?;
    copy_optional_text(rt, alloc, table, "count", b"something else")
}

#[test]
fn copies_the_text_at_a_key(rt: HostRuntime) -> Result<(), Fail> {
    let table = read_table(rt.alloc(), DOCUMENT.as_bytes())?;
    copy_all(&rt, rt.alloc(), &table)?;
    Ok(())
}

/// Whether the bytes are no document.
fn is_refused(alloc: Global, bytes: &[u8]) -> bool {
    matches!(read_table(alloc, bytes), Err(Failure::Cause(NoDocument)))
}

#[test]
fn refuses_what_is_no_document(rt: HostRuntime) {
    one_document();
    let refused = [
        is_refused(rt.alloc(), b"name ="),
        is_refused(rt.alloc(), b"# \xff"),
    ];
    see(&rt, refused, [true, true]);
}

#[test]
fn says_that_there_is_no_document(rt: HostRuntime) -> Result<(), AllocError> {
    let want = "no TOML document of at most 1048576 bytes";
    see_text(&rt, rt.alloc(), NoDocument, want)
}
