//! What a table has at a key, as one kind of value, the keys that it has beside some, and the bytes of a text.

ghost use Rattle.std.specs.Prelude.{◌≡◌, ◌↔◌, map, option_copied, option_map, IfOk, IsTrue, Some};
ghost use Rattle.std.specs.List.{list_any};
ghost use Rattle.std.specs.Str.{bytes_eq};
ghost use Rattle.toml.specs.Data.{array, integer, string, get_member};
ghost use Rattle.toml.specs.View.{items_view, table_view, view};
ghost use Rattle.toml_tables.specs.Tables.{Finds, FindsOtherKey, HasOnly, IsFlagAt, IsTextAt};

use jvm_model::Bytes;
use std::alloc::{AllocError, Global};
use toml::{Table, Value};

/// Whether each key of the table is one of these.
pub fn has_only(table: &Table, keys: &[&str]) -> bool
    ensures { IsTrue result ↔ HasOnly (map (λ key. key.now) keys.now) (table_view table.now) }
{
    other_key(table, keys).is_none()
}

/// The first of the keys of a table that are none of these; it is the least.
pub fn other_key<'a>(table: &'a Table, keys: &[&str]) -> Option<&'a str>
    ensures { FindsOtherKey (map (λ key. key.now) keys.now) (table_view table.now) (option_copied result) }
{
    match table.keys().find(|found| !is_among(found.as_str(), keys)) {
        Some(found) => Some(found.as_str()),
        None => None,
    }
}

/// Whether the text is one of these.
fn is_among(text: &str, keys: &[&str]) -> bool
    ensures { result ≡ list_any (λ key. bytes_eq text.now key.now) keys.now }
{
    keys.iter().any(|key| text == *key)
}

/// The value at a key.
pub fn value_at<'a>(table: &'a Table, key: &str) -> Option<&'a Value>
    ensures { option_map (λ value. view value.now) result ≡ get_member key.now (table_view table.now) }
{
    table.get(key)
}

/// The text at a key, if a text stands there.
pub fn text_at<'a>(table: &'a Table, key: &str) -> Option<&'a str>
    ensures { Finds (IsTextAt key.now (table_view table.now)) (option_copied result) }
{
    match value_at(table, key) {
        Some(value) => value.as_str(),
        None => None,
    }
}

/// The integer at a key, if an integer stands there.
pub fn integer_at(table: &Table, key: &str) -> Option<i64>
    ensures { Finds (λ number. get_member key.now (table_view table.now) ≡ Some (integer number)) result }
{
    match value_at(table, key) {
        Some(value) => value.as_integer(),
        None => None,
    }
}

/// The items of the list at a key, if a list stands there.
pub fn array_at<'a>(table: &'a Table, key: &str) -> Option<&'a [Value]>
    ensures { Finds (λ items. get_member key.now (table_view table.now) ≡ Some (array items))
        (option_map (λ values. items_view values.now) result) }
{
    match value_at(table, key) {
        Some(value) => match value.as_array() {
            Some(values) => Some(values.as_slice()),
            None => None,
        },
        None => None,
    }
}

/// The flag at a key, which is false without the key, or `None` if something else stands there.
pub fn flag_at(table: &Table, key: &str) -> Option<bool>
    ensures { Finds (IsFlagAt key.now (table_view table.now)) result }
{
    match value_at(table, key) {
        Some(value) => value.as_bool(),
        None => Some(false),
    }
}

/// The bytes of the text at a key, if a text stands there. It fails only out of memory.
pub fn bytes_at(alloc: Global, table: &Table, key: &str) -> Result<Option<Bytes>, AllocError>
    ensures { IfOk result (Finds (IsTextAt key.now (table_view table.now))) }
{
    match text_at(table, key) {
        Some(text) => Ok(Some(bytes_of(alloc, text)?)),
        None => Ok(None),
    }
}

/// The bytes of the text at a key, `Some(None)` without the key, and `None` if something else stands there. It fails only
/// out of memory.
pub fn optional_bytes_at(
    alloc: Global,
    table: &Table,
    key: &str,
) -> Result<Option<Option<Bytes>>, AllocError>
    ensures { IfOk result (Finds (λ found. get_member key.now (table_view table.now) ≡ option_map string found)) }
{
    match value_at(table, key) {
        Some(value) => match value.as_str() {
            Some(text) => Ok(Some(Some(bytes_of(alloc, text)?))),
            None => Ok(None),
        },
        None => Ok(Some(None)),
    }
}

/// A copy of a text's bytes. It fails only out of memory.
pub fn bytes_of(alloc: Global, text: &str) -> Result<Bytes, AllocError>
    ensures { IfOk result (λ bytes. bytes ≡ text.now) }
{
    Ok(Bytes::from_vec(Vec::from_slice(alloc, text.as_bytes())?))
}
