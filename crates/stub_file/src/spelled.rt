//! What a value of a table spells, and lists of such things.

ghost use Rattle.std.specs.Prelude.{IfOk};
ghost use Rattle.toml.specs.Data.{Data};
ghost use Rattle.toml.specs.View.{items_view, table_view, view};
ghost use Rattle.toml_tables.specs.Tables.{Finds};
ghost use Rattle.stub_file.specs.StubReading.{ValueSpells};
ghost use Rattle.stub_file.specs.StubSpelling.{AllSpell, ListsAt, SpellsList, SpellsName, SpellsText};

use jvm_model::{Bytes, Sequence};
use std::alloc::{AllocError, Global};
use toml::{Table, Value};
use toml_tables::{bytes_of, value_at};

/// What a value can spell.
pub(crate) trait Spelled: Drop {
    ghost spells: { Data → Self → Type 0 };

    /// What the value spells, if it spells such a thing.
    fn read(alloc: Global, value: &Value) -> Result<Option<Self>, AllocError>
        ensures { IfOk result (Finds (ValueSpells spells value.now)) };
}

/// A text spells its bytes.
impl Spelled for Bytes {
    ghost spells = { SpellsText SpellsName };

    fn read(alloc: Global, value: &Value) -> Result<Option<Bytes>, AllocError> {
        match value.as_str() {
            Some(text) => Ok(Some(bytes_of(alloc, text)?)),
            None => Ok(None),
        }
    }
}

/// What the values at a key spell, if each spells one of these and a list stands there. Without the key there are
/// none.
pub(crate) fn list_at<X: Spelled>(
    alloc: Global,
    table: &Table,
    key: &str,
) -> Result<Option<Sequence<X>>, AllocError>
    ensures { IfOk result (Finds (ListsAt key.now X.spells (table_view table.now))) }
{
    match value_at(table, key) {
        Some(value) => list_of(alloc, value),
        None => Ok(Some(Sequence::from_vec(Vec::new(alloc)))),
    }
}

/// What the items of a list spell.
fn list_of<X: Spelled>(alloc: Global, value: &Value) -> Result<Option<Sequence<X>>, AllocError>
    ensures { IfOk result (Finds (SpellsList X.spells (view value.now))) }
{
    match value.as_array() {
        Some(values) => items_of(alloc, values.as_slice()),
        None => Ok(None),
    }
}

/// What these values spell.
fn items_of<X: Spelled>(alloc: Global, values: &[Value]) -> Result<Option<Sequence<X>>, AllocError>
    ensures { IfOk result (Finds (AllSpell X.spells (items_view values.now))) }
{
    let mut items = Vec::new(alloc);
    for value in values {
        match X::read(alloc, value)? {
            Some(item) => items.push(item)?,
            None => return Ok(None),
        }
    }
    Ok(Some(Sequence::from_vec(items)))
}
