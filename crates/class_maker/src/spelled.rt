//! What a class file is written from, and the tables of it: a count, and that many structures of one kind.

ghost use Rattle.std.specs.Prelude.{◌≡◌, ℕ, List, ◌++◌, All, OnOk};
ghost use Rattle.std.specs.List.{flat_map};
ghost use Rattle.jvm_model.specs.Spelling.{table};
ghost use Rattle.class_maker.specs.Counts.{IsCountedTable};

use crate::number::push_u2;
use std::alloc::AllocError;

/// What has a spelling in a class file: an index, an entry of the constant pool, an attribute, a field or a method.
pub(crate) trait Spelled {
    ghost spelling: { Self → List ℕ };

    ghost counted: { Self → Type 0 };

    /// Adds the spelling at the end of some bytes.
    fn push_to(&self, bytes: &mut Vec<u8>) -> Result<(), AllocError>
        requires { counted self.now }
        ensures { OnOk result (bytes.new.items ≡ bytes.old.items ++ spelling self.now) };
}

/// Adds a table with its count.
pub(crate) fn push_table<X: Spelled>(bytes: &mut Vec<u8>, items: &[X]) -> Result<(), AllocError>
    requires { IsCountedTable X.counted items.now }
    ensures { OnOk result (bytes.new.items ≡ bytes.old.items ++ table X.spelling items.now) }
{
    push_u2(bytes, items.len() as u16)?;
    push_all(bytes, items)
}

/// Adds structures, one after another.
pub(crate) fn push_all<X: Spelled>(bytes: &mut Vec<u8>, items: &[X]) -> Result<(), AllocError>
    requires { All X.counted items.now }
    ensures { OnOk result (bytes.new.items ≡ bytes.old.items ++ flat_map X.spelling items.now) }
{
    for item in items {
        item.push_to(bytes)?;
    }
    Ok(())
}
