//! Texts of a constant pool where a program names them, which are empty where an index leads to none.

ghost use Rattle.std.specs.Prelude.{◌≡◌};
ghost use Rattle.jvm_model.specs.Programs.{text_or_none, class_or_none};

use jvm_model::PoolEntry;
use jvm_model::lookup::{class_name_at, text_at};

/// The text at an index (JVMS 4.4.7).
pub fn plain_text(pool: &[PoolEntry], index: u16) -> &[u8]
    ensures { result.now ≡ text_or_none pool.now index }
{
    match text_at(pool, index) {
        Some(text) => text,
        None => b"",
    }
}

/// The name of the class at an index (JVMS 4.4.1).
pub fn class_text(pool: &[PoolEntry], index: u16) -> &[u8]
    ensures { result.now ≡ class_or_none pool.now index }
{
    match class_name_at(pool, index) {
        Some(name) => name,
        None => b"",
    }
}
