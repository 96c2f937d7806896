//! Numbers for the texts of a constant pool that members name. Two texts have one number exactly where they have the same
//! bytes. A text is hashed once for each entry that has it, however many members are named by it, and a text that no
//! member names is not read.

ghost use Rattle.std.specs.Prelude.{◌≡◌, IfOk, List, OnOk, Some, ℕ, if◌then◌else◌, unwrap_or};
ghost use Rattle.std.specs.Str.{bytes_eq};
ghost use Rattle.jvm_model.specs.declared.pool.PoolEntry.{PoolEntry};
ghost use Rattle.classfile_reader.specs.TextNumbers.{number_of, AreNumbers, IsNumberAt, StayNumbered};

use jvm_model::lookup::text_at;
use jvm_model::pool::PoolEntry;
use std::alloc::{AllocError, Global};
use std::collections::HashMap;

/// The number of a text. If it has none yet, the index is its number from now on.
fn number_of<'pool>(
    by_text: &mut HashMap<&'pool [u8], u16>,
    text: &'pool [u8],
    index: u16,
) -> Result<u16, AllocError>
    ensures number { IfOk result (λ number. number ≡ unwrap_or (number_of by_text.old text.now) index) }
    ensures known { IfOk result (λ number. (other : List ℕ) → number_of by_text.new other ≡ (if bytes_eq text.now other then Some number else number_of by_text.old other)) }
{
    match by_text.get(text) {
        Some(number) => Ok(*number),
        None => {
            by_text.insert(text, index)?;
            Ok(index)
        }
    }
}

/// The texts that were asked for, by their bytes and by their indices. The number of a text is the index by which it was
/// asked for first.
#[derive(Drop)]
pub(crate) struct TextNumbers<'pool> {
    by_text: HashMap<&'pool [u8], u16>,
    by_index: HashMap<u16, u16>,
}

impl<'pool> TextNumbers<'pool> {
    /// No text.
    pub(crate) fn new(alloc: Global) -> Self
        ensures { (pool : List PoolEntry) → AreNumbers pool result }
    {
        TextNumbers {
            by_text: HashMap::new(alloc),
            by_index: HashMap::new(alloc),
        }
    }

    /// The number of the text at an index of the pool, if there is one.
    pub(crate) fn number_at(
        &mut self,
        pool: &'pool [PoolEntry],
        index: u16,
    ) -> Result<Option<u16>, AllocError>
        requires { AreNumbers pool.now self.old }
        ensures number { IfOk result (IsNumberAt pool.now self.new index) }
        ensures known { OnOk result (AreNumbers pool.now self.new) }
        ensures stay { OnOk result (StayNumbered self.old self.new) }
    {
        if let Some(number) = self.by_index.get(&index) {
            return Ok(Some(*number));
        }
        match text_at(pool, index) {
            Some(text) => {
                let number = number_of(&mut self.by_text, text, index)?;
                self.by_index.insert(index, number)?;
                Ok(Some(number))
            }
            None => Ok(None),
        }
    }
}
