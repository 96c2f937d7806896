//! The entry of a case, and the limit, as its file `entry` names them.

ghost use Rattle.std.specs.Prelude.{IfOk, IfSome};
ghost use Rattle.program_model.specs.Numbers.{IsMethodNumber};

use anyhow::Result;
use cases_files::{MemberName, method_of, method_text};
use jvm_model::MethodNo;
use program_model::program::Program;
use std::alloc::{AllocError, Global};
use std::str;
use ts_outside::Tree;

/// The entry, and the limit if there is a second line.
#[derive(Drop)]
pub struct Entry {
    pub method: String,
    pub limit: Option<u64>,
}

/// The entry and the limit that the file `entry` of a case names.
pub fn read_entry<T: Tree>(alloc: Global, tree: &mut T) -> Result<Entry> {
    let bytes = tree.read(alloc, "entry", 65536)?;
    let text = str::from_utf8(&bytes)?;
    let mut lines = text.lines();
    let method = String::from_str(alloc, lines.next().unwrap_or(""))?;
    let limit = match lines.next() {
        Some(line) => Some(line.parse::<u64>()?),
        None => None,
    };
    Ok(Entry { method, limit })
}

/// The method of a text, which is its class, a full stop, its name and its descriptor.
pub fn entry_of(
    alloc: Global,
    program: &Program,
    members: &[MemberName],
    entry: &str,
) -> Result<Option<MethodNo>, AllocError>
    ensures { IfOk result (λ found. IfSome found (λ method. IsMethodNumber program.now method.0)) }
{
    for member in members {
        let text = method_text(alloc, member)?;
        if text.as_str() == entry {
            return Ok(method_of(program, member));
        }
    }
    Ok(None)
}
