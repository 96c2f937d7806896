//! The instance fields that methods may write, as lines list them.

ghost use Rattle.std.specs.Prelude.{◌↔◌, Contains, IfOk, OnOk};
ghost use Rattle.ground.specs.declared.lists.FieldWrite.{FieldWrite as ListedWrite};
ghost use Rattle.ground.specs.Added.{AreAdded, OfOne};
ghost use Rattle.certificate_ground.specs.Reached.{IsWriteOf};

use certificate_lines::Line;
use ground::FieldWrite;
use indexmap::IndexSet;
use std::alloc::{AllocError, Global};

/// The writes that lines list.
pub(crate) fn writes_of(alloc: Global, lines: &[Line]) -> Result<IndexSet<FieldWrite>, AllocError>
    ensures { IfOk result (λ writes. (w : ListedWrite) → Contains writes.keys w ↔ OfOne IsWriteOf lines.now w) }
{
    let mut writes = IndexSet::new(alloc);
    for line in lines {
        add_line(line, &mut writes)?;
    }
    Ok(writes)
}

/// Adds the write that a line lists, if it lists one.
fn add_line(line: &Line, writes: &mut IndexSet<FieldWrite>) -> Result<(), AllocError>
    ensures { OnOk result (AreAdded (IsWriteOf line.now) writes.old.keys writes.new.keys) }
{
    let Line::Modifies { method, field } = line else {
        return Ok(());
    };
    writes.insert(FieldWrite {
        method: *method,
        field: *field,
    })?;
    Ok(())
}
