//! The instance fields that methods may write: the least set that has their own writes, and of each method the writes of its callees.

ghost use Rattle.std.specs.Prelude.{IfOk, OnOk};
ghost use Rattle.slot_names.specs.Branches.{Extends};
ghost use Rattle.ground.specs.Added.{AreAdded};
ghost use Rattle.call_graph.specs.Closing.{AreCallers, AreClosed, IsWriteOfOne};

use crate::edges::Edge;
use ground::FieldWrite;
use grouped_lists::Groups;
use indexmap::IndexSet;
use jvm_model::{FieldNo, MethodNo};
use std::alloc::{AllocError, Global};

/// What methods may write, of which each caller and each starter may write what the other method may.
pub(crate) fn close_writes(
    alloc: Global,
    own: IndexSet<FieldWrite>,
    edges: &IndexSet<Edge>,
) -> Result<IndexSet<FieldWrite>, AllocError>
    ensures { IfOk result (λ writes. AreClosed own.keys edges.now.keys writes.keys) }
{
    let callers = callers_of(alloc, edges.as_slice())?;
    let mut writes = own;
    let mut done = 0;
    while done < writes.len() {
        let write = writes.as_slice()[done];
        add_to_callers(callers.get(write.method.0), write.field, &mut writes)?;
        done += 1;
    }
    Ok(writes)
}

/// The callers of each method.
fn callers_of(alloc: Global, edges: &[Edge]) -> Result<Groups<MethodNo>, AllocError>
    ensures { IfOk result (λ callers. AreCallers edges.now callers.groups.items) }
{
    let mut callers = Groups::new(alloc);
    for edge in edges {
        callers.add(edge.callee.0, edge.caller)?;
    }
    Ok(callers)
}

/// Adds that callers write an instance field.
fn add_to_callers(
    callers: &[MethodNo],
    field: FieldNo,
    writes: &mut IndexSet<FieldWrite>,
) -> Result<(), AllocError>
    ensures added { OnOk result (AreAdded (IsWriteOfOne callers.now field) writes.old.keys writes.new.keys) }
    ensures longer { OnOk result (Extends writes.old.keys writes.new.keys) }
{
    for caller in callers {
        writes.insert(FieldWrite {
            method: *caller,
            field,
        })?;
    }
    Ok(())
}
