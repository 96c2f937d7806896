//! What the operation of a node leads to, but for calls and loads of static fields.

ghost use Rattle.std.specs.Prelude.{◌≡◌, Some, slice_get, OnOk};
ghost use Rattle.op_model.specs.declared.node.Node.{Node};
ghost use Rattle.op_model.specs.declared.op.Op.TheVariants as operations;
ghost use Rattle.points_to_constraints.specs.NodeItems.{OpItem};
ghost use Rattle.points_to_numbers.specs.Steps.{Makes};
ghost use Rattle.points_to_methods.specs.Known.{HasNode, IsNamed};
ghost use Rattle.points_to_methods.specs.Operations.{IsSimple};

use crate::accesses::{leave_slot, read_slot, write_slot};
use crate::adding::{FixedPlace, Passing};
use crate::exceptions::throw_slot;
use crate::makes::{make_arrays, make_site};
use crate::named::NamedMethod;
use crate::slots::SlotAt;
use op_model::Op;
use points_to_numbers::Work;
use program_index::index_failure::IndexFailure;

/// Adds what an operation of a node leads to that is no call and no load of a static field.
pub fn op_items(
    at: &NamedMethod<'_>,
    node: usize,
    op: &Op,
    work: &mut Work,
) -> Result<(), IndexFailure>
    requires known { IsNamed at.now }
    requires there { HasNode at.now node }
    requires simple { IsSimple op.now }
    ensures { (n : Node) → slice_get at.now.method.now.nodes node ≡ Some n
        → OnOk result (Makes work.old.tables work.new.tables (OpItem op.now at.now.program.now at.now.method.now.method at.now.method.now n) work.old.steps.items work.new.steps.items) }
{
    match op {
        Op::Load {
            object,
            field,
            target,
        } => read_slot(
            at,
            SlotAt {
                node,
                slot: *object,
            },
            Passing::LoadField(*field),
            *target,
            work,
        ),
        Op::Store {
            object,
            field,
            value,
        } => write_slot(
            at,
            SlotAt {
                node,
                slot: *object,
            },
            Passing::StoreField(*field),
            *value,
            work,
        ),
        Op::LoadElement { array, target } => read_slot(
            at,
            SlotAt { node, slot: *array },
            Passing::LoadElements,
            *target,
            work,
        ),
        Op::StoreElement { array, value } => write_slot(
            at,
            SlotAt { node, slot: *array },
            Passing::StoreElements,
            *value,
            work,
        ),
        Op::StoreStatic { field, value } => leave_slot(
            at,
            SlotAt { node, slot: *value },
            FixedPlace::Static(*field),
            work,
        ),
        Op::New { site, target } => make_site(at, node, site, *target, work),
        Op::Constant { site, target } => make_site(at, node, site, *target, work),
        Op::NewArray { sites, target } => make_arrays(at, node, sites.as_slice(), *target, work),
        Op::Return { value } => return_slot(at, node, *value, work),
        Op::Throw { value } => throw_slot(at, node, *value, work),
        Op::Cast { class, slot } => read_slot(
            at,
            SlotAt { node, slot: *slot },
            Passing::Fitting(class.as_slice()),
            *slot,
            work,
        ),
        Op::Assign(_) => Ok(()),
        Op::Probe { slot: _ } => Ok(()),
        Op::LoadStatic {
            field: _,
            target: _,
        } => unreachable!(),
        Op::Call(_) => unreachable!(),
    }
}

/// Adds a copy constraint from the slot that is returned, if there is one, to what the method returns.
fn return_slot(
    at: &NamedMethod<'_>,
    node: usize,
    value: Option<u32>,
    work: &mut Work,
) -> Result<(), IndexFailure>
    requires known { IsNamed at.now }
    requires there { HasNode at.now node }
    ensures { (n : Node) → slice_get at.now.method.now.nodes node ≡ Some n
        → OnOk result (Makes work.old.tables work.new.tables (OpItem (operations.Return value) at.now.program.now at.now.method.now.method at.now.method.now n) work.old.steps.items work.new.steps.items) }
{
    let Some(slot) = value else {
        return Ok(());
    };
    let to = FixedPlace::Returned(at.method.method);
    leave_slot(at, SlotAt { node, slot }, to, work)?;
    Ok(())
}
