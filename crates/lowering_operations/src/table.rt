//! Operations of instructions of which the table says all units.

ghost use Rattle.std.specs.Prelude.{◌≡◌, ◌+◌, ◌<◌, ◌^◌, true, length, IfOk, Some};
ghost use Rattle.jvm_model.specs.RowViews.{row_view};
ghost use Rattle.jvm_model.specs.Table.{row_of};
ghost use Rattle.flow_graph.specs.Reading.{IsSoundInstruction};
ghost use Rattle.machine_bytecode.specs.Machine.{NamesClass};
ghost use Rattle.lowering_spec.specs.Operations.{IsAssign, IsOp};
ghost use Rattle.lowering_operations.specs.ByAction.{is_of_table, names_class, HasRow, IsOperation, IsTableOperation};
ghost use Rattle.lowering_operations.specs.Orders.{IsOrderedOp, IsOrdered};
ghost use Rattle.lowering_operations.specs.Placements.{placed_at};
ghost use Rattle.jvm_model.specs.Table.{plain, make_object, cast};

use crate::moves::moves_of;
use crate::placement::Placement;
use crate::sites::{class_at, copy_of, new_site};
use crate::units::value_slot;
use jvm_model::Sequence;
use jvm_model::opcode::Action;
use op_model::Op;
use std::alloc::{AllocError, Global};

/// The operation of an instruction of which the table says all units.
pub(crate) fn table_operation(alloc: Global, at: Placement<'_>) -> Result<Op, AllocError>
    requires sound { IsSoundInstruction at.class.now at.instruction.now }
    requires row { row_of at.instruction.now.opcode ≡ Some (row_view at.row.now) }
    requires action { is_of_table (row_view at.row.now).action ≡ true }
    requires units { HasRow at }
    requires top { at.top < 2 ^ 18 }
    requires operand { at.instruction.now.operand < 2 ^ 16 }
    ensures operation { IfOk result (IsOperation at.entry) }
    ensures order { IfOk result (IsOrdered at.entry) }
{
    operation_from(alloc, at, at.top - at.row.pops.len() as u32)
}

/// The operation of an instruction of which the table says all units, where the lowest of them is the slot `base`.
fn operation_from(alloc: Global, at: Placement<'_>, base: u32) -> Result<Op, AllocError>
    requires row { row_of at.instruction.now.opcode ≡ Some (row_view at.row.now) }
    requires action { is_of_table (row_view at.row.now).action ≡ true }
    requires named { names_class (row_view at.row.now).action ≡ true → NamesClass at.class.now.pool at.instruction.now.operand }
    requires base { base < 2 ^ 18 }
    requires operand { at.instruction.now.operand < 2 ^ 16 }
    ensures operation { IfOk result (IsTableOperation at.entry base) }
    ensures order { IfOk result (IsOrderedOp (row_view at.entry.row.now) at.entry.instruction.now.operand base) }
{
    match at.row.action {
        Action::Plain => assign(alloc, at, base),
        Action::LoadElement => Ok(Op::LoadElement {
            array: base,
            target: base,
        }),
        Action::StoreElement => Ok(Op::StoreElement {
            array: base,
            value: base + 2,
        }),
        Action::ProbeElement | Action::ProbeArray | Action::ProbeObject => {
            Ok(Op::Probe { slot: base })
        }
        Action::MakeObject => make_object(alloc, at, base),
        Action::ThrowObject => Ok(Op::Throw { value: base }),
        Action::Cast => cast(alloc, at, base),
        Action::LeaveMethod => Ok(Op::Return {
            value: value_slot(base, at.row.pops),
        }),
        Action::LoadConstant
        | Action::GetStatic
        | Action::PutStatic
        | Action::GetField
        | Action::PutField
        | Action::InvokeVirtual
        | Action::InvokeSpecial
        | Action::InvokeStatic
        | Action::InvokeInterface
        | Action::MakeArray
        | Action::Refused => unreachable!(),
    }
}

/// The moves of an instruction that does nothing else.
fn assign(alloc: Global, at: Placement<'_>, base: u32) -> Result<Op, AllocError>
    requires row { row_of at.instruction.now.opcode ≡ Some (row_view at.row.now) }
    requires action { (row_view at.row.now).action ≡ plain }
    requires base { base < 2 ^ 18 }
    requires operand { at.instruction.now.operand < 2 ^ 16 }
    ensures operation { IfOk result (IsAssign (placed_at at.entry (row_view at.entry.row.now) base)) }
    ensures order { IfOk result (IsOrderedOp (row_view at.entry.row.now) at.entry.instruction.now.operand base) }
{
    let moves = moves_of(alloc, at.row, at.instruction.operand, base)?;
    Ok(Op::Assign(Sequence::from_vec(moves)))
}

/// The allocation of an object of the class that the instruction names.
fn make_object(alloc: Global, at: Placement<'_>, base: u32) -> Result<Op, AllocError>
    requires named { NamesClass at.class.now.pool at.instruction.now.operand }
    requires operand { at.instruction.now.operand < 2 ^ 16 }
    ensures operation { IfOk result (IsOp make_object (placed_at at.entry (row_view at.entry.row.now) base)) }
    ensures order { IfOk result (IsOrderedOp (row_view at.entry.row.now) at.entry.instruction.now.operand base) }
{
    let class = class_at(at.class, at.instruction.operand);
    Ok(Op::New {
        site: new_site(alloc, at, class)?,
        target: base,
    })
}

/// The cast to the class that the instruction names.
fn cast(alloc: Global, at: Placement<'_>, base: u32) -> Result<Op, AllocError>
    requires named { NamesClass at.class.now.pool at.instruction.now.operand }
    requires operand { at.instruction.now.operand < 2 ^ 16 }
    ensures operation { IfOk result (IsOp cast (placed_at at.entry (row_view at.entry.row.now) base)) }
    ensures order { IfOk result (IsOrderedOp (row_view at.entry.row.now) at.entry.instruction.now.operand base) }
{
    let class = class_at(at.class, at.instruction.operand);
    Ok(Op::Cast {
        class: copy_of(alloc, class)?,
        slot: base,
    })
}
