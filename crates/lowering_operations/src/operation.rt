//! The operation of an instruction.

ghost use Rattle.std.specs.Prelude.{◌≡◌, ◌<◌, ◌^◌, IfOk, Some, None};
ghost use Rattle.jvm_model.specs.RowViews.{row_view};
ghost use Rattle.jvm_model.specs.Table.{row_of, refused};
ghost use Rattle.flow_graph.specs.Reading.{IsSoundInstruction};
ghost use Rattle.lowering_reasons.specs.Reasons.{IsFirstReason, UsesMethodConstant};
ghost use Rattle.lowering_reasons.specs.Judgements.{IsNamedMember};
ghost use Rattle.lowering_operations.specs.ByAction.{HasRow, IsOperation};
ghost use Rattle.lowering_operations.specs.Orders.{IsOrdered};
ghost use Rattle.lowering_operations.specs.Placements.{judged_at, HasUnitsBelow, HasOperation};

use crate::access::{get_field, get_static, put_field, put_static};
use crate::arrays::make_array;
use crate::calls::call;
use crate::constants::load_constant;
use crate::placement::Placement;
use crate::table::table_operation;
use jvm_model::opcode::Action;
use op_model::Op;
use std::alloc::{AllocError, Global};

/// The operation of an instruction of which nothing is wrong (JVMS 6.5).
pub fn operation(alloc: Global, at: Placement<'_>) -> Result<Op, AllocError>
    requires sound { IsSoundInstruction at.class.now at.instruction.now }
    requires row { row_of at.instruction.now.opcode ≡ Some (row_view at.row.now) }
    requires free { IsFirstReason (judged_at at) None }
    requires member { IsNamedMember (judged_at at) at.member }
    requires units { HasUnitsBelow at }
    requires top { at.top < 2 ^ 18 }
    requires operand { at.instruction.now.operand < 2 ^ 16 }
    ensures operation { IfOk result (HasOperation at.entry) }
    ensures order { IfOk result (IsOrdered at.entry) }
{
    operation_by_action(alloc, at)
}

/// The operation of an instruction, by what it does beside popping and writing units.
fn operation_by_action(alloc: Global, at: Placement<'_>) -> Result<Op, AllocError>
    requires sound { IsSoundInstruction at.class.now at.instruction.now }
    requires row { row_of at.instruction.now.opcode ≡ Some (row_view at.row.now) }
    requires not_refused { (row_view at.row.now).action ≡ refused → ⊥ }
    requires no_method { UsesMethodConstant (judged_at at) → ⊥ }
    requires member { IsNamedMember (judged_at at) at.member }
    requires units { HasRow at }
    requires top { at.top < 2 ^ 18 }
    requires operand { at.instruction.now.operand < 2 ^ 16 }
    ensures operation { IfOk result (IsOperation at.entry) }
    ensures order { IfOk result (IsOrdered at.entry) }
{
    match at.row.action {
        Action::Plain
        | Action::LoadElement
        | Action::StoreElement
        | Action::ProbeElement
        | Action::ProbeArray
        | Action::ProbeObject
        | Action::MakeObject
        | Action::ThrowObject
        | Action::Cast
        | Action::LeaveMethod => table_operation(alloc, at),
        Action::LoadConstant => load_constant(alloc, at),
        Action::GetStatic => get_static(alloc, at),
        Action::PutStatic => put_static(alloc, at),
        Action::GetField => Ok(get_field(at)),
        Action::PutField => Ok(put_field(at)),
        Action::InvokeVirtual
        | Action::InvokeSpecial
        | Action::InvokeStatic
        | Action::InvokeInterface => call(alloc, at),
        Action::MakeArray => make_array(alloc, at),
        Action::Refused => unreachable!(),
    }
}
