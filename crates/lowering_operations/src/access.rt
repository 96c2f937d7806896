//! Operations on fields (JVMS 6.5.getfield, 6.5.putfield, 6.5.getstatic, 6.5.putstatic). A field of a primitive type holds nothing.

ghost use Rattle.std.specs.Prelude.{◌≡◌, ◌<◌, ◌≤◌, ◌^◌, IfOk, IsTrue, true};
ghost use Rattle.jvm_model.specs.RowViews.{row_view};
ghost use Rattle.jvm_model.specs.Table.{row_of, get_static, put_static, get_field, put_field, is_field_access};
ghost use Rattle.lowering_reasons.specs.Judgements.{IsNamedMember};
ghost use Rattle.lowering_reasons.specs.Reasons.{wants_static};
ghost use Rattle.lowering_operations.specs.ByAction.{AccessesField, HasRow, IsOperation};
ghost use Rattle.lowering_operations.specs.Orders.{IsOrdered};
ghost use Rattle.lowering_operations.specs.Placements.{judged_at};

use crate::moves::cleared;
use crate::placement::Placement;
use crate::units::{field_units, is_reference_type};
use jvm_model::FieldNo;
use lowering_reasons::NamedMember;
use op_model::Op;
use std::alloc::{AllocError, Global};

/// A field that an instruction reads or writes.
#[derive(Clone, Copy)]
pub(crate) struct Access {
    pub(crate) field: FieldNo,
    pub(crate) is_reference: bool,
    /// How many units a value of the field takes.
    pub(crate) units: u32,
}

/// The operation of `getstatic`.
pub(crate) fn get_static(alloc: Global, at: Placement<'_>) -> Result<Op, AllocError>
    requires row { row_of at.instruction.now.opcode ≡ Some (row_view at.row.now) }
    requires action { (row_view at.row.now).action ≡ get_static }
    requires member { IsNamedMember (judged_at at) at.member }
    requires top { at.top < 2 ^ 18 }
    ensures operation { IfOk result (IsOperation at.entry) }
    ensures order { IfOk result (IsOrdered at.entry) }
{
    let access = accessed_field(at);
    if access.is_reference {
        return Ok(Op::LoadStatic {
            field: access.field,
            target: at.top,
        });
    }
    cleared(alloc, at.top, access.units)
}

/// The operation of `putstatic`.
pub(crate) fn put_static(alloc: Global, at: Placement<'_>) -> Result<Op, AllocError>
    requires row { row_of at.instruction.now.opcode ≡ Some (row_view at.row.now) }
    requires action { (row_view at.row.now).action ≡ put_static }
    requires member { IsNamedMember (judged_at at) at.member }
    requires units { HasRow at }
    requires top { at.top < 2 ^ 18 }
    ensures operation { IfOk result (IsOperation at.entry) }
    ensures order { IfOk result (IsOrdered at.entry) }
{
    let access = accessed_field(at);
    let base = at.top - access.units;
    if access.is_reference {
        return Ok(Op::StoreStatic {
            field: access.field,
            value: base,
        });
    }
    cleared(alloc, base, access.units)
}

/// The operation of `getfield`.
pub(crate) fn get_field(at: Placement<'_>) -> Op
    requires action { (row_view at.row.now).action ≡ get_field }
    requires member { IsNamedMember (judged_at at) at.member }
    requires units { HasRow at }
    ensures operation { IsOperation at.entry result }
    ensures order { IsOrdered at.entry result }
{
    let access = accessed_field(at);
    let base = at.top - 1;
    if access.is_reference {
        return Op::Load {
            object: base,
            field: access.field,
            target: base,
        };
    }
    Op::Probe { slot: base }
}

/// The operation of `putfield`.
pub(crate) fn put_field(at: Placement<'_>) -> Op
    requires action { (row_view at.row.now).action ≡ put_field }
    requires member { IsNamedMember (judged_at at) at.member }
    requires units { HasRow at }
    ensures operation { IsOperation at.entry result }
    ensures order { IsOrdered at.entry result }
{
    let access = accessed_field(at);
    let base = at.top - 1 - access.units;
    if access.is_reference {
        return Op::Store {
            object: base,
            field: access.field,
            value: base + 1,
        };
    }
    Op::Probe { slot: base }
}

/// The field that the instruction names.
fn accessed_field(at: Placement<'_>) -> Access
    requires action { is_field_access (row_view at.row.now).action ≡ true }
    requires member { IsNamedMember (judged_at at) at.member }
    ensures field { AccessesField at.entry (wants_static (row_view at.entry.row.now).action) result }
    ensures few { result.units ≤ 2 }
{
    match at.member {
        NamedMember::Field(field) => {
            let descriptor = at.program.field(field).signature.descriptor;
            Access {
                field,
                is_reference: is_reference_type(descriptor),
                units: field_units(descriptor),
            }
        }
        _ => unreachable!(),
    }
}
