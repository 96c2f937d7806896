//! Calls of methods (JVMS 6.5.invokevirtual, 6.5.invokespecial, 6.5.invokestatic, 6.5.invokeinterface).

ghost use Rattle.std.specs.Prelude.{◌≡◌, ◌<◌, ◌^◌, ◌+◌, ◌++◌, length, true, if◌then◌else◌, map, IfOk, Some, None};
ghost use Rattle.jvm_model.specs.Instructions.{member_at};
ghost use Rattle.jvm_model.specs.Lookups.{lent_reference};
ghost use Rattle.jvm_model.specs.RowViews.{row_view, action_view, kind_view};
ghost use Rattle.jvm_model.specs.Table.{is_call};
ghost use Rattle.lowering_spec.specs.Operations.{unit_slots};
ghost use Rattle.op_model.specs.declared.op.Op.TheVariants as operations;
ghost use Rattle.lowering_reasons.specs.Judgements.{IsNamedMember};
ghost use Rattle.lowering_operations.specs.ByAction.{call_kind, receiver_units, resolved_method, HasRow, IsCallee, IsOperation};
ghost use Rattle.lowering_operations.specs.Orders.{IsOrdered};
ghost use Rattle.lowering_operations.specs.Placements.{judged_at};

use crate::placement::Placement;
use crate::sites::copy_of;
use crate::units::{MethodUnits, method_units, unit_slots};
use jvm_model::lookup::{Signature, member_at};
use jvm_model::opcode::{Action, UnitKind};
use jvm_model::{MemberReference, MethodNo, Sequence};
use lowering_reasons::NamedMember;
use op_model::{Call, CallKind, Op};
use std::alloc::{AllocError, Global};

/// The methods of a call: the one that its reference resolves to, and the target that is known beforehand.
#[derive(Clone, Copy)]
pub(crate) struct Callee {
    pub(crate) resolved: MethodNo,
    pub(crate) chosen: Option<MethodNo>,
}

/// The operation of an instruction that calls a method.
pub(crate) fn call(alloc: Global, at: Placement<'_>) -> Result<Op, AllocError>
    requires action { is_call (row_view at.row.now).action ≡ true }
    requires member { IsNamedMember (judged_at at) at.member }
    requires units { HasRow at }
    requires operand { at.instruction.now.operand < 2 ^ 16 }
    requires top { at.top < 2 ^ 18 }
    ensures operation { IfOk result (IsOperation at.entry) }
    ensures order { IfOk result (IsOrdered at.entry) }
{
    let kind = call_kind(at.row.action);
    let callee = callee_of(at);
    let named = named_method(at);
    let units = method_units(alloc, named.signature.descriptor)?;
    let popped = popped_units(alloc, kind, &units)?;
    let base = at.top - popped.len() as u32;
    let returned = result_slot(base, &units);
    call_of(
        alloc,
        kind,
        callee,
        named.signature,
        base,
        &popped,
        returned,
    )
}

/// The call of a method by this name and descriptor, which pops these units, of which the lowest is the slot `base`.
fn call_of(
    alloc: Global,
    kind: CallKind,
    callee: Callee,
    named: Signature<'_>,
    base: u32,
    popped: &[UnitKind],
    returned: Option<u32>,
) -> Result<Op, AllocError>
    requires { base + length popped.now < 2 ^ 32 }
    ensures { IfOk result (λ op. op ≡ operations.Call (record {
      kind = kind;
      resolved = callee.resolved;
      chosen = callee.chosen;
      name = named.entry.name.now;
      descriptor = named.entry.descriptor.now;
      arguments = unit_slots base (map kind_view popped.now);
      result = returned;
    })) }
{
    let arguments = unit_slots(alloc, base, popped)?;
    Ok(Op::Call(Call {
        kind,
        resolved: callee.resolved,
        chosen: callee.chosen,
        name: copy_of(alloc, named.name)?,
        descriptor: copy_of(alloc, named.descriptor)?,
        arguments: Sequence::from_vec(arguments),
        result: returned,
    }))
}

/// How the target of a call is chosen.
fn call_kind(action: Action) -> CallKind
    requires { is_call (action_view action) ≡ true }
    ensures { result ≡ call_kind (action_view action) }
{
    match action {
        Action::InvokeVirtual => CallKind::Virtual,
        Action::InvokeSpecial => CallKind::Special,
        Action::InvokeStatic => CallKind::Static,
        Action::InvokeInterface => CallKind::Interface,
        _ => unreachable!(),
    }
}

/// The methods of the call.
fn callee_of(at: Placement<'_>) -> Callee
    requires action { is_call (row_view at.row.now).action ≡ true }
    requires member { IsNamedMember (judged_at at) at.member }
    ensures { IsCallee at.entry (call_kind (row_view at.entry.row.now).action) result }
{
    match at.member {
        NamedMember::Method { resolved, target } => Callee {
            resolved: resolved_method(at.row.action, resolved, target),
            chosen: target,
        },
        _ => unreachable!(),
    }
}

/// The method that the reference of a call resolves to: a static call goes to that one.
fn resolved_method(action: Action, resolved: MethodNo, target: Option<MethodNo>) -> MethodNo
    ensures { result ≡ resolved_method (action_view action) resolved target }
{
    match action {
        Action::InvokeStatic => target.unwrap_or(resolved),
        _ => resolved,
    }
}

/// The method that the instruction names: its class, and its name and descriptor.
fn named_method(at: Placement<'_>) -> MemberReference<'_>
    requires action { is_call (row_view at.row.now).action ≡ true }
    requires member { IsNamedMember (judged_at at) at.member }
    requires operand { at.instruction.now.operand < 2 ^ 16 }
    ensures { member_at at.entry.class.now.pool at.entry.instruction.now.operand ≡ Some (lent_reference result) }
{
    member_at(at.class.pool.as_slice(), at.instruction.operand as u16).unwrap()
}

/// The units that a call pops: its receiver, if it has one, and its arguments.
fn popped_units(
    alloc: Global,
    kind: CallKind,
    units: &MethodUnits,
) -> Result<Vec<UnitKind>, AllocError>
    ensures { IfOk result (λ popped. map kind_view popped.items ≡ receiver_units kind ++ map kind_view units.now.parameters.items) }
{
    let mut popped = receiver_units(alloc, kind)?;
    popped.extend_from_slice(&units.parameters)?;
    Ok(popped)
}

/// The unit of the receiver; none of a static call.
fn receiver_units(alloc: Global, kind: CallKind) -> Result<Vec<UnitKind>, AllocError>
    ensures { IfOk result (λ units. map kind_view units.items ≡ receiver_units kind) }
{
    let mut units = Vec::new(alloc);
    match kind {
        CallKind::Static => {}
        CallKind::Virtual | CallKind::Special | CallKind::Interface => {
            units.push(UnitKind::Reference)?;
        }
    }
    Ok(units)
}

/// The slot of a result that is a reference.
fn result_slot(base: u32, units: &MethodUnits) -> Option<u32>
    ensures { result ≡ (if units.now.gives_reference then Some base else None) }
{
    match units.gives_reference {
        true => Some(base),
        false => None,
    }
}
