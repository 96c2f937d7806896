//! Members of another kind than an instruction asks for.

ghost use Rattle.std.specs.Prelude.{◌≡◌, ◌↔◌, ◌⊎◌, option_map, Some, Err, slice_get, IsTrue};
ghost use Rattle.jvm_model.specs.Programs.{Method};
ghost use Rattle.jvm_model.specs.RowViews.{action_view};
ghost use Rattle.program_model.specs.Numbers.{IsMethodNumber, field_number, method_number};
ghost use Rattle.lowering_reasons.specs.Judgements.{judged};
ghost use Rattle.lowering_reasons.specs.Looked.{CallsOtherKind, IsInternal, IsOnly, IsOtherKind, HasSuch};
ghost use Rattle.lowering_reasons.specs.Reasons.{Calls, IsMismatched, LooksUpField, LooksUpMethod};

use crate::judgement::JudgedInstruction;
use crate::names::{called, is_interface_call, is_special_call, wants_static};
use crate::texts::is_text;
use hierarchy::methods::{is_private, is_static};
use jvm_model::opcode::Action;
use jvm_model::{FieldNo, MethodNo, Reason};
use program_model::program::Program;

/// Whether a reason is this one.
fn is_reason(reason: Reason, other: Reason) -> bool
    ensures { IsTrue result ↔ (reason ≡ other) }
{
    reason == other
}

/// Whether the look-up of a field gives this reason.
pub(crate) fn field_fails(field: Option<Result<FieldNo, Reason>>, reason: Reason) -> bool
    ensures { IsTrue result ↔ (option_map field_number field ≡ Some (Err reason)) }
{
    match field {
        Some(Ok(_)) => false,
        Some(Err(found)) => is_reason(found, reason),
        None => false,
    }
}

/// Whether the look-up of a method gives this reason.
pub(crate) fn method_fails(method: Option<Result<MethodNo, Reason>>, reason: Reason) -> bool
    ensures { IsTrue result ↔ (option_map method_number method ≡ Some (Err reason)) }
{
    match method {
        Some(Ok(_)) => false,
        Some(Err(found)) => is_reason(found, reason),
        None => false,
    }
}

/// Whether a resolved method is static and an instruction of the action asks for an instance method, or the reverse; or it is
/// private and called as one of an interface.
fn is_other_kind(program: &Program, action: Action, method: MethodNo) -> bool
    requires { IsMethodNumber program.now method.0 }
    ensures { (m : Method) → slice_get program.now.methods method.0 ≡ Some m → IsTrue result ↔ IsOtherKind (action_view action) m }
{
    if is_static(program, method) != wants_static(action) {
        return true;
    }
    is_interface_call(action) && is_private(program, method)
}

/// Whether the method that the reference resolves to is of another kind, or the reference is.
fn calls_other_kind(
    instruction: JudgedInstruction<'_>,
    method: Option<Result<MethodNo, Reason>>,
) -> bool
    requires { IsOnly (LooksUpMethod (judged instruction)) (option_map method_number method) }
    ensures { IsTrue result ↔ CallsOtherKind (judged instruction.entry) }
{
    match method {
        Some(Ok(resolved)) => is_other_kind(instruction.program, instruction.action, resolved),
        Some(Err(reason)) => is_reason(reason, Reason::KindMismatch),
        None => false,
    }
}

/// Whether no instruction of the action may call a method of this name: an initialiser of a class; or a constructor, otherwise than
/// by `invokespecial`.
fn is_internal(action: Action, name: &[u8]) -> bool
    ensures { IsTrue result ↔ IsInternal (action_view action) name.now }
{
    if is_text(name, b"<clinit>") {
        return true;
    }
    is_text(name, b"<init>") && !is_special_call(action)
}

/// Whether the instruction calls such a method.
fn calls_internal(instruction: JudgedInstruction<'_>) -> bool
    ensures { IsTrue result ↔ HasSuch (Calls (judged instruction.entry)) (λ m. IsInternal (action_view instruction.entry.action) m.signature.name) }
{
    match called(instruction) {
        Some(method) => is_internal(instruction.action, method.signature.name),
        None => false,
    }
}

/// Whether the method that the instruction names is of another kind than it asks for.
fn calls_mismatched(
    instruction: JudgedInstruction<'_>,
    method: Option<Result<MethodNo, Reason>>,
) -> bool
    requires { IsOnly (LooksUpMethod (judged instruction)) (option_map method_number method) }
    ensures { IsTrue result ↔ (CallsOtherKind (judged instruction.entry)
        ⊎ HasSuch (Calls (judged instruction.entry)) (λ m. IsInternal (action_view instruction.entry.action) m.signature.name)) }
{
    calls_other_kind(instruction, method) || calls_internal(instruction)
}

/// Whether the member that the instruction names is of another kind than it asks for.
pub(crate) fn is_mismatched(
    instruction: JudgedInstruction<'_>,
    field: Option<Result<FieldNo, Reason>>,
    method: Option<Result<MethodNo, Reason>>,
) -> bool
    requires field { IsOnly (LooksUpField (judged instruction)) (option_map field_number field) }
    requires method { IsOnly (LooksUpMethod (judged instruction)) (option_map method_number method) }
    ensures { IsTrue result ↔ IsMismatched (judged instruction.entry) }
{
    field_fails(field, Reason::KindMismatch) || calls_mismatched(instruction, method)
}
