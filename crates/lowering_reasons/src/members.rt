//! What the references of an instruction resolve to: the field that it reads or writes, and the method that it calls.

ghost use Rattle.std.specs.Prelude.{◌≡◌, option_and_then, option_map, IfNone};
ghost use Rattle.jvm_model.specs.Lookups.{entry_at};
ghost use Rattle.program_model.specs.Numbers.{field_number, method_number};
ghost use Rattle.lowering_reasons.specs.Judgements.{judged};
ghost use Rattle.lowering_reasons.specs.Looked.{AccessesNone, CallsNone, IsOnly, reference_kind};
ghost use Rattle.lowering_reasons.specs.Reasons.{LooksUpField, LooksUpMethod};

use crate::judgement::JudgedInstruction;
use crate::names::{accessed, called, wants_static};
use hierarchy::classes::find_class;
use hierarchy::resolve::resolve_method;
use hierarchy::resolve_field::resolve_field;
use jvm_model::lookup::entry_at;
use jvm_model::{FieldNo, MethodNo, PoolEntry, Reason};

/// What the reference to a field gives that the instruction reads or writes (JVMS 5.4.3.2): the field, or why none; `None` where no
/// field is looked up in a class of the program.
pub(crate) fn field_outcome(instruction: JudgedInstruction<'_>) -> Option<Result<FieldNo, Reason>>
    ensures outcome { IsOnly (LooksUpField (judged instruction.entry)) (option_map field_number result) }
    ensures none { IfNone result (AccessesNone (judged instruction.entry)) }
{
    instruction.program.well_formed();
    let Some(field) = accessed(instruction) else {
        return None;
    };
    let Some(class) = find_class(instruction.program, field.class) else {
        return None;
    };
    let is_static = wants_static(instruction.action);
    Some(resolve_field(instruction.program, class, field.signature, is_static))
}

/// Whether the reference at an index takes its class for an interface; `None` if it is no reference to a method (JVMS 4.4.2).
fn takes_interface(pool: &[PoolEntry], index: u16) -> Option<bool>
    ensures { result ≡ option_and_then reference_kind (entry_at pool.now index) }
{
    match entry_at(pool, index)? {
        PoolEntry::Methodref { .. } => Some(false),
        PoolEntry::InterfaceMethodref { .. } => Some(true),
        _ => None,
    }
}

/// What the reference to a method gives that the instruction calls (JVMS 5.4.3.3, 5.4.3.4): the method, or why none; `None` where
/// no method is looked up in a class of the program.
pub(crate) fn method_outcome(instruction: JudgedInstruction<'_>) -> Option<Result<MethodNo, Reason>>
    ensures outcome { IsOnly (LooksUpMethod (judged instruction.entry)) (option_map method_number result) }
    ensures none { IfNone result (CallsNone (judged instruction.entry)) }
{
    instruction.program.well_formed();
    let Some(method) = called(instruction) else {
        return None;
    };
    let Some(interface) = takes_interface(instruction.pool, instruction.operand) else {
        return None;
    };
    let Some(class) = find_class(instruction.program, method.class) else {
        return None;
    };
    Some(resolve_method(instruction.program, class, interface, method.signature))
}
