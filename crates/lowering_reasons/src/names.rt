//! What an instruction names: the class of its index into the constant pool, and the member that it calls or accesses.

ghost use Rattle.std.specs.Prelude.{◌≡◌, ◌↔◌, codes, option_map, IsTrue};
ghost use Rattle.jvm_model.specs.Lookups.{lent_reference};
ghost use Rattle.jvm_model.specs.RowViews.{action_view, operands_view};
ghost use Rattle.jvm_model.specs.Table.{is_call, is_field_access, is_pool_index, invoke_special, invoke_static, invoke_interface};
ghost use Rattle.lowering_reasons.specs.Judgements.{judged};
ghost use Rattle.lowering_reasons.specs.Looked.{IsOnly};
ghost use Rattle.lowering_reasons.specs.Reasons.{Accesses, Calls, Names, class_in, wants_static};

use crate::judgement::JudgedInstruction;
use jvm_model::lookup::{class_name_at, entry_at, member_at, text_at};
use jvm_model::opcode::{Action, Operands};
use jvm_model::{MemberReference, PoolEntry};

/// Whether an instruction of the action calls a method.
pub(crate) fn is_call(action: Action) -> bool
    ensures { result ≡ is_call (action_view action) }
{
    matches!(
        action,
        Action::InvokeVirtual
            | Action::InvokeSpecial
            | Action::InvokeStatic
            | Action::InvokeInterface
    )
}

/// Whether it reads or writes a field.
pub(crate) fn is_field_access(action: Action) -> bool
    ensures { result ≡ is_field_access (action_view action) }
{
    matches!(
        action,
        Action::GetStatic | Action::PutStatic | Action::GetField | Action::PutField
    )
}

/// Whether it asks for a static member.
pub(crate) fn wants_static(action: Action) -> bool
    ensures { result ≡ wants_static (action_view action) }
{
    matches!(
        action,
        Action::GetStatic | Action::PutStatic | Action::InvokeStatic
    )
}

/// Whether an operand is an index into the constant pool.
pub(crate) fn is_pool_index(operands: Operands) -> bool
    ensures { result ≡ is_pool_index (operands_view operands) }
{
    matches!(
        operands,
        Operands::Pool1(_)
            | Operands::Pool2(_)
            | Operands::Pool2AndCount
            | Operands::Pool2AndZeros
            | Operands::Pool2AndDimensions
    )
}

/// Whether it is a special call.
pub(crate) fn is_special_call(action: Action) -> bool
    ensures { IsTrue result ↔ (action_view action ≡ invoke_special) }
{
    matches!(action, Action::InvokeSpecial)
}

/// Whether it is a static call.
pub(crate) fn is_static_call(action: Action) -> bool
    ensures { IsTrue result ↔ (action_view action ≡ invoke_static) }
{
    matches!(action, Action::InvokeStatic)
}

/// Whether it is a call of an interface's method.
pub(crate) fn is_interface_call(action: Action) -> bool
    ensures { IsTrue result ↔ (action_view action ≡ invoke_interface) }
{
    matches!(action, Action::InvokeInterface)
}

/// The class that an entry names, or that a member which it names is looked up in (JVMS 4.4.1, 4.4.2).
fn class_in<'a>(pool: &'a [PoolEntry], entry: &PoolEntry) -> Option<&'a [u8]>
    ensures { option_map (λ name. name.now) result ≡ class_in pool.now entry.now }
{
    match entry {
        PoolEntry::Class(name) => text_at(pool, *name),
        PoolEntry::Fieldref { class, .. } => class_name_at(pool, *class),
        PoolEntry::Methodref { class, .. } => class_name_at(pool, *class),
        PoolEntry::InterfaceMethodref { class, .. } => class_name_at(pool, *class),
        PoolEntry::Utf8(_) => None,
        PoolEntry::Integer(_) => None,
        PoolEntry::Float(_) => None,
        PoolEntry::Long(_) => None,
        PoolEntry::Double(_) => None,
        PoolEntry::Str(_) => None,
        PoolEntry::NameAndType { .. } => None,
        PoolEntry::MethodHandle { .. } => None,
        PoolEntry::MethodType(_) => None,
        PoolEntry::InvokeDynamic { .. } => None,
        PoolEntry::Taken => None,
    }
}

/// The class, the interface or the array that the instruction names.
pub(crate) fn named_class(instruction: JudgedInstruction<'_>) -> Option<&[u8]>
    ensures { IsOnly (Names (judged instruction.entry)) (option_map (λ name. name.now) result) }
{
    if !is_pool_index(instruction.operands) {
        return None;
    }
    let entry = entry_at(instruction.pool, instruction.operand)?;
    class_in(instruction.pool, entry)
}

/// The method that the instruction calls, as its reference names it.
pub(crate) fn called(instruction: JudgedInstruction<'_>) -> Option<MemberReference<'_>>
    ensures { IsOnly (Calls (judged instruction.entry)) (option_map (λ m. lent_reference m) result) }
{
    if !is_call(instruction.action) {
        return None;
    }
    member_at(instruction.pool, instruction.operand)
}

/// The field that the instruction reads or writes, as its reference names it.
pub(crate) fn accessed(instruction: JudgedInstruction<'_>) -> Option<MemberReference<'_>>
    ensures { IsOnly (Accesses (judged instruction.entry)) (option_map (λ m. lent_reference m) result) }
{
    if !is_field_access(instruction.action) {
        return None;
    }
    member_at(instruction.pool, instruction.operand)
}
