//! The judgement of an instruction.

ghost use Rattle.std.specs.Prelude.{IfOk, IfErr, Some, None};
ghost use Rattle.program_model.specs.Numbers.{IsClassNumber};
ghost use Rattle.lowering_reasons.specs.Judgements.{judged, IsNamedMember};
ghost use Rattle.lowering_reasons.specs.Looked.{AreLookups, member_reasons, unfollowed_reasons};
ghost use Rattle.lowering_reasons.specs.Named.{HasNumbers, NamesMember};
ghost use Rattle.lowering_reasons.specs.Reasons.{IsFirstOf, IsFirstReason};

use crate::finalizers::makes_finalized;
use crate::followed::{is_dynamic, is_reflective, uses_method_constant, uses_threads};
use crate::lookups::{Lookups, look_up};
use crate::mismatch::{field_fails, method_fails};
use crate::stubs::lacks_stub;
use crate::targets::lacks_target;
use jvm_model::opcode::{Action, Operands};
use jvm_model::{ClassNo, FieldNo, MethodNo, PoolEntry, Reason};
use program_model::program::Program;

/// An instruction as it is judged: the program, the class of its method, the constant pool of the class file, what it does, which
/// operands it has, and its operand (JVMS 6.5).
#[derive(Clone, Copy)]
pub struct JudgedInstruction<'a> {
    pub program: &'a Program,
    pub current: ClassNo,
    pub pool: &'a [PoolEntry],
    pub action: Action,
    pub operands: Operands,
    pub operand: u16,
}

/// The member that an instruction names.
#[derive(Clone, Copy, Debug, PartialEq, Eq)]
pub enum NamedMember {
    NoMember,
    /// The field that the reference resolves to (JVMS 5.4.3.2).
    Field(FieldNo),
    /// The method that the reference resolves to (JVMS 5.4.3.3, 5.4.3.4), and the target of a special or a static call.
    Method {
        resolved: MethodNo,
        target: Option<MethodNo>,
    },
}

/// The first reason that lies in what the analysis does not follow.
fn first_unfollowed(instruction: JudgedInstruction<'_>) -> Option<Reason>
    ensures { IsFirstOf (judged instruction.entry) unfollowed_reasons result }
{
    if is_dynamic(instruction.action) {
        return Some(Reason::InvokeDynamic);
    }
    if uses_method_constant(instruction) {
        return Some(Reason::MethodConstant);
    }
    if is_reflective(instruction) {
        return Some(Reason::Reflection);
    }
    if uses_threads(instruction) {
        return Some(Reason::Threads);
    }
    None
}

/// The first reason that lies in what the instruction names.
fn first_of_members(instruction: JudgedInstruction<'_>, lookups: Lookups) -> Option<Reason>
    requires { AreLookups (judged instruction) lookups }
    ensures { IsFirstOf (judged instruction.entry) member_reasons result }
{
    if lacks_stub(instruction, lookups) {
        return Some(Reason::NoStub);
    }
    if field_fails(lookups.field, Reason::MissingField) {
        return Some(Reason::MissingField);
    }
    if method_fails(lookups.method, Reason::MissingMethod) {
        return Some(Reason::MissingMethod);
    }
    if lookups.mismatched {
        return Some(Reason::KindMismatch);
    }
    if lacks_target(instruction, lookups) {
        return Some(Reason::NoImplementation);
    }
    if makes_finalized(instruction) {
        return Some(Reason::Finalizer);
    }
    None
}

/// The member that was looked up.
fn named_member(instruction: JudgedInstruction<'_>, lookups: Lookups) -> NamedMember
    requires lookups { AreLookups (judged instruction) lookups }
    requires free { IsFirstReason (judged instruction) None }
    ensures member { NamesMember (judged instruction.entry) → IsNamedMember (judged instruction.entry) result }
    ensures below { HasNumbers instruction.entry.program.now result }
{
    match lookups.method {
        Some(Ok(resolved)) => NamedMember::Method {
            resolved,
            target: lookups.target,
        },
        Some(Err(_)) => NamedMember::NoMember,
        None => match lookups.field {
            Some(Ok(field)) => NamedMember::Field(field),
            Some(Err(_)) => NamedMember::NoMember,
            None => NamedMember::NoMember,
        },
    }
}

/// The member that an instruction names, if it names one, where nothing is wrong with it; or the first reason in this order:
/// `InvokeDynamic`, `MethodConstant`, `Reflection`, `Threads`, `NoStub`, `MissingField`, `MissingMethod`, `KindMismatch`,
/// `NoImplementation`, `Finalizer`. It takes no memory.
///
/// The member is told of an instruction of checked code, whose index leads to a reference to a member where it calls or accesses one
/// (JVMS 4.9.1).
pub fn judge(instruction: JudgedInstruction<'_>) -> Result<NamedMember, Reason>
    requires { IsClassNumber instruction.program.now instruction.current.0 }
    ensures refused { IfErr result (λ reason. IsFirstReason (judged instruction.entry) (Some reason)) }
    ensures free { IfOk result (λ _. IsFirstReason (judged instruction.entry) None) }
    ensures member { IfOk result (λ member. NamesMember (judged instruction.entry) → IsNamedMember (judged instruction.entry) member) }
    ensures below { IfOk result (HasNumbers instruction.entry.program.now) }
{
    if let Some(reason) = first_unfollowed(instruction) {
        return Err(reason);
    }
    let lookups = look_up(instruction);
    if let Some(reason) = first_of_members(instruction, lookups) {
        return Err(reason);
    }
    Ok(named_member(instruction, lookups))
}
