//! The methods that special and static calls go to, which are known beforehand (JVMS 6.5.invokespecial, 6.5.invokestatic).

ghost use Rattle.std.specs.Prelude.{◌≡◌, ◌↔◌, ℕ, option_map, Some, Ok, IsTrue};
ghost use Rattle.program_model.specs.Numbers.{IsClassNumber, method_number};
ghost use Rattle.lowering_reasons.specs.Judgements.{judged};
ghost use Rattle.lowering_reasons.specs.Looked.{AreLookups, IsOnly, SelectsCalled, HasSuch, WantsTarget};
ghost use Rattle.lowering_reasons.specs.Reasons.{HasTarget, IsMismatched, LacksTarget, LooksUpMethod};
ghost use Rattle.jvm_model.specs.Programs.{IsUndescribed};

use crate::judgement::JudgedInstruction;
use crate::lookups::Lookups;
use crate::methods::is_undescribed;
use crate::names::{called, is_special_call, is_static_call};
use hierarchy::classes::find_class;
use hierarchy::methods::is_abstract;
use hierarchy::special::special_search;
use jvm_model::{MethodNo, Reason};

/// The method that the search of a special call finds, abstract or not.
fn selected(instruction: JudgedInstruction<'_>, resolved: MethodNo) -> Option<MethodNo>
    requires current { IsClassNumber instruction.program.now instruction.current.0 }
    requires resolved { LooksUpMethod (judged instruction) (Ok resolved.0) }
    ensures { IsOnly (SelectsCalled (judged instruction.entry)) (option_map (λ m. m.0) result) }
{
    instruction.program.well_formed();
    let Some(method) = called(instruction) else {
        return None;
    };
    let Some(named) = find_class(instruction.program, method.class) else {
        return None;
    };
    special_search(instruction.program, instruction.current, named, resolved)
}

/// The method that a special or a static call of the right kind goes to.
fn resolved_target(instruction: JudgedInstruction<'_>, resolved: MethodNo) -> Option<MethodNo>
    requires current { IsClassNumber instruction.program.now instruction.current.0 }
    requires resolved { IsOnly (LooksUpMethod (judged instruction)) (Some (Ok resolved.0)) }
    requires matched { IsMismatched (judged instruction) → ⊥ }
    ensures { IsOnly (HasTarget (judged instruction.entry)) (option_map (λ m. m.0) result) }
{
    if is_static_call(instruction.action) {
        return Some(resolved);
    }
    if is_special_call(instruction.action) {
        selected(instruction, resolved)
    } else {
        None
    }
}

/// The method that a special or a static call goes to, if its member is of the right kind.
pub(crate) fn target_of(
    instruction: JudgedInstruction<'_>,
    method: Option<Result<MethodNo, Reason>>,
    mismatched: bool,
) -> Option<MethodNo>
    requires current { IsClassNumber instruction.program.now instruction.current.0 }
    requires method { IsOnly (LooksUpMethod (judged instruction)) (option_map method_number method) }
    requires mismatched { IsTrue mismatched ↔ IsMismatched (judged instruction) }
    ensures { IsOnly (HasTarget (judged instruction.entry)) (option_map (λ m. m.0) result) }
{
    if mismatched {
        return None;
    }
    match method {
        Some(Ok(resolved)) => resolved_target(instruction, resolved),
        Some(Err(_)) => None,
        None => None,
    }
}

/// Whether the reference to a method resolves to one.
fn is_resolved(method: Option<Result<MethodNo, Reason>>) -> bool
    ensures { IsTrue result ↔ ((n : ℕ) × (option_map method_number method ≡ Some (Ok n))) }
{
    match method {
        Some(Ok(_)) => true,
        Some(Err(_)) => false,
        None => false,
    }
}

/// Whether the instruction is a special call of the right kind, whose reference resolves to a method.
fn wants_target(instruction: JudgedInstruction<'_>, lookups: Lookups) -> bool
    requires { AreLookups (judged instruction) lookups }
    ensures { IsTrue result ↔ WantsTarget (judged instruction.entry) }
{
    if lookups.mismatched {
        return false;
    }
    is_special_call(instruction.action) && is_resolved(lookups.method)
}

/// Whether a special call finds no method, or several; or what a special or a static call goes to is abstract.
pub(crate) fn lacks_target(instruction: JudgedInstruction<'_>, lookups: Lookups) -> bool
    requires { AreLookups (judged instruction) lookups }
    ensures { IsTrue result ↔ LacksTarget (judged instruction.entry) }
{
    match lookups.target {
        Some(target) => is_abstract(instruction.program, target),
        None => wants_target(instruction, lookups),
    }
}

/// Whether a special or a static call goes to a native method that no stub describes.
pub(crate) fn goes_undescribed(instruction: JudgedInstruction<'_>, lookups: Lookups) -> bool
    requires { AreLookups (judged instruction) lookups }
    ensures { IsTrue result ↔ HasSuch (HasTarget (judged instruction.entry)) (IsUndescribed instruction.entry.program.now) }
{
    match lookups.target {
        Some(target) => is_undescribed(instruction.program, target),
        None => false,
    }
}
