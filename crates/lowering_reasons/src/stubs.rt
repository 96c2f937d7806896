//! What no stub describes: classes, members of arrays, members of the library, and native methods.

ghost use Rattle.std.specs.Prelude.{◌≡◌, ◌↔◌, IsTrue};
ghost use Rattle.jvm_model.specs.Soundness.{is_array};
ghost use Rattle.lowering_reasons.specs.Judgements.{judged};
ghost use Rattle.lowering_reasons.specs.Looked.{AreLookups, HasSuch};
ghost use Rattle.lowering_reasons.specs.Reasons.{Accesses, Calls, LacksStub};

use crate::absent::names_missing;
use crate::judgement::JudgedInstruction;
use crate::lookups::Lookups;
use crate::mismatch::{field_fails, method_fails};
use crate::names::{accessed, called};
use crate::targets::goes_undescribed;
use crate::texts::is_array;
use jvm_model::Reason;

/// Whether the instruction reads or writes a field of an array.
fn accesses_array(instruction: JudgedInstruction<'_>) -> bool
    ensures { IsTrue result ↔ HasSuch (Accesses (judged instruction.entry)) (λ m. IsTrue (is_array m.class)) }
{
    match accessed(instruction) {
        Some(field) => is_array(field.class),
        None => false,
    }
}

/// Whether it calls a method of an array.
fn calls_array(instruction: JudgedInstruction<'_>) -> bool
    ensures { IsTrue result ↔ HasSuch (Calls (judged instruction.entry)) (λ m. IsTrue (is_array m.class)) }
{
    match called(instruction) {
        Some(method) => is_array(method.class),
        None => false,
    }
}

/// Whether no stub describes a class or a member that the instruction names, or the native method that it goes to.
pub(crate) fn lacks_stub(instruction: JudgedInstruction<'_>, lookups: Lookups) -> bool
    requires { AreLookups (judged instruction) lookups }
    ensures { IsTrue result ↔ LacksStub (judged instruction.entry) }
{
    if names_missing(instruction) {
        return true;
    }
    if accesses_array(instruction) {
        return true;
    }
    if calls_array(instruction) {
        return true;
    }
    if field_fails(lookups.field, Reason::NoStub) {
        return true;
    }
    if method_fails(lookups.method, Reason::NoStub) {
        return true;
    }
    goes_undescribed(instruction, lookups)
}
