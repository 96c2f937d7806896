//! What the analysis does not follow: calls whose target a method of the program chooses at run time, method handles, reflection, and
//! threads.

ghost use Rattle.std.specs.Prelude.{◌≡◌, ◌↔◌, codes, Contains, IsTrue};
ghost use Rattle.jvm_model.specs.Lookups.{lent_reference, lent_signature};
ghost use Rattle.jvm_model.specs.RowViews.{action_view};
ghost use Rattle.jvm_model.specs.Subtypes.{IsSubtype};
ghost use Rattle.jvm_model.specs.Table.{load_constant, refused};
ghost use Rattle.lowering_reasons.specs.Judgements.{judged};
ghost use Rattle.lowering_reasons.specs.Looked.{HasSuch, is_method_constant, IsReflectiveMember, LoadsMethodConstant};
ghost use Rattle.lowering_reasons.specs.Reasons.{Calls, Names, IsOfThreads, IsReflective, IsUnder, UsesMethodConstant, UsesThreads, waiting_methods};

use crate::judgement::JudgedInstruction;
use crate::names::{called, named_class};
use crate::texts::{is_signature, is_text, is_under};
use hierarchy::classes::{find_class, is_subtype};
use jvm_model::lookup::entry_at;
use jvm_model::opcode::Action;
use jvm_model::{MemberReference, PoolEntry, Signature};
use program_model::program::Program;

const METHOD_HANDLE: &[u8] = b"java/lang/invoke/MethodHandle";

const CLASS: &[u8] = b"java/lang/Class";

const REFLECTION: &[u8] = b"java/lang/reflect/";

const THREAD: &[u8] = b"java/lang/Thread";

const THREAD_GROUP: &[u8] = b"java/lang/ThreadGroup";

const CONCURRENT: &[u8] = b"java/util/concurrent/";

/// Whether an instruction of the action is `invokedynamic`, or another one that the table refuses.
pub(crate) fn is_dynamic(action: Action) -> bool
    ensures { IsTrue result ↔ (action_view action ≡ refused) }
{
    matches!(action, Action::Refused)
}

/// Whether it loads a constant.
fn loads_constant(action: Action) -> bool
    ensures { IsTrue result ↔ (action_view action ≡ load_constant) }
{
    matches!(action, Action::LoadConstant)
}

/// Whether an entry is a method handle or a method type (JVMS 4.4.8, 4.4.9).
fn is_method_constant(entry: &PoolEntry) -> bool
    ensures { result ≡ is_method_constant entry.now }
{
    matches!(
        entry,
        PoolEntry::MethodHandle { .. } | PoolEntry::MethodType(_)
    )
}

/// Whether the instruction loads a method handle or a method type.
fn loads_method_constant(instruction: JudgedInstruction<'_>) -> bool
    ensures { IsTrue result ↔ LoadsMethodConstant (judged instruction.entry) }
{
    if !loads_constant(instruction.action) {
        return false;
    }
    match entry_at(instruction.pool, instruction.operand) {
        Some(entry) => is_method_constant(entry),
        None => false,
    }
}

/// Whether it calls a method of a method handle.
fn calls_handle(instruction: JudgedInstruction<'_>) -> bool
    ensures { IsTrue result ↔ HasSuch (Calls (judged instruction.entry)) (λ m. m.class ≡ codes "java/lang/invoke/MethodHandle") }
{
    match called(instruction) {
        Some(method) => is_text(method.class, METHOD_HANDLE),
        None => false,
    }
}

/// Whether it loads a method handle or a method type, or calls a method of a handle (JVMS 2.9).
pub(crate) fn uses_method_constant(instruction: JudgedInstruction<'_>) -> bool
    ensures { IsTrue result ↔ UsesMethodConstant (judged instruction.entry) }
{
    loads_method_constant(instruction) || calls_handle(instruction)
}

/// Whether it names a class of reflection.
fn names_reflection(instruction: JudgedInstruction<'_>) -> bool
    ensures { IsTrue result ↔ HasSuch (Names (judged instruction.entry)) (IsUnder (codes "java/lang/reflect/")) }
{
    match named_class(instruction) {
        Some(class) => is_under(class, REFLECTION),
        None => false,
    }
}

/// Whether a method is one of `java/lang/Class`, but for `desiredAssertionStatus` and `getName`.
fn is_reflective_member(method: MemberReference<'_>) -> bool
    ensures { IsTrue result ↔ IsReflectiveMember (lent_reference method.entry) }
{
    is_text(method.class, CLASS)
        && !is_text(method.signature.name, b"desiredAssertionStatus")
        && !is_text(method.signature.name, b"getName")
}

/// Whether the instruction calls such a method.
fn calls_reflection(instruction: JudgedInstruction<'_>) -> bool
    ensures { IsTrue result ↔ HasSuch (Calls (judged instruction.entry)) IsReflectiveMember }
{
    match called(instruction) {
        Some(method) => is_reflective_member(method),
        None => false,
    }
}

/// Whether it names a class of reflection, or calls a method of `java/lang/Class` that looks at the program.
pub(crate) fn is_reflective(instruction: JudgedInstruction<'_>) -> bool
    ensures { IsTrue result ↔ IsReflective (judged instruction.entry) }
{
    names_reflection(instruction) || calls_reflection(instruction)
}

/// Whether a class is that of threads, or a subclass of it in the program.
fn is_thread(program: &Program, class: &[u8]) -> bool
    ensures { IsTrue result ↔ IsSubtype program.now (codes "java/lang/Thread") class.now }
{
    program.well_formed();
    if is_text(class, THREAD) {
        return true;
    }
    let Some(lower) = find_class(program, class) else {
        return false;
    };
    let Some(upper) = find_class(program, THREAD) else {
        return false;
    };
    is_subtype(program, lower, upper)
}

/// Whether a class is one of threads, or of what they share.
fn is_of_threads(program: &Program, class: &[u8]) -> bool
    ensures { IsTrue result ↔ IsOfThreads program.now class.now }
{
    if is_thread(program, class) {
        return true;
    }
    is_text(class, THREAD_GROUP) || is_under(class, CONCURRENT)
}

/// Whether the instruction names such a class.
fn names_threads(instruction: JudgedInstruction<'_>) -> bool
    ensures { IsTrue result ↔ HasSuch (Names (judged instruction.entry)) (IsOfThreads instruction.entry.program.now) }
{
    match named_class(instruction) {
        Some(class) => is_of_threads(instruction.program, class),
        None => false,
    }
}

/// Whether a method is one by which threads wait for each other.
fn is_waiting(signature: Signature<'_>) -> bool
    ensures { IsTrue result ↔ Contains waiting_methods (lent_signature signature.entry) }
{
    is_signature(signature, b"wait", b"()V")
        || is_signature(signature, b"wait", b"(J)V")
        || is_signature(signature, b"wait", b"(JI)V")
        || is_signature(signature, b"notify", b"()V")
        || is_signature(signature, b"notifyAll", b"()V")
}

/// Whether the instruction calls such a method.
fn calls_waiting(instruction: JudgedInstruction<'_>) -> bool
    ensures { IsTrue result ↔ HasSuch (Calls (judged instruction.entry)) (λ m. Contains waiting_methods m.signature) }
{
    match called(instruction) {
        Some(method) => is_waiting(method.signature),
        None => false,
    }
}

/// Whether it names a class of threads or of what they share, or calls a method by which they wait for each other.
pub(crate) fn uses_threads(instruction: JudgedInstruction<'_>) -> bool
    ensures { IsTrue result ↔ UsesThreads (judged instruction.entry) }
{
    names_threads(instruction) || calls_waiting(instruction)
}
