//! Methods that the library calls by itself: finalizers, and what the constructor of an exception calls.

ghost use Rattle.std.specs.Prelude.{◌≡◌, ◌↔◌, Some, slice_get, IsTrue};
ghost use Rattle.jvm_model.specs.Programs.{Class};
ghost use Rattle.jvm_model.specs.RowViews.{action_view};
ghost use Rattle.jvm_model.specs.Table.{make_object};
ghost use Rattle.program_model.specs.Numbers.{name_at, IsClassNumber};
ghost use Rattle.lowering_reasons.specs.Judgements.{judged};
ghost use Rattle.lowering_reasons.specs.Looked.{DeclaresFinalizer, DeclaresOne, HasFolderFinalizer, IsFolderFinalizer, HasSuch};
ghost use Rattle.lowering_reasons.specs.Reasons.{HasFinalizer, MakesFinalized, Names};

use crate::judgement::JudgedInstruction;
use crate::names::named_class;
use hierarchy::classes::find_class;
use hierarchy::upward::{Step, first_upward};
use jvm_model::opcode::Action;
use jvm_model::{ClassNo, Signature};
use program_model::program::Program;

/// Whether a class declares the method of a name and a descriptor.
fn declares(program: &Program, class: ClassNo, name: &[u8], descriptor: &[u8]) -> bool
    requires { IsClassNumber program.now class.0 }
    ensures { IsTrue result ↔ DeclaresOne program.now (record { name = name.now; descriptor = descriptor.now }) (name_at program.now class.0) }
{
    let signature = Signature { name, descriptor };
    program.declared_method(class, signature).is_some()
}

/// Whether a class declares `finalize` of `()V`, or `fillInStackTrace` of `()Ljava/lang/Throwable;`.
fn declares_finalizer(program: &Program, class: ClassNo) -> bool
    requires { IsClassNumber program.now class.0 }
    ensures { IsTrue result ↔ DeclaresFinalizer program.now (name_at program.now class.0) }
{
    if declares(program, class, b"finalize", b"()V") {
        return true;
    }
    declares(
        program,
        class,
        b"fillInStackTrace",
        b"()Ljava/lang/Throwable;",
    )
}

/// Whether a class is one of the folder and declares such a method.
fn is_folder_finalizer(program: &Program, class: ClassNo) -> bool
    requires { IsClassNumber program.now class.0 }
    ensures { (c : Class) → slice_get program.now.classes class.0 ≡ Some c → IsTrue result ↔ IsFolderFinalizer program.now c }
{
    program.is_folder(class) && declares_finalizer(program, class)
}

/// A class of the folder that declares such a method, looked for upward.
#[derive(Clone, Copy)]
struct FolderFinalizer;

impl Step for FolderFinalizer {
    ghost use Rattle.hierarchy.specs.Upward.{AnswersWhere};
    ghost use Rattle.lowering_reasons.specs.Looked.{IsFolderFinalizer};

    type Answer = ClassNo;

    ghost fits = { λ x p. Unit {0} };

    ghost answers = { λ x p. AnswersWhere (IsFolderFinalizer p) };

    fn at(&self, program: &Program, class: ClassNo) -> Option<ClassNo> {
        if is_folder_finalizer(program, class) {
            Some(class)
        } else {
            None
        }
    }
}

/// Whether a class of the folder, from a class upward through its superclasses, declares such a method.
fn has_folder_finalizer(program: &Program, class: ClassNo) -> bool
    requires { IsClassNumber program.now class.0 }
    ensures { IsTrue result ↔ HasFolderFinalizer program.now (name_at program.now class.0) }
{
    first_upward(program, class, &FolderFinalizer).is_some()
}

/// Whether a class declares such a method, or a superclass of the folder does.
fn has_finalizer(program: &Program, class: ClassNo) -> bool
    requires { IsClassNumber program.now class.0 }
    ensures { IsTrue result ↔ HasFinalizer program.now (name_at program.now class.0) }
{
    program.well_formed();
    if declares_finalizer(program, class) {
        return true;
    }
    has_folder_finalizer(program, class)
}

/// Whether the class of a name is in the program and has such a method.
fn is_finalized(program: &Program, name: &[u8]) -> bool
    ensures { IsTrue result ↔ HasFinalizer program.now name.now }
{
    match find_class(program, name) {
        Some(class) => has_finalizer(program, class),
        None => false,
    }
}

/// Whether an instruction of the action makes an object.
fn makes_object(action: Action) -> bool
    ensures { IsTrue result ↔ (action_view action ≡ make_object) }
{
    matches!(action, Action::MakeObject)
}

/// Whether the class that the instruction names has such a method.
fn names_finalized(instruction: JudgedInstruction<'_>) -> bool
    ensures { IsTrue result ↔ HasSuch (Names (judged instruction.entry)) (HasFinalizer instruction.entry.program.now) }
{
    match named_class(instruction) {
        Some(class) => is_finalized(instruction.program, class),
        None => false,
    }
}

/// Whether the instruction makes an object whose class has such a method (JVMS 6.5.new).
pub(crate) fn makes_finalized(instruction: JudgedInstruction<'_>) -> bool
    ensures { IsTrue result ↔ MakesFinalized (judged instruction.entry) }
{
    makes_object(instruction.action) && names_finalized(instruction)
}
