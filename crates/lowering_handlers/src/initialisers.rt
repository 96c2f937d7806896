//! Initialisers of classes (JVMS 2.9, 5.5).

ghost use Rattle.std.specs.Prelude.{◌≡◌, ◌↔◌, ℕ, false, All, Contains, IsTrue, None, Some, slice_get};
ghost use Rattle.std.specs.List.{list_any};
ghost use Rattle.jvm_model.specs.declared.class_file.Member.{Member};
ghost use Rattle.jvm_model.specs.Programs.{Class};
ghost use Rattle.jvm_model.specs.Soundness.{is_code};
ghost use Rattle.program_model.specs.Numbers.{name_at, IsClassNumber};
ghost use Rattle.machine_nodes.specs.Nodes.{HasInitialiser};
ghost use Rattle.lowering_handlers.specs.Initialisers.{DeclaresInitialiser, DeclaresAt};

use hierarchy::upward::{Step, first_upward};
use jvm_model::lookup::Signature;
use jvm_model::sound::first_code;
use jvm_model::{ClassFile, ClassNo, Member, PoolEntry};
use program_model::method_body::MethodBody;
use program_model::program::Program;

/// A class that declares an initialiser, or that has a superinterface with one, looked for upward.
#[derive(Clone, Copy)]
struct Initialised;

impl Step for Initialised {
    ghost use Rattle.hierarchy.specs.Upward.{AnswersWhere};
    ghost use Rattle.lowering_handlers.specs.Initialisers.{DeclaresAt};

    type Answer = ClassNo;

    ghost fits = { λ x p. Unit {0} };

    ghost answers = { λ x p. AnswersWhere (DeclaresAt p) };

    fn at(&self, program: &Program, class: ClassNo) -> Option<ClassNo> {
        if declares_at(program, class) {
            Some(class)
        } else {
            None
        }
    }
}

/// Whether a class, or one of its supertypes, has an initialiser for which its class file has code (JVMS 2.9). It walks up the
/// superclasses, and takes no memory.
pub fn has_initialiser(program: &Program, class: ClassNo) -> bool
    requires { IsClassNumber program.now class.0 }
    ensures { IsTrue result ↔ HasInitialiser program.now (name_at program.now class.0) }
{
    program.well_formed();
    first_upward(program, class, &Initialised).is_some()
}

/// Whether a class, or a supertype through one of its own superinterfaces, declares an initialiser.
fn declares_at(program: &Program, class: ClassNo) -> bool
    requires { IsClassNumber program.now class.0 }
    ensures { (c : Class) → slice_get program.now.classes class.0 ≡ Some c → IsTrue result ↔ DeclaresAt program.now c }
{
    if declares_initialiser(program, class) {
        return true;
    }
    any_declares(program, program.through_interfaces(class))
}

/// Whether one of these classes declares an initialiser.
fn any_declares(program: &Program, classes: &[u32]) -> bool
    requires { All (IsClassNumber program.now) classes.now }
    ensures { IsTrue result ↔ ((number : ℕ) × Contains classes.now number × DeclaresInitialiser program.now (name_at program.now number)) }
{
    for number in classes {
        if declares_initialiser(program, ClassNo(*number)) {
            return true;
        }
    }
    false
}

/// Whether the class itself declares an initialiser for which its class file has code.
fn declares_initialiser(program: &Program, class: ClassNo) -> bool
    requires { IsClassNumber program.now class.0 }
    ensures { IsTrue result ↔ DeclaresInitialiser program.now (name_at program.now class.0) }
{
    program.well_formed();
    let signature = Signature {
        name: b"<clinit>",
        descriptor: b"()V",
    };
    let Some(method) = program.declared_method(class, signature) else {
        return false;
    };
    match program.method_body(method) {
        MethodBody::InFile { file, number } => has_code(file, number),
        MethodBody::Described(_) => false,
    }
}

/// Whether the method of a number among those of the class file has an attribute named `Code` (JVMS 4.7.3).
pub fn has_code(file: &ClassFile, number: usize) -> bool
    ensures of_member { (m : Member) → slice_get file.now.methods number ≡ Some m → result ≡ list_any (is_code file.now.pool) m.attributes }
    ensures outside { slice_get file.now.methods number ≡ None → result ≡ false }
{
    match file.methods.as_slice().get(number) {
        Some(method) => is_coded(file.pool.as_slice(), method),
        None => false,
    }
}

/// Whether a method has an attribute named `Code`.
fn is_coded(pool: &[PoolEntry], method: &Member) -> bool
    ensures { result ≡ list_any (is_code pool.now) method.now.attributes }
{
    first_code(pool, method.attributes.as_slice()).is_some()
}
