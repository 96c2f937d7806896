//! What a search for a method of a name and a descriptor looks for.

ghost use Rattle.std.specs.Prelude.{◌≡◌, ◌↔◌, ℕ, Some, slice_get, IsTrue};
ghost use Rattle.jvm_model.specs.Lookups.{Signature};
ghost use Rattle.jvm_model.specs.Programs.{Method, Program as LinkedProgram};
ghost use Rattle.program_model.specs.Numbers.{IsMethodNumber};

use crate::methods::{is_public, is_static};
use jvm_model::MethodNo;
use program_model::program::Program;

/// A test of the methods of a name and a descriptor.
pub(crate) trait Sought {
    /// Whether methods of this name and descriptor may be tested in the program.
    ghost fits: { Self → LinkedProgram → Signature → Type 0 };

    /// Whether the method, which has this number, is one that is looked for.
    ghost takes: { Self → LinkedProgram → ℕ → Method → Type 0 };

    /// Whether a method is one that is looked for.
    fn accepts(&self, program: &Program, method: MethodNo) -> bool
        requires method { IsMethodNumber program.now method.0 }
        requires fits { (m : Method) → slice_get program.now.methods method.0 ≡ Some m → fits self.now program.now m.signature }
        ensures { (m : Method) → slice_get program.now.methods method.0 ≡ Some m → IsTrue result ↔ takes self.now program.now method.0 m };
}

/// Each method.
#[derive(Clone, Copy)]
pub(crate) struct Any;

impl Sought for Any {
    ghost fits = { λ x p s. Unit {0} };

    ghost takes = { λ x p n m. Unit {0} };

    fn accepts(&self, _program: &Program, _method: MethodNo) -> bool {
        true
    }
}

/// An instance method.
#[derive(Clone, Copy)]
pub(crate) struct Instance;

impl Sought for Instance {
    ghost use Rattle.jvm_model.specs.Selection.{IsInstance};

    ghost fits = { λ x p s. Unit {0} };

    ghost takes = { λ x p n. IsInstance };

    fn accepts(&self, program: &Program, method: MethodNo) -> bool {
        !is_static(program, method)
    }
}

/// A public instance method.
#[derive(Clone, Copy)]
pub(crate) struct PublicInstance;

impl Sought for PublicInstance {
    ghost use Rattle.jvm_model.specs.Programs.{is_public};
    ghost use Rattle.jvm_model.specs.Selection.{IsInstance};

    ghost fits = { λ x p s. Unit {0} };

    ghost takes = { λ x p n m. IsTrue (is_public m) × IsInstance m };

    fn accepts(&self, program: &Program, method: MethodNo) -> bool {
        is_public(program, method) && !is_static(program, method)
    }
}
