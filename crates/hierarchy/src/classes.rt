//! Classes by name, and subtypes.

ghost use Rattle.std.specs.Prelude.{◌≡◌, ◌↔◌, ℕ, Some, slice_get, IsTrue, IfSome, IfNone};
ghost use Rattle.jvm_model.specs.Programs.{Class};
ghost use Rattle.jvm_model.specs.Resolution.{missing};
ghost use Rattle.jvm_model.specs.Subtypes.{IsSubtype, IsProperSubtype};
ghost use Rattle.program_model.specs.Numbers.{name_at, IsClassNumber};

use jvm_model::{ClassNo, Reason};
use program_model::program::Program;

/// The number of the class of a name; `None` exactly where it is not in the program. It takes no memory.
pub fn find_class(program: &Program, name: &[u8]) -> Option<ClassNo>
    ensures found { IfSome result (λ c. IsClassNumber program.now c.0 × (name_at program.now c.0 ≡ name.now)) }
    ensures none { IfNone result ((n : ℕ) → IsClassNumber program.now n → name_at program.now n ≡ name.now → ⊥) }
{
    program.find(name)
}

/// Whether the lower class is a subtype of the upper one (JVMS 4.10.1.2); each class is one of itself. It walks up the
/// superclasses of the lower class, and takes no memory.
pub fn is_subtype(program: &Program, lower: ClassNo, upper: ClassNo) -> bool
    requires lower { IsClassNumber program.now lower.0 }
    requires upper { IsClassNumber program.now upper.0 }
    ensures { IsTrue result ↔ IsSubtype program.now (name_at program.now upper.0) (name_at program.now lower.0) }
{
    program.is_at_or_above(lower, upper)
}

/// Whether the class is a subtype of another one (JVMS 4.10.1.2).
pub(crate) fn is_proper_subtype(program: &Program, lower: ClassNo, upper: ClassNo) -> bool
    requires lower { IsClassNumber program.now lower.0 }
    requires upper { IsClassNumber program.now upper.0 }
    ensures { IsTrue result ↔ IsProperSubtype program.now (name_at program.now lower.0) (name_at program.now upper.0) }
{
    program.well_formed();
    lower != upper && is_subtype(program, lower, upper)
}

/// The reason if a class that is named with a member has none: this one for a class of the folder, and `NoStub` for another one.
pub(crate) fn missing_member(program: &Program, class: ClassNo, reason: Reason) -> Reason
    requires { IsClassNumber program.now class.0 }
    ensures { (c : Class) → slice_get program.now.classes class.0 ≡ Some c → result ≡ missing c reason }
{
    if program.is_folder(class) {
        reason
    } else {
        Reason::NoStub
    }
}
