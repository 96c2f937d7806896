//! Resolution of references to methods (JVMS 5.4.3.3, 5.4.3.4).

ghost use Rattle.std.specs.Prelude.{◌≡◌, Some, slice_get, IfOk};
ghost use Rattle.jvm_model.specs.Lookups.{lent_signature};
ghost use Rattle.jvm_model.specs.Programs.{Class};
ghost use Rattle.jvm_model.specs.Resolution.{MethodResolution, Resolves};
ghost use Rattle.program_model.specs.Numbers.{name_at, IsClassNumber, IsMethodNumber, method_number};
ghost use Rattle.hierarchy.specs.Searches.{Finds};

use crate::classes::missing_member;
use crate::defaults::only_default;
use crate::least::least_inherited;
use crate::search::found_in;
use crate::sought::Any;
use jvm_model::{ClassNo, MethodNo, Reason, Signature};
use program_model::program::Program;

/// What a reference to a method gives that names a class, and takes it for an interface or not: the method of the name and
/// descriptor (JVMS 5.4.3.3, 5.4.3.4).
///
/// The error is `KindMismatch` if there is one and the class is not of that kind. If there is none, it is `MissingMethod` for
/// a class of the folder, and `NoStub` for another one. It takes no memory.
pub fn resolve_method(
    program: &Program,
    class: ClassNo,
    interface: bool,
    signature: Signature<'_>,
) -> Result<MethodNo, Reason>
    requires { IsClassNumber program.now class.0 }
    ensures below { IfOk result (λ m. IsMethodNumber program.now m.0) }
    ensures resolution { (c : Class) → slice_get program.now.classes class.0 ≡ Some c
        → MethodResolution program.now c interface (lent_signature signature.entry) (method_number result) }
{
    let Some(method) = resolved(program, class, signature) else {
        return Err(missing_member(program, class, Reason::MissingMethod));
    };
    if program.is_interface(class) == interface {
        Ok(method)
    } else {
        Err(Reason::KindMismatch)
    }
}

/// The method that a reference resolves to, whatever it takes the class for.
fn resolved(program: &Program, class: ClassNo, signature: Signature<'_>) -> Option<MethodNo>
    requires { IsClassNumber program.now class.0 }
    ensures { Finds (Resolves program.now (record { class = name_at program.now class.0; signature = lent_signature signature.entry })) result }
{
    program.well_formed();
    if let Some(method) = found_in(program, class, signature, &Any) {
        return Some(method);
    }
    if let Some(method) = only_default(program, class, signature) {
        return Some(method);
    }
    least_inherited(program, class, signature)
}
