//! What a method is by what stands for it: the member of a class file, or a description.

ghost use Rattle.std.specs.Prelude.{◌≡◌, ◌↔◌, Some, slice_get, IsTrue};
ghost use Rattle.jvm_model.specs.Programs.{Method, IsUndescribed};
ghost use Rattle.program_model.specs.Numbers.{IsMethodNumber};
ghost use Rattle.lowering_reasons.specs.Looked.{is_in_file};

use hierarchy::methods::is_native;
use jvm_model::MethodNo;
use program_model::method_body::MethodBody;
use program_model::program::Program;

/// Whether the member of a class file stands for a method.
fn is_in_file(program: &Program, method: MethodNo) -> bool
    requires { IsMethodNumber program.now method.0 }
    ensures { (m : Method) → slice_get program.now.methods method.0 ≡ Some m → result ≡ is_in_file m.body }
{
    match program.method_body(method) {
        MethodBody::InFile { .. } => true,
        MethodBody::Described(_) => false,
    }
}

/// Whether a method is a native one that no stub describes.
pub(crate) fn is_undescribed(program: &Program, method: MethodNo) -> bool
    requires { IsMethodNumber program.now method.0 }
    ensures { IsTrue result ↔ IsUndescribed program.now method.0 }
{
    is_native(program, method) && is_in_file(program, method)
}
