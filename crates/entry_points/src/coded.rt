//! Which methods have code (JVMS 4.7.3).

ghost use Rattle.std.specs.Prelude.{◌↔◌, IsTrue};
ghost use Rattle.program_model.specs.Numbers.{IsMethodNumber};
ghost use Rattle.op_model.specs.Supplies.{IsCodedMethod};

use jvm_model::MethodNo;
use lowering_handlers::has_code;
use program_model::method_body::MethodBody;
use program_model::program::Program;

/// Whether a method is one of a class file that has code for it.
pub fn is_coded(program: &Program, method: MethodNo) -> bool
    requires { IsMethodNumber program.now method.0 }
    ensures { IsTrue result ↔ IsCodedMethod program.now method.0 }
{
    program.well_formed();
    match program.method_body(method) {
        MethodBody::InFile { file, number } => has_code(file, number),
        MethodBody::Described(_) => false,
    }
}
