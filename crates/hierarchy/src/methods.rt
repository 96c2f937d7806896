//! What a method is by its flags, its name and its descriptor (JVMS 2.9, 4.6).

ghost use Rattle.std.specs.Prelude.{◌≡◌, Some, slice_get};
ghost use Rattle.jvm_model.specs.Access.{has_flag};
ghost use Rattle.jvm_model.specs.Lookups.{lent_signature};
ghost use Rattle.jvm_model.specs.Programs.{Method, is_abstract, is_private, is_public, is_static};
ghost use Rattle.jvm_model.specs.declared.access.AccessFlag.TheVariants.{Native};
ghost use Rattle.program_model.specs.Numbers.{name_at, IsClassNumber, IsMethodNumber};

use jvm_model::{AccessFlag, ClassNo, MethodNo, Signature};
use program_model::program::Program;

/// The class of a method.
pub(crate) fn class_of(program: &Program, method: MethodNo) -> ClassNo
    requires { IsMethodNumber program.now method.0 }
    ensures below { IsClassNumber program.now result.0 }
    ensures class { (m : Method) → slice_get program.now.methods method.0 ≡ Some m → m.class ≡ name_at program.now result.0 }
{
    program.method(method).class
}

/// The name and the descriptor of a method.
pub(crate) fn signature_of(program: &Program, method: MethodNo) -> Signature<'_>
    requires { IsMethodNumber program.now method.0 }
    ensures { (m : Method) → slice_get program.now.methods method.0 ≡ Some m → m.signature ≡ lent_signature result }
{
    program.method(method).signature
}

/// Whether a method is abstract (JVMS 4.6).
pub fn is_abstract(program: &Program, method: MethodNo) -> bool
    requires { IsMethodNumber program.now method.0 }
    ensures { (m : Method) → slice_get program.now.methods method.0 ≡ Some m → result ≡ is_abstract m }
{
    AccessFlag::Abstract.is_set_in(program.method(method).flags)
}

/// Whether a method is public (JVMS 4.6).
pub fn is_public(program: &Program, method: MethodNo) -> bool
    requires { IsMethodNumber program.now method.0 }
    ensures { (m : Method) → slice_get program.now.methods method.0 ≡ Some m → result ≡ is_public m }
{
    AccessFlag::Public.is_set_in(program.method(method).flags)
}

/// Whether a method is private (JVMS 4.6).
pub fn is_private(program: &Program, method: MethodNo) -> bool
    requires { IsMethodNumber program.now method.0 }
    ensures { (m : Method) → slice_get program.now.methods method.0 ≡ Some m → result ≡ is_private m }
{
    AccessFlag::Private.is_set_in(program.method(method).flags)
}

/// Whether a method is native (JVMS 4.6).
pub fn is_native(program: &Program, method: MethodNo) -> bool
    requires { IsMethodNumber program.now method.0 }
    ensures { (m : Method) → slice_get program.now.methods method.0 ≡ Some m → result ≡ has_flag m.flags Native }
{
    AccessFlag::Native.is_set_in(program.method(method).flags)
}

/// Whether a method is static: it has the flag, or is the initialiser of its class, which counts as static whatever its flags
/// are (JVMS 2.9).
pub fn is_static(program: &Program, method: MethodNo) -> bool
    requires { IsMethodNumber program.now method.0 }
    ensures { (m : Method) → slice_get program.now.methods method.0 ≡ Some m → result ≡ is_static m }
{
    AccessFlag::Static.is_set_in(program.method(method).flags)
        || signature_of(program, method).is_class_initialiser()
}
