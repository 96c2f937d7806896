//! The units of a method's parameters (JVMS 2.6.1, 4.3.3).

ghost use Rattle.std.specs.Prelude.{◌≡◌, ◌||◌, IfOk, Some, slice_get, if◌then◌else◌};
ghost use Rattle.jvm_model.specs.Programs.{Method, is_class_initialiser};
ghost use Rattle.program_model.specs.Numbers.{IsMethodNumber};
ghost use Rattle.lowering_spec.specs.LoweredMethods.{HasParameterUnits};
ghost use Rattle.jvm_model.specs.declared.access.AccessFlag.TheVariants.{Static};
ghost use Rattle.jvm_model.specs.Access.{has_flag};
ghost use Rattle.jvm_model.specs.Lookups.{lent_signature};
ghost use Rattle.code_reader.specs.Parameters.{HasFewUnits, HasUnits};

use jvm_model::descriptor::units_of;
use jvm_model::{AccessFlag, Descriptor, MethodNo, Signature, descriptor_of};
use program_model::program::Program;
use std::alloc::{AllocError, Global};

/// How many units the parameters of a method of the program take, with the receiver of an instance method.
pub fn parameter_units(
    alloc: Global,
    program: &Program,
    method: MethodNo,
) -> Result<u32, AllocError>
    requires { IsMethodNumber program.now method.0 }
    ensures { IfOk result (λ units. (m : Method) → slice_get program.now.methods method.0 ≡ Some m → HasParameterUnits m units) }
{
    program.well_formed();
    let view = program.method(method);
    let receiver = receiver_units(view.flags, view.signature);
    let descriptor = descriptor_of(alloc, view.signature.descriptor)?;
    Ok(receiver + units_spelled(&descriptor))
}

/// The units of the receiver: none of a static method, and of the initialiser of a class (JVMS 2.9).
fn receiver_units(flags: u16, signature: Signature<'_>) -> u32
    ensures { result ≡ (if has_flag flags Static || is_class_initialiser (lent_signature signature.entry) then 0 else 1) }
{
    if AccessFlag::Static.is_set_in(flags) || signature.is_class_initialiser() {
        return 0;
    }
    1
}

/// The units of the parameters of a method descriptor that was read; none of another one.
fn units_spelled(spelled: &Option<Descriptor>) -> u32
    requires { HasFewUnits spelled.now }
    ensures { HasUnits spelled.now result }
{
    match spelled {
        Some(
            Descriptor::Method {
                parameters: kinds,
                ..
            },
        ) => u32::from(units_of(kinds.as_slice())),
        _ => 0,
    }
}
