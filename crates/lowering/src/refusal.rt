//! The refusal of a method.

ghost use Rattle.program_model.specs.Numbers.{IsClassNumber};
ghost use Rattle.lowering.specs.Bodies.{IsMethodCode, IsRefusalIn};
ghost use Rattle.lowering.specs.Refusals.{IsClassRefusal};

use crate::body::MethodCode;
use failure::Failure;
use jvm_model::{ClassNo, Fault, Name, Reason, Refusal};
use op_model::SupplyFailure;
use program_model::program::Program;
use std::alloc::Global;

/// The refusal of what is wrong with the file that has the class; or out of memory.
pub fn class_refusal(
    alloc: Global,
    program: &Program,
    class: ClassNo,
    fault: Fault,
) -> SupplyFailure
    requires { IsClassNumber program.now class.0 }
    ensures { IsClassRefusal program.now class.0 fault.offset fault.reason result }
{
    match String::from_str(alloc, program.file_name(class).as_str()) {
        Ok(file) => Failure::Cause(Refusal {
            file: Name::from_string(file),
            offset: fault.offset,
            reason: fault.reason,
        }),
        Err(_) => Failure::OutOfMemory,
    }
}

/// The refusal of the method, in the file of its class; or out of memory.
pub(crate) fn refused(
    alloc: Global,
    body: MethodCode<'_>,
    offset: u32,
    reason: Reason,
) -> SupplyFailure
    requires { IsMethodCode body }
    ensures { IsRefusalIn body.entry offset reason result }
{
    class_refusal(alloc, body.program, body.current, Fault { offset, reason })
}
