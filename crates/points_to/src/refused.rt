//! The refusal that is named: the first by the methods, by the offsets, and by the reasons.

ghost use Rattle.std.specs.Prelude.{◌≡◌, IfOk};
ghost use Rattle.op_model.specs.Supplies.{IsCodedMethod};
ghost use Rattle.points_to.specs.Refusing.{IsCallRefusal, IsNamed, IsOfCoded, refusal_of};

use crate::refusals::{Refusals, RefusedCall, RefusedMethod, leads_method};
use failure::Failure;
use jvm_model::layout::code_place;
use jvm_model::{Name, Refusal};
use program_index::index_failure::{IndexFailure, TooMany};
use program_model::method_body::MethodBody;
use program_model::program::Program;
use std::alloc::Global;

/// Before a method's code stand the limits of the stack and of the local variables, and the code's length (JVMS 4.7.3).
const BEFORE_CODE: u64 = 8;

/// The first refusal, if there is one.
pub(crate) fn first_refusal(
    alloc: Global,
    program: &Program,
    refusals: Refusals,
) -> Result<Option<Refusal>, IndexFailure>
    requires { IsOfCoded program.now refusals.call }
    ensures { IfOk result (IsNamed program.now refusals.call refusals.method) }
{
    let Refusals { call, method } = refusals;
    let Some(call) = call else {
        return Ok(own_refusal(method));
    };
    if leads_method(call.method, &method) {
        let refusal = call_refusal(alloc, program, call)?;
        return Ok(Some(refusal));
    }
    Ok(own_refusal(method))
}

/// The refusal of a method, if there is one.
fn own_refusal(method: Option<RefusedMethod>) -> Option<Refusal>
    ensures { result ≡ refusal_of method }
{
    match method {
        Some(method) => {
            let RefusedMethod { refusal, .. } = method;
            Some(refusal)
        }
        None => None,
    }
}

/// The refusal of a call that lacks its target, in the file of its class. The failure is `TooMany` where its offset in the file has no number of 32
/// bits.
fn call_refusal(
    alloc: Global,
    program: &Program,
    call: RefusedCall,
) -> Result<Refusal, IndexFailure>
    requires { IsCodedMethod program.now call.method.0 }
    ensures { IfOk result (IsCallRefusal program.now call) }
{
    program.well_formed();
    let MethodBody::InFile { file, number } = program.method_body(call.method) else {
        unreachable!()
    };
    let offset = u64::from(code_place(file, number)) + BEFORE_CODE + u64::from(call.offset);
    if offset > u64::from(u32::MAX) {
        return Err(Failure::Cause(TooMany));
    }
    let class = program.method(call.method).class;
    let name = String::from_str(alloc, program.file_name(class).as_str())?;
    Ok(Refusal {
        file: Name::from_string(name),
        offset: offset as u32,
        reason: call.reason,
    })
}
