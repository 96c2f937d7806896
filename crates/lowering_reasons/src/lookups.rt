//! What the references of an instruction give, looked up once.

ghost use Rattle.program_model.specs.Numbers.{IsClassNumber};
ghost use Rattle.lowering_reasons.specs.Judgements.{judged};
ghost use Rattle.lowering_reasons.specs.Looked.{AreLookups};

use crate::judgement::JudgedInstruction;
use crate::members::{field_outcome, method_outcome};
use crate::mismatch::is_mismatched;
use crate::targets::target_of;
use jvm_model::{FieldNo, MethodNo, Reason};

/// What the references of an instruction give, whether the member is of another kind than it asks for, and the target that is known
/// beforehand, abstract or not.
#[derive(Clone, Copy)]
pub(crate) struct Lookups {
    pub field: Option<Result<FieldNo, Reason>>,
    pub method: Option<Result<MethodNo, Reason>>,
    pub mismatched: bool,
    pub target: Option<MethodNo>,
}

/// What the references of the instruction give.
pub(crate) fn look_up(instruction: JudgedInstruction<'_>) -> Lookups
    requires { IsClassNumber instruction.program.now instruction.current.0 }
    ensures { AreLookups (judged instruction.entry) result }
{
    let field = field_outcome(instruction);
    let method = method_outcome(instruction);
    let mismatched = is_mismatched(instruction, field, method);
    let target = target_of(instruction, method, mismatched);
    Lookups {
        field,
        method,
        mismatched,
        target,
    }
}
