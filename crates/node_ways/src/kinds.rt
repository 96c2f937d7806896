//! Nodes that are calls, and nodes that throw.

ghost use Rattle.std.specs.Prelude.{◌≡◌, ℕ, MatchOption};
ghost use Rattle.op_model.specs.declared.op.Call.{Call as RuleCall};
ghost use Rattle.op_model.specs.declared.op.Op.TheVariants as operations;

use op_model::{Call, Op};

/// The call, if the operation is one.
pub fn call_of(op: &Op) -> Option<&Call>
    ensures { MatchOption result ((c : RuleCall) → op.now ≡ operations.Call c → ⊥) (λ call. op.now ≡ operations.Call call.now) }
{
    match op {
        Op::Call(call) => Some(call),
        Op::Assign(_) => None,
        Op::Load { .. } => None,
        Op::Store { .. } => None,
        Op::LoadElement { .. } => None,
        Op::StoreElement { .. } => None,
        Op::LoadStatic { .. } => None,
        Op::StoreStatic { .. } => None,
        Op::New { .. } => None,
        Op::NewArray { .. } => None,
        Op::Constant { .. } => None,
        Op::Return { .. } => None,
        Op::Throw { .. } => None,
        Op::Cast { .. } => None,
        Op::Probe { .. } => None,
    }
}

/// The slot that the operation throws, if it is a throw.
pub(crate) fn thrown_slot(op: &Op) -> Option<u32>
    ensures { MatchOption result ((slot : ℕ) → op.now ≡ operations.Throw slot → ⊥) (λ slot. op.now ≡ operations.Throw slot) }
{
    match op {
        Op::Throw { value } => Some(*value),
        Op::Assign(_) => None,
        Op::Load { .. } => None,
        Op::Store { .. } => None,
        Op::LoadElement { .. } => None,
        Op::StoreElement { .. } => None,
        Op::LoadStatic { .. } => None,
        Op::StoreStatic { .. } => None,
        Op::New { .. } => None,
        Op::NewArray { .. } => None,
        Op::Constant { .. } => None,
        Op::Call(_) => None,
        Op::Return { .. } => None,
        Op::Cast { .. } => None,
        Op::Probe { .. } => None,
    }
}
