//! Where the layers above get methods as nodes from.

ghost use Rattle.std.specs.Prelude.{◌≡◌, ℕ, IfOk, IfErr, Ok, Result};
ghost use Rattle.jvm_model.specs.declared.reason.Refusal.{Refusal};
ghost use Rattle.op_model.specs.declared.lowered.LoweredMethod.{LoweredMethod};
ghost use Rattle.op_model.specs.Supplies.{IsRefusalOf, IsSameSupply, IsServed};

use crate::lowered::LoweredMethod;
use failure::Failure;
use jvm_model::{MethodNo, Refusal};
use std::alloc::Global;

/// Why a method is not given as nodes: the first refusal of it, or out of memory.
pub type SupplyFailure = Failure<Refusal>;

/// A supplier of methods as nodes. Its meaning is fixed: each method that it serves is given as one thing, and always as that.
pub trait Supply {
    /// What the method of a number is given as: its nodes, or its first refusal.
    ghost gives: { Self → ℕ → Result LoweredMethod Refusal → Type 0 };

    /// The method as nodes. It fails with the method's refusal, just where it has one, and where memory runs out.
    fn lowered(&mut self, alloc: Global, method: MethodNo) -> Result<LoweredMethod, SupplyFailure>
        requires { IsServed (gives self.old) method.0 }
        ensures found { IfOk result (λ lowered. gives self.old method.0 (Ok lowered)) }
        ensures failed { IfErr result (IsRefusalOf (gives self.old method.0)) }
        ensures same { IsSameSupply (gives self.old) (gives self.new) };

    /// A method is given as one thing.
    ghost one_answer: { (s : Self) (method : ℕ) (a b : Result LoweredMethod Refusal) → gives s method a → gives s method b → a ≡ b };
}
