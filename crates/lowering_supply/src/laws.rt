//! Laws of what methods are given as: they call nothing, and stand on the definitions alone.

ghost use Rattle.std.specs.Prelude.{◌≡◌, ℕ, Result};
ghost use Rattle.jvm_model.specs.declared.reason.Refusal.{Refusal};
ghost use Rattle.jvm_model.specs.LinkedPrograms.{IsProgram};
ghost use Rattle.jvm_model.specs.Programs.{Program};
ghost use Rattle.op_model.specs.declared.lowered.LoweredMethod.{LoweredMethod};
ghost use Rattle.op_model.specs.Supplies.{Given, IsMapOf};
ghost use Rattle.lowering_supply.specs.Supplied.{IsSupplied};
ghost use Rattle.op_model.specs.Supplies.{IsCodedMethod};

/// A method is given as one thing.
pub fn one_answer()
    ensures { (p : Program) (number : ℕ) (a b : Result LoweredMethod Refusal) → IsSupplied p number a → IsSupplied p number b → a ≡ b }
{}

/// Each method of a class file that has code is given as something: its nodes, or its first refusal.
pub fn each_answer()
    ensures { (p : Program) (number : ℕ) → IsProgram p → IsCodedMethod p number
        → (answer : Result LoweredMethod Refusal) × IsSupplied p number answer }
{}

/// What the methods of a program are given as is a map.
pub fn is_map()
    ensures { (p : Program) → IsProgram p → (given : Given) × IsMapOf given (IsSupplied p) }
{}
