//! Laws of selection (JVMS 5.4.5, 6.5.invokevirtual, 6.5.invokeinterface, 6.5.invokespecial): a call in a program goes to
//! one method, or has one reason why to none.

ghost use Rattle.std.specs.Prelude.{◌≡◌, ℕ, Bool, List, Result};
ghost use Rattle.jvm_model.specs.declared.reason.Reason.{Reason};
ghost use Rattle.jvm_model.specs.Lookups.{MemberReference};
ghost use Rattle.jvm_model.specs.Programs.{Program};
ghost use Rattle.jvm_model.specs.Selection.{Selection, SpecialSelection};
ghost use Rattle.jvm_model.specs.LinkedPrograms.{IsProgram};

/// A call of a resolved method on an object of a class gives one target, or one reason.
pub fn one_selection()
    ensures { (p : Program) (by_interface : Bool) (class : List ℕ) (resolved : ℕ) (a b : Result ℕ Reason) → IsProgram p
        → Selection p by_interface class resolved a → Selection p by_interface class resolved b → a ≡ b }
{}

/// A special call from the code of a class gives one target, or one reason.
pub fn one_special_target()
    ensures { (p : Program) (current : List ℕ) (m : MemberReference) (a b : Result ℕ Reason) → IsProgram p
        → SpecialSelection p current m a → SpecialSelection p current m b → a ≡ b }
{}
