//! Laws of selection (JVMS 5.4.5, 6.5.invokevirtual, 6.5.invokeinterface, 6.5.invokespecial): a call in a program goes to a
//! method, or has a reason why to none.

ghost use Rattle.std.specs.Prelude.{◌≡◌, ◌⊎◌, ℕ, Bool, List, Result};
ghost use Rattle.jvm_model.specs.declared.reason.Reason.{Reason};
ghost use Rattle.jvm_model.specs.Lookups.{MemberReference};
ghost use Rattle.jvm_model.specs.Programs.{Program};
ghost use Rattle.jvm_model.specs.Selection.{Selection, SelectsSpecial, SpecialSelection};
ghost use Rattle.jvm_model.specs.LinkedPrograms.{IsProgram};

/// A call of a method on an object of a class gives a target, or a reason.
pub fn each_selection()
    ensures { (p : Program) (by_interface : Bool) (class : List ℕ) (resolved : ℕ) → IsProgram p
        → (outcome : Result ℕ Reason) × Selection p by_interface class resolved outcome }
{}

/// A special call from the code of a class gives a target, or a reason.
pub fn each_special_call()
    ensures { (p : Program) (current : List ℕ) (m : MemberReference) → IsProgram p
        → (outcome : Result ℕ Reason) × SpecialSelection p current m outcome }
{}

/// Whether a special call has a target, abstract or not, is decided: there is one, or none.
pub fn special_targets_are_decided()
    ensures { (p : Program) (current : List ℕ) (m : MemberReference) → IsProgram p
        → ((target : ℕ) × SelectsSpecial p current m target) ⊎ ((target : ℕ) → SelectsSpecial p current m target → ⊥) }
{}
